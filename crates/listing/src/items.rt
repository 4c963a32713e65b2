// What the lines of a recording give, in their order.
ghost use Rattle.std.specs.Prelude.{◌≡◌, ◌+◌, ◌≤◌, map, length, IfOk, sum_by};
ghost use Rattle.std.specs.Option.{option_map, option_to_list};
ghost use Rattle.recording.specs.Format.{line_of};
ghost use Rattle.listing.specs.Cut.{Cut};
ghost use Rattle.listing.specs.Entries.{lines_of, is_value, value_entry, given, entries};
ghost use Rattle.listing.specs.Items.{entry_of, weight};
ghost use Rattle.listing.specs.Values.{value_at};

use super::value::{Value, read_value};
use fault::ByteFault;
use recording::{Kind, LineFault, ReadError, Recorded, read_line};
use std::alloc::{AllocError, Global};

/// A value that was read, with all the bytes of its line and how many of them were read.
#[derive(Drop)]
pub struct ReadValue {
    pub number: usize,
    pub kind: Kind,
    pub value: Value,
    pub bytes: Vec<u8>,
    pub read: usize,
}

/// A value whose bytes were refused.
#[derive(Clone, Copy)]
pub struct RefusedValue {
    pub number: usize,
    pub kind: Kind,
    pub fault: ByteFault,
}

/// A line that is no value.
#[derive(Clone, Copy)]
pub struct BadLine {
    pub line: usize,
    pub fault: LineFault,
}

/// What a line gives. Lines and values are numbered from 1; refused values count, and so do lines that are passed over.
#[derive(Drop)]
pub enum Item {
    Read(ReadValue),
    Refused(RefusedValue),
    Bad(BadLine),
}

impl Item {
    /// Whether it is a value, read or refused.
    pub fn is_value(&self) -> bool
        ensures { result ≡ is_value (entry_of self.now) }
    {
        matches!(self, Item::Read(_) | Item::Refused(_))
    }
}

// The value that a line holds.
fn value_item(number: usize, value: Recorded) -> Item
    ensures entry { entry_of result ≡ value_entry number value.kind value.bytes.items (value_at value.kind value.bytes.items) }
    ensures weight { weight (entry_of result) ≤ 2 + length value.bytes.items }
{
    let Recorded { kind, bytes } = value;
    match read_value(kind, bytes.as_slice()) {
        Ok((value, read)) => Item::Read(ReadValue {
            number,
            kind,
            value,
            bytes,
            read,
        }),
        Err(fault) => Item::Refused(RefusedValue {
            number,
            kind,
            fault,
        }),
    }
}

// What a line gives, where it has the number `place`, and the next value the number `number`.
fn read_item(
    heap: Global,
    line: &[u8],
    place: usize,
    number: usize,
) -> Result<Option<Item>, AllocError>
    ensures entry { IfOk result (λ o. option_to_list (option_map entry_of o) ≡ given place number (line_of line.now)) }
    ensures weight { IfOk result (λ o. sum_by weight (option_to_list (option_map entry_of o)) ≤ length line.now) }
{
    match read_line(heap, line) {
        Ok(None) => Ok(None),
        Ok(Some(value)) => Ok(Some(value_item(number, value))),
        Err(ReadError::Line(fault)) => Ok(Some(Item::Bad(BadLine { line: place, fault }))),
        Err(ReadError::Memory(refused)) => Err(refused),
    }
}

// What the lines of a file give. The empty one behind the last 0A is passed over as any empty line is.
#[tactic(auto, using(crate::proofs::Cuts::cut, crate::proofs::Reading::start))]
pub(crate) fn read_items(heap: Global, file: &[u8]) -> Result<Vec<Item>, AllocError>
    ensures entries { IfOk result (λ v. map entry_of v.items ≡ entries file.now) }
    ensures weight { IfOk result (λ v. sum_by weight (map entry_of v.items) ≤ length file.now) }
    ensures cut { Cut file.now (lines_of file.now) }
{
    let mut items = Vec::new(heap);
    // Counted by hand, since not every line is a value.
    let mut number = 1;
    for (i, line) in file.split(|b| *b == b'\n').enumerate() {
        // Asked here already, since a file of empty lines takes a fifth less time so.
        if line.is_empty() {
            continue;
        }
        let Some(item) = read_item(heap, line, i + 1, number)? else {
            continue;
        };
        if item.is_value() {
            number += 1;
        }
        items.push(item)?;
    }
    Ok(items)
}
