// A list and its totals as text, one line to an item.
#![tactic(auto)]

ghost use Rattle.std.specs.Prelude.{◌≡◌};
ghost use Rattle.listing_text.specs.Names.{delimiter_name, literal_name, fault_name};

use fault::Report;
use listing::items::{BadLine, Item, ReadValue, RefusedValue};
use listing::totals::{Counts, Totals};
use listing::value::Value;
use recording::LineFault;
use rpc::{Handle, Text};
use std::fmt;
use std::str::from_utf8;
use token::kinds::*;
use tree::*;

// Functions and no `Display` of the types: these are the words of a list, where a raw kind's hashes stand apart.

// The word for a delimiter.
fn delimiter_name(delimiter: Delimiter) -> &'static str
    ensures { result.now ≡ delimiter_name delimiter }
{
    match delimiter {
        Delimiter::Parenthesis => "Parenthesis",
        Delimiter::Brace => "Brace",
        Delimiter::Bracket => "Bracket",
        Delimiter::None => "None",
    }
}

// The word for a literal's kind.
fn literal_name(kind: LitKind) -> &'static str
    ensures { result.now ≡ literal_name kind }
{
    match kind {
        LitKind::Byte => "Byte",
        LitKind::Char => "Char",
        LitKind::Integer => "Integer",
        LitKind::Float => "Float",
        LitKind::Str => "Str",
        LitKind::StrRaw(_) => "StrRaw",
        LitKind::ByteStr => "ByteStr",
        LitKind::ByteStrRaw(_) => "ByteStrRaw",
        LitKind::CStr => "CStr",
        LitKind::CStrRaw(_) => "CStrRaw",
        LitKind::ErrWithGuar => "ErrWithGuar",
    }
}

// What is wrong with a line.
fn fault_name(fault: LineFault) -> &'static str
    ensures { result.now ≡ fault_name fault }
{
    match fault {
        LineFault::UnknownKind => "unknown kind",
        LineFault::NoBytes => "no bytes",
        LineFault::NotHex(_) => "not hexadecimal",
        LineFault::OddHex => "odd hexadecimal",
    }
}

// A value or a part of it, with the bytes that its texts lie in.
#[derive(Clone, Copy)]
struct Shown<'a, T> {
    part: T,
    bytes: &'a [u8],
}

impl<'a, T> Shown<'a, T> {
    // Another part, with the same bytes.
    fn with<U>(&self, part: U) -> Shown<'a, U> {
        Shown {
            part,
            bytes: self.bytes,
        }
    }
}

// A text in quotes; one that does not lie in the bytes is shown empty.
impl fmt::Display for Shown<'_, Text> {
    fn fmt<W: fmt::Write>(&self, f: &mut fmt::Formatter<W>) -> fmt::Result {
        let piece = self.part.within(self.bytes).unwrap_or(&[]);
        let shown = from_utf8(piece).unwrap_or("");
        write!(f, "{shown:?}")
    }
}

impl fmt::Display for Shown<'_, &Literal<Handle, Text>> {
    fn fmt<W: fmt::Write>(&self, f: &mut fmt::Formatter<W>) -> fmt::Result {
        let literal = self.part;
        write!(f, "{} ", literal_name(literal.kind))?;
        if let Some(hashes) = literal.kind.hashes() {
            write!(f, "{hashes} ")?;
        }
        write!(f, "{}", self.with(literal.symbol))?;
        if let Some(suffix) = literal.suffix {
            write!(f, " suffix {}", self.with(suffix))?;
        }
        write!(f, " span {}", literal.span.number)
    }
}

impl fmt::Display for Shown<'_, &Group<Handle, Handle>> {
    fn fmt<W: fmt::Write>(&self, f: &mut fmt::Formatter<W>) -> fmt::Result {
        let group = self.part;
        write!(f, "Group {}", delimiter_name(group.delimiter))?;
        match group.stream {
            Some(Handle { number }) => write!(f, " stream {number}")?,
            None => write!(f, " no stream")?,
        }
        let open = group.span.open.number;
        let close = group.span.close.number;
        let entire = group.span.entire.number;
        write!(f, " spans {open} {close} {entire}")
    }
}

impl fmt::Display for Shown<'_, &Punct<Handle>> {
    fn fmt<W: fmt::Write>(&self, f: &mut fmt::Formatter<W>) -> fmt::Result {
        match self.part.ch {
            ch @ 0x20..=0x7e => write!(f, "Punct '{}'", char::from(ch))?,
            ch => write!(f, "Punct '\\x{ch:02x}'")?,
        }
        let joint = if self.part.joint { "joint" } else { "alone" };
        write!(f, " {joint} span {}", self.part.span.number)
    }
}

impl fmt::Display for Shown<'_, &Ident<Handle, Text>> {
    fn fmt<W: fmt::Write>(&self, f: &mut fmt::Formatter<W>) -> fmt::Result {
        let name = self.with(self.part.sym);
        let raw = if self.part.is_raw { " raw" } else { "" };
        write!(f, "Ident {name}{raw} span {}", self.part.span.number)
    }
}

impl fmt::Display for Shown<'_, &Value> {
    fn fmt<W: fmt::Write>(&self, f: &mut fmt::Formatter<W>) -> fmt::Result {
        match self.part {
            Value::Tree(TokenTree::Group(group)) => write!(f, "{}", self.with(group)),
            Value::Tree(TokenTree::Punct(punct)) => write!(f, "{}", self.with(punct)),
            Value::Tree(TokenTree::Ident(ident)) => write!(f, "{}", self.with(ident)),
            Value::Tree(TokenTree::Literal(literal)) => write!(f, "Literal {}", self.with(literal)),
            Value::Literal(literal) => write!(f, "{}", self.with(literal)),
            Value::Stream(Handle { number }) | Value::Span(Handle { number }) => {
                write!(f, "{number}")
            }
            Value::Symbol(text) => write!(f, "{}", self.with(*text)),
        }
    }
}

#[derive(Clone, Copy)]
struct ReadLine<'a>(&'a ReadValue);

impl fmt::Display for ReadLine<'_> {
    fn fmt<W: fmt::Write>(&self, f: &mut fmt::Formatter<W>) -> fmt::Result {
        let ReadValue {
            number,
            kind,
            value,
            bytes,
            read,
        } = self.0;
        let shown = Shown {
            part: value,
            bytes: bytes.as_slice(),
        };
        write!(f, "{number} {kind} {shown} read {read}")?;
        match bytes.len().saturating_sub(*read) {
            0 => Ok(()),
            unread => write!(f, " unread {unread}"),
        }
    }
}

#[derive(Clone, Copy)]
struct RefusedLine<'a>(&'a RefusedValue);

impl fmt::Display for RefusedLine<'_> {
    fn fmt<W: fmt::Write>(&self, f: &mut fmt::Formatter<W>) -> fmt::Result {
        let RefusedValue {
            number,
            kind,
            fault,
        } = self.0;
        let Report { word, place, layer } = Report::from(*fault);
        write!(f, "{number} {kind} refused {word} {} ", word.number())?;
        write!(f, "place {place} layer {}", layer.number())
    }
}

#[derive(Clone, Copy)]
struct FaultLine<'a>(&'a BadLine);

impl fmt::Display for FaultLine<'_> {
    fn fmt<W: fmt::Write>(&self, f: &mut fmt::Formatter<W>) -> fmt::Result {
        let BadLine { line, fault } = self.0;
        write!(f, "line {line} bad: {}", fault_name(*fault))?;
        match fault {
            LineFault::NotHex(place) => write!(f, " at {place}"),
            _ => Ok(()),
        }
    }
}

/// An item as a line, without its end.
#[derive(Clone, Copy)]
pub struct ItemLine<'a>(pub &'a Item);

impl fmt::Display for ItemLine<'_> {
    fn fmt<W: fmt::Write>(&self, f: &mut fmt::Formatter<W>) -> fmt::Result {
        match self.0 {
            Item::Read(value) => write!(f, "{}", ReadLine(value)),
            Item::Refused(value) => write!(f, "{}", RefusedLine(value)),
            Item::Bad(line) => write!(f, "{}", FaultLine(line)),
        }
    }
}

/// The totals as five lines, the last without its end.
#[derive(Clone, Copy)]
pub struct TotalsLines(pub Totals);

impl fmt::Display for TotalsLines {
    fn fmt<W: fmt::Write>(&self, f: &mut fmt::Formatter<W>) -> fmt::Result {
        let Counts {
            trees,
            literals,
            streams,
            spans,
            symbols,
            texts,
            bytes,
            refused,
            bad_lines,
        } = self.0.counts;
        write!(f, "trees {trees} literals {literals} ")?;
        writeln!(f, "streams {streams} spans {spans} symbols {symbols}")?;
        let streams = self.0.distinct_streams;
        let spans = self.0.distinct_spans;
        writeln!(f, "texts {texts}")?;
        writeln!(f, "distinct streams {streams} spans {spans}")?;
        writeln!(f, "bytes {bytes}")?;
        write!(f, "refused {refused} bad lines {bad_lines}")
    }
}
