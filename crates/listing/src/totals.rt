// The totals of a list: how many values of each kind, texts, handles and bytes.
ghost use Rattle.std.specs.Prelude.{◌≡◌, ℕ, ◌^◌, ◌<◌, List, [], ◌∷◌, map, IfOk, sum_by, OnOk};
ghost use Rattle.std.specs.List.{flat_map};
ghost use Rattle.std.specs.Option.{option_map, option_to_list};
ghost use Rattle.listing.specs.Handles.{Different, Noted};
ghost use Rattle.listing.specs.Items.{entry_of, weight};
ghost use Rattle.listing.specs.Tally.{literal_texts, texts_in, streams_in, group_spans, spans_in, streams_of, spans_of, added, Small, value_counts, counts_of, totals_of};

use super::items::Item;
use super::value::Value;
use recording::Kind;
use rpc::{Handle, Text};
use std::alloc::{AllocError, Global};
use std::collections::BTreeSet;
use token::kinds::DelimSpan;
use tree::{Literal, TokenTree};

/// How many values of each kind were read, how many texts they hold, how many bytes they took, and what was not read.
#[derive(Clone, Copy, Default)]
pub struct Counts {
    pub trees: usize,
    pub literals: usize,
    pub streams: usize,
    pub spans: usize,
    pub symbols: usize,
    pub texts: usize,
    pub bytes: usize,
    pub refused: usize,
    pub bad_lines: usize,
}

/// The counts, and how many different handles the values that were read name.
#[derive(Clone, Copy)]
pub struct Totals {
    pub counts: Counts,
    pub distinct_streams: usize,
    pub distinct_spans: usize,
}

// A literal's own text, and its suffix.
fn literal_texts(literal: &Literal<Handle, Text>) -> usize
    ensures { result ≡ literal_texts literal.now }
{
    if literal.suffix.is_some() { 2 } else { 1 }
}

// How many texts a value holds.
fn texts_in(value: &Value) -> usize
    ensures { result ≡ texts_in value.now }
{
    match value {
        Value::Tree(TokenTree::Literal(literal)) | Value::Literal(literal) => {
            literal_texts(literal)
        }
        Value::Tree(TokenTree::Ident(_)) | Value::Symbol(_) => 1,
        Value::Tree(TokenTree::Group(_) | TokenTree::Punct(_))
        | Value::Stream(_)
        | Value::Span(_) => 0,
    }
}

// The counts of one value.
fn value_counts(kind: Kind, texts: usize, bytes: usize) -> Counts
    ensures { result ≡ value_counts kind texts bytes }
{
    let mut counts = Counts {
        texts,
        bytes,
        ..Counts::default()
    };
    match kind {
        Kind::Tree => counts.trees = 1,
        Kind::Literal => counts.literals = 1,
        Kind::Stream => counts.streams = 1,
        Kind::Span => counts.spans = 1,
        Kind::Symbol => counts.symbols = 1,
    }
    counts
}

// The counts of one item.
fn counts_of(item: &Item) -> Counts
    ensures { result ≡ counts_of (entry_of item.now) }
{
    match item {
        Item::Read(value) => value_counts(value.kind, texts_in(&value.value), value.read),
        Item::Refused(_) => Counts {
            refused: 1,
            ..Counts::default()
        },
        Item::Bad(_) => Counts {
            bad_lines: 1,
            ..Counts::default()
        },
    }
}

impl Counts {
    // A method and no `AddAssign`, whose precondition would be public.
    fn add(&mut self, more: Counts)
        requires { Small (added self.old more) }
        ensures { self.new ≡ added self.old more }
    {
        self.trees += more.trees;
        self.literals += more.literals;
        self.streams += more.streams;
        self.spans += more.spans;
        self.symbols += more.symbols;
        self.texts += more.texts;
        self.bytes += more.bytes;
        self.refused += more.refused;
        self.bad_lines += more.bad_lines;
    }
}

// The stream that a value is or has.
fn stream_of(value: &Value) -> Option<Handle>
    ensures { option_to_list (option_map (λ h. h.number) result) ≡ streams_in value.now }
{
    match value {
        Value::Tree(TokenTree::Group(group)) => group.stream,
        Value::Stream(stream) => Some(*stream),
        _ => None,
    }
}

// Puts a handle into a set.
fn note(set: &mut BTreeSet<u32>, handle: Handle) -> Result<(), AllocError>
    ensures { OnOk result (Noted set.old set.new (handle.number ∷ [])) }
{
    set.insert(handle.number)?;
    Ok(())
}

// Puts the three spans of a group into a set.
fn note_group(span: &DelimSpan<Handle>, spans: &mut BTreeSet<u32>) -> Result<(), AllocError>
    ensures { OnOk result (Noted spans.old spans.new (group_spans span.now)) }
{
    note(spans, span.open)?;
    note(spans, span.close)?;
    note(spans, span.entire)
}

// Puts the spans of a value into a set.
fn note_spans(value: &Value, spans: &mut BTreeSet<u32>) -> Result<(), AllocError>
    ensures { OnOk result (Noted spans.old spans.new (spans_in value.now)) }
{
    match value {
        Value::Tree(TokenTree::Group(group)) => note_group(&group.span, spans),
        Value::Tree(TokenTree::Punct(punct)) => note(spans, punct.span),
        Value::Tree(TokenTree::Ident(ident)) => note(spans, ident.span),
        Value::Tree(TokenTree::Literal(literal)) | Value::Literal(literal) => {
            note(spans, literal.span)
        }
        Value::Span(span) => note(spans, *span),
        Value::Stream(_) | Value::Symbol(_) => Ok(()),
    }
}

// Puts the handles of an item into the sets.
fn note_item(
    item: &Item,
    streams: &mut BTreeSet<u32>,
    spans: &mut BTreeSet<u32>,
) -> Result<(), AllocError>
    ensures streams { OnOk result (Noted streams.old streams.new (streams_of (entry_of item.now))) }
    ensures spans { OnOk result (Noted spans.old spans.new (spans_of (entry_of item.now))) }
{
    let Item::Read(read) = item else {
        return Ok(());
    };
    if let Some(stream) = stream_of(&read.value) {
        note(streams, stream)?;
    }
    note_spans(&read.value, spans)
}

// The totals of items that are light enough for their sums to fit.
pub(crate) fn tally(heap: Global, items: &[Item]) -> Result<Totals, AllocError>
    requires { sum_by weight (map entry_of items.now) < 2 ^ 64 }
    ensures totals { IfOk result (λ t. t ≡ totals_of (map entry_of items.now)) }
    ensures streams { IfOk result (λ t. Different (flat_map streams_of (map entry_of items.now)) t.distinct_streams) }
    ensures spans { IfOk result (λ t. Different (flat_map spans_of (map entry_of items.now)) t.distinct_spans) }
{
    let mut counts = Counts::default();
    let mut streams = BTreeSet::new(heap);
    let mut spans = BTreeSet::new(heap);
    for item in items {
        counts.add(counts_of(item));
        note_item(item, &mut streams, &mut spans)?;
    }
    Ok(Totals {
        counts,
        distinct_streams: streams.len(),
        distinct_spans: spans.len(),
    })
}
