// A recording: a text of values, one to a line, each by its kind, a space and its bytes in hexadecimal.
#![tactic(auto)]

ghost use Rattle.std.specs.Prelude.{◌≡◌, Some, IfOk, IfSome};
ghost use Rattle.recording.specs.declared.ReadError.TheVariants as error;
ghost use Rattle.recording.specs.Format.{digit_of, hex_length, kind_named, line_of, name_of, paired, value_behind, word_length};
ghost use Rattle.recording.specs.Written.{ReadsBack};
ghost use Rattle.recording.specs.Meaning.{Answers, meant, meant_value};

use std::alloc::{AllocError, Global};
use std::fmt;

/// What a recorded value is.
#[derive(Clone, Copy, Debug, PartialEq, Eq)]
pub enum Kind {
    Tree,
    Literal,
    Stream,
    Span,
    Symbol,
}

const KINDS: [Kind; 5] = [
    Kind::Tree,
    Kind::Literal,
    Kind::Stream,
    Kind::Span,
    Kind::Symbol,
];

impl Kind {
    /// The word that stands for the kind.
    pub fn name(self) -> &'static str
        ensures { result.now ≡ name_of self }
    {
        match self {
            Kind::Tree => "tree",
            Kind::Literal => "literal",
            Kind::Stream => "stream",
            Kind::Span => "span",
            Kind::Symbol => "symbol",
        }
    }
}

impl fmt::Display for Kind {
    ghost output = { λ kind. Some (name_of kind) };

    fn fmt<W: fmt::Write>(&self, f: &mut fmt::Formatter<W>) -> fmt::Result {
        f.write_str(self.name())
    }
}

/// What is wrong with a line.
#[derive(Clone, Copy, Debug, PartialEq, Eq)]
pub enum LineFault {
    /// Its first word is no kind.
    UnknownKind,
    /// Nothing stands behind the kind.
    NoBytes,
    /// The byte at this index is no lower-case hexadecimal digit.
    NotHex(usize),
    /// A digit is missing at the end.
    OddHex,
}

/// Why no value was read from a line.
#[derive(Clone, Copy, Debug, PartialEq, Eq)]
pub enum ReadError {
    Line(LineFault),
    Memory(AllocError),
}

impl From<LineFault> for ReadError {
    ghost from_gives = { λ fault e. e ≡ error.Line fault };

    fn from(fault: LineFault) -> ReadError {
        ReadError::Line(fault)
    }
}

impl From<AllocError> for ReadError {
    ghost from_gives = { λ refused e. e ≡ error.Memory refused };

    fn from(refused: AllocError) -> ReadError {
        ReadError::Memory(refused)
    }
}

/// A value as a line holds it.
#[derive(Debug, Drop, PartialEq, Eq)]
pub struct Recorded {
    pub kind: Kind,
    pub bytes: Vec<u8>,
}

// The kind that a word stands for. No `TryFrom`: what is wrong is the line, and a word alone has no error.
fn kind_of(word: &[u8]) -> Option<Kind>
    ensures { result ≡ kind_named word.now }
{
    KINDS
        .iter()
        .find(|kind| word == kind.name().as_bytes())
        .copied()
}

// How many bytes stand before the first space.
fn word_len(line: &[u8]) -> usize
    ensures { result ≡ word_length line.now }
{
    line.iter().position(|b| *b == b' ').unwrap_or(line.len())
}

// What a digit is worth.
fn digit_of(b: u8) -> Option<u8>
    ensures { result ≡ digit_of b }
{
    match b {
        b'0'..=b'9' => Some(b - b'0'),
        b'a'..=b'f' => Some(b - b'a' + 10),
        _ => None,
    }
}

// How many digits stand before the first byte that is none.
fn hex_len(text: &[u8]) -> usize
    ensures { result ≡ hex_length text.now }
{
    text.iter()
        .position(|b| digit_of(*b).is_none())
        .unwrap_or(text.len())
}

// The bytes that the digits spell, two digits to a byte.
fn decode(heap: Global, mut digits: &[u8]) -> Result<Vec<u8>, AllocError>
    ensures { IfOk result (λ v. v.items ≡ paired digits.now) }
{
    let mut bytes = Vec::new(heap);
    while let [high, low, rest @ ..] = digits {
        let high = digit_of(*high).unwrap_or(0);
        let low = digit_of(*low).unwrap_or(0);
        bytes.push(16 * high + low)?;
        digits = rest;
    }
    Ok(bytes)
}

// The value of a kind whose bytes stand in the line from an index on.
fn read_value(heap: Global, kind: Kind, line: &[u8], from: usize) -> Result<Recorded, ReadError>
    ensures { Answers (value_behind kind from line.now) (meant_value result) }
{
    if line.len() <= from {
        return Err(LineFault::NoBytes.into());
    }
    let text = &line[from..];
    if text == b".".as_slice() {
        let bytes = Vec::new(heap);
        return Ok(Recorded { kind, bytes });
    }
    let good = hex_len(text);
    if good < text.len() {
        return Err(LineFault::NotHex(from + good).into());
    }
    if text.len() % 2 == 1 {
        return Err(LineFault::OddHex.into());
    }
    let bytes = decode(heap, text)?;
    Ok(Recorded { kind, bytes })
}

/// Reads a line of a recording, `None` where it is blank or a comment; only a value's bytes can want memory.
#[tactic(auto, using(crate::proofs::Law::reads_back))]
pub fn read_line(heap: Global, line: &[u8]) -> Result<Option<Recorded>, ReadError>
    ensures meaning { Answers (line_of line.now) (meant result) }
    ensures written { IfSome (meant result) (ReadsBack line.now) }
{
    if line.is_empty() || line.starts_with(b"--") {
        return Ok(None);
    }
    let space = word_len(line);
    let kind = kind_of(&line[..space]).ok_or(LineFault::UnknownKind)?;
    let value = read_value(heap, kind, line, space + 1)?;
    Ok(Some(value))
}

#[cfg(test)]
mod tests {
    use super::*;
    use std::test::Fail;

    const VALUES: [(&[u8], Kind, &str, &[u8]); 6] = [
        (b"tree 00ff", Kind::Tree, "tree", b"\x00\xff"),
        (b"literal 7e", Kind::Literal, "literal", b"~"),
        (b"stream .", Kind::Stream, "stream", b""),
        (
            b"span 0123456789abcdef",
            Kind::Span,
            "span",
            b"\x01\x23\x45\x67\x89\xab\xcd\xef",
        ),
        (b"symbol 6869", Kind::Symbol, "symbol", b"hi"),
        (b"symbol .", Kind::Symbol, "symbol", b""),
    ];

    const PASSED: [&[u8]; 3] = [b"", b"--", b"-- tree 00"];

    const BAD: [(&[u8], LineFault); 15] = [
        (b"-", LineFault::UnknownKind),
        (b" tree 00", LineFault::UnknownKind),
        (b"trees 00", LineFault::UnknownKind),
        (b"Tree 00", LineFault::UnknownKind),
        (b"tree00", LineFault::UnknownKind),
        (b"tree", LineFault::NoBytes),
        (b"tree ", LineFault::NoBytes),
        (b"tree  00", LineFault::NotHex(5)),
        (b"tree 00 ", LineFault::NotHex(7)),
        (b"tree 0A", LineFault::NotHex(6)),
        (b"tree 0g0", LineFault::NotHex(6)),
        (b"tree ..", LineFault::NotHex(5)),
        (b"tree 00.", LineFault::NotHex(7)),
        (b"tree 0", LineFault::OddHex),
        (b"span 012", LineFault::OddHex),
    ];

    #[test]
    fn reads_values(rt: HostRuntime) -> Result<(), Fail> {
        for (line, kind, name, bytes) in VALUES {
            let Some(read) = read_line(rt.alloc(), line)? else {
                return Err(Fail::new(name));
            };
            assert_eq!(rt; (read.kind, read.bytes.as_slice()), (kind, bytes));
            assert_eq!(rt; format!(in rt.alloc(); "{kind}")?.as_str(), name);
        }
        Ok(())
    }

    #[test]
    fn tells_others(rt: HostRuntime) -> Result<(), Fail> {
        for line in PASSED {
            assert!(rt; read_line(rt.alloc(), line)?.is_none());
        }
        for (line, fault) in BAD {
            assert_eq!(rt; read_line(rt.alloc(), line), Err(ReadError::Line(fault)));
        }
        Ok(())
    }
}
