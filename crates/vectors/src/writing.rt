use super::{refused, report};
use buffer::buffer::Buffer;
use fault::{Layer, SessionFault, Word};
use rpc::{Handle, Text};
use std::process::Abort;
use std::test::Fail;
use token::kinds::{DelimSpan, Delimiter, LitKind};
use tree::{Group, Literal, TokenTree};
use wire::calls::{encode_literal, encode_tree};
use wire::encode;

const BRACES: &[u8] =
    b"\x00\x01\x00\x01\x00\x00\x00\x01\x00\x00\x00\x02\x00\x00\x00\x03\x00\x00\x00";

const FORTY_TWO: &[u8] = b"\x02\x02\x00\x00\x00\x00\x00\x00\x0042\x01\x01\x00\x00\x00";

fn braces(close: u32) -> TokenTree<Handle, Handle, Text> {
    let span = DelimSpan {
        open: Handle { number: 1 },
        close: Handle { number: close },
        entire: Handle { number: 3 },
    };
    TokenTree::Group(Group {
        delimiter: Delimiter::Brace,
        stream: Some(Handle { number: 1 }),
        span,
    })
}

fn literal(kind: LitKind, symbol: Text, suffix: Option<Text>) -> Literal<Handle, Text> {
    Literal {
        kind,
        symbol,
        suffix,
        span: Handle { number: 1 },
    }
}

fn served(rt: &impl Abort, sent: Result<usize, SessionFault>, count: usize) -> Result<(), Fail> {
    let Ok(wrote) = sent else {
        return Err(Fail::new("refused"));
    };
    assert_eq!(rt; wrote, count);
    Ok(())
}

#[test]
fn exact_bytes(rt: HostRuntime) -> Result<(), Fail> {
    let mut out = Buffer::with_room(rt.alloc(), 64)?;
    served(&rt, encode_tree(&braces(2), b"", &mut out), 19)?;
    assert_eq!(rt; out.as_slice(), BRACES);
    out.clear();
    let digits = Text {
        place: 1,
        length: 2,
    };
    let number = literal(LitKind::Integer, digits, None);
    served(&rt, encode_literal(&number, b"-42", &mut out), 16)?;
    assert_eq!(rt; out.as_slice(), FORTY_TWO);
    let a = Text {
        place: 0,
        length: 1,
    };
    let suffix = Text {
        place: 1,
        length: 2,
    };
    let raw = literal(LitKind::StrRaw(1), a, Some(suffix));
    served(&rt, encode_literal(&raw, b"au8", &mut out), 26)?;
    assert_eq!(rt; out.len(), 42);
    Ok(())
}

#[test]
fn exact_bytes_of_handles_and_symbols(rt: HostRuntime) -> Result<(), Fail> {
    let mut out = Buffer::with_room(rt.alloc(), 14)?;
    let handle = Handle { number: 258 };
    served(&rt, encode(&handle, b"", &mut out), 4)?;
    let symbol = Text {
        place: 1,
        length: 2,
    };
    served(&rt, encode(&symbol, b"-42", &mut out), 10)?;
    assert_eq!(rt;
        out.as_slice(),
        b"\x02\x01\x00\x00\x02\x00\x00\x00\x00\x00\x00\x0042".as_slice()
    );
    Ok(())
}

#[test]
fn exact_room(rt: HostRuntime) -> Result<(), Fail> {
    let mut out = Buffer::with_room(rt.alloc(), 22)?;
    let _ = out.extend_from_slice(b"abc");
    served(&rt, encode_tree(&braces(2), b"", &mut out), 19)?;
    assert_eq!(rt; out.free(), 0);
    let mut short = Buffer::with_room(rt.alloc(), 21)?;
    let _ = short.extend_from_slice(b"abc");
    refused(
        &rt,
        encode_tree(&braces(2), b"", &mut short),
        report(Word::Tight, 0, Layer::Session),
    )?;
    assert_eq!(rt; short.as_slice(), b"abc".as_slice());
    Ok(())
}

#[test]
fn refusals_in_order(rt: HostRuntime) -> Result<(), Fail> {
    let mut out = Buffer::with_room(rt.alloc(), 18)?;
    refused(
        &rt,
        encode_tree(&braces(0), b"", &mut out),
        report(Word::Zero, 11, Layer::Bytes),
    )?;
    let a = Text {
        place: 0,
        length: 1,
    };
    let outside = Text {
        place: 3,
        length: 1,
    };
    let garbled = Text {
        place: 1,
        length: 1,
    };
    let dead = literal(LitKind::Str, outside, None);
    refused(
        &rt,
        encode_literal(&dead, b"a\xff.", &mut out),
        report(Word::Stale, 9, Layer::Servers),
    )?;
    let mut both = literal(LitKind::CStrRaw(2), a, Some(garbled));
    both.span = Handle { number: 0 };
    refused(
        &rt,
        encode_literal(&both, b"a\xff.", &mut out),
        report(Word::Stale, 20, Layer::Servers),
    )?;
    both.suffix = None;
    refused(
        &rt,
        encode_literal(&both, b"a\xff.", &mut out),
        report(Word::Zero, 12, Layer::Bytes),
    )?;
    assert_eq!(rt; out.len(), 0);
    Ok(())
}
