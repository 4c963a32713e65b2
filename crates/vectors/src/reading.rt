use super::{refused, report};
use fault::{Layer, Word};
use rpc::{Decode, Handle, Reader, Text};
use std::test::Fail;
use token::kinds::Level;
use tree::{Literal, TokenTree};
use wire::calls::{decode_handle, decode_literal, decode_symbol, decode_tree};

type Tree = TokenTree<Handle, Handle, Text>;

// Input, word, place.
type Row = (&'static [u8], Word, u64);

const TREES: [Row; 17] = [
    (b"", Word::Short, 0),
    (b"\x04", Word::Tag, 0),
    (b"\xff", Word::Tag, 0),
    (b"\x00", Word::Short, 1),
    (b"\x00\x04", Word::Tag, 1),
    (b"\x00\x00\x02", Word::Tag, 2),
    (b"\x00\x00\x00\x05\x00\x00", Word::Short, 3),
    (b"\x00\x00\x00\x00\x00\x00\x00", Word::Zero, 3),
    (
        b"\x00\x00\x01\x01\x00\x00\x00\x00\x00\x00\x00",
        Word::Zero,
        7,
    ),
    (b"\x01\x2b\x02\x01\x00\x00\x00", Word::Tag, 2),
    (b"\x01\x2b\xff", Word::Tag, 2),
    (b"\x02\x01\x00\x00\x00\x00\x00\x00\x00", Word::Short, 9),
    (
        b"\x02\x02\x00\x00\x00\x00\x00\x00\x00\xc0\x80",
        Word::Garbled,
        9,
    ),
    (b"\x02\x01\x00\x00\x00\x00\x00\x00\x00a\x02", Word::Tag, 10),
    (b"\x02\xff\xff\xff\xff\xff\xff\xff\xffa", Word::Short, 9),
    (b"\x03\x0b", Word::Tag, 1),
    (b"\x03\x05", Word::Short, 2),
];

const LITERALS: [Row; 5] = [
    (b"\x0b", Word::Tag, 0),
    (b"\x04\x00\x00\x00", Word::Short, 1),
    (b"\x02\x00\x00\x00\x00\x00\x00\x00\x00\x02", Word::Tag, 9),
    (
        b"\x07\x09\x00\x00\x00\x00\x00\x00\x00\x00\x00\x01\x00\x00",
        Word::Short,
        11,
    ),
    (
        b"\x02\x00\x00\x00\x00\x00\x00\x00\x00\x01\x00\x00\x00\x00",
        Word::Zero,
        10,
    ),
];

#[test]
fn trees_are_refused(rt: HostRuntime) -> Result<(), Fail> {
    for (input, word, place) in TREES {
        refused(&rt, decode_tree(input), report(word, place, Layer::Bytes))?;
    }
    Ok(())
}

#[test]
fn other_values_are_refused(rt: HostRuntime) -> Result<(), Fail> {
    for (input, word, place) in LITERALS {
        refused(
            &rt,
            decode_literal(input),
            report(word, place, Layer::Bytes),
        )?;
    }
    let mut reader = Reader {
        bytes: b"\x04",
        at: 0,
    };
    refused(
        &rt,
        Level::decode(&mut reader),
        report(Word::Tag, 0, Layer::Bytes),
    )?;
    refused(
        &rt,
        decode_handle(b"\x01\x00\x00"),
        report(Word::Short, 0, Layer::Bytes),
    )?;
    refused(
        &rt,
        decode_handle(b"\x00\x00\x00\x00\x01"),
        report(Word::Zero, 0, Layer::Bytes),
    )?;
    refused(
        &rt,
        decode_symbol(b"\x03\x00\x00\x00\x00\x00\x00\x00\xed\xa0\x80"),
        report(Word::Garbled, 8, Layer::Bytes),
    )
}

#[test]
fn bytes_behind_stay_unread(rt: HostRuntime) -> Result<(), Fail> {
    let Ok((handle, read)) = decode_handle(b"\xff\xff\xff\xff\x07") else {
        return Err(Fail::new("a handle"));
    };
    assert_eq!(rt; (handle.number, read), (4_294_967_295, 4));
    let Ok((text, read)) = decode_symbol(b"\x02\x00\x00\x00\x00\x00\x00\x00\xc3\xa9\x00") else {
        return Err(Fail::new("a symbol"));
    };
    assert_eq!(rt; (text.place, text.length, read), (8, 2, 10));
    Ok(())
}
