// Names made into symbols: the order of the refusals.
use crate::interning::{DECLINED, GARBLED, LAST, NUMBERED_OUT, Reply, opened, told};
use fault::{Report, Word};
use std::test::Fail;
use symbol::Symbol;
use symbol::interner::Interner;

const NAME: Report = Report {
    word: Word::Name,
    ..GARBLED
};

const RAW: Report = Report {
    word: Word::Raw,
    ..GARBLED
};

const HOSTS: Report = Report {
    word: Word::Hosts,
    ..GARBLED
};

// Each name, whether it is raw, and what is told of it, one after the other from the base 1 on.
const NAMES: [(&[u8], bool, Reply); 16] = [
    (b"role", false, Ok(1)),
    (b"role", true, Ok(1)),
    (b"_", false, Ok(2)),
    (b"self", false, Ok(3)),
    (b"$crate", false, Ok(4)),
    (b"_9", true, Ok(5)),
    (b"_", true, Err(RAW)),
    (b"self", true, Err(RAW)),
    (b"$crate", true, Err(RAW)),
    (b"$role", false, Err(NAME)),
    (b"", false, Err(NAME)),
    (b"9", true, Err(NAME)),
    (b"a-b", false, Err(NAME)),
    (b"1\xc3\xa9", false, Err(HOSTS)),
    (b"\xc3\xa9", true, Err(HOSTS)),
    (b"\xc3", true, Err(GARBLED)),
];

fn named(interner: &mut Interner, text: &[u8], is_raw: bool) -> Reply {
    told(Symbol::new_ident(interner, text, is_raw))
}

#[test]
fn names_in_order(rt: HostRuntime) -> Result<(), Fail> {
    let mut interner = opened(1)?;
    for (text, is_raw, expected) in NAMES {
        assert_eq!(rt; named(&mut interner, text, is_raw), expected);
    }
    assert!(rt; interner.len() == 5);
    Ok(())
}

#[test]
fn declines_long_names(rt: HostRuntime) -> Result<(), Fail> {
    let mut interner = opened(1)?;
    let mut long = [b'x'; 1026];
    assert_eq!(rt; named(&mut interner, &long, false), Err(DECLINED));
    assert_eq!(rt; named(&mut interner, &long[0..1024], true), Ok(1));
    long[1024] = b' ';
    assert_eq!(rt; named(&mut interner, &long, false), Err(NAME));
    long[1024] = 0xc3;
    long[1025] = 0xa9;
    assert_eq!(rt; named(&mut interner, &long, true), Err(HOSTS));
    Ok(())
}

#[test]
fn refuses_raw_names_before_numbers(rt: HostRuntime) -> Result<(), Fail> {
    let mut interner = opened(LAST)?;
    assert_eq!(rt; named(&mut interner, b"a", false), Ok(LAST));
    assert_eq!(rt; named(&mut interner, b"self", true), Err(RAW));
    assert_eq!(rt; named(&mut interner, b"self", false), Err(NUMBERED_OUT));
    Ok(())
}
