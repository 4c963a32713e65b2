// The interner at its limits: texts, bytes, numbers.
use fault::{Layer, Report, ServerFault, Word};
use std::process::Abort;
use std::test::Fail;
use symbol::Symbol;
use symbol::interner::Interner;

// A symbol's number, or what is told of a refusal.
pub(crate) type Reply = Result<u32, Report>;

pub(crate) fn told(reply: Result<Symbol, ServerFault>) -> Reply {
    reply.map(|symbol| symbol.number).map_err(Report::from)
}

pub(crate) const GARBLED: Report = Report {
    word: Word::Garbled,
    place: 0,
    layer: Layer::Servers,
};

const STALE: Report = Report {
    word: Word::Stale,
    ..GARBLED
};

pub(crate) const NUMBERED_OUT: Report = Report {
    word: Word::NumberedOut,
    ..GARBLED
};

pub(crate) const DECLINED: Report = Report {
    word: Word::Declined,
    ..GARBLED
};

const UNOPENED: Report = Report {
    word: Word::Unopened,
    ..GARBLED
};

pub(crate) const LAST: u32 = 4_294_967_295;

pub(crate) fn opened(base: u32) -> Result<Interner, Fail> {
    Interner::open(base).map_err(|_| Fail::new("the interner did not open"))
}

// Four digits for a number, so that different numbers below 10,000 have different texts.
fn digits(n: u32) -> [u8; 4] {
    [
        b'0' + (n / 1000 % 10) as u8,
        b'0' + (n / 100 % 10) as u8,
        b'0' + (n / 10 % 10) as u8,
        b'0' + (n % 10) as u8,
    ]
}

// Interns the texts of the numbers from 0 up to the count, each under its own number from the base on.
fn fill(rt: &impl Abort, interner: &mut Interner, base: u32, count: u32) {
    for n in 0..count {
        let reply = interner.intern(&digits(n));
        assert_eq!(rt; told(reply), Ok(base.saturating_add(n)));
    }
}

fn reads(interner: &Interner, number: u32, text: &[u8]) -> bool {
    interner
        .get(Symbol { number })
        .is_ok_and(|read| read == text)
}

fn stale(interner: &Interner, number: u32) -> bool {
    interner
        .get(Symbol { number })
        .is_err_and(|fault| Report::from(fault) == STALE)
}

#[test]
fn opens_with_a_base(rt: HostRuntime) -> Result<(), Fail> {
    let interner = opened(1)?;
    assert!(rt; interner.len() == 0);
    let Err(fault) = Interner::open(0) else {
        return Err(Fail::new("opened with the base 0"));
    };
    assert_eq!(rt; Report::from(fault), UNOPENED);
    Ok(())
}

// What is told of further texts once 1,023 are held.
const LAST_TEXTS: [(&[u8], Reply); 5] = [
    (b"the last", Ok(1024)),
    (b"one too many", Err(DECLINED)),
    (b"", Err(DECLINED)),
    (b"the last", Ok(1024)),
    (b"0000", Ok(1)),
];

#[test]
fn takes_1024_texts(rt: HostRuntime) -> Result<(), Fail> {
    let mut interner = opened(1)?;
    fill(&rt, &mut interner, 1, 1023);
    assert!(rt; interner.len() == 1023);
    for (text, expected) in LAST_TEXTS {
        assert_eq!(rt; told(interner.intern(text)), expected);
    }
    assert!(rt; interner.len() == 1024);
    assert!(rt; reads(&interner, 1024, b"the last"));
    assert!(rt; stale(&interner, 1025));
    Ok(())
}

#[test]
fn takes_1024_bytes(rt: HostRuntime) -> Result<(), Fail> {
    let mut interner = opened(7)?;
    let long = [b'x'; 1025];
    assert_eq!(rt; told(interner.intern(&long)), Err(DECLINED));
    assert_eq!(rt; told(interner.intern(&long[0..1024])), Ok(7));
    assert!(rt; reads(&interner, 7, &long[0..1024]));
    let mut garbled = [b'x'; 1025];
    garbled[1024] = 0x80;
    assert_eq!(rt; told(interner.intern(&garbled)), Err(GARBLED));
    Ok(())
}

// A text of 1,024 bytes, another for each number.
fn wide(n: u8) -> [u8; 1024] {
    let mut text = [b'y'; 1024];
    text[0] = n;
    text
}

// What is told of further texts once 32,767 bytes are held.
const LAST_BYTES: [(&[u8], Reply); 5] = [
    (b"ab", Err(DECLINED)),
    (b"a", Ok(33)),
    (b"b", Err(DECLINED)),
    (b"", Ok(34)),
    (b"a", Ok(33)),
];

#[test]
fn takes_32768_bytes_in_all(rt: HostRuntime) -> Result<(), Fail> {
    let mut interner = opened(1)?;
    for n in 0..31u8 {
        let reply = interner.intern(&wide(n));
        assert_eq!(rt; told(reply), Ok(n as u32 + 1));
    }
    let text = wide(31);
    assert_eq!(rt; told(interner.intern(&text[0..1023])), Ok(32));
    for (text, expected) in LAST_BYTES {
        assert_eq!(rt; told(interner.intern(text)), expected);
    }
    assert!(rt; reads(&interner, 34, b""));
    Ok(())
}

// What is told of texts where the base is the last number.
const LAST_NUMBER: [(&[u8], Reply); 5] = [
    (b"a", Ok(LAST)),
    (b"b", Err(NUMBERED_OUT)),
    (b"", Err(NUMBERED_OUT)),
    (b"\xff", Err(GARBLED)),
    (b"a", Ok(LAST)),
];

#[test]
fn gives_numbers_up_to_the_last(rt: HostRuntime) -> Result<(), Fail> {
    let mut interner = opened(LAST)?;
    for (text, expected) in LAST_NUMBER {
        assert_eq!(rt; told(interner.intern(text)), expected);
    }
    assert_eq!(rt; told(interner.intern(&[b'x'; 1025])), Err(DECLINED));
    assert!(rt; reads(&interner, LAST, b"a"));
    interner.clear();
    assert!(rt; stale(&interner, LAST));
    assert_eq!(rt; told(interner.intern(b"b")), Ok(LAST));
    Ok(())
}

// 1,024 texts up to the last number: no room comes before no number.
#[test]
fn declines_before_numbers_end(rt: HostRuntime) -> Result<(), Fail> {
    let base = LAST - 1023;
    let mut interner = opened(base)?;
    fill(&rt, &mut interner, base, 1024);
    assert_eq!(rt; told(interner.intern(b"one too many")), Err(DECLINED));
    assert_eq!(rt; told(interner.intern(b"1023")), Ok(LAST));
    Ok(())
}

// Two texts from the last number but one: the base stops at the last.
#[test]
fn clears_to_the_last_number(rt: HostRuntime) -> Result<(), Fail> {
    let mut interner = opened(LAST - 1)?;
    fill(&rt, &mut interner, LAST - 1, 2);
    interner.clear();
    assert!(rt; stale(&interner, LAST - 1));
    assert_eq!(rt; told(interner.intern(b"a")), Ok(LAST));
    assert_eq!(rt; told(interner.intern(b"b")), Err(NUMBERED_OUT));
    Ok(())
}

#[test]
fn clears(rt: HostRuntime) -> Result<(), Fail> {
    let mut interner = opened(5)?;
    fill(&rt, &mut interner, 5, 3);
    assert!(rt; stale(&interner, 4));
    assert!(rt; reads(&interner, 5, b"0000"));
    assert!(rt; reads(&interner, 7, b"0002"));
    assert!(rt; stale(&interner, 8));
    interner.clear();
    assert!(rt; interner.len() == 0);
    assert!(rt; stale(&interner, 5));
    assert!(rt; stale(&interner, 0));
    assert_eq!(rt; told(interner.intern(b"0002")), Ok(8));
    assert!(rt; reads(&interner, 8, b"0002"));
    assert!(rt; stale(&interner, 7));
    Ok(())
}
