// UTF-8: a checker that reads a text byte by byte, by the grammar of RFC 3629.
#![tactic(auto)]

ghost use Rattle.std.specs.Prelude.{◌≡◌, Decides};
ghost use Rattle.text.specs.Grammar.{Octets, is_utf8};
ghost use Rattle.text.specs.Machine.{after, class_of, head_ones, head_zeros};

/// What the checker still awaits of the character that it reads.
#[derive(Clone, Copy)]
pub enum Awaits {
    /// A character's first byte: the text may end here.
    Start,
    /// One tail byte.
    One,
    /// Two tail bytes.
    Two,
    /// Three tail bytes.
    Three,
    /// A byte of A0 to BF, and one tail byte.
    PastE0,
    /// A byte of 80 to 9F, and one tail byte.
    PastEd,
    /// A byte of 90 to BF, and two tail bytes.
    PastF0,
    /// A byte of 80 to 8F, and two tail bytes.
    PastF4,
    /// Nothing: the text is not UTF-8, whatever follows.
    Broken,
}

/// What a byte can be in a character.
#[derive(Clone, Copy)]
pub enum ByteClass {
    /// The whole of it.
    Ascii,
    /// A tail byte of 80 to 8F.
    Tail80,
    /// A tail byte of 90 to 9F.
    Tail90,
    /// A tail byte of A0 to BF.
    TailA0,
    /// The first of two bytes.
    Lead2,
    /// E0, the first of three.
    LeadE0,
    /// The first of three bytes, with any tail.
    Lead3,
    /// ED, the first of three.
    LeadEd,
    /// F0, the first of four.
    LeadF0,
    /// The first of four bytes, with any tail.
    Lead4,
    /// F4, the first of four.
    LeadF4,
    /// In no character.
    Never,
}

/// How many one bits stand at the head of the byte.
pub fn head_ones(b: u8) -> u32
    ensures { result ≡ head_ones b }
{
    head_zeros(!b)
}

/// How many zero bits stand there.
fn head_zeros(b: u8) -> u32
    ensures { result ≡ head_zeros b }
{
    b.leading_zeros()
}

/// The class of a byte: a leading byte has as many one bits at its head as its character has bytes.
pub fn class_of(b: u8) -> ByteClass
    ensures { result ≡ class_of b }
{
    match head_ones(b) {
        0 => ByteClass::Ascii,
        1 => match b {
            0x80..=0x8f => ByteClass::Tail80,
            0x90..=0x9f => ByteClass::Tail90,
            _ => ByteClass::TailA0,
        },
        2 => {
            if b < 0xc2 {
                ByteClass::Never
            } else {
                ByteClass::Lead2
            }
        }
        3 => {
            if b == 0xe0 {
                ByteClass::LeadE0
            } else if b == 0xed {
                ByteClass::LeadEd
            } else {
                ByteClass::Lead3
            }
        }
        4 => match b {
            0xf0 => ByteClass::LeadF0,
            0xf1..=0xf3 => ByteClass::Lead4,
            0xf4 => ByteClass::LeadF4,
            _ => ByteClass::Never,
        },
        _ => ByteClass::Never,
    }
}

impl Awaits {
    /// Reads one byte, and awaits what that leaves.
    pub fn step(&mut self, b: u8)
        ensures { self.new ≡ after self.old (class_of b) }
    {
        *self = match (*self, class_of(b)) {
            (Awaits::Start, ByteClass::Ascii) => Awaits::Start,
            (Awaits::Start, ByteClass::Lead2) => Awaits::One,
            (Awaits::Start, ByteClass::LeadE0) => Awaits::PastE0,
            (Awaits::Start, ByteClass::Lead3) => Awaits::Two,
            (Awaits::Start, ByteClass::LeadEd) => Awaits::PastEd,
            (Awaits::Start, ByteClass::LeadF0) => Awaits::PastF0,
            (Awaits::Start, ByteClass::Lead4) => Awaits::Three,
            (Awaits::Start, ByteClass::LeadF4) => Awaits::PastF4,
            (Awaits::One, ByteClass::Tail80 | ByteClass::Tail90 | ByteClass::TailA0) =>
                Awaits::Start,
            (Awaits::Two, ByteClass::Tail80 | ByteClass::Tail90 | ByteClass::TailA0) => Awaits::One,
            (Awaits::Three, ByteClass::Tail80 | ByteClass::Tail90 | ByteClass::TailA0) =>
                Awaits::Two,
            (Awaits::PastE0, ByteClass::TailA0) => Awaits::One,
            (Awaits::PastEd, ByteClass::Tail80 | ByteClass::Tail90) => Awaits::One,
            (Awaits::PastF0, ByteClass::Tail90 | ByteClass::TailA0) => Awaits::Two,
            (Awaits::PastF4, ByteClass::Tail80) => Awaits::Two,
            _ => Awaits::Broken,
        };
    }
}

/// Whether the bytes are UTF-8, in one pass over them.
pub fn is_utf8(text: &[u8]) -> bool
    ensures test { result ≡ is_utf8 text.now }
    ensures language { Decides result (Octets text.now) }
{
    let mut state = Awaits::Start;
    for b in text {
        state.step(*b);
    }
    matches!(state, Awaits::Start)
}

#[cfg(test)]
mod tests {
    use super::*;

    // The first four are RFC 3629's own examples; its invalid forms are among the others.
    const TEXTS: [&[u8]; 11] = [
        b"\x41\xe2\x89\xa2\xce\x91\x2e",
        b"\xed\x95\x9c\xea\xb5\xad\xec\x96\xb4",
        b"\xe6\x97\xa5\xe6\x9c\xac\xe8\xaa\x9e",
        b"\xef\xbb\xbf\xf0\xa3\x8e\xb4",
        b"",
        b"\xc3\xa9",
        b"\xdf\xbf",
        b"\xe0\xa0\x80",
        b"\xef\xbf\xbf",
        b"\xf0\x90\x80\x80",
        b"\xf4\x8f\xbf\xbf",
    ];

    const OTHERS: [&[u8]; 13] = [
        b"\x80",
        b"\xc0\x80",
        b"\xc0\xae",
        b"\x2f\xc0\xae\x2e\x2f",
        b"\xed\xa1\x8c\xed\xbe\xb4",
        b"\xe0\x9f\xbf",
        b"\xe2\x89",
        b"\xed\xa0\x80",
        b"\xf0\x8f\xbf\xbf",
        b"\xf4\x90\x80\x80",
        b"\xf5\x80\x80\x80",
        b"\xf8\x88\x80\x80\x80",
        b"\xff",
    ];

    #[test]
    fn takes_texts(rt: HostRuntime) {
        for text in TEXTS {
            assert!(rt; is_utf8(text));
        }
    }

    #[test]
    fn refuses_others(rt: HostRuntime) {
        for text in OTHERS {
            assert!(rt; !is_utf8(text));
        }
    }
}
