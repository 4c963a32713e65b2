// Identifiers in ASCII: what each byte is in one, which texts are identifiers, and which can be raw.
#![tactic(auto)]

ghost use Rattle.std.specs.Prelude.{◌≡◌};
ghost use Rattle.ident.specs.Classes.{begins, continues, ident_class};
ghost use Rattle.ident.specs.Idents.{can_be_raw, ident_reply, is_ident};

use fault::{ServerFault, ServerWord};

/// What a byte is in an identifier.
#[derive(Clone, Copy, PartialEq, Eq)]
pub enum IdentClass {
    Letter,
    Digit,
    Underscore,
    Other,
}

const L: IdentClass = IdentClass::Letter;

const D: IdentClass = IdentClass::Digit;

const U: IdentClass = IdentClass::Underscore;

const O: IdentClass = IdentClass::Other;

// The class of each byte.
static CLASSES: [IdentClass; 256] = [
    O, O, O, O, O, O, O, O, O, O, O, O, O, O, O, O, O, O, O, O, O, O, O, O, O, O, O, O, O, O, O, O,
    O, O, O, O, O, O, O, O, O, O, O, O, O, O, O, O, D, D, D, D, D, D, D, D, D, D, O, O, O, O, O, O,
    O, L, L, L, L, L, L, L, L, L, L, L, L, L, L, L, L, L, L, L, L, L, L, L, L, L, L, O, O, O, O, U,
    O, L, L, L, L, L, L, L, L, L, L, L, L, L, L, L, L, L, L, L, L, L, L, L, L, L, L, O, O, O, O, O,
    O, O, O, O, O, O, O, O, O, O, O, O, O, O, O, O, O, O, O, O, O, O, O, O, O, O, O, O, O, O, O, O,
    O, O, O, O, O, O, O, O, O, O, O, O, O, O, O, O, O, O, O, O, O, O, O, O, O, O, O, O, O, O, O, O,
    O, O, O, O, O, O, O, O, O, O, O, O, O, O, O, O, O, O, O, O, O, O, O, O, O, O, O, O, O, O, O, O,
    O, O, O, O, O, O, O, O, O, O, O, O, O, O, O, O, O, O, O, O, O, O, O, O, O, O, O, O, O, O, O, O,
];

// The words that cannot be raw.
static NEVER_RAW: [&[u8]; 6] = [b"_", b"super", b"self", b"Self", b"crate", b"$crate"];

/// The class of a byte.
pub fn ident_class(b: u8) -> IdentClass
    ensures { result ≡ ident_class b }
{
    CLASSES[b as usize]
}

impl IdentClass {
    // Whether an identifier can begin with a byte of the class.
    fn can_begin(self) -> bool
        ensures { result ≡ begins self }
    {
        matches!(self, IdentClass::Letter | IdentClass::Underscore)
    }

    // Whether a byte of the class can stand behind an identifier's first byte.
    fn can_follow(self) -> bool
        ensures { result ≡ continues self }
    {
        self != IdentClass::Other
    }
}

/// Whether the bytes are an identifier: a letter or an underscore, and then letters, digits and underscores.
#[tactic(auto, using(crate::proofs::Words::accepted, crate::proofs::Words::rejected))]
pub fn is_valid_ascii_ident(bytes: &[u8]) -> bool
    ensures { result ≡ is_ident bytes.now }
{
    let [first, rest @ ..] = bytes else {
        return false;
    };
    if !ident_class(*first).can_begin() {
        return false;
    }
    // A `for` with its invariant, by a rule of the project (docs/DECISIONS.md, Forms); hence no `all`.
    for b in rest {
        if !ident_class(*b).can_follow() {
            return false;
        }
    }
    true
}

/// Whether the text can be a raw identifier.
pub fn can_be_raw(text: &[u8]) -> bool
    ensures { result ≡ can_be_raw text.now }
{
    !NEVER_RAW.iter().any(|word| *word == text)
}

/// Takes an identifier and `$crate`, but no raw one that cannot be raw. Any other text is no name if it
/// is ASCII, and the host's to judge if it is not. Whether it is UTF-8 is not asked here.
#[tactic(auto, using(crate::proofs::Ascii::told))]
pub fn check_ident(text: &[u8], is_raw: bool) -> Result<(), ServerFault>
    ensures { result ≡ ident_reply is_raw text.now }
{
    if is_valid_ascii_ident(text) || text == b"$crate".as_slice() {
        if is_raw && !can_be_raw(text) {
            return Err(ServerWord::Raw.at(0));
        }
        return Ok(());
    }
    if text.is_ascii() {
        Err(ServerWord::Name.at(0))
    } else {
        Err(ServerWord::Hosts.at(0))
    }
}

#[cfg(test)]
mod tests {
    use super::*;
    use fault::{Report, Word};

    const IDENTS: [&[u8]; 5] = [b"a", b"_", b"_9", b"Abc_1", b"AZaz09"];

    // Among them the bytes beside the letters and the digits.
    const OTHERS: [&[u8]; 10] = [
        b"", b"9a", b"a-b", b"a b", b"a@", b"a[", b"a`", b"a{", b"a/", b"a:",
    ];

    const REPLIES: [(&[u8], bool, Word); 13] = [
        (b"a", true, Word::Served),
        (b"self", false, Word::Served),
        (b"$crate", false, Word::Served),
        (b"_", true, Word::Raw),
        (b"super", true, Word::Raw),
        (b"self", true, Word::Raw),
        (b"Self", true, Word::Raw),
        (b"crate", true, Word::Raw),
        (b"$crate", true, Word::Raw),
        (b"", false, Word::Name),
        (b"9a", true, Word::Name),
        (b"\xc3\xa9", false, Word::Hosts),
        (b"1\xc3\xa9", true, Word::Hosts),
    ];

    fn told(reply: Result<(), ServerFault>) -> Word {
        match reply {
            Ok(()) => Word::Served,
            Err(fault) => Report::from(fault).word,
        }
    }

    #[test]
    fn tells_identifiers(rt: HostRuntime) {
        for text in IDENTS {
            assert!(rt; is_valid_ascii_ident(text));
        }
        for text in OTHERS {
            assert!(rt; !is_valid_ascii_ident(text));
        }
    }

    #[test]
    fn replies_to_texts(rt: HostRuntime) {
        for (text, is_raw, word) in REPLIES {
            assert_eq!(rt; told(check_ident(text, is_raw)), word);
        }
    }
}
