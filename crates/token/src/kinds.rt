// The small types of a tree: plain copied records.
ghost use Rattle.std.specs.Prelude.{◌≡◌};
ghost use Rattle.token.specs.Tags.{delimiter_tag, delimiter_tagged, level_tag, level_tagged, lit_kind_tag, lit_kind_hashes};

// A tag that stands for no value.
#[derive(Clone, Copy)]
pub struct UnknownTag;

#[derive(Clone, Copy)]
pub enum Delimiter {
    Parenthesis = 0,
    Brace = 1,
    Bracket = 2,
    None = 3,
}

impl Delimiter {
    pub fn tag(self) -> u8
        ensures { result ≡ delimiter_tag self }
    {
        // the delimiter's discriminant
        self as u8
    }
}

impl TryFrom<u8> for Delimiter {
    type Error = UnknownTag;

    ghost try_from_gives = { λ tag r. r ≡ delimiter_tagged tag };

    fn try_from(tag: u8) -> Result<Delimiter, UnknownTag> {
        match tag {
            0 => Ok(Delimiter::Parenthesis),
            1 => Ok(Delimiter::Brace),
            2 => Ok(Delimiter::Bracket),
            3 => Ok(Delimiter::None),
            _ => Err(UnknownTag),
        }
    }
}

// How grave a diagnostic is.
#[derive(Clone, Copy)]
pub enum Level {
    Error = 0,
    Warning = 1,
    Note = 2,
    Help = 3,
}

// As for `Delimiter`: tables of other values, and no rule to share.
impl Level {
    pub fn tag(self) -> u8
        ensures { result ≡ level_tag self }
    {
        // the level's discriminant
        self as u8
    }
}

impl TryFrom<u8> for Level {
    type Error = UnknownTag;

    ghost try_from_gives = { λ tag r. r ≡ level_tagged tag };

    fn try_from(tag: u8) -> Result<Level, UnknownTag> {
        match tag {
            0 => Ok(Level::Error),
            1 => Ok(Level::Warning),
            2 => Ok(Level::Note),
            3 => Ok(Level::Help),
            _ => Err(UnknownTag),
        }
    }
}

// What a literal is; the raw kinds have the number of their hashes.
#[derive(Clone, Copy)]
pub enum LitKind {
    Byte,
    Char,
    Integer,
    Float,
    Str,
    StrRaw(u8),
    ByteStr,
    ByteStrRaw(u8),
    CStr,
    CStrRaw(u8),
    ErrWithGuar,
}

impl LitKind {
    // A match, since no enum with fields in its variants takes numbers.
    pub fn tag(self) -> u8
        ensures { result ≡ lit_kind_tag self }
    {
        match self {
            LitKind::Byte => 0,
            LitKind::Char => 1,
            LitKind::Integer => 2,
            LitKind::Float => 3,
            LitKind::Str => 4,
            LitKind::StrRaw(_) => 5,
            LitKind::ByteStr => 6,
            LitKind::ByteStrRaw(_) => 7,
            LitKind::CStr => 8,
            LitKind::CStrRaw(_) => 9,
            LitKind::ErrWithGuar => 10,
        }
    }

    // The number of hashes of a raw kind.
    pub fn hashes(self) -> Option<u8>
        ensures { result ≡ lit_kind_hashes self }
    {
        match self {
            LitKind::StrRaw(hashes) | LitKind::ByteStrRaw(hashes) | LitKind::CStrRaw(hashes) =>
                Some(hashes),
            _ => None,
        }
    }
}

#[derive(Clone, Copy)]
pub struct DelimSpan<Span> {
    pub open: Span,
    pub close: Span,
    pub entire: Span,
}
