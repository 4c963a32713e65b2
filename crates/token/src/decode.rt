// Reading delimiters, levels, literal kinds and a Group's spans.
ghost use Rattle.std.specs.Prelude.{◌≡◌};
ghost use Rattle.token.specs.Reads.{delimiter_at, level_at, lit_kind_at, delim_span_at};

use super::kinds::*;
use fault::{ByteFault, ByteWord};
use rpc::{Decode, Reader};

impl Decode for Delimiter {
    ghost reads = { delimiter_at };

    fn decode(reader: &mut Reader<'_>) -> Result<Delimiter, ByteFault> {
        let at = reader.at;
        let tag = u8::decode(reader)?;
        Delimiter::try_from(tag).or(Err(ByteWord::Tag.at(at)))
    }
}

// Three lines as for `Delimiter`: a trait of tagged values would want its list of values, a law and two impls for them.
impl Decode for Level {
    ghost reads = { level_at };

    fn decode(reader: &mut Reader<'_>) -> Result<Level, ByteFault> {
        let at = reader.at;
        let tag = u8::decode(reader)?;
        Level::try_from(tag).or(Err(ByteWord::Tag.at(at)))
    }
}

impl Decode for LitKind {
    ghost reads = { lit_kind_at };

    fn decode(reader: &mut Reader<'_>) -> Result<LitKind, ByteFault> {
        let at = reader.at;
        match u8::decode(reader)? {
            0 => Ok(LitKind::Byte),
            1 => Ok(LitKind::Char),
            2 => Ok(LitKind::Integer),
            3 => Ok(LitKind::Float),
            4 => Ok(LitKind::Str),
            5 => Ok(LitKind::StrRaw(u8::decode(reader)?)),
            6 => Ok(LitKind::ByteStr),
            7 => Ok(LitKind::ByteStrRaw(u8::decode(reader)?)),
            8 => Ok(LitKind::CStr),
            9 => Ok(LitKind::CStrRaw(u8::decode(reader)?)),
            10 => Ok(LitKind::ErrWithGuar),
            _ => Err(ByteWord::Tag.at(at)),
        }
    }
}

impl<Span: Decode + Copy> Decode for DelimSpan<Span> {
    ghost reads = { delim_span_at Span.Decode.reads };

    fn decode(reader: &mut Reader<'_>) -> Result<DelimSpan<Span>, ByteFault> {
        Ok(DelimSpan {
            open: Span::decode(reader)?,
            close: Span::decode(reader)?,
            entire: Span::decode(reader)?,
        })
    }
}
