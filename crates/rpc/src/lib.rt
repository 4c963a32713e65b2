// The fields of the wire: read at an offset, and written behind what a buffer holds.
#![tactic(auto)]

ghost use Rattle.std.specs.Prelude.{◌≡◌, ℕ, List, [], ◌∷◌, take, drop, Result};
ghost use Rattle.std.specs.Option.{option_map};
ghost use Rattle.std.specs.Result.{result_map_both};
ghost use Rattle.fault.specs.declared.ByteFault.{ByteFault};
ghost use Rattle.buffer.specs.Filled.{Appended};
ghost use Rattle.rpc.specs.Kinds.{text_in, text_within};
ghost use Rattle.rpc.specs.Laws.{le};
ghost use Rattle.rpc.specs.Written.{flag_byte, zero_or, HandleWritten};
ghost use Rattle.rpc.specs.Wire.{ended, part_at, byte_at, flag_at, number_at, handle_at, text_at, option_at};

use buffer::buffer::Buffer;
use fault::{ByteFault, ByteWord, SessionFault};
use text::is_utf8;

// The number that stands on the wire for a stream or a span; 0 stands for none.
#[derive(Clone, Copy)]
pub struct Handle {
    pub number: u32,
}

// A text by its place and length in a piece of bytes. No `&str`: a value lies beside the bytes of its texts, as in a list,
// and would borrow from its own struct.
#[derive(Clone, Copy)]
pub struct Text {
    pub place: usize,
    pub length: usize,
}

impl Text {
    // The bytes of the text, where it lies in the piece.
    pub fn within(self, piece: &[u8]) -> Option<&[u8]>
        ensures { option_map (λ x. x.now) result ≡ text_within piece.now self }
    {
        piece.get(self.place..)?.get(..self.length)
    }

    // The bytes of the text, as far as they lie in the piece.
    pub fn bytes_in(self, piece: &[u8]) -> &[u8]
        ensures { result.now ≡ text_in piece.now self }
    {
        let behind = piece.get(self.place..).unwrap_or(&[]);
        behind.get(..self.length).unwrap_or(behind)
    }
}

// Bytes that are read from an offset on.
#[derive(Clone, Copy)]
pub struct Reader<'a> {
    pub bytes: &'a [u8],
    pub at: usize,
}

impl<'a> Reader<'a> {
    // The next bytes, so many.
    fn take(&mut self, count: usize) -> Result<&'a [u8], ByteFault>
        ensures read { ended (result_map_both (λ x. x.now) (λ f. f) result) self.new.at ≡ part_at count self.old.bytes.now self.old.at }
        ensures bytes { self.new.bytes.now ≡ self.old.bytes.now }
    {
        let fault = ByteWord::Short.at(self.at);
        let behind = self.bytes.get(self.at..).ok_or(fault)?;
        let taken = behind.get(..count).ok_or(fault)?;
        self.at += count;
        Ok(taken)
    }

    // The next N bytes.
    fn array<const N: usize>(&mut self) -> Result<[u8; N], ByteFault>
        ensures read { ended result self.new.at ≡ part_at N self.old.bytes.now self.old.at }
        ensures bytes { self.new.bytes.now ≡ self.old.bytes.now }
    {
        Ok(self.take(N)?.try_into().unwrap())
    }
}

// A value that can be read. The reader then stands behind it; after a fault it stands anywhere.
pub trait Decode: Sized {
    ghost reads: { List ℕ → ℕ → Result (Self × ℕ) ByteFault };

    fn decode(reader: &mut Reader<'_>) -> Result<Self, ByteFault>
        ensures read { ended result reader.new.at ≡ reads reader.old.bytes.now reader.old.at }
        ensures bytes { reader.new.bytes.now ≡ reader.old.bytes.now };
}

impl Decode for u8 {
    ghost reads = { byte_at };

    fn decode(reader: &mut Reader<'_>) -> Result<u8, ByteFault> {
        let [byte] = reader.array::<1>()?;
        Ok(byte)
    }
}

impl Decode for bool {
    ghost reads = { flag_at };

    fn decode(reader: &mut Reader<'_>) -> Result<bool, ByteFault> {
        let at = reader.at;
        match u8::decode(reader)? {
            0 => Ok(false),
            1 => Ok(true),
            _ => Err(ByteWord::Tag.at(at)),
        }
    }
}

impl Decode for usize {
    ghost reads = { number_at 8 };

    fn decode(reader: &mut Reader<'_>) -> Result<usize, ByteFault> {
        Ok(usize::from_le_bytes(reader.array()?))
    }
}

// As for `usize`; no trait has `from_le_bytes`, so a line each.
impl Decode for u32 {
    ghost reads = { number_at 4 };

    fn decode(reader: &mut Reader<'_>) -> Result<u32, ByteFault> {
        Ok(u32::from_le_bytes(reader.array()?))
    }
}

impl Decode for Handle {
    ghost reads = { handle_at };

    fn decode(reader: &mut Reader<'_>) -> Result<Handle, ByteFault> {
        let at = reader.at;
        let number = u32::decode(reader)?;
        if number == 0 {
            return Err(ByteWord::Zero.at(at));
        }
        Ok(Handle { number })
    }
}

impl Decode for Text {
    ghost reads = { text_at };

    fn decode(reader: &mut Reader<'_>) -> Result<Text, ByteFault> {
        let length = usize::decode(reader)?;
        let place = reader.at;
        if !is_utf8(reader.take(length)?) {
            return Err(ByteWord::Garbled.at(place));
        }
        Ok(Text { place, length })
    }
}

impl<T: Decode> Decode for Option<T> {
    ghost reads = { option_at T.Decode.reads };

    fn decode(reader: &mut Reader<'_>) -> Result<Option<T>, ByteFault> {
        let at = reader.at;
        match u8::decode(reader)? {
            0 => Ok(Some(T::decode(reader)?)),
            1 => Ok(None),
            _ => Err(ByteWord::Tag.at(at)),
        }
    }
}

// A truth value, 00 or 01.
pub fn write_bool(out: &mut Buffer, flag: bool) -> Result<(), SessionFault>
    ensures { Appended out.old out.new (flag_byte flag ∷ []) result }
{
    out.push(u8::from(flag))
}

// A length, 8 bytes.
pub fn write_length(out: &mut Buffer, length: usize) -> Result<(), SessionFault>
    ensures { Appended out.old out.new (le 8 length) result }
{
    out.extend_from_slice(&length.to_le_bytes())
}

fn nonzero(handle: Handle) -> Result<(), ByteFault>
    ensures { result ≡ zero_or handle.number }
{
    if handle.number == 0 {
        return Err(ByteWord::Zero.at(0));
    }
    Ok(())
}

// A handle, 4 bytes; 0 is refused.
pub fn write_handle(out: &mut Buffer, handle: Handle) -> Result<(), SessionFault>
    ensures { HandleWritten out.old out.new handle result }
{
    nonzero(handle)?;
    out.extend_from_slice(&handle.number.to_le_bytes())
}
