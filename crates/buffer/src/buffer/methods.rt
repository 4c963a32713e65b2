ghost use Rattle.std.specs.Prelude.{◌≡◌, ◌-◌, ◌^◌, ◌≤◌, false, [], ◌∷◌, length, is_ok, IfOk};
ghost use Rattle.buffer.specs.Filled.{held, room_of, Appended};

use super::Buffer;
use fault::{SessionFault, SessionWord};
use std::alloc::{AllocError, Global};

const MOST: usize = 0x7fff_ffff_ffff_ffff;

impl Buffer {
    // An empty buffer with `room` bytes, of which no memory has 2^63 and more.
    pub fn with_room(heap: Global, room: usize) -> Result<Buffer, AllocError>
        ensures opened { IfOk result (λ b. (held b ≡ []) × (room_of b ≡ room)) }
        ensures limit { 2 ^ 63 ≤ room → is_ok result ≡ false }
    {
        if room > MOST {
            return Err(AllocError);
        }
        let bytes = Vec::with_capacity(heap, room)?;
        Ok(Buffer { bytes, room })
    }

    // How many bytes it holds.
    pub fn len(&self) -> usize
        ensures { result ≡ length (held self.now) }
    {
        self.bytes.len()
    }

    // How many bytes more it can hold.
    pub fn free(&self) -> usize
        ensures { result ≡ room_of self.now - length (held self.now) }
    {
        self.room - self.len()
    }

    pub fn as_slice(&self) -> &[u8]
        ensures { result.now ≡ held self.now }
    {
        self.bytes.as_slice()
    }

    // Forgets what it holds; the room stays.
    pub fn clear(&mut self)
        ensures empty { held self.new ≡ [] }
        ensures room { room_of self.new ≡ room_of self.old }
    {
        self.bytes.clear();
    }

    // One byte behind the others, or Tight with nothing changed.
    pub fn push(&mut self, byte: u8) -> Result<(), SessionFault>
        ensures { Appended self.old self.new (byte ∷ []) result }
    {
        if self.free() < 1 {
            return Err(SessionWord::Tight.at(0));
        }
        self.bytes.push_reserved(byte);
        Ok(())
    }

    // The bytes of `more` behind the others, or Tight with nothing changed.
    pub fn extend_from_slice(&mut self, more: &[u8]) -> Result<(), SessionFault>
        ensures { Appended self.old self.new more.now result }
    {
        if self.free() < more.len() {
            return Err(SessionWord::Tight.at(0));
        }
        let _ = self.bytes.extend_from_slice(more);
        Ok(())
    }
}
