// The bytes of texts, one behind the other, in a fixed room.
ghost use Rattle.std.specs.Prelude.{◌≡◌, ◌+◌, ◌≤◌, [], ◌++◌, length};
ghost use Rattle.symbol.specs.Interning.{limits};

use std::marker::Model;

// The most bytes that all texts have together.
const BYTES: usize = 32768;

// No `ArrayVec`, whose `clear` writes over what it held: this one forgets by setting a number.
#[derive(Drop)]
pub(crate) struct Arena {
    bytes: [u8; BYTES],
    used: usize,
}

// A clause sees the bytes in use.
impl Model for Arena {
    ghost use Rattle.std.specs.Prelude.{ℕ, List, ◌≡◌, ◌≤◌, length, take};
    ghost use Rattle.symbol.specs.Interning.{limits};

    ghost Value = { List ℕ };

    ghost view = { λ a. take a.used a.bytes };

    ghost invariant = { λ a. (length a.bytes ≡ limits.bytes) × (a.used ≤ limits.bytes) };
}

impl Arena {
    pub(crate) fn new() -> Arena
        ensures { result ≡ [] }
    {
        Arena {
            bytes: [0; BYTES],
            used: 0,
        }
    }

    pub(crate) fn len(&self) -> usize
        ensures { result ≡ length self.now }
    {
        self.used
    }

    // How many bytes more find room.
    pub(crate) fn free(&self) -> usize
        ensures { length self.now + result ≡ limits.bytes }
    {
        BYTES - self.used
    }

    pub(crate) fn as_slice(&self) -> &[u8]
        ensures { result.now ≡ self.now }
    {
        &self.bytes[..self.used]
    }

    // Puts a text behind the others.
    pub(crate) fn extend_from_slice(&mut self, text: &[u8])
        requires { length self.old + length text.now ≤ limits.bytes }
        ensures { self.new ≡ self.old ++ text.now }
    {
        let end = self.used + text.len();
        self.bytes[self.used..end].copy_from_slice(text);
        self.used = end;
    }

    // Forgets all texts.
    pub(crate) fn clear(&mut self)
        ensures { self.new ≡ [] }
    {
        self.used = 0;
    }
}
