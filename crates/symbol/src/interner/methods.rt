// The calls of an interner.
ghost use Rattle.std.specs.Prelude.{◌≡◌, true, length, IfOk};
ghost use Rattle.symbol.specs.Held.{allowed};
ghost use Rattle.symbol.specs.Interning.{limits, Interned, get_reply, clear_state, open_reply};
ghost use Rattle.symbol.specs.Laws.{NumbersRise, Retired, StandsFor};
ghost use Rattle.symbol.specs.States.{Sound, text_read};

use super::{Interner, MOST};
use crate::Symbol;
use crate::arena::Arena;
use crate::entry::Entry;
use fault::{ServerFault, ServerWord};

const UNUSED: Entry = Entry {
    place: 0,
    length: 0,
};

impl Interner {
    /// An interner that holds nothing; a base of 0 is Unopened.
    #[tactic(auto, using(crate::proofs::Numbering::numbers_rise))]
    pub fn open(base: u32) -> Result<Interner, ServerFault>
        ensures opened { result ≡ open_reply base }
        ensures numbers { IfOk result NumbersRise }
        ensures sound { IfOk result Sound }
    {
        if base == 0 {
            return Err(ServerWord::Unopened.at(0));
        }
        Ok(Interner {
            base,
            bytes: Arena::new(),
            entries: [UNUSED; MOST],
            count: 0,
        })
    }

    /// How many texts it holds.
    pub fn len(&self) -> usize
        ensures length { result ≡ length self.now.held }
        ensures sound { Sound self.now }
    {
        self.count
    }

    /// The text that a symbol stands for; Stale where it is not live.
    pub fn get(&self, symbol: Symbol) -> Result<&[u8], ServerFault>
        ensures reply { text_read result ≡ get_reply self.now symbol }
        ensures allowed { IfOk result (λ t. allowed limits t.now ≡ true) }
        ensures sound { Sound self.now }
    {
        match symbol.number.checked_sub(self.base) {
            Some(i) if (i as usize) < self.count => Ok(self.text_at(i as usize)),
            _ => Err(ServerWord::Stale.at(0)),
        }
    }

    /// Forgets all texts. The next number follows those given, but stops at the last.
    pub fn clear(&mut self)
        ensures cleared { self.new ≡ clear_state self.old }
        ensures numbers { NumbersRise self.new }
        ensures retired { Retired self.old self.new }
        ensures sound { Sound self.new }
        ensures was_sound { Sound self.old }
    {
        let next = self.base.saturating_add(self.count as u32);
        self.restart(next);
    }

    /// The symbol of a text: that under which it is held, or else the next number. Garbled where it
    /// is not UTF-8, then Declined where it is too long or finds no room, then Numbered out.
    pub fn intern(&mut self, text: &[u8]) -> Result<Symbol, ServerFault>
        ensures interned { Interned self.old text.now result self.new }
        ensures stands { IfOk result (λ y. StandsFor self.new y text.now) }
        ensures sound { Sound self.new }
        ensures was_sound { Sound self.old }
    {
        self.intern_checked(text, None)
    }
}
