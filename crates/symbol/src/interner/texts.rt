// An interner's texts: looked up, added and forgotten.
ghost use Rattle.std.specs.Prelude.{◌≡◌, ◌+◌, ◌<◌, ◌≤◌, true, ◌&&◌, [], length, is_ok, IfOk, if◌then◌else◌, None, nat_le, slice_index_or};
ghost use Rattle.text.specs.Grammar.{is_utf8};
ghost use Rattle.symbol.specs.Held.{allowed, fits, place_of};
ghost use Rattle.symbol.specs.Interning.{limits, top, given, intern_state, Interned, clear_state};
ghost use Rattle.symbol.specs.Laws.{NumbersRise, Retired, StandsFor};
ghost use Rattle.symbol.specs.Naming.{checked_reply, name_reply};
ghost use Rattle.symbol.specs.States.{MayAdd, Sound, with_text};

use super::{Interner, MOST};
use crate::Symbol;
use crate::entry::Entry;
use fault::{ServerFault, ServerWord};
use ident::check_ident;
use text::is_utf8;

// The most bytes that one text has.
const LONGEST: usize = 1024;

impl Interner {
    // Forgets all texts, and goes on from the base of a clear.
    #[tactic(auto, using(crate::proofs::Numbering::numbers_rise, crate::proofs::Numbering::retired))]
    pub(super) fn restart(&mut self, base: u32)
        requires { base ≡ (clear_state self.old).base }
        ensures cleared { self.new ≡ clear_state self.old }
        ensures numbers { NumbersRise self.new }
        ensures retired { Retired self.old self.new }
        ensures sound { Sound self.new }
    {
        self.base = base;
        self.bytes.clear();
        self.count = 0;
    }

    // The symbol of a text, or of a name, raw or not (`Some(is_raw)`): Garbled where it is not UTF-8, then as the
    // check of a name refuses it, then as interning refuses it.
    pub(crate) fn intern_checked(
        &mut self,
        text: &[u8],
        name: Option<bool>,
    ) -> Result<Symbol, ServerFault>
        ensures reply { result ≡ checked_reply (name_reply name text.now) self.old text.now }
        ensures state { self.new ≡ (if is_ok result then intern_state self.old text.now else self.old) }
        ensures stands { IfOk result (λ y. StandsFor self.new y text.now) }
        ensures sound { Sound self.new }
        ensures was_sound { Sound self.old }
    {
        // Names a field, and with it what is true of every interner, for the paths that use none.
        let _ = &self.base;
        if !is_utf8(text) {
            return Err(ServerWord::Garbled.at(0));
        }
        if let Some(is_raw) = name {
            check_ident(text, is_raw)?;
        }
        self.intern_utf8(text)
    }

    // The symbol of a text that is UTF-8.
    #[tactic(auto, using(crate::proofs::Answering::answering))]
    fn intern_utf8(&mut self, text: &[u8]) -> Result<Symbol, ServerFault>
        requires { is_utf8 text.now ≡ true }
        ensures interned { Interned self.old text.now result self.new }
        ensures stands { IfOk result (λ y. StandsFor self.new y text.now) }
        ensures sound { Sound self.new }
    {
        if let Some(i) = self.find(text) {
            return Ok(Symbol {
                number: self.base + i as u32,
            });
        }
        if !self.has_room(text) {
            return Err(ServerWord::Declined.at(0));
        }
        self.add(text)
    }

    // A new text under the next number.
    fn add(&mut self, text: &[u8]) -> Result<Symbol, ServerFault>
        requires { MayAdd self.old text.now }
        ensures reply { result ≡ given self.old None }
        ensures state { self.new ≡ (if is_ok result then with_text self.old text.now else self.old) }
        ensures sound { Sound self.new }
    {
        let Some(number) = self.base.checked_add(self.count as u32) else {
            return Err(ServerWord::NumberedOut.at(0));
        };
        self.push(text);
        Ok(Symbol { number })
    }

    // The text at a place, counted from 0.
    pub(super) fn text_at(&self, i: usize) -> &[u8]
        requires { i < length self.now.held }
        ensures text { result.now ≡ slice_index_or self.now.held i [] }
        ensures allowed { allowed limits result.now ≡ true }
    {
        let bytes = self.bytes.as_slice();
        self.entries[i].text_in(bytes)
    }

    // Where a text is held, counted from 0. Each is compared: a map would need a heap.
    fn find(&self, text: &[u8]) -> Option<usize>
        ensures { result ≡ place_of text.now self.now.held }
    {
        let bytes = self.bytes.as_slice();
        self.entries[..self.count]
            .iter()
            .position(|entry| entry.text_in(bytes) == text)
    }

    // Whether a text that is not held is short enough and finds room.
    fn has_room(&self, text: &[u8]) -> bool
        ensures room { result ≡ (nat_le (length text.now) limits.longest && fits limits self.now.held text.now) }
        ensures sound { Sound self.now }
    {
        text.len() <= LONGEST && self.count < MOST && text.len() <= self.bytes.free()
    }

    // Holds a new text behind the others.
    fn push(&mut self, text: &[u8])
        requires may { MayAdd self.old text.now }
        requires number { self.old.base + length self.old.held ≤ top }
        ensures state { self.new ≡ with_text self.old text.now }
        ensures sound { Sound self.new }
    {
        let entry = Entry {
            place: self.bytes.len(),
            length: text.len(),
        };
        self.bytes.extend_from_slice(text);
        let slot = &mut self.entries[self.count];
        *slot = entry;
        self.count += 1;
    }
}
