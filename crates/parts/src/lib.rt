// A value as its parts in wire order.
#![tactic(auto)]

ghost use Rattle.std.specs.Prelude.{◌≡◌, ◌≤◌, [], ◌∷◌, length, Option};
ghost use Rattle.parts.specs.declared.Part.TheVariants.{Byte};
ghost use Rattle.parts.specs.Parts.{joined, option_parts};

use arrayvec::ArrayVec;
use std::marker::Model;

// What stands on the wire, one after the other: a byte, a stream, a span, or the text of a symbol.
#[derive(Clone, Copy)]
pub enum Part<St, Sp, Sy> {
    Byte(u8),
    Stream(St),
    Span(Sp),
    Symbol(Sy),
}

// What lies in an unused place of a buffer of parts.
impl<St, Sp, Sy> Default for Part<St, Sp, Sy> {
    ghost is_default = { λ p. p ≡ Byte 0 };

    fn default() -> Self {
        Self::Byte(0)
    }
}

// The parts of one value, at most seven: a Group with its stream, or a literal with its suffix, has most.
#[derive(Drop)]
pub struct Parts<St, Sp, Sy> {
    items: ArrayVec<Part<St, Sp, Sy>, 7>,
}

impl<St, Sp, Sy> Model for Parts<St, Sp, Sy> {
    ghost use Rattle.std.specs.Prelude.{List};
    ghost use Rattle.parts.specs.declared.Part.{Part};

    ghost Value = { List (Part St Sp Sy) };

    ghost view = { λ p. p.items.items };
}

impl<St: Copy, Sp: Copy, Sy: Copy> Parts<St, Sp, Sy> {
    pub fn new() -> Self
        ensures { result ≡ [] }
    {
        Parts {
            items: ArrayVec::new(),
        }
    }

    // One part more; an eighth is left out.
    #[tactic(auto, using(crate::proofs::Lists::added, crate::proofs::Lists::left_out))]
    pub fn push(&mut self, part: Part<St, Sp, Sy>)
        ensures joined { self.new ≡ joined self.old (part ∷ []) }
        ensures few { length self.old ≤ 7 }
    {
        if !self.items.is_full() {
            self.items.push(part);
        }
    }

    // 00 and the part, or 01.
    #[tactic(auto, using(crate::proofs::Lists::in_turn))]
    pub fn option(&mut self, inside: Option<Part<St, Sp, Sy>>)
        ensures joined { self.new ≡ joined self.old (option_parts inside) }
        ensures few { length self.old ≤ 7 }
    {
        match inside {
            Some(part) => {
                self.push(Part::Byte(0));
                self.push(part);
            }
            None => self.push(Part::Byte(1)),
        }
    }

    pub fn as_slice(&self) -> &[Part<St, Sp, Sy>]
        ensures parts { result.now ≡ self.now }
        ensures few { length result.now ≤ 7 }
    {
        self.items.as_slice()
    }
}
