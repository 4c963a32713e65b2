use crate::arena::Arena;
use crate::entry::Entry;
use std::marker::Model;

mod methods;
mod texts;

// The most texts that are held.
const MOST: usize = 1024;

/// Texts by number: the first `count` entries have the places and lengths of the texts held, in
/// the order in which they came, and the first of them has the number `base`.
#[derive(Drop)]
pub struct Interner {
    base: u32,
    bytes: Arena,
    // By a rule of the project (docs/DECISIONS.md, Forms) an array of entries, of which one is lent and set.
    entries: [Entry; MOST],
    count: usize,
}

// A clause sees the base and the texts held.
impl Model for Interner {
    ghost use Rattle.symbol.specs.Interning.{State};

    ghost Value = { State };

    ghost use Rattle.symbol.specs.Layout.{LaidOut, state_laid};
    ghost use Rattle.symbol.specs.States.{Sound};

    ghost view = { λ i. state_laid i.base i.bytes i.entries i.count };

    // What of it speaks of the state alone, each call promises: a model hides it, and callers had it as ghost fields.
    ghost invariant = { λ i. LaidOut i.bytes i.entries i.count × Sound (state_laid i.base i.bytes i.entries i.count) };
}
