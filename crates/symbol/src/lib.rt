// Symbols: numbers that stand for texts, and the interner that gives them.
#![tactic(auto)]

ghost use Rattle.std.specs.Prelude.{IfOk};
ghost use Rattle.symbol.specs.Laws.{StandsFor};
ghost use Rattle.symbol.specs.Naming.{NewIdent};
ghost use Rattle.symbol.specs.States.{Sound};

use fault::ServerFault;
use interner::Interner;

mod arena;
mod entry;
pub mod interner;

/// A number that stands for a text.
#[derive(Clone, Copy)]
pub struct Symbol {
    pub number: u32,
}

impl Symbol {
    /// The symbol of an identifier, or of `$crate`. Garbled where the text is not UTF-8; then Name, or
    /// Host's where it is not ASCII; then Raw where it cannot be raw; then as interning refuses it.
    pub fn new_ident(
        interner: &mut Interner,
        text: &[u8],
        is_raw: bool,
    ) -> Result<Symbol, ServerFault>
        ensures named { NewIdent is_raw interner.old text.now result interner.new }
        ensures stands { IfOk result (λ y. StandsFor interner.new y text.now) }
        ensures sound { Sound interner.new }
        ensures was_sound { Sound interner.old }
    {
        interner.intern_checked(text, Some(is_raw))
    }
}
