// Where the text of a symbol comes from.
#![tactic(auto)]

ghost use Rattle.std.specs.Prelude.{◌≡◌, ℕ, List, Option};
ghost use Rattle.std.specs.Option.{option_map};
ghost use Rattle.rpc.specs.Kinds.{in_piece};
ghost use Rattle.source.specs.Sources.{length_of, Valid, Given};

use buffer::buffer::Buffer;
use fault::{ServerWord, SessionFault};
use rpc::Text;
use text::is_utf8;

// Symbols and their texts: a piece of bytes, an interner or a server.
pub trait Texts {
    type Symbol: Copy;

    // the text of a live symbol
    ghost text: { Self → Self.Symbol → Option (List ℕ) };

    // The length of a live symbol's text, which is UTF-8. A clause and no law: a law would ask it of every value that
    // the type's model has, and not of those alone that its invariant lets be.
    fn text_length(&self, symbol: Self::Symbol) -> Option<usize>
        ensures length { result ≡ length_of (text self.now symbol) }
        ensures utf8 { Valid (text self.now symbol) };

    // A live symbol's text behind what the buffer holds, or Tight; Stale where the symbol is not live.
    fn append_text(&self, symbol: Self::Symbol, out: &mut Buffer) -> Result<(), SessionFault>
        ensures { Given (text self.now symbol) out.old out.new result };
}

// A piece of bytes, in which a text is live where it lies within the piece and is UTF-8.
#[derive(Clone, Copy)]
pub struct Piece<'a> {
    pub bytes: &'a [u8],
}

impl<'a> Texts for Piece<'a> {
    type Symbol = Text;

    ghost text = { λ p t. in_piece p.bytes.now t };

    fn text_length(&self, symbol: Text) -> Option<usize> {
        text_at(self.bytes, symbol).map(|text| text.len())
    }

    fn append_text(&self, symbol: Text, out: &mut Buffer) -> Result<(), SessionFault> {
        let text = text_at(self.bytes, symbol).ok_or(ServerWord::Stale.at(0))?;
        out.extend_from_slice(text)
    }
}

// The text at a place of a piece, where it is one.
fn text_at(bytes: &[u8], symbol: Text) -> Option<&[u8]>
    ensures { option_map (λ x. x.now) result ≡ in_piece bytes.now symbol }
{
    symbol.within(bytes).filter(|text| is_utf8(text))
}
