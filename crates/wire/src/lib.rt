// The values of the wire as a whole: their reading and their writing, over handles and texts.
#![tactic(auto)]

ghost use Rattle.std.specs.Prelude.{◌≡◌, ℕ, List, Option};
ghost use Rattle.rpc.specs.declared.Handle.{Handle};
ghost use Rattle.rpc.specs.declared.Text.{Text};
ghost use Rattle.rpc.specs.Kinds.{handle_kind, text_kind, in_piece};
ghost use Rattle.rpc.specs.Laws.{Kind};
ghost use Rattle.encode.specs.Sends.{Sent};
ghost use Rattle.leaf.specs.declared.Literal.{Literal};
ghost use Rattle.tree.specs.declared.TokenTree.{TokenTree};
ghost use Rattle.wire.specs.Values.{tree_kind, literal_kind, tree_texts, literal_texts};
ghost use Rattle.wire.specs.Back.{Rewritten, ReadBack};
ghost use Rattle.wire.specs.Laws.{ValueLaws};
ghost use Rattle.wire.specs.Kept.{handle_texts, text_texts, tree_laws, literal_laws, handle_laws, text_laws};

use buffer::buffer::Buffer;
use encode::send::send;
use fault::{ByteFault, SessionFault};
use fields::{ToParts, parts_of};
use rpc::{Decode, Handle, Reader, Text};
use source::Piece;
use tree::{Literal, TokenTree};

pub mod calls;

// A value of the wire: it is read as one kind, and written as its parts.
pub trait Value: Decode + ToParts<Handle, Handle, Text> {
    // the value with its texts in the place of its symbols
    ghost Whole: { Type 0 };

    ghost kind: { Kind Self Whole };

    // the whole of a value, where a function has the text of each live symbol
    ghost texts: { (Text → Option (List ℕ)) → Self → Whole };

    ghost laws: { ValueLaws kind texts Self.reads Self.parts };
}

impl Value for TokenTree<Handle, Handle, Text> {
    ghost Whole = { TokenTree Handle Handle (Option (List ℕ)) };

    ghost kind = { tree_kind };

    ghost texts = { tree_texts };

    ghost laws = { tree_laws };
}

impl Value for Literal<Handle, Text> {
    ghost Whole = { Literal Handle (Option (List ℕ)) };

    ghost kind = { literal_kind };

    ghost texts = { literal_texts };

    ghost laws = { literal_laws };
}

// A stream or a span.
impl Value for Handle {
    ghost Whole = { Handle };

    ghost kind = { handle_kind };

    ghost texts = { handle_texts };

    ghost laws = { handle_laws };
}

// A symbol, which is its text.
impl Value for Text {
    ghost Whole = { Option (List ℕ) };

    ghost kind = { text_kind };

    ghost texts = { text_texts };

    ghost laws = { text_laws };
}

// A value at the front of the input, with the number of bytes read.
pub fn decode<T: Value>(input: &[u8]) -> Result<(T, usize), ByteFault>
    ensures read { result ≡ T.kind.reads input.now 0 }
    ensures unique { Rewritten T.kind T.parts input.now result }
{
    let mut reader = Reader {
        bytes: input,
        at: 0,
    };
    let value = T::decode(&mut reader)?;
    Ok((value, reader.at))
}

// Writes a value whose texts lie in `text`, and answers the number of bytes.
pub fn encode<T: Value>(value: &T, text: &[u8], out: &mut Buffer) -> Result<usize, SessionFault>
    ensures sent { Sent (in_piece text.now) (T.parts value.now) out.old out.new result }
    ensures back { ReadBack T.kind (T.texts (in_piece text.now) value.now) out.old out.new result }
{
    let parts = parts_of(value);
    send(parts.as_slice(), &Piece { bytes: text }, out)
}
