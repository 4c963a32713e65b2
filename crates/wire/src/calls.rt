// Reading and writing of each kind of value by its name, over handles and texts: what the two calls over any value
// promise, proved of that kind, so that a mistake in one kind is refused by its own promise.
ghost use Rattle.std.specs.Prelude.{◌≡◌, List, [], ◌∷◌};
ghost use Rattle.rpc.specs.declared.Text.{Text as WireText};
ghost use Rattle.rpc.specs.Kinds.{handle_kind, in_piece, text_kind};
ghost use Rattle.parts.specs.declared.Part.TheVariants.{Stream, Symbol};
ghost use Rattle.encode.specs.Sends.{Sent};
ghost use Rattle.fields.specs.Fields.{tree_parts, literal_parts};
ghost use Rattle.wire.specs.Values.{tree_kind, literal_kind, tree_texts, literal_texts};
ghost use Rattle.wire.specs.Back.{Rewritten, ReadBack};

use super::{decode, encode};
use buffer::buffer::Buffer;
use encode::send::send;
use fault::{ByteFault, SessionFault};
use parts::Part;
use rpc::{Handle, Text};
use source::Piece;
use tree::{Literal, TokenTree};

// A tree at the front of the input, with the number of bytes read.
pub fn decode_tree(input: &[u8]) -> Result<(TokenTree<Handle, Handle, Text>, usize), ByteFault>
    ensures read { result ≡ tree_kind.reads input.now 0 }
    ensures unique { Rewritten tree_kind tree_parts input.now result }
{
    decode::<TokenTree<Handle, Handle, Text>>(input)
}

// Writes a tree whose texts lie in `text`, and answers the number of bytes.
pub fn encode_tree(
    tree: &TokenTree<Handle, Handle, Text>,
    text: &[u8],
    out: &mut Buffer,
) -> Result<usize, SessionFault>
    ensures sent { Sent (in_piece text.now) (tree_parts tree.now) out.old out.new result }
    ensures back { ReadBack tree_kind (tree_texts (in_piece text.now) tree.now) out.old out.new result }
{
    encode(tree, text, out)
}

// A literal at the front of the input, with the number of bytes read.
pub fn decode_literal(input: &[u8]) -> Result<(Literal<Handle, Text>, usize), ByteFault>
    ensures read { result ≡ literal_kind.reads input.now 0 }
    ensures unique { Rewritten literal_kind literal_parts input.now result }
{
    decode::<Literal<Handle, Text>>(input)
}

// Writes a literal whose texts lie in `text`, and answers the number of bytes.
pub fn encode_literal(
    literal: &Literal<Handle, Text>,
    text: &[u8],
    out: &mut Buffer,
) -> Result<usize, SessionFault>
    ensures sent { Sent (in_piece text.now) (literal_parts literal.now) out.old out.new result }
    ensures back { ReadBack literal_kind (literal_texts (in_piece text.now) literal.now) out.old out.new result }
{
    encode(literal, text, out)
}

// A stream or a span at the front of the input, which is a handle, with the number of bytes read.
pub fn decode_handle(input: &[u8]) -> Result<(Handle, usize), ByteFault>
    ensures read { result ≡ handle_kind.reads input.now 0 }
    ensures unique { Rewritten handle_kind (λ h. Stream h ∷ []) input.now result }
{
    decode::<Handle>(input)
}

// Writes a stream or a span, and answers the number of bytes. Its one part is sent as it is: a list with room for seven
// takes a third more time.
#[tactic(auto, using(crate::proofs::Backs::handle_back))]
pub fn encode_handle(handle: Handle, out: &mut Buffer) -> Result<usize, SessionFault>
    ensures sent { Sent {Sy = WireText} (in_piece []) (Stream handle ∷ []) out.old out.new result }
    ensures back { ReadBack handle_kind handle out.old out.new result }
{
    send(&[Part::Stream(handle)], &Piece { bytes: &[] }, out)
}

// A symbol at the front of the input, which is its text, with the number of bytes read.
pub fn decode_symbol(input: &[u8]) -> Result<(Text, usize), ByteFault>
    ensures read { result ≡ text_kind.reads input.now 0 }
    ensures unique { Rewritten text_kind (λ t. Symbol t ∷ []) input.now result }
{
    decode::<Text>(input)
}

// Writes a symbol whose text lies in `text`, and answers the number of bytes.
pub fn encode_symbol(symbol: Text, text: &[u8], out: &mut Buffer) -> Result<usize, SessionFault>
    ensures sent { Sent (in_piece text.now) (Symbol symbol ∷ []) out.old out.new result }
    ensures back { ReadBack text_kind (in_piece text.now symbol) out.old out.new result }
{
    encode(&symbol, text, out)
}
