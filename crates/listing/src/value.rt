// A value of any kind, as it is read from its bytes.
ghost use Rattle.std.specs.Prelude.{◌≡◌, ◌≤◌, length, IfOk};
ghost use Rattle.listing.specs.Values.{value_at};

use fault::ByteFault;
use recording::Kind;
use rpc::{Handle, Text};
use tree::{Literal, TokenTree};
use wire::calls::{decode_handle, decode_literal, decode_symbol, decode_tree};

/// A value; its texts are places in the bytes that it was read from.
#[derive(Clone, Copy)]
pub enum Value {
    Tree(TokenTree<Handle, Handle, Text>),
    Literal(Literal<Handle, Text>),
    Stream(Handle),
    Span(Handle),
    Symbol(Text),
}

/// Reads a value of a kind at the front of the bytes, and answers how many bytes it took.
pub fn read_value(kind: Kind, bytes: &[u8]) -> Result<(Value, usize), ByteFault>
    ensures read { result ≡ value_at kind bytes.now }
    ensures within { IfOk result (λ p. p.1 ≤ length bytes.now) }
{
    match kind {
        Kind::Tree => decode_tree(bytes).map(|(tree, end)| (Value::Tree(tree), end)),
        Kind::Literal => decode_literal(bytes).map(|(literal, end)| (Value::Literal(literal), end)),
        Kind::Stream => decode_handle(bytes).map(|(stream, end)| (Value::Stream(stream), end)),
        Kind::Span => decode_handle(bytes).map(|(span, end)| (Value::Span(span), end)),
        Kind::Symbol => decode_symbol(bytes).map(|(symbol, end)| (Value::Symbol(symbol), end)),
    }
}
