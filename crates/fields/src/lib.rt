// The parts of each value, in wire order.
#![tactic(auto)]

ghost use Rattle.std.specs.Prelude.{◌≡◌, ◌≤◌, List, [], ◌∷◌, length};
ghost use Rattle.rpc.specs.Written.{flag_byte};
ghost use Rattle.parts.specs.declared.Part.{Part};
ghost use Rattle.parts.specs.declared.Part.TheVariants.{Byte};
ghost use Rattle.parts.specs.Parts.{joined};
ghost use Rattle.fields.specs.Fields.{delim_span_parts, group_parts, punct_parts, ident_parts, lit_kind_parts, literal_parts, tree_parts, handle_parts, text_parts};
ghost use Rattle.fields.specs.Few.{flag_few, delim_span_few, group_few, punct_few, ident_few, lit_kind_few, literal_few, tree_few, handle_few, text_few};

use parts::{Part, Parts};
use rpc::{Handle, Text};
use token::kinds::*;
use tree::*;

// A value that stands on the wire as parts, over any stream, span and symbol.
pub trait ToParts<St: Copy, Sp: Copy, Sy: Copy> {
    ghost parts: { Self → List (Part St Sp Sy) };

    // The value's parts behind those that are there.
    fn put(&self, out: &mut Parts<St, Sp, Sy>)
        ensures { out.new ≡ joined out.old (parts self.now) };

    // no value has more than seven
    ghost few: { (x : Self) → length (parts x) ≤ 7 };
}

// The parts of a value by itself.
#[tactic(auto, using(parts::proofs::Lists::alone))]
pub fn parts_of<St: Copy, Sp: Copy, Sy: Copy, T: ToParts<St, Sp, Sy>>(
    value: &T,
) -> Parts<St, Sp, Sy>
    ensures { result ≡ T.parts value.now }
{
    let mut parts = Parts::new();
    value.put(&mut parts);
    parts
}

impl<St: Copy, Sp: Copy, Sy: Copy> ToParts<St, Sp, Sy> for bool {
    ghost parts = { λ flag. Byte (flag_byte flag) ∷ [] };

    ghost few = { flag_few St Sp Sy };

    fn put(&self, out: &mut Parts<St, Sp, Sy>) {
        out.push(Part::Byte(u8::from(*self)));
    }
}

impl<St: Copy, Sp: Copy, Sy: Copy> ToParts<St, Sp, Sy> for DelimSpan<Sp> {
    ghost parts = { delim_span_parts };

    ghost few = { delim_span_few St Sp Sy };

    #[tactic(auto, using(parts::proofs::Lists::in_turn))]
    fn put(&self, out: &mut Parts<St, Sp, Sy>) {
        out.push(Part::Span(self.open));
        out.push(Part::Span(self.close));
        out.push(Part::Span(self.entire));
    }
}

impl<St: Copy, Sp: Copy, Sy: Copy> ToParts<St, Sp, Sy> for Group<St, Sp> {
    ghost parts = { group_parts };

    ghost few = { group_few St Sp Sy };

    #[tactic(auto, using(parts::proofs::Lists::in_turn))]
    fn put(&self, out: &mut Parts<St, Sp, Sy>) {
        out.push(Part::Byte(self.delimiter.tag()));
        // a closure, since the borrow checker refuses the bare constructor, which names types that its argument does not
        out.option(self.stream.map(|stream| Part::Stream(stream)));
        self.span.put(out);
    }
}

impl<St: Copy, Sp: Copy, Sy: Copy> ToParts<St, Sp, Sy> for Punct<Sp> {
    ghost parts = { punct_parts };

    ghost few = { punct_few St Sp Sy };

    #[tactic(auto, using(parts::proofs::Lists::in_turn))]
    fn put(&self, out: &mut Parts<St, Sp, Sy>) {
        out.push(Part::Byte(self.ch));
        self.joint.put(out);
        out.push(Part::Span(self.span));
    }
}

impl<St: Copy, Sp: Copy, Sy: Copy> ToParts<St, Sp, Sy> for Ident<Sp, Sy> {
    ghost parts = { ident_parts };

    ghost few = { ident_few St Sp Sy };

    #[tactic(auto, using(parts::proofs::Lists::in_turn))]
    fn put(&self, out: &mut Parts<St, Sp, Sy>) {
        out.push(Part::Symbol(self.sym));
        self.is_raw.put(out);
        out.push(Part::Span(self.span));
    }
}

impl<St: Copy, Sp: Copy, Sy: Copy> ToParts<St, Sp, Sy> for LitKind {
    ghost parts = { lit_kind_parts };

    ghost few = { lit_kind_few St Sp Sy };

    #[tactic(auto, using(parts::proofs::Lists::in_turn))]
    fn put(&self, out: &mut Parts<St, Sp, Sy>) {
        out.push(Part::Byte(self.tag()));
        if let Some(hashes) = self.hashes() {
            out.push(Part::Byte(hashes));
        }
    }
}

impl<St: Copy, Sp: Copy, Sy: Copy> ToParts<St, Sp, Sy> for Literal<Sp, Sy> {
    ghost parts = { literal_parts };

    ghost few = { literal_few St Sp Sy };

    #[tactic(auto, using(parts::proofs::Lists::in_turn))]
    fn put(&self, out: &mut Parts<St, Sp, Sy>) {
        self.kind.put(out);
        out.push(Part::Symbol(self.symbol));
        out.option(self.suffix.map(|symbol| Part::Symbol(symbol)));
        out.push(Part::Span(self.span));
    }
}

impl<St: Copy, Sp: Copy, Sy: Copy> ToParts<St, Sp, Sy> for TokenTree<St, Sp, Sy> {
    ghost parts = { tree_parts };

    ghost few = { tree_few St Sp Sy };

    #[tactic(auto, using(parts::proofs::Lists::in_turn))]
    fn put(&self, out: &mut Parts<St, Sp, Sy>) {
        // The tags stand here and where a tree is read, and nowhere else.
        match self {
            TokenTree::Group(group) => {
                out.push(Part::Byte(0));
                group.put(out);
            }
            TokenTree::Punct(punct) => {
                out.push(Part::Byte(1));
                punct.put(out);
            }
            TokenTree::Ident(ident) => {
                out.push(Part::Byte(2));
                ident.put(out);
            }
            TokenTree::Literal(literal) => {
                out.push(Part::Byte(3));
                literal.put(out);
            }
        }
    }
}

// A stream or a span.
impl<Sp: Copy, Sy: Copy> ToParts<Handle, Sp, Sy> for Handle {
    ghost parts = { handle_parts };

    ghost few = { handle_few Sp Sy };

    fn put(&self, out: &mut Parts<Handle, Sp, Sy>) {
        out.push(Part::Stream(*self));
    }
}

// A symbol, which is its text.
impl<St: Copy, Sp: Copy> ToParts<St, Sp, Text> for Text {
    ghost parts = { text_parts };

    ghost few = { text_few St Sp };

    fn put(&self, out: &mut Parts<St, Sp, Text>) {
        out.push(Part::Symbol(*self));
    }
}
