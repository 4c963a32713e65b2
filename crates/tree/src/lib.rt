// Token trees: one text for both ends, plain copied records over the stream, span and symbol of each.
#![tactic(auto)]

pub use leaf::{Ident, Literal, Punct};
use token::kinds::*;

pub mod decode;

#[derive(Clone, Copy)]
pub struct Group<TokenStream, Span> {
    pub delimiter: Delimiter,
    pub stream: Option<TokenStream>,
    pub span: DelimSpan<Span>,
}

#[derive(Clone, Copy)]
pub enum TokenTree<TokenStream, Span, Symbol> {
    Group(Group<TokenStream, Span>),
    Punct(Punct<Span>),
    Ident(Ident<Span, Symbol>),
    Literal(Literal<Span, Symbol>),
}
