// The leaves of token trees: plain copied records over the span and symbol of each.
#![tactic(auto)]

use token::kinds::*;

pub mod decode;

#[derive(Clone, Copy)]
pub struct Punct<Span> {
    pub ch: u8,
    pub joint: bool,
    pub span: Span,
}

#[derive(Clone, Copy)]
pub struct Ident<Span, Symbol> {
    pub sym: Symbol,
    pub is_raw: bool,
    pub span: Span,
}

#[derive(Clone, Copy)]
pub struct Literal<Span, Symbol> {
    pub kind: LitKind,
    pub symbol: Symbol,
    pub suffix: Option<Symbol>,
    pub span: Span,
}
