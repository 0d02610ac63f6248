// What is known of a unit where its calls are spelled out.
use crate::callees::{Callee, Declared};
use cr_scopes::Names;
use cr_syntax::Node;
use cr_tokens::Token;

/// A unit with its names, its functions that are defined, and its declarations.
#[derive(Clone, Copy)]
pub struct Known<'a> {
    pub tokens: &'a [Token],
    pub nodes: &'a [Node],
    pub names: &'a Names,
    pub callees: &'a [Callee],
    pub declared: &'a [Declared],
}

/// What a call becomes.
#[derive(Clone, Copy)]
pub enum Way {
    /// What its function returns, in parentheses.
    Expression,
    /// A block with its function's parameters and body.
    Block,
}
