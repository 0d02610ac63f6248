// What is known of a file whose formats are read.
use cr_syntax::Node;
use cr_tokens::Token;

/// A file with its tokens and its nodes.
#[derive(Clone, Copy)]
pub struct Known<'a> {
    pub file: &'a [u8],
    pub tokens: &'a [Token],
    pub nodes: &'a [Node],
}
