// Nodes and tokens by number.
ghost use Rattle.std.specs.Prelude.{◌≡◌, slice_get};
ghost use Rattle.cr_syntax.specs.Numbered.{kind_at, first_if, parts_at, spelling_of};
ghost use Rattle.cr_syntax.specs.Words.{AreSpans};

use crate::node::{Kind, Node};
use cr_tokens::Token;

/// The kind of the node with a number.
pub fn kind_at(nodes: &[Node], at: usize) -> Option<Kind>
    ensures { result ≡ kind_at nodes.now at }
{
    if at < nodes.len() {
        Some(nodes[at].kind)
    } else {
        None
    }
}

/// The first token of the node with a number; 0 where there is none.
pub fn first_token_at(nodes: &[Node], at: usize) -> u32
    ensures { result ≡ first_if (slice_get nodes.now at) }
{
    if at < nodes.len() { nodes[at].first } else { 0 }
}

/// The parts of the node with a number.
pub fn parts_at(nodes: &[Node], at: usize) -> &[u32]
    ensures { result.now ≡ parts_at nodes.now at }
{
    if at < nodes.len() {
        nodes[at].parts.as_slice()
    } else {
        &[]
    }
}

/// The bytes that spell the token with a number; none where there is no token.
pub fn spelling_at<'a>(file: &'a [u8], tokens: &'a [Token], at: usize) -> &'a [u8]
    requires { AreSpans file.now tokens.now }
    ensures { result.now ≡ spelling_of file.now tokens.now at }
{
    if at < tokens.len() {
        tokens[at].spelling(file)
    } else {
        &[]
    }
}
