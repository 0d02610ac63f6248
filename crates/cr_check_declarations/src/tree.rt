ghost use Rattle.std.specs.Prelude.{◌≡◌, None, slice_index_or};
ghost use Rattle.cr_check_enclosing.specs.Around.{outermost};
ghost use Rattle.cr_syntax.specs.Words.{AreSpans};
ghost use Rattle.cr_check_expressions.specs.Known.{spelling_of};
ghost use Rattle.cr_check_declarations.specs.Before.{kind_in, first_in, parts_in};

use cr_check_enclosing::{Around, OUTERMOST};
use cr_rows::entry_at;
use cr_syntax::{Kind, Node, first_token_at, kind_at, parts_at, spelling_at};
use cr_tokens::Token;

/// The tag of a structure or an enumeration where it is written.
#[derive(Clone, Copy)]
pub struct Tag {
    /// Its token.
    pub token: u32,
    /// The specifier that declares it first.
    pub first: u32,
    /// The specifier with its content, if there is one.
    pub content: Option<u32>,
    /// Whether this token declares it.
    pub declares: bool,
}

/// A unit's tree, with what is known of its nodes before any of them is judged. Where nothing else is said a column has one entry
/// a node, and what is not there is as nothing known.
#[derive(Clone, Copy)]
pub struct Tree<'a> {
    pub file: &'a [u8],
    pub tokens: &'a [Token],
    pub nodes: &'a [Node],
    /// For each token the number of its spelling.
    pub names: &'a [u32],
    /// The node above each.
    pub above: &'a [Option<u32>],
    /// The part before each in the node above it.
    pub previous: &'a [Option<u32>],
    /// What each has from above.
    pub around: &'a [Around],
    /// For each identifier, call and typedef name the node that declares its name.
    pub visible: &'a [Option<u32>],
    /// For each node that declares a name the declaration of that name that is visible directly before it (C11 6.2.2p4).
    pub earlier: &'a [Option<u32>],
    /// For each such node the last one before it that declares the same, in whatever scope (6.2.7p2).
    pub same: &'a [Option<u32>],
    /// The tags of specifiers.
    pub tags: &'a [Option<Tag>],
}

/// The kind of a node.
pub fn kind_of(nodes: &[Node], node: Option<u32>) -> Option<Kind>
    ensures { result ≡ kind_in nodes.now node }
{
    match node {
        Some(node) => kind_at(nodes, node as usize),
        None => None,
    }
}

/// The first token of a node; 0 where there is none.
pub fn first_of(nodes: &[Node], node: Option<u32>) -> u32
    ensures { result ≡ first_in nodes.now node }
{
    match node {
        Some(node) => first_token_at(nodes, node as usize),
        None => 0,
    }
}

/// The parts of a node.
pub(crate) fn parts_of<'a>(nodes: &'a [Node], node: Option<u32>) -> &'a [u32]
    ensures { result.now ≡ parts_in nodes.now node }
{
    match node {
        Some(node) => parts_at(nodes, node as usize),
        None => &[],
    }
}

/// The bytes that spell a token; none where there is no token.
pub fn spelling<'a>(tree: &'a Tree, token: usize) -> &'a [u8]
    requires { AreSpans tree.now.file.now tree.now.tokens.now }
    ensures { result.now ≡ spelling_of tree.now.file.now tree.now.tokens.now token }
{
    spelling_at(tree.file, tree.tokens, token)
}

/// The node above a node.
pub fn above(tree: &Tree, at: u32) -> Option<u32>
    ensures { result ≡ slice_index_or tree.now.above.now at None }
{
    entry_at(tree.above, at as usize, None)
}

/// The part before a node in the node above it.
pub(crate) fn previous(tree: &Tree, at: u32) -> Option<u32>
    ensures { result ≡ slice_index_or tree.now.previous.now at None }
{
    entry_at(tree.previous, at as usize, None)
}

/// The node that declares the name of an identifier, a call or a typedef name.
pub fn visible(tree: &Tree, at: u32) -> Option<u32>
    ensures { result ≡ slice_index_or tree.now.visible.now at None }
{
    entry_at(tree.visible, at as usize, None)
}

/// The declaration of a node's name that is visible directly before it.
pub fn earlier(tree: &Tree, at: u32) -> Option<u32>
    ensures { result ≡ slice_index_or tree.now.earlier.now at None }
{
    entry_at(tree.earlier, at as usize, None)
}

/// The last declaration before a node that declares the same.
pub fn same(tree: &Tree, at: u32) -> Option<u32>
    ensures { result ≡ slice_index_or tree.now.same.now at None }
{
    entry_at(tree.same, at as usize, None)
}

/// What a node has from above.
pub(crate) fn around(tree: &Tree, at: u32) -> Around
    ensures { result ≡ slice_index_or tree.now.around.now at outermost }
{
    entry_at(tree.around, at as usize, OUTERMOST)
}

/// The tag of a specifier.
pub(crate) fn tag_of(tree: &Tree, at: u32) -> Option<Tag>
    ensures { result ≡ slice_index_or tree.now.tags.now at None }
{
    entry_at(tree.tags, at as usize, None)
}
