ghost use Rattle.std.specs.Prelude.{◌≡◌, None, slice_index_or};
ghost use Rattle.cr_syntax.specs.Words.{AreSpans};
ghost use Rattle.cr_check_expressions.specs.Known.{spelling_of};
ghost use Rattle.cr_check_definitions.specs.Known.{first_part, kind_if};

use cr_check_declarators::{Declarator, Specified};
use cr_check_expressions::Declared;
use cr_check_types::Table;
use cr_rows::{Row, entry_at};
use cr_syntax::{Kind, Node, kind_at, spelling_at};
use cr_tokens::Token;

/// What is known of the declarations of a unit. Where nothing else is said a column has one entry a node, and what is not there is as
/// nothing known. A row is one of the table.
#[derive(Clone, Copy)]
pub struct Declarations<'a> {
    pub table: &'a Table,
    pub file: &'a [u8],
    pub tokens: &'a [Token],
    pub nodes: &'a [Node],
    /// The node above each.
    pub above: &'a [Option<u32>],
    /// For each token the whole declarator, or the enumerator, that declares it.
    pub declarers: &'a [Option<u32>],
    /// What specifiers say.
    pub specified: &'a [Specified],
    pub declarators: &'a [Declarator],
    /// What each node declares.
    pub declared: &'a [Declared],
    /// The row of the type of a declared name, or of the result of its function.
    pub named: &'a [u32],
    /// The rows of the parameters of a declared function.
    pub parameters: &'a [Row<u32>],
}

/// The first of some parts.
pub(crate) fn first_part(parts: &[u32]) -> Option<u32>
    ensures { result ≡ first_part parts.now }
{
    match parts {
        [part, ..] => Some(*part),
        [] => None,
    }
}

/// The kind of the node above a node.
pub(crate) fn kind_above(declarations: &Declarations, node: u32) -> Option<Kind>
    ensures { result ≡ kind_if declarations.now.nodes.now (slice_index_or declarations.now.above.now node None) }
{
    match entry_at(declarations.above, node as usize, None) {
        Some(above) => kind_at(declarations.nodes, above as usize),
        None => None,
    }
}

/// The bytes that spell a token.
pub(crate) fn spelled<'a>(declarations: &'a Declarations, token: u32) -> &'a [u8]
    requires { AreSpans declarations.now.file.now declarations.now.tokens.now }
    ensures { result.now ≡ spelling_of declarations.now.file.now declarations.now.tokens.now token }
{
    spelling_at(declarations.file, declarations.tokens, token as usize)
}
