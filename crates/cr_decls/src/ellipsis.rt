//! The `...` of a function's own parameters.

ghost use Rattle.std.specs.Prelude.{◌≡◌, ◌<◌, ◌≤◌, length, if◌then◌else◌};
ghost use Rattle.cr_syntax.specs.Kept.{PartsAreBelow, AreBelow, row_in};
ghost use Rattle.cr_syntax.specs.Context.{is_bare};
ghost use Rattle.cr_syntax.specs.Units.{own_parameters, after_first};
ghost use Rattle.cr_exprs_descent.specs.Answers.{tree};
ghost use Rattle.cr_decls.specs.Ellipsis.{built_of, ellipsis_of, ellipsis_at};

use cr_rows::Row;
use cr_syntax::{Kind, Node, first, is_bare, rest_of};

/// What a declarator is built on.
#[derive(Clone, Copy, PartialEq, Eq, Debug)]
pub(crate) enum Built {
    /// A declarator that it makes a function.
    Function,
    /// Another declarator.
    Derived,
    /// No declarator.
    Name,
}

/// The token `...` in which a declarator's own parameters end, if they do.
pub(crate) fn own_ellipsis(nodes: &Row<Node>, declarator: u32) -> Option<u32>
    requires below { PartsAreBelow nodes.now }
    requires node { declarator < length nodes.now }
    ensures { result ≡ ellipsis_of (own_parameters (tree nodes.now declarator)) }
{
    ellipsis_in(nodes.as_slice(), &[declarator], nodes.len())
}

#[cycle(own)]
fn ellipsis_in(nodes: &[Node], row: &[u32], bound: usize) -> Option<u32>
    requires parts { PartsAreBelow nodes.now }
    requires row { AreBelow row.now bound }
    requires bound { bound ≤ length nodes.now }
    ensures { result ≡ ellipsis_of (own_parameters (row_in nodes.now row.now)) }
{
    match first(nodes, row) {
        None => None,
        Some(node) => {
            let parts = node.parts.as_slice();
            match built_of(node.kind) {
                Built::Function => function_ellipsis(nodes, parts, row[0] as usize),
                Built::Derived => ellipsis_in(nodes, parts, row[0] as usize),
                Built::Name => None,
            }
        }
    }
}

/// The same of a declarator that makes a function, of its parts.
#[cycle(own)]
fn function_ellipsis(nodes: &[Node], parts: &[u32], bound: usize) -> Option<u32>
    requires parts { PartsAreBelow nodes.now }
    requires row { AreBelow parts.now bound }
    requires bound { bound ≤ length nodes.now }
    ensures { result ≡ ellipsis_of (if is_bare (row_in nodes.now parts.now) then after_first (row_in nodes.now parts.now) else own_parameters (row_in nodes.now parts.now)) }
{
    if !is_bare(nodes, parts, bound) {
        return ellipsis_in(nodes, parts, bound);
    }
    match first(nodes, parts) {
        None => None,
        Some(_) => ellipsis_first(nodes, rest_of(parts)),
    }
}

fn ellipsis_first(nodes: &[Node], row: &[u32]) -> Option<u32>
    requires parts { PartsAreBelow nodes.now }
    requires row { AreBelow row.now (length nodes.now) }
    ensures { result ≡ ellipsis_of (row_in nodes.now row.now) }
{
    match first(nodes, row) {
        None => None,
        Some(node) => ellipsis_at(node.kind, node.last),
    }
}

fn ellipsis_at(kind: Kind, last: u32) -> Option<u32>
    ensures { result ≡ ellipsis_at kind last }
{
    match kind {
        Kind::VariadicParameters => Some(last),
        _ => None,
    }
}

fn built_of(kind: Kind) -> Built
    ensures { result ≡ built_of kind }
{
    match kind {
        Kind::FunctionDeclarator => Built::Function,
        Kind::GroupDeclarator | Kind::PointerDeclarator | Kind::ArrayDeclarator => Built::Derived,
        _ => Built::Name,
    }
}
