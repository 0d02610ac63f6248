ghost use Rattle.std.specs.Prelude.{◌≡◌, ℕ, ◌<◌, ◌≤◌, MatchOption, length, drop};
ghost use Rattle.cr_syntax.specs.Trees.{none, one};
ghost use Rattle.cr_syntax.specs.Kept.{PartsAreBelow, AreBelow, IsFirst, row_in};
ghost use Rattle.cr_syntax.specs.Context.{past_token, past_part, is_type_specifier, is_typedef, any_kind, specifies, base_of, is_bare, declared_in, ending_of, has_else, ends_open};
ghost use Rattle.cr_syntax.specs.Kept.{IsFirst};

use crate::node::{Kind, Node};
use crate::part::Context;

/// What is said where nothing stands before.
pub const FRESH: Context = Context {
    typed: false,
    type_name: false,
    bare: false,
    name: 0,
};

/// What is said after a token.
pub fn past_token(context: Context) -> Context
    ensures { result ≡ past_token context }
{
    Context {
        typed: true,
        ..context
    }
}

/// The first node of a row.
pub fn first<'a>(nodes: &'a [Node], row: &[u32]) -> Option<&'a Node>
    requires parts { PartsAreBelow nodes.now }
    requires row { AreBelow row.now (length nodes.now) }
    ensures { MatchOption result (row_in nodes.now row.now ≡ none) (λ n. IsFirst nodes.now row.now n.now) }
{
    match row {
        [] => None,
        [k, ..] => Some(&nodes[*k as usize]),
    }
}

/// The row after its first node.
pub fn rest_of(row: &[u32]) -> &[u32]
    requires { 0 < length row.now }
    ensures { result.now ≡ drop 1 row.now }
{
    &row[1..]
}

fn is_type_specifier(kind: Kind) -> bool
    ensures { result ≡ is_type_specifier kind }
{
    match kind {
        Kind::Void
        | Kind::Char
        | Kind::Short
        | Kind::Int
        | Kind::Long
        | Kind::Signed
        | Kind::Unsigned
        | Kind::Bool
        | Kind::TypedefName
        | Kind::StructContent
        | Kind::StructTag
        | Kind::EnumContent
        | Kind::EnumTag => true,
        _ => false,
    }
}

fn is_typedef(kind: Kind) -> bool
    ensures { result ≡ is_typedef kind }
{
    match kind {
        Kind::Typedef => true,
        _ => false,
    }
}

fn any_type_specifier(nodes: &[Node], row: &[u32]) -> bool
    requires parts { PartsAreBelow nodes.now }
    requires row { AreBelow row.now (length nodes.now) }
    ensures { result ≡ any_kind is_type_specifier (row_in nodes.now row.now) }
{
    match first(nodes, row) {
        None => false,
        Some(node) => is_type_specifier(node.kind) || any_type_specifier(nodes, rest_of(row)),
    }
}

fn any_typedef(nodes: &[Node], row: &[u32]) -> bool
    requires parts { PartsAreBelow nodes.now }
    requires row { AreBelow row.now (length nodes.now) }
    ensures { result ≡ any_kind is_typedef (row_in nodes.now row.now) }
{
    match first(nodes, row) {
        None => false,
        Some(node) => is_typedef(node.kind) || any_typedef(nodes, rest_of(row)),
    }
}

fn says_type(nodes: &[Node], node: &Node) -> bool
    requires parts { PartsAreBelow nodes.now }
    requires row { AreBelow node.now.parts (length nodes.now) }
    ensures { result ≡ specifies is_type_specifier node.now.kind (row_in nodes.now node.now.parts) }
{
    match node.kind {
        Kind::Specifiers | Kind::PlainSpecifiers => any_type_specifier(
            nodes,
            node.parts.as_slice(),
        ),
        _ => is_type_specifier(node.kind),
    }
}

fn says_typedef(nodes: &[Node], node: &Node) -> bool
    requires parts { PartsAreBelow nodes.now }
    requires row { AreBelow node.now.parts (length nodes.now) }
    ensures { result ≡ specifies is_typedef node.now.kind (row_in nodes.now node.now.parts) }
{
    match node.kind {
        Kind::Specifiers | Kind::PlainSpecifiers => any_typedef(nodes, node.parts.as_slice()),
        _ => is_typedef(node.kind),
    }
}

/// What a declarator is built on.
#[derive(Clone, Copy, PartialEq, Eq, Debug)]
pub enum Base {
    /// Its own identifier.
    ItsName,
    /// A declarator in brackets.
    InBrackets,
    /// Another declarator, as its first part.
    Derived,
    /// Nothing: it is no declarator.
    NoDeclarator,
}

fn base_of(kind: Kind) -> Base
    ensures { result ≡ base_of kind }
{
    match kind {
        Kind::NameDeclarator => Base::ItsName,
        Kind::GroupDeclarator => Base::InBrackets,
        Kind::PointerDeclarator | Kind::ArrayDeclarator | Kind::FunctionDeclarator => Base::Derived,
        _ => Base::NoDeclarator,
    }
}

/// Whether a declarator is an identifier, in brackets or not.
pub fn is_bare(nodes: &[Node], row: &[u32], bound: usize) -> bool
    requires parts { PartsAreBelow nodes.now }
    requires row { AreBelow row.now bound }
    requires bound { bound ≤ length nodes.now }
    ensures { result ≡ is_bare (row_in nodes.now row.now) }
{
    match first(nodes, row) {
        None => false,
        Some(node) => match base_of(node.kind) {
            Base::ItsName => true,
            Base::InBrackets => is_bare(nodes, node.parts.as_slice(), row[0] as usize),
            Base::Derived | Base::NoDeclarator => false,
        },
    }
}

fn declared_in(nodes: &[Node], row: &[u32], bound: usize) -> u32
    requires parts { PartsAreBelow nodes.now }
    requires row { AreBelow row.now bound }
    requires bound { bound ≤ length nodes.now }
    ensures { result ≡ declared_in (row_in nodes.now row.now) }
{
    match first(nodes, row) {
        None => 0,
        Some(node) => match base_of(node.kind) {
            Base::ItsName => node.first,
            Base::InBrackets | Base::Derived => declared_in(
                nodes,
                node.parts.as_slice(),
                row[0] as usize,
            ),
            Base::NoDeclarator => 0,
        },
    }
}

/// What is said after a node.
pub fn past_node(nodes: &[Node], context: Context, node: &Node) -> Context
    requires parts { PartsAreBelow nodes.now }
    requires row { AreBelow node.now.parts (length nodes.now) }
    ensures { (j : ℕ) → result ≡ past_part context (one node.now.kind node.now.first j (row_in nodes.now node.now.parts)) }
{
    let parts = node.parts.as_slice();
    let (bare, name) = match base_of(node.kind) {
        Base::ItsName => (true, node.first),
        Base::InBrackets => (
            is_bare(nodes, parts, nodes.len()),
            declared_in(nodes, parts, nodes.len()),
        ),
        Base::Derived => (false, declared_in(nodes, parts, nodes.len())),
        Base::NoDeclarator => (false, 0),
    };
    Context {
        typed: context.typed || says_type(nodes, node),
        type_name: context.type_name || says_typedef(nodes, node),
        bare,
        name,
    }
}

/// How a statement ends.
#[derive(Clone, Copy, PartialEq, Eq, Debug)]
pub enum Ending {
    /// In a branch of an `if`.
    InBranch,
    /// In its last part, a statement.
    InBody,
    /// In a token of its own.
    Closed,
}

fn ending_of(kind: Kind) -> Ending
    ensures { result ≡ ending_of kind }
{
    match kind {
        Kind::If => Ending::InBranch,
        Kind::While | Kind::For | Kind::Label | Kind::Case | Kind::Default => Ending::InBody,
        _ => Ending::Closed,
    }
}

fn has_else(nodes: &[Node], row: &[u32]) -> bool
    requires parts { PartsAreBelow nodes.now }
    requires row { AreBelow row.now (length nodes.now) }
    ensures { result ≡ has_else (row_in nodes.now row.now) }
{
    match first(nodes, row) {
        None => false,
        Some(_) => {
            let rest = rest_of(row);
            match first(nodes, rest) {
                None => false,
                Some(_) => {
                    let rest = rest_of(rest);
                    first(nodes, rest).is_some()
                }
            }
        }
    }
}

/// Whether the last node of a row ends in an `if` without `else`.
#[cycle(open)]
pub fn ends_open(nodes: &[Node], row: &[u32], bound: usize) -> bool
    requires parts { PartsAreBelow nodes.now }
    requires row { AreBelow row.now bound }
    requires bound { bound ≤ length nodes.now }
    ensures { result ≡ ends_open (row_in nodes.now row.now) }
{
    match first(nodes, row) {
        None => false,
        Some(node) => {
            let rest = rest_of(row);
            match first(nodes, rest) {
                None => leaves_open(nodes, node, row[0] as usize),
                Some(_) => ends_open(nodes, rest, bound),
            }
        }
    }
}

#[cycle(open)]
fn leaves_open(nodes: &[Node], node: &Node, bound: usize) -> bool
    requires parts { PartsAreBelow nodes.now }
    requires row { AreBelow node.now.parts bound }
    requires bound { bound ≤ length nodes.now }
    ensures { (i j : ℕ) → result ≡ ends_open (one node.now.kind i j (row_in nodes.now node.now.parts)) }
{
    let parts = node.parts.as_slice();
    match ending_of(node.kind) {
        Ending::InBranch => !has_else(nodes, parts) || ends_open(nodes, parts, bound),
        Ending::InBody => ends_open(nodes, parts, bound),
        Ending::Closed => false,
    }
}
