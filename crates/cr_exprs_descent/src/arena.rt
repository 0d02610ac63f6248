ghost use Rattle.std.specs.Prelude.{◌≡◌, ℕ, ◌+◌, ◌<◌, ◌^◌, ◌∷◌, [], ◌++◌, ◌≤◌, IfOk, IfErr, length, option_to_list, reverse};
ghost use Rattle.cr_syntax.specs.Trees.{Trees, none, node, one, ◌&◌};
ghost use Rattle.cr_syntax.specs.Kept.{AreBelow, PartsAreBelow, row_in};
ghost use Rattle.cr_syntax.specs.Context.{is_bare, past_part};
ghost use Rattle.cr_syntax_machine.specs.MachineBody.{is_unary, is_unary_kind, is_identifier, is_declarator, row_kind, in_row, in_parameters};
ghost use Rattle.cr_exprs_descent.specs.Tables.{is_void};
ghost use Rattle.cr_exprs_descent.specs.Answers.{IsPushed, IsGathered, IsRegathered, IsRow, Keeps, tree};

use crate::fault::ParseFault;
use crate::found::{Found, Listed, Optional};
use cr_rows::Row;
use cr_syntax::{Context, Kind, Node, Part, is_bare, past_node};
use std::alloc::Global;

/// Appends a node with these parts, from token `first` to before token `next`.
pub fn push(
    nodes: &mut Row<Node>,
    kind: Kind,
    first: usize,
    next: usize,
    parts: Row<u32>,
) -> Result<Found, ParseFault>
    requires parts { AreBelow parts (length nodes.old) }
    requires below { PartsAreBelow nodes.old }
    requires first { first < next }
    requires next { next < 2 ^ 32 }
    ensures ok { IfOk result (λ x. IsPushed nodes.old nodes.new (reverse parts) x) }
    ensures next { IfOk result (λ x. x.next ≡ next) }
    ensures tree { IfOk result (λ x. tree nodes.new x.node ≡ one kind first next (row_in nodes.old parts)) }
    ensures err { IfErr result (λ fault. fault ≡ ParseFault.NoMemory) }
{
    let Ok(node) = u32::try_from(nodes.len()) else {
        return Err(ParseFault::NoMemory);
    };
    nodes.push(Node {
        kind,
        first: first as u32,
        last: (next - 1) as u32,
        parts,
    })?;
    Ok(Found { node, next })
}

/// Appends a node without parts.
pub fn leaf(
    alloc: Global,
    nodes: &mut Row<Node>,
    kind: Kind,
    first: usize,
    next: usize,
) -> Result<Found, ParseFault>
    requires below { PartsAreBelow nodes.old }
    requires first { first < next }
    requires next { next < 2 ^ 32 }
    ensures ok { IfOk result (λ x. IsPushed nodes.old nodes.new [] x) }
    ensures next { IfOk result (λ x. x.next ≡ next) }
    ensures tree { IfOk result (λ x. tree nodes.new x.node ≡ one kind first next (none)) }
    ensures err { IfErr result (λ fault. fault ≡ ParseFault.NoMemory) }
{
    push(nodes, kind, first, next, Row::new(alloc))
}

/// Appends a node with one part.
pub fn over(
    alloc: Global,
    nodes: &mut Row<Node>,
    kind: Kind,
    first: usize,
    next: usize,
    part: u32,
) -> Result<Found, ParseFault>
    requires part { part < length nodes.old }
    requires below { PartsAreBelow nodes.old }
    requires first { first < next }
    requires next { next < 2 ^ 32 }
    ensures ok { IfOk result (λ x. IsPushed nodes.old nodes.new (part ∷ []) x) }
    ensures next { IfOk result (λ x. x.next ≡ next) }
    ensures tree { IfOk result (λ x. tree nodes.new x.node ≡ one kind first next (tree nodes.old part & none)) }
    ensures err { IfErr result (λ fault. fault ≡ ParseFault.NoMemory) }
{
    push(nodes, kind, first, next, row_of(alloc, part)?)
}

/// Appends a node with two parts.
pub fn pair(
    alloc: Global,
    nodes: &mut Row<Node>,
    kind: Kind,
    first: usize,
    next: usize,
    left: u32,
    right: u32,
) -> Result<Found, ParseFault>
    requires left { left < length nodes.old }
    requires right { right < length nodes.old }
    requires below { PartsAreBelow nodes.old }
    requires first { first < next }
    requires next { next < 2 ^ 32 }
    ensures ok { IfOk result (λ x. IsPushed nodes.old nodes.new (right ∷ left ∷ []) x) }
    ensures next { IfOk result (λ x. x.next ≡ next) }
    ensures tree { IfOk result (λ x. tree nodes.new x.node ≡ one kind first next (tree nodes.old left & tree nodes.old right & none)) }
    ensures err { IfErr result (λ fault. fault ≡ ParseFault.NoMemory) }
{
    let mut parts = row_of(alloc, left)?;
    parts.push(right)?;
    push(nodes, kind, first, next, parts)
}

/// Appends a node with three parts.
pub fn triple(
    alloc: Global,
    nodes: &mut Row<Node>,
    kind: Kind,
    first: usize,
    next: usize,
    left: u32,
    middle: u32,
    right: u32,
) -> Result<Found, ParseFault>
    requires left { left < length nodes.old }
    requires middle { middle < length nodes.old }
    requires right { right < length nodes.old }
    requires below { PartsAreBelow nodes.old }
    requires first { first < next }
    requires next { next < 2 ^ 32 }
    ensures ok { IfOk result (λ x. IsPushed nodes.old nodes.new (right ∷ middle ∷ left ∷ []) x) }
    ensures next { IfOk result (λ x. x.next ≡ next) }
    ensures tree { IfOk result (λ x. tree nodes.new x.node ≡ one kind first next (tree nodes.old left & tree nodes.old middle & tree nodes.old right & none)) }
    ensures err { IfErr result (λ fault. fault ≡ ParseFault.NoMemory) }
{
    let mut parts = row_of(alloc, left)?;
    parts.push(middle)?;
    parts.push(right)?;
    push(nodes, kind, first, next, parts)
}

/// Appends a node with one part or none.
pub(crate) fn over_optional(
    alloc: Global,
    nodes: &mut Row<Node>,
    kind: Kind,
    first: usize,
    part: Optional,
) -> Result<Found, ParseFault>
    requires part { AreBelow (option_to_list part.node) (length nodes.old) }
    requires below { PartsAreBelow nodes.old }
    requires first { first < part.next }
    requires next { part.next < 2 ^ 32 }
    ensures ok { IfOk result (λ x. IsPushed nodes.old nodes.new (option_to_list part.node) x) }
    ensures next { IfOk result (λ x. x.next ≡ part.next) }
    ensures tree { IfOk result (λ x. tree nodes.new x.node ≡ one kind first part.next (row_in nodes.old (option_to_list part.node))) }
    ensures err { IfErr result (λ fault. fault ≡ ParseFault.NoMemory) }
{
    match part.node {
        None => leaf(alloc, nodes, kind, first, part.next),
        Some(node) => over(alloc, nodes, kind, first, part.next, node),
    }
}

/// Appends a node with one part or two.
pub(crate) fn pair_optional(
    alloc: Global,
    nodes: &mut Row<Node>,
    kind: Kind,
    first: usize,
    left: u32,
    right: Optional,
) -> Result<Found, ParseFault>
    requires left { left < length nodes.old }
    requires right { AreBelow (option_to_list right.node) (length nodes.old) }
    requires below { PartsAreBelow nodes.old }
    requires first { first < right.next }
    requires next { right.next < 2 ^ 32 }
    ensures ok { IfOk result (λ x. IsPushed nodes.old nodes.new (option_to_list right.node ++ left ∷ []) x) }
    ensures next { IfOk result (λ x. x.next ≡ right.next) }
    ensures tree { IfOk result (λ x. tree nodes.new x.node ≡ one kind first right.next (tree nodes.old left & row_in nodes.old (option_to_list right.node))) }
    ensures err { IfErr result (λ fault. fault ≡ ParseFault.NoMemory) }
{
    match right.node {
        None => over(alloc, nodes, kind, first, right.next, left),
        Some(node) => pair(alloc, nodes, kind, first, right.next, left, node),
    }
}

/// A row of one number.
pub fn row_of(alloc: Global, part: u32) -> Result<Row<u32>, ParseFault>
    ensures ok { IfOk result (λ parts. parts ≡ part ∷ []) }
    ensures err { IfErr result (λ fault. fault ≡ ParseFault.NoMemory) }
{
    let mut parts = Vec::with_capacity(alloc, 4)?;
    parts.push(part)?;
    Ok(Row::from_vec(parts))
}

/// The row of specifiers of these parts: one alone makes no node.
pub(crate) fn gathered(
    nodes: &mut Row<Node>,
    part: Part,
    first: usize,
    list: Listed,
) -> Result<Found, ParseFault>
    requires row { IsRow list.parts (length nodes.old) }
    requires below { PartsAreBelow nodes.old }
    requires first { first < list.next }
    requires next { list.next < 2 ^ 32 }
    ensures ok { IfOk result (λ x. IsGathered nodes.old nodes.new (reverse list.parts) x) }
    ensures tree { IfOk result (λ x. tree nodes.new x.node ≡ in_row part first list.next (row_in nodes.old list.parts)) }
    ensures next { IfOk result (λ x. x.next ≡ list.next) }
    ensures err { IfErr result (λ fault. fault ≡ ParseFault.NoMemory) }
{
    if list.parts.len() == 1 {
        let node = list.parts.as_slice()[0];
        return Ok(Found {
            node,
            next: list.next,
        });
    }
    push(nodes, row_kind(part), first, list.next, list.parts)
}

fn row_kind(part: Part) -> Kind
    ensures { result ≡ row_kind part }
{
    match part {
        Part::Specifiers => Kind::Specifiers,
        _ => Kind::PlainSpecifiers,
    }
}

/// The list of these parameters, for which the nodes from number `before` on were read: one alone makes no node, and `void`
/// alone is none.
pub(crate) fn gathered_parameters(
    alloc: Global,
    nodes: &mut Row<Node>,
    before: usize,
    first: usize,
    list: Listed,
) -> Result<Found, ParseFault>
    requires row { IsRow list.parts (length nodes.old) }
    requires before { before < length nodes.old }
    requires below { PartsAreBelow nodes.old }
    requires first { first < list.next }
    requires next { list.next < 2 ^ 32 }
    ensures ok { IfOk result (λ x. IsRegathered before nodes.old nodes.new (reverse list.parts) x) }
    ensures tree { IfOk result (λ x. tree nodes.new x.node ≡ in_parameters first list.next (row_in nodes.old list.parts)) }
    ensures next { IfOk result (λ x. x.next ≡ list.next) }
    ensures err { IfErr result (λ fault. fault ≡ ParseFault.NoMemory) }
{
    if list.parts.len() != 1 {
        return push(nodes, Kind::Parameters, first, list.next, list.parts);
    }
    let node = list.parts.as_slice()[0];
    if !is_void(nodes.as_slice()[node as usize].kind) {
        return Ok(Found {
            node,
            next: list.next,
        });
    }
    drop_to(nodes, before);
    leaf(alloc, nodes, Kind::VoidParameters, first, list.next)
}

fn is_void(kind: Kind) -> bool
    ensures { result ≡ is_void kind }
{
    match kind {
        Kind::Void => true,
        _ => false,
    }
}

/// Takes the last nodes off, down to so many.
pub fn drop_to(nodes: &mut Row<Node>, count: usize)
    requires count { count ≤ length nodes.old }
    requires below { PartsAreBelow nodes.old }
    ensures length { length nodes.new ≡ count }
    ensures keeps { Keeps nodes.new nodes.old }
    ensures below { PartsAreBelow nodes.new }
{
    'dropped: while nodes.len() > count {
        let _ = nodes.pop();
    }
}

/// What is said after a node.
pub fn past(nodes: &Row<Node>, context: Context, node: u32) -> Context
    requires below { PartsAreBelow nodes.now }
    requires node { node < length nodes.now }
    ensures { result ≡ past_part context (tree nodes.now node) }
{
    let all = nodes.as_slice();
    past_node(all, context, &all[node as usize])
}

/// Whether an assignment operator can stand behind a node.
pub(crate) fn is_unary(nodes: &Row<Node>, node: u32) -> bool
    requires below { PartsAreBelow nodes.now }
    requires node { node < length nodes.now }
    ensures { result ≡ is_unary (tree nodes.now node) }
{
    is_unary_kind(nodes.as_slice()[node as usize].kind)
}

fn is_unary_kind(kind: Kind) -> bool
    ensures { result ≡ is_unary_kind kind }
{
    match kind {
        Kind::PreIncrement
        | Kind::PreDecrement
        | Kind::AddressOf
        | Kind::Dereference
        | Kind::Plus
        | Kind::Minus
        | Kind::Complement
        | Kind::Not
        | Kind::SizeofExpression
        | Kind::SizeofType
        | Kind::Call
        | Kind::Subscript
        | Kind::Member
        | Kind::PointerMember
        | Kind::PostIncrement
        | Kind::PostDecrement
        | Kind::Identifier
        | Kind::Integer
        | Kind::Character
        | Kind::Text
        | Kind::Group => true,
        _ => false,
    }
}

/// Whether a node is an identifier.
pub(crate) fn is_identifier(nodes: &Row<Node>, node: u32) -> bool
    requires below { PartsAreBelow nodes.now }
    requires node { node < length nodes.now }
    ensures { result ≡ is_identifier (tree nodes.now node) }
{
    is_identifier_kind(nodes.as_slice()[node as usize].kind)
}

fn is_identifier_kind(kind: Kind) -> bool
    ensures { (i j : ℕ) (a n : Trees) → result ≡ is_identifier (node kind i j a n) }
{
    match kind {
        Kind::Identifier => true,
        _ => false,
    }
}

/// Whether a node is a declarator with a name.
pub(crate) fn is_declarator(nodes: &Row<Node>, node: u32) -> bool
    requires below { PartsAreBelow nodes.now }
    requires node { node < length nodes.now }
    ensures { result ≡ is_declarator (tree nodes.now node) }
{
    is_declarator_kind(nodes.as_slice()[node as usize].kind)
}

fn is_declarator_kind(kind: Kind) -> bool
    ensures { (i j : ℕ) (a n : Trees) → result ≡ is_declarator (node kind i j a n) }
{
    match kind {
        Kind::NameDeclarator
        | Kind::GroupDeclarator
        | Kind::PointerDeclarator
        | Kind::ArrayDeclarator
        | Kind::FunctionDeclarator => true,
        _ => false,
    }
}

/// Whether a declarator is an identifier, in brackets or not.
pub(crate) fn is_name(nodes: &Row<Node>, node: u32) -> bool
    requires below { PartsAreBelow nodes.now }
    requires node { node < length nodes.now }
    ensures { result ≡ is_bare (tree nodes.now node) }
{
    let all = nodes.as_slice();
    is_name_node(all, &all[node as usize])
}

// It looks below brackets alone, so that a long row of parameters is walked once.
fn is_name_node(nodes: &[Node], declarator: &Node) -> bool
    requires parts { PartsAreBelow nodes.now }
    requires row { AreBelow declarator.now.parts (length nodes.now) }
    ensures { (i j : ℕ) (n : Trees) → result ≡ is_bare (node declarator.now.kind i j (row_in nodes.now declarator.now.parts) n) }
{
    match declarator.kind {
        Kind::NameDeclarator => true,
        Kind::GroupDeclarator => is_bare(nodes, declarator.parts.as_slice(), nodes.len()),
        _ => false,
    }
}
