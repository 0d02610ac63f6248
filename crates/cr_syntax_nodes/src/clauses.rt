// Which clauses of a `for` are there (C11 6.8.5.3).
ghost use Rattle.std.specs.Prelude.{◌≡◌, ◌+◌, ◌≤◌, ◌^◌, drop};
ghost use Rattle.cr_syntax_nodes.specs.Loops.{absent, behind_clause, clause_by, clause_of, left_of, clauses_of};

use cr_syntax::{Kind, Node};

/// The clauses of a `for`, each by the number of its node; None where it is left out. The body is the last part.
#[derive(Clone, Copy)]
pub struct Clauses {
    /// A declaration or an expression.
    pub first: Option<u32>,
    pub test: Option<u32>,
    pub step: Option<u32>,
}

/// A clause, and the token behind the one that ends it.
#[derive(Clone, Copy)]
struct Clause {
    node: Option<u32>,
    next: usize,
}

/// The clauses of a `for` among the nodes of its unit: each is there where the next part begins at its first token.
pub fn loop_clauses(nodes: &[Node], node: &Node) -> Clauses
    ensures { result ≡ clauses_of nodes.now node.now }
{
    let parts = node.parts.as_slice();
    let first = next_clause(nodes, parts, node.first as usize + 1 + 1);
    let parts = left(first, parts);
    let test = next_clause(nodes, parts, first.next);
    let step = next_clause(nodes, left(test, parts), test.next);
    Clauses {
        first: first.node,
        test: test.node,
        step: step.node,
    }
}

fn next_clause(nodes: &[Node], parts: &[u32], at: usize) -> Clause
    requires { at ≤ 2 ^ 40 }
    ensures value { result ≡ clause_of nodes.now parts.now at }
    ensures end { result.next ≤ at + 1 + 2 ^ 32 }
{
    match parts {
        [] => absent(at),
        [part, ..] => if (*part as usize) < nodes.len() {
            by_node(&nodes[*part as usize], *part, at)
        } else {
            absent(at)
        },
    }
}

fn by_node(node: &Node, part: u32, at: usize) -> Clause
    requires { at ≤ 2 ^ 40 }
    ensures value { result ≡ clause_by part node.now at }
    ensures end { result.next ≤ at + 1 + 2 ^ 32 }
{
    if node.first as usize == at {
        Clause {
            node: Some(part),
            next: behind(node.kind, node.last),
        }
    } else {
        absent(at)
    }
}

fn absent(at: usize) -> Clause
    requires { at ≤ 2 ^ 40 }
    ensures { result ≡ absent at }
{
    Clause {
        node: None,
        next: at + 1,
    }
}

// A declaration has its `;`, which stands behind an expression.
fn behind(kind: Kind, last: u32) -> usize
    ensures value { result ≡ behind_clause kind last }
    ensures end { result ≤ 1 + 2 ^ 32 }
{
    match kind {
        Kind::Declaration => last as usize + 1,
        _ => last as usize + 1 + 1,
    }
}

fn left(clause: Clause, parts: &[u32]) -> &[u32]
    ensures { result.now ≡ left_of clause parts.now }
{
    match clause.node {
        Some(_) => rest(parts),
        None => parts,
    }
}

fn rest(parts: &[u32]) -> &[u32]
    ensures { result.now ≡ drop 1 parts.now }
{
    &parts[1.min(parts.len())..]
}
