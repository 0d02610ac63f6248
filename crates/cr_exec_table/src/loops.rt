ghost use Rattle.std.specs.Prelude.{◌≡◌, ◌+◌, ◌≤◌, ◌^◌, IfOk};
ghost use Rattle.cr_meaning_operations.specs.Operations.{part_from, clause_end, clause_objects, last_part, unless_body, for_by, for_of};

use crate::blocks::objects;
use crate::nodes::Nodes;
use cr_exec_shapes::Types;
use cr_meaning::{Access, Op, Work};
use cr_rows::Row;
use cr_syntax::Kind;
use std::alloc::{AllocError, Global};

/// The operation of a `for`: which clauses it has is told by where its parts begin (C11 6.8.5.3).
pub(crate) fn for_op(alloc: Global, nodes: &Nodes, node: u32) -> Result<Op, AllocError>
    ensures { IfOk result (λ op. op ≡ for_of nodes.now node) }
{
    let types = nodes.types();
    let parts = types.parts(node);
    let token = types.first(node) as usize + 2;
    let first = part_from(types, parts, token);
    Ok(Op {
        parts: Row::new(alloc),
        work: for_work(alloc, nodes, parts, token, first)?,
        access: Access::Unused,
    })
}

fn for_work(
    alloc: Global,
    nodes: &Nodes,
    parts: &[u32],
    token: usize,
    first: Option<u32>,
) -> Result<Work, AllocError>
    requires { token ≤ 2 ^ 40 }
    ensures { IfOk result (λ work. work ≡ for_by nodes.now parts.now token first) }
{
    let types = nodes.types();
    let objects = clause_objects(alloc, nodes, first)?;
    let middle = clause_end(types, token, first) + 1;
    let second = part_from(types, parts, middle);
    let step = part_from(types, parts, clause_end(types, middle, second) + 1);
    let body = last_part(parts);
    Ok(Work::For(objects, first, second, unless_body(body, step), body))
}

// The part that begins at a token.
fn part_from(types: &Types, parts: &[u32], token: usize) -> Option<u32>
    ensures { result ≡ part_from types.now parts.now token }
{
    for part in parts {
        if types.first(*part) as usize == token {
            return Some(*part);
        }
    }
    None
}

// The token of the `;` behind a clause: a declaration has it itself.
fn clause_end(types: &Types, token: usize, part: Option<u32>) -> usize
    requires { token ≤ 2 ^ 41 }
    ensures end { result ≡ clause_end types.now token part }
    ensures near { result ≤ token + 2 ^ 32 }
{
    match part {
        None => token,
        Some(part) => match types.kind(part) {
            Kind::Declaration => types.last(part) as usize,
            _ => types.last(part) as usize + 1,
        },
    }
}

fn clause_objects(alloc: Global, nodes: &Nodes, part: Option<u32>) -> Result<Row<u32>, AllocError>
    ensures { IfOk result (λ row. row ≡ clause_objects nodes.now part) }
{
    match part {
        None => Ok(Row::new(alloc)),
        Some(part) => objects(alloc, nodes, &[part]),
    }
}

fn last_part(parts: &[u32]) -> u32
    ensures { result ≡ last_part parts.now }
{
    match parts {
        [.., last] => *last,
        [] => 0,
    }
}

// A step stands before the `)`, so it is no body.
fn unless_body(body: u32, part: Option<u32>) -> Option<u32>
    ensures { result ≡ unless_body body part }
{
    match part {
        None => None,
        Some(part) => { if part == body { None } else { Some(part) } }
    }
}
