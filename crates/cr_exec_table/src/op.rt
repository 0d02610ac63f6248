ghost use Rattle.std.specs.Prelude.{◌≡◌, ◌∷◌, [], None, map, IfOk, slice_index_or};
ghost use Rattle.cr_meaning.specs.declared.op.Work.TheVariants as work;
ghost use Rattle.cr_meaning_operations.specs.Operations.{node_op, placed, identifier_by, address_by, kind_at, parts_at, declarators_of, line_of, switch_of};
ghost use Rattle.cr_exec_table.specs.Roles.{role_of, op_in, op_at, block_work, initialise_op};

use crate::blocks::{declarators, objects};
use crate::calls::callee;
use crate::labels::{labelled, labels_before};
use crate::loops::for_op;
use crate::nodes::Nodes;
use crate::role::{Role, role_of};
use crate::work::{
    constant_at, constant_of, duty_work, either_element, leaf_work, promoted, reach_work,
};
use cr_exec_shapes::Types;
use cr_meaning::{Access, Change, Line, Op, Work};
use cr_rows::Row;
use cr_syntax::Kind;
use cr_typed::Put;
use std::alloc::{AllocError, Global};

/// The operation of a node.
#[tactic(auto, using(crate::proofs::Roles::op_is))]
pub(crate) fn op(alloc: Global, nodes: &Nodes, node: u32) -> Result<Op, AllocError>
    ensures { IfOk result (λ op. op ≡ op_at nodes.now node) }
{
    op_in(alloc, nodes, node, role_of(nodes.types().kind(node)))
}

#[tactic(auto, unfolding(crate::specs::Roles::op_in))]
fn op_in(alloc: Global, nodes: &Nodes, node: u32, role: Role) -> Result<Op, AllocError>
    ensures { IfOk result (λ op. op ≡ op_in nodes.now node role) }
{
    let types = nodes.types();
    match role {
        Role::Worker(duty) => whole(alloc, types, node, duty_work(types, node, duty)),
        Role::Placer(reach) => placed(
            alloc,
            types,
            node,
            types.parts(node),
            reach_work(types, node, reach),
        ),
        Role::Single(leaf) => Ok(alone(alloc, leaf_work(nodes, node, leaf))),
        Role::Text => placed(
            alloc,
            types,
            node,
            &[],
            Work::Object(node, types.name(types.row(node))),
        ),
        Role::Identifier => identifier(alloc, nodes, node),
        Role::Cast => with_one(
            alloc,
            types.part(node, 1),
            Work::Cast(types.form(types.named_row(node))),
        ),
        Role::Address => address(alloc, types, node, types.part(node, 0)),
        Role::Labelled => with_one(alloc, labelled(types, node), Work::Labelled),
        Role::Call => whole(alloc, types, node, Work::Call(callee(alloc, nodes, node)?)),
        Role::Block => whole(alloc, types, node, block_work(alloc, nodes, node)?),
        Role::Switch => switch(alloc, nodes, node, types.part(node, 1)),
        Role::For => for_op(alloc, nodes, node),
        Role::Declaration => declaration(alloc, nodes, node),
        Role::Initialise => initialise(alloc, nodes, node),
    }
}

// An operation with these operands, which gives no place.
fn with(alloc: Global, parts: &[u32], work: Work) -> Result<Op, AllocError>
    ensures { IfOk result (λ op. op ≡ node_op parts.now work) }
{
    Ok(Op {
        parts: copied(alloc, parts)?,
        work,
        access: Access::Unused,
    })
}

fn copied(alloc: Global, parts: &[u32]) -> Result<Row<u32>, AllocError>
    ensures { IfOk result (λ row. row ≡ parts.now) }
{
    let parts = parts.iter().copied().collect(alloc)?;
    Ok(Row::from_vec(parts))
}

// Its operands are all parts of a node.
fn whole(alloc: Global, types: &Types, node: u32, work: Work) -> Result<Op, AllocError>
    ensures { IfOk result (λ op. op ≡ node_op (parts_at types.now node) work) }
{
    with(alloc, types.parts(node), work)
}

fn with_one(alloc: Global, part: u32, work: Work) -> Result<Op, AllocError>
    ensures { IfOk result (λ op. op ≡ node_op (part ∷ []) work) }
{
    with(alloc, &[part], work)
}

fn alone(alloc: Global, work: Work) -> Op
    ensures { result ≡ node_op [] work }
{
    Op {
        parts: Row::new(alloc),
        work,
        access: Access::Unused,
    }
}

// An operation that may give a place.
fn placed(
    alloc: Global,
    types: &Types,
    node: u32,
    parts: &[u32],
    work: Work,
) -> Result<Op, AllocError>
    ensures { IfOk result (λ op. op ≡ placed types.now node parts.now work) }
{
    Ok(Op {
        parts: copied(alloc, parts)?,
        work,
        access: types.access(node),
    })
}

// An enumerator is a constant (C11 6.4.4.3).
fn identifier(alloc: Global, nodes: &Nodes, node: u32) -> Result<Op, AllocError>
    ensures { IfOk result (λ op. op ≡ identifier_by nodes.now node (slice_index_or nodes.now.constants node None)) }
{
    let types = nodes.types();
    match constant_at(types, node) {
        None => {
            let entity = nodes.entity(node);
            let of = types.name(types.named_row(entity));
            placed(alloc, types, node, &[], Work::Object(entity, of))
        }
        Some(value) => Ok(alone(alloc, constant_of(types, node, value))),
    }
}

// `&*E` is E, and `&E1[E2]` is the sum of both (6.5.3.2p3).
fn address(alloc: Global, types: &Types, node: u32, operand: u32) -> Result<Op, AllocError>
    ensures { IfOk result (λ op. op ≡ address_by types.now node operand (kind_at types.now operand)) }
{
    match types.kind(operand) {
        Kind::Dereference => whole(alloc, types, operand, Work::Pass),
        Kind::Subscript => {
            let change = Change::Move(false, either_element(types, operand));
            whole(alloc, types, operand, Work::Binary(change))
        }
        _ => whole(alloc, types, node, Work::AddressOf),
    }
}

fn block_work(alloc: Global, nodes: &Nodes, node: u32) -> Result<Work, AllocError>
    ensures { IfOk result (λ work. work ≡ block_work nodes.now node) }
{
    let items = nodes.types().parts(node);
    let objects = objects(alloc, nodes, items)?;
    let labels = labels_before(alloc, nodes.types(), items)?;
    Ok(Work::Block(objects, Row::from_vec(labels.targets)))
}

fn switch(alloc: Global, nodes: &Nodes, node: u32, body: u32) -> Result<Op, AllocError>
    ensures { IfOk result (λ op. op ≡ switch_of nodes.now node body (parts_at nodes.now body)) }
{
    let types = nodes.types();
    let items = types.parts(body);
    let objects = objects(alloc, nodes, items)?;
    let labels = labels_before(alloc, types, items)?;
    Ok(Op {
        parts: before(alloc, types.part(node, 0), items)?,
        work: Work::Switch(
            promoted(types, node),
            body,
            objects,
            Row::from_vec(labels.cases),
            labels.default,
            Row::from_vec(labels.targets),
        ),
        access: Access::Unused,
    })
}

fn before(alloc: Global, first: u32, items: &[u32]) -> Result<Row<u32>, AllocError>
    ensures { IfOk result (λ row. row ≡ first ∷ items.now) }
{
    let mut parts = Vec::new(alloc);
    parts.push(first)?;
    for item in items {
        parts.push(*item)?;
    }
    Ok(Row::from_vec(parts))
}

fn declaration(alloc: Global, nodes: &Nodes, node: u32) -> Result<Op, AllocError>
    ensures { IfOk result (λ op. op ≡ node_op (declarators_of nodes.now node) work.Declaration) }
{
    Ok(Op {
        parts: declarators(alloc, nodes, node)?,
        work: Work::Declaration,
        access: Access::Unused,
    })
}

fn initialise(alloc: Global, nodes: &Nodes, node: u32) -> Result<Op, AllocError>
    ensures { IfOk result (λ op. op ≡ initialise_op nodes.now node) }
{
    let types = nodes.types();
    let plan = plan(types, node);
    let object = nodes.entity(nodes.name(node));
    Ok(Op {
        parts: initialisers(alloc, plan)?,
        work: Work::Initialise(object, lines(alloc, types, plan)?),
        access: Access::Unused,
    })
}

fn plan<'a>(types: &Types<'a>, node: u32) -> &'a [Put]
    ensures { result.now ≡ slice_index_or types.now.plans node [] }
{
    match types.typed().plans.as_slice().get(node as usize) {
        Some(plan) => plan.as_slice(),
        None => &[],
    }
}

fn initialisers(alloc: Global, plan: &[Put]) -> Result<Row<u32>, AllocError>
    ensures { IfOk result (λ row. row ≡ map (λ put. put.node) plan.now) }
{
    let nodes = plan.iter().map(|put| put.node).collect(alloc)?;
    Ok(Row::from_vec(nodes))
}

fn lines(alloc: Global, types: &Types, plan: &[Put]) -> Result<Row<Line>, AllocError>
    ensures { IfOk result (λ row. row ≡ map (line_of types.now) plan.now) }
{
    let mut lines = Vec::new(alloc);
    for put in plan {
        lines.push(line(types, *put))?;
    }
    Ok(Row::from_vec(lines))
}

fn line(types: &Types, put: Put) -> Line
    ensures { result ≡ line_of types.now put }
{
    Line {
        cell: put.cell,
        form: types.form(put.row),
        user: put.user,
    }
}
