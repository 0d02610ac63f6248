ghost use Rattle.std.specs.Prelude.{◌≡◌, ◌++◌, ◌∷◌, [], IfOk, OnOk};
ghost use Rattle.cr_check_types.specs.Types.{type_at};
ghost use Rattle.cr_typed.specs.Typed.{IsTyped};
ghost use Rattle.cr_meaning_operations.specs.Operations.{ops_from, unit_op, nodes_from, is_lasting, is_static_initialiser, kind_at, strings_of};
ghost use Rattle.cr_exec_table.specs.Table.{IsTableOf, one_if, strings_in};

use crate::calls::{names, parameters};
use crate::nodes::Nodes;
use crate::op::op;
use cr_eval::Table;
use cr_exec_shapes::{Types, kinds, literals, shapes, structures};
use cr_meaning::{Access, Limits, Op, Work};
use cr_memory::Scalar;
use cr_rows::Row;
use cr_syntax::Kind;
use cr_typed::Typed;
use std::alloc::{AllocError, Global};

/// The table of a typed unit's program, to be run within limits. Its time is that of the unit, of the cells of its objects and types,
/// and of the square of the number of its different types. The error is want of memory.
pub fn table(alloc: Global, typed: &Typed, limits: Limits) -> Result<Table, AllocError>
    requires { IsTyped typed.now }
    ensures { IfOk result (λ table. IsTableOf table typed.now limits) }
{
    let types = Types::new(alloc, typed)?;
    table_of(alloc, types, limits)
}

fn table_of(alloc: Global, types: Types, limits: Limits) -> Result<Table, AllocError>
    ensures { IfOk result (λ table. IsTableOf table types.entry limits) }
{
    let structures = structures(alloc, &types)?;
    let shapes = shapes(alloc, &types, &structures)?;
    let kinds = kinds(alloc, &types, &structures)?;
    let literals = literals(alloc, &types)?;
    let nodes = Nodes::new(alloc, types)?;
    let ops = ops(alloc, &nodes)?;
    Ok(Table {
        ops,
        shapes,
        literals,
        kinds,
        limits,
    })
}

fn ops(alloc: Global, nodes: &Nodes) -> Result<Row<Op>, AllocError>
    ensures { IfOk result (λ ops. ops ≡ ops_from nodes.now 0 nodes.now.nodes ++ unit_op nodes.now ∷ []) }
{
    let mut ops = Vec::new(alloc);
    for node in 0..nodes.types().count() {
        ops.push(op(alloc, nodes, node)?)?;
    }
    ops.push(unit_op(alloc, nodes)?)?;
    Ok(Row::from_vec(ops))
}

// The operation of the whole program (C11 5.1.2.2.1).
fn unit_op(alloc: Global, nodes: &Nodes) -> Result<Op, AllocError>
    ensures { IfOk result (λ op. op ≡ unit_op nodes.now) }
{
    let types = nodes.types();
    let main = types.typed().main;
    let strings = strings_of(types, names(types, main));
    let parameters = parameters(alloc, types, main)?;
    Ok(Op {
        parts: static_initialisers(alloc, nodes)?,
        work: Work::Program(
            lasting(alloc, nodes)?,
            parameters,
            strings,
            types.part(main, 2),
        ),
        access: Access::Unused,
    })
}

fn static_initialisers(alloc: Global, nodes: &Nodes) -> Result<Row<u32>, AllocError>
    ensures { IfOk result (λ row. row ≡ nodes_from (is_static_initialiser nodes.now) 0 nodes.now.nodes) }
{
    let mut found = Vec::new(alloc);
    for node in 0..nodes.types().count() {
        push_if(&mut found, node, is_static_initialiser(nodes, node))?;
    }
    Ok(Row::from_vec(found))
}

fn push_if(found: &mut Vec<u32>, node: u32, is: bool) -> Result<(), AllocError>
    ensures { OnOk result (found.new.items ≡ found.old.items ++ one_if is node) }
{
    if is {
        found.push(node)?;
        return Ok(());
    }
    Ok(())
}

fn is_static_initialiser(nodes: &Nodes, node: u32) -> bool
    ensures { result ≡ is_static_initialiser nodes.now node (kind_at nodes.now node) }
{
    match nodes.types().kind(node) {
        Kind::InitDeclarator => nodes.is_static(node),
        _ => false,
    }
}

// The objects of static duration, each at its first declaration, and the literals.
fn lasting(alloc: Global, nodes: &Nodes) -> Result<Row<u32>, AllocError>
    ensures { IfOk result (λ row. row ≡ nodes_from (is_lasting nodes.now) 0 nodes.now.nodes) }
{
    let mut found = Vec::new(alloc);
    for node in 0..nodes.types().count() {
        push_if(&mut found, node, is_lasting(nodes, node))?;
    }
    Ok(Row::from_vec(found))
}

fn is_lasting(nodes: &Nodes, node: u32) -> bool
    ensures { result ≡ is_lasting nodes.now node (kind_at nodes.now node) }
{
    match nodes.types().kind(node) {
        Kind::Text => true,
        Kind::NameDeclarator => nodes.is_static(node) && nodes.entity(node) == node,
        _ => false,
    }
}

// What the second parameter of `main` points to.
fn strings_of(types: &Types, parameters: &[u32]) -> Scalar
    ensures { result ≡ strings_of types.now parameters.now }
{
    match parameters {
        [_, vector] => strings_in(types, types.named_row(*vector)),
        _ => Scalar::Pointer(0),
    }
}

fn strings_in(types: &Types, row: u32) -> Scalar
    ensures { result ≡ strings_in types.now (type_at types.now.shapes row) }
{
    Scalar::Pointer(types.number(types.below(types.below(row))))
}
