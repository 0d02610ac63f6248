ghost use Rattle.std.specs.Prelude.{◌≡◌, IfOk, length};
ghost use Rattle.cr_syntax.specs.Words.{AreSpans};
ghost use Rattle.cr_check_types.specs.Types.{type_at, unknown};
ghost use Rattle.cr_typed_columns.specs.Reading.{parsed_of};
ghost use Rattle.cr_typed_columns.specs.Entities.{AreFound};
ghost use Rattle.cr_typed_columns.specs.Rows.{listed};
ghost use Rattle.cr_typed_columns.specs.Columns.{layout_at as layout_at_lem, AreColumns, AreEntities, AreValues, IsElaborated, IsShaped};
ghost use Rattle.cr_typed_columns.specs.declared.checked.CheckedColumns.{CheckedColumns};

use crate::checked::CheckedColumns;
use crate::expressions::{chosen, constants, types, valued};
use crate::functions::{main_of, parameters};
use crate::lasts::{Found, declarations_of};
use crate::naming::{durations, named, refs};
use crate::plans::{members, plans};
use crate::rows::rows_once;
use cr_check_types::{Layout, NOTHING, Table};
use cr_rows::{Row, entry_at};
use cr_syntax::{Node, Unit};
use cr_typed::{Duration, Put, Typed};
use std::alloc::{AllocError, Global};

/// The typed unit of a file, by what was checked of its nodes and the bytes of its string literals. The checked table's first row is that
/// of no type. The error is want of memory.
pub fn assemble(
    alloc: Global,
    file: Row<u8>,
    unit: Unit,
    texts: Row<Row<u8>>,
    checked: &CheckedColumns,
) -> Result<Typed, AllocError>
    requires spans { AreSpans file unit.tokens.list.items }
    requires first { type_at checked.now.table.now 0 ≡ unknown }
    ensures { IfOk result (λ t. IsElaborated file (parsed_of unit) texts checked.now t) }
{
    let columns = columns_of(alloc, file.as_slice(), &unit, checked)?;
    Ok(put_together(file, unit, texts, columns))
}

fn put_together(file: Row<u8>, unit: Unit, texts: Row<Row<u8>>, columns: Columns) -> Typed
    ensures { (j : CheckedColumns) → AreColumns file (parsed_of unit) j columns → IsElaborated file (parsed_of unit) texts j result }
{
    let Columns {
        shaped,
        entities,
        values,
        main,
    } = columns;
    Typed {
        file,
        tokens: Row::from_vec(unit.tokens.list),
        nodes: unit.nodes,
        items: unit.items,
        shapes: shaped.shapes,
        types: shaped.types,
        refs: entities.refs,
        valued: values.valued,
        named: shaped.named,
        durations: entities.durations,
        constants: values.constants,
        layouts: values.layouts,
        members: shaped.members,
        chosen: values.chosen,
        parameters: entities.parameters,
        plans: shaped.plans,
        texts,
        main,
    }
}

/// What is worked out of a unit, in groups, so that little is owned where memory may be wanting.
#[derive(Drop)]
struct Columns {
    shaped: Shaped,
    entities: Entities,
    values: Values,
    main: u32,
}

fn columns_of(
    alloc: Global,
    file: &[u8],
    unit: &Unit,
    checked: &CheckedColumns,
) -> Result<Columns, AllocError>
    requires spans { AreSpans file.now unit.now.tokens.list.items }
    requires first { type_at checked.now.table.now 0 ≡ unknown }
    ensures { IfOk result (λ c. AreColumns file.now (parsed_of unit.now) checked.now c) }
{
    let main = main_of(file, unit)?;
    let values = values_of(alloc, unit.nodes.as_slice(), checked)?;
    let (entities, shaped) = named_of(alloc, unit, checked)?;
    Ok(Columns {
        shaped,
        entities,
        values,
        main,
    })
}

// The columns that the declarations of names give.
fn named_of(
    alloc: Global,
    unit: &Unit,
    checked: &CheckedColumns,
) -> Result<(Entities, Shaped), AllocError>
    requires { type_at checked.now.table.now 0 ≡ unknown }
    ensures entities { IfOk result (λ both. AreEntities (parsed_of unit.now) checked.now both.0) }
    ensures shaped { IfOk result (λ both. IsShaped (parsed_of unit.now) checked.now both.1) }
{
    let found = declarations_of(alloc, unit, checked)?;
    let entities = entities_of(alloc, unit, checked, &found)?;
    let shaped = types_of(alloc, unit, checked, &found)?;
    Ok((entities, shaped))
}

/// The columns of what names stand for.
#[derive(Drop)]
struct Entities {
    refs: Row<Option<u32>>,
    durations: Row<Duration>,
    parameters: Row<Row<u32>>,
}

fn entities_of(
    alloc: Global,
    unit: &Unit,
    checked: &CheckedColumns,
    found: &Found,
) -> Result<Entities, AllocError>
    requires { AreFound (parsed_of unit.now) checked.now found.now }
    ensures { IfOk result (λ e. AreEntities (parsed_of unit.now) checked.now e) }
{
    let refs = refs(alloc, unit, checked, found)?;
    let durations = durations(alloc, unit, checked, found)?;
    let parameters = parameters(alloc, unit, checked, found)?;
    Ok(Entities {
        refs,
        durations,
        parameters,
    })
}

/// The columns of what nodes give by themselves.
#[derive(Drop)]
struct Values {
    valued: Row<bool>,
    constants: Row<Option<i128>>,
    layouts: Row<Layout>,
    chosen: Row<usize>,
}

fn values_of(alloc: Global, nodes: &[Node], checked: &CheckedColumns) -> Result<Values, AllocError>
    ensures { IfOk result (λ v. AreValues nodes.now checked.now v) }
{
    let valued = valued(alloc, nodes, checked)?;
    let constants = constants(alloc, nodes.len(), checked)?;
    let layouts = layouts(alloc, nodes.len(), checked)?;
    let chosen = chosen(alloc, nodes, checked)?;
    Ok(Values {
        valued,
        constants,
        layouts,
        chosen,
    })
}

/// The types of a unit, and the columns that name their rows.
#[derive(Drop)]
struct Shaped {
    shapes: Table,
    types: Row<u32>,
    named: Row<u32>,
    members: Row<Row<u32>>,
    plans: Row<Row<Put>>,
}

fn types_of(
    alloc: Global,
    unit: &Unit,
    checked: &CheckedColumns,
    found: &Found,
) -> Result<Shaped, AllocError>
    requires first { type_at checked.now.table.now 0 ≡ unknown }
    requires found { AreFound (parsed_of unit.now) checked.now found.now }
    ensures { IfOk result (λ s. IsShaped (parsed_of unit.now) checked.now s) }
{
    let nodes = unit.nodes.as_slice();
    let given_types = types(alloc, nodes.len(), checked)?;
    let given_named = named(alloc, unit, checked, found)?;
    let mut shapes = Table::new(alloc)?;
    let types = rows_once(alloc, &mut shapes, checked.table, &given_types)?;
    let named = rows_once(alloc, &mut shapes, checked.table, &given_named)?;
    let members = members(alloc, &mut shapes, nodes, checked)?;
    let plans = plans(alloc, &mut shapes, nodes.len(), checked)?;
    shapes.is_canonical();
    Ok(Shaped {
        shapes,
        types,
        named,
        members,
        plans,
    })
}

fn layout_at(checked: &CheckedColumns, at: usize) -> Layout
    ensures { result ≡ layout_at_lem checked.now at }
{
    entry_at(checked.layouts, at, NOTHING)
}

// The layout of each structure.
#[tactic(auto, using(crate::proofs::Listed::one_more))]
fn layouts(alloc: Global, nodes: usize, checked: &CheckedColumns) -> Result<Row<Layout>, AllocError>
    ensures { IfOk result (λ layouts. layouts ≡ listed (layout_at_lem checked.now) nodes) }
{
    let mut layouts = Row::new(alloc);
    for at in 0..nodes {
        layouts.push(layout_at(checked, at))?;
    }
    Ok(layouts)
}
