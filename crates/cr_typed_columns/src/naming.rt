// What names have in a run.
ghost use Rattle.std.specs.Prelude.{◌≡◌, IfOk, length, map, slice_index_or};
ghost use Rattle.cr_check_types.specs.Types.{type_at, unknown};
ghost use Rattle.cr_typed_columns.specs.Reading.{parsed_of};
ghost use Rattle.cr_typed_columns.specs.Entities.{AreFound};
ghost use Rattle.cr_typed_columns.specs.Rows.{listed, type_in};
ghost use Rattle.cr_typed_columns.specs.Names.{is_mention, mentioned_token, is_goto, ref_of as ref_of_lem, around_of, is_list, function_above, is_same, is_own, of_parameter, of_object, by_place, by_declared, duration_of as duration_of_lem, type_named, is_initialised, initialised_if, with_initialiser, whole_if, composite_type, or_first, function_type, entity_type, is_here, name_type, named_by, named_of};

use crate::checked::CheckedColumns;
use crate::functions::function_of;
use crate::lasts::{
    Found, declared_of, definition_of, entity_if, entity_of, first_declared, is_kept,
    last_declared, whole_of,
};
use crate::reading::{entry, kind_of, part_at};
use crate::rows::Named;
use cr_check_enclosing::{Around, OUTERMOST, Place};
use cr_check_expressions::Declared;
use cr_rows::{Row, entry_at};
use cr_scopes_events::first_at;
use cr_syntax::{Kind, Node, Unit, kind_at, number_of};
use cr_typed::Duration;
use std::alloc::{AllocError, Global};

// ---- entities

fn is_mention(kind: Option<Kind>) -> bool
    ensures { result ≡ is_mention kind }
{
    match kind {
        Some(Kind::Identifier | Kind::Call | Kind::NameDeclarator) => true,
        _ => false,
    }
}

fn mentioned_token(nodes: &[Node], at: usize) -> Option<u32>
    ensures { result ≡ mentioned_token nodes.now at }
{
    if is_mention(kind_at(nodes, at)) {
        first_at(nodes, at)
    } else {
        None
    }
}

fn is_goto(kind: Option<Kind>) -> bool
    ensures { result ≡ is_goto kind }
{
    match kind {
        Some(Kind::Goto) => true,
        _ => false,
    }
}

fn ref_of(unit: &Unit, checked: &CheckedColumns, found: &Found, at: usize) -> Option<u32>
    requires { AreFound (parsed_of unit.now) checked.now found.now }
    ensures { result ≡ ref_of_lem (parsed_of unit.now) checked.now at }
{
    let nodes = unit.nodes.as_slice();
    if is_goto(kind_at(nodes, at)) {
        entry_at(checked.labels, at, None)
    } else {
        let entity = entity_if(checked.names, mentioned_token(nodes, at));
        first_declared(unit, checked, found, entity)
    }
}

/// For each name the node that declares its entity first, and for each `goto` its label.
#[tactic(auto, using(crate::proofs::Listed::one_more))]
pub(crate) fn refs(
    alloc: Global,
    unit: &Unit,
    checked: &CheckedColumns,
    found: &Found,
) -> Result<Row<Option<u32>>, AllocError>
    requires { AreFound (parsed_of unit.now) checked.now found.now }
    ensures { IfOk result (λ refs. refs ≡ listed (ref_of_lem (parsed_of unit.now) checked.now) (length unit.now.nodes)) }
{
    let mut refs = Row::new(alloc);
    for at in 0..unit.nodes.len() {
        refs.push(ref_of(unit, checked, found, at))?;
    }
    Ok(refs)
}

// ---- durations

fn around_of(checked: &CheckedColumns, node: Option<u32>) -> Around
    ensures { result ≡ around_of checked.now node }
{
    entry(checked.around, OUTERMOST, node)
}

fn is_list(kind: Option<Kind>) -> bool
    ensures { result ≡ is_list kind }
{
    match kind {
        Some(Kind::Parameters | Kind::VariadicParameters) => true,
        _ => false,
    }
}

// The function declarator that has a parameter alone or in a list.
fn function_above(nodes: &[Node], checked: &CheckedColumns, above: Option<u32>) -> Option<u32>
    ensures { result ≡ function_above nodes.now checked.now above }
{
    if is_list(kind_of(nodes, above)) {
        entry(checked.above, None, above)
    } else {
        above
    }
}

fn is_same(node: Option<u32>, other: Option<u32>) -> bool
    ensures { result ≡ is_same node other }
{
    match node {
        Some(node) => is_here(node, other),
        None => false,
    }
}

// Whether a whole declarator is that of a parameter of this definition itself.
fn is_own(
    nodes: &[Node],
    checked: &CheckedColumns,
    whole: Option<u32>,
    definition: Option<u32>,
) -> bool
    ensures { result ≡ is_own nodes.now checked.now whole definition }
{
    match definition {
        Some(definition) => {
            let above = entry(checked.above, None, entry(checked.above, None, whole));
            is_same(
                function_above(nodes, checked, above),
                function_of(nodes, checked, definition as usize),
            )
        }
        None => false,
    }
}

fn of_parameter(own: bool) -> Duration
    ensures { result ≡ of_parameter own }
{
    if own {
        Duration::Automatic
    } else {
        Duration::NoObject
    }
}

fn of_object(is_static: bool, kept: bool) -> Duration
    ensures { result ≡ of_object is_static kept }
{
    match (is_static, kept) {
        (false, _) => Duration::Automatic,
        (true, true) => Duration::Static,
        (true, false) => Duration::NoObject,
    }
}

fn by_place(place: Place, own: bool, is_static: bool, kept: bool) -> Duration
    ensures { result ≡ by_place place own is_static kept }
{
    match place {
        Place::Parameter => of_parameter(own),
        _ => of_object(is_static, kept),
    }
}

fn by_declared(declared: Declared, place: Place, own: bool, is_static: bool, kept: bool) -> Duration
    ensures { result ≡ by_declared declared place own is_static kept }
{
    match declared {
        Declared::Object(..) => by_place(place, own, is_static, kept),
        _ => Duration::NoObject,
    }
}

fn duration_of(unit: &Unit, checked: &CheckedColumns, found: &Found, at: usize) -> Duration
    requires { AreFound (parsed_of unit.now) checked.now found.now }
    ensures { result ≡ duration_of_lem unit.now.nodes checked.now at }
{
    let nodes = unit.nodes.as_slice();
    let whole = whole_of(nodes, checked, at);
    let around = around_of(checked, whole);
    let own = is_own(nodes, checked, whole, around.function);
    let kept = is_kept(unit, checked, found, entity_of(nodes, checked.names, at));
    let is_static = entry(checked.statics, false, whole);
    by_declared(
        declared_of(checked, whole),
        around.place,
        own,
        is_static,
        kept,
    )
}

/// What the object of each declared name is.
#[tactic(auto, using(crate::proofs::Listed::one_more))]
pub(crate) fn durations(
    alloc: Global,
    unit: &Unit,
    checked: &CheckedColumns,
    found: &Found,
) -> Result<Row<Duration>, AllocError>
    requires { AreFound (parsed_of unit.now) checked.now found.now }
    ensures { IfOk result (λ durations. durations ≡ listed (duration_of_lem unit.now.nodes checked.now) (length unit.now.nodes)) }
{
    let mut durations = Row::new(alloc);
    for at in 0..unit.nodes.len() {
        durations.push(duration_of(unit, checked, found, at))?;
    }
    Ok(durations)
}

// ---- types

fn type_named(checked: &CheckedColumns, node: Option<u32>) -> Named
    ensures { type_in (type_at checked.now.table.now) result ≡ type_named checked.now node }
{
    Named::Row(entry(checked.named, 0, node))
}

fn is_initialised(kind: Option<Kind>) -> bool
    ensures { result ≡ is_initialised kind }
{
    match kind {
        Some(Kind::InitDeclarator) => true,
        _ => false,
    }
}

fn with_initialiser(nodes: &[Node], checked: &CheckedColumns, whole: Option<u32>) -> Option<u32>
    ensures { result ≡ with_initialiser nodes.now checked.now whole }
{
    let above = entry(checked.above, None, whole);
    if is_initialised(kind_of(nodes, above)) {
        above
    } else {
        whole
    }
}

fn whole_if(nodes: &[Node], checked: &CheckedColumns, name: Option<u32>) -> Option<u32>
    ensures { result ≡ whole_if nodes.now checked.now name }
{
    match name {
        Some(name) => whole_of(nodes, checked, name as usize),
        None => None,
    }
}

fn composite_type(
    unit: &Unit,
    checked: &CheckedColumns,
    found: &Found,
    entity: Option<u32>,
) -> Named
    requires { AreFound (parsed_of unit.now) checked.now found.now }
    ensures { type_in (type_at checked.now.table.now) result ≡ composite_type unit.now.nodes checked.now entity }
{
    let nodes = unit.nodes.as_slice();
    let whole = whole_if(nodes, checked, last_declared(unit, checked, found, entity));
    Named::Row(entry(
        checked.composites,
        0,
        with_initialiser(nodes, checked, whole),
    ))
}

fn function_type(
    unit: &Unit,
    checked: &CheckedColumns,
    found: &Found,
    at: u32,
    entity: Option<u32>,
) -> Named
    requires { AreFound (parsed_of unit.now) checked.now found.now }
    ensures { type_in (type_at checked.now.table.now) result ≡ function_type unit.now.nodes checked.now at entity }
{
    match definition_of(unit, checked, found, entity) {
        Some(definition) => Named::Function(definition),
        None => Named::Function(at),
    }
}

fn is_here(at: u32, node: Option<u32>) -> bool
    ensures { result ≡ is_here at node }
{
    match node {
        Some(node) => node == at,
        None => false,
    }
}

fn entity_type(
    declared: Declared,
    unit: &Unit,
    checked: &CheckedColumns,
    found: &Found,
    at: u32,
    entity: Option<u32>,
) -> Named
    requires { AreFound (parsed_of unit.now) checked.now found.now }
    ensures { type_in (type_at checked.now.table.now) result ≡ entity_type declared unit.now.nodes checked.now at entity }
{
    match declared {
        Declared::Function(..) => function_type(unit, checked, found, at, entity),
        Declared::Object(..) => composite_type(unit, checked, found, entity),
        _ => type_named(
            checked,
            whole_of(unit.nodes.as_slice(), checked, at as usize),
        ),
    }
}

fn name_type(unit: &Unit, checked: &CheckedColumns, found: &Found, at: u32) -> Named
    requires { AreFound (parsed_of unit.now) checked.now found.now }
    ensures { type_in (type_at checked.now.table.now) result ≡ name_type (parsed_of unit.now) checked.now at }
{
    let nodes = unit.nodes.as_slice();
    let entity = entity_of(nodes, checked.names, at as usize);
    let whole = whole_of(nodes, checked, at as usize);
    if is_here(at, first_declared(unit, checked, found, entity)) {
        entity_type(
            declared_of(checked, whole),
            unit,
            checked,
            found,
            at,
            entity,
        )
    } else {
        type_named(checked, whole)
    }
}

fn named_by(unit: &Unit, checked: &CheckedColumns, found: &Found, at: u32) -> Named
    requires first { type_at checked.now.table.now 0 ≡ unknown }
    requires found { AreFound (parsed_of unit.now) checked.now found.now }
    ensures { type_in (type_at checked.now.table.now) result ≡ named_of (parsed_of unit.now) checked.now at }
{
    let nodes = unit.nodes.as_slice();
    match kind_at(nodes, at as usize) {
        Some(Kind::NameDeclarator) => name_type(unit, checked, found, at),
        Some(Kind::Cast) => type_named(checked, part_at(nodes, at as usize, 0)),
        Some(Kind::Return) => Named::Row(entry(
            checked.results,
            0,
            around_of(checked, Some(at)).function,
        )),
        _ => Named::Row(0),
    }
}

/// The type that each declared name has, each cast names, and the function of each `return` gives.
#[tactic(auto, using(crate::proofs::Listed::one_mapped))]
pub(crate) fn named(
    alloc: Global,
    unit: &Unit,
    checked: &CheckedColumns,
    found: &Found,
) -> Result<Vec<Named>, AllocError>
    requires first { type_at checked.now.table.now 0 ≡ unknown }
    requires found { AreFound (parsed_of unit.now) checked.now found.now }
    ensures { IfOk result (λ named. map (type_in (type_at checked.now.table.now)) named.items ≡ listed (named_of (parsed_of unit.now) checked.now) (length unit.now.nodes)) }
{
    let mut named = Vec::new(alloc);
    for at in 0..unit.nodes.len() {
        let number = number_of(at)?;
        named.push(named_by(unit, checked, found, number))?;
    }
    Ok(named)
}
