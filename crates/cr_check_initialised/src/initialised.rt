ghost use Rattle.std.specs.Prelude.{◌≡◌, ◌<◌, ◌≤◌, ℕ, List, IfOk, IfSome, OnOk, false, length, map};
ghost use Rattle.cr_check_types.specs.declared.shape.Shape as shape;
ghost use Rattle.cr_check_types.specs.Types.{Qualified, type_at, unknown, IsRow, Grows};
ghost use Rattle.cr_check_operands.specs.Places.{found_by};
ghost use Rattle.cr_check_expressions.specs.Known.{meaning_by, room_of_declared};
ghost use Rattle.cr_check_expressions.specs.Ruled.{is_type};
ghost use Rattle.cr_check_initialisers.specs.Plans.{entries_of, is_open};
ghost use Rattle.cr_check_initialised.specs.Known.{known_at, AreReady};
ghost use Rattle.cr_check_initialised.specs.Initialised.{object_of, object_at, type_or, named_first, weighed, is_planned, planned_in, planned_by, IsCompleted, IsFilledBy, AreSeated, seat, seated};
ghost use Rattle.cr_check_initialised.specs.Objects.{planned_of};

use crate::source::{asked, planned};
use cr_check_declarations::{Columns, Tree, declared_of};
use cr_check_declarators::MOST_CELLS;
use cr_check_expressions::{Declared, part_at};
use cr_check_initialisers::{Anchor, Line, complete};
use cr_check_types::{Layout, Table};
use cr_rows::Row;
use cr_syntax::{CType, Kind, Node};
use cr_typed::Put;
use std::alloc::{AllocError, Global};

/// What a node has, where it is an initialised declarator.
#[derive(Drop)]
pub struct Filled {
    /// The row of the type that it names.
    pub row: u32,
    /// What its initialiser initialises, in order of the tokens.
    pub lines: Row<Line>,
}

/// An object to be initialised.
#[derive(Clone, Copy)]
pub(crate) struct Object {
    pub row: u32,
    /// The node of its initialiser.
    pub initialiser: u32,
}

/// The type that a node names and what its initialiser initialises, by what the nodes before it have (C11 6.7.9). Where the node is no
/// initialised declarator, `named` is the row of the type that it names, and it has no lines. Nor has an object without a type or
/// with too many cells. The error is want of memory, also where the number of an initialised cell doesn't fit 32 bits.
pub fn fill(
    alloc: Global,
    table: &mut Table,
    tree: &Tree,
    columns: &Columns,
    anchors: &[Anchor],
    named: u32,
    at: u32,
    node: &Node,
) -> Result<Filled, AllocError>
    requires ready { AreReady table.old columns.now }
    requires named { named < length table.old }
    ensures within { IfOk result (λ f. f.row < length table.new) }
    ensures seated { IfOk result (λ f. AreSeated table.new f.lines) }
    ensures is { IfOk result (λ f. (later : List shape.Shape) → Grows table.new later → IsFilledBy later tree.now columns.now anchors.now named f at node.now) }
    ensures grows { OnOk result (Grows table.old table.new) }
{
    match planned_by(table, columns, node) {
        Some(object) => {
            let filled = completed(alloc, table, tree, columns, anchors, object, at)?;
            Ok(filled)
        }
        None => Ok(Filled {
            row: named_first(table, columns, named, node),
            lines: Row::new(alloc),
        }),
    }
}

fn named_first(table: &Table, columns: &Columns, named: u32, node: &Node) -> u32
    requires ready { AreReady table.now columns.now }
    requires named { named < length table.now }
    ensures is { type_at table.now result ≡ named_first node.now.kind (object_at table.now columns.now node.now) (type_at table.now named) }
    ensures within { result < length table.now }
{
    match node.kind {
        Kind::InitDeclarator => row_or(table, named, object_in(table, columns, node)),
        _ => named,
    }
}

fn row_or(table: &Table, other: u32, row: Option<u32>) -> u32
    requires row { IfSome row (λ r. r < length table.now) }
    requires other { other < length table.now }
    ensures is { type_at table.now result ≡ type_or (type_at table.now other) (found_by (type_at table.now) row) }
    ensures within { result < length table.now }
{
    match row {
        Some(row) => row,
        None => other,
    }
}

/// The row of the object that a node's first part declares.
pub(crate) fn object_in(table: &Table, columns: &Columns, node: &Node) -> Option<u32>
    requires { AreReady table.now columns.now }
    ensures is { found_by (type_at table.now) result ≡ object_at table.now columns.now node.now }
    ensures within { IfSome result (λ row. row < length table.now) }
{
    object_row(declared_of(columns, part_at(node.parts.as_slice(), 0)))
}

fn object_row(declared: Declared) -> Option<u32>
    ensures is { (look : ℕ → Qualified) (rows : List ℕ) → found_by look result ≡ object_of (meaning_by look rows declared) }
    ensures within { (count : ℕ) → room_of_declared declared ≤ count → IfSome result (λ row. row < count) }
{
    match declared {
        Declared::Object(row, _) => Some(row),
        Declared::Enumerator(_) => None,
        Declared::Function(..) => None,
        Declared::TypeName => None,
        Declared::Unclear => None,
    }
}

fn planned_by(table: &Table, columns: &Columns, node: &Node) -> Option<Object>
    requires { AreReady table.now columns.now }
    ensures is { planned_of (type_at table.now) result ≡ planned_by node.now.kind columns.now.layouts.now (object_at table.now columns.now node.now) node.now.parts }
    ensures within { IfSome result (λ o. o.row < length table.now) }
{
    match node.kind {
        Kind::InitDeclarator => {
            let initialiser = part_at(node.parts.as_slice(), 1);
            planned_in(
                table,
                columns.layouts,
                object_in(table, columns, node),
                initialiser,
            )
        }
        _ => None,
    }
}

fn planned_in(
    table: &Table,
    layouts: &[Layout],
    row: Option<u32>,
    initialiser: Option<u32>,
) -> Option<Object>
    requires { IfSome row (λ r. r < length table.now) }
    ensures is { planned_of (type_at table.now) result ≡ planned_in layouts.now (found_by (type_at table.now) row) initialiser }
    ensures within { IfSome result (λ o. o.row < length table.now) }
{
    match row {
        None => None,
        Some(row) => match initialiser {
            None => None,
            Some(initialiser) => if is_planned(table, layouts, row) {
                Some(Object { row, initialiser })
            } else {
                None
            },
        },
    }
}

fn is_planned(table: &Table, layouts: &[Layout], row: u32) -> bool
    requires { row < length table.now }
    ensures { result ≡ is_planned layouts.now (type_at table.now row) }
{
    is_type(table, row) && table.layout(layouts, weighed(table, row)).cells <= MOST_CELLS
}

fn is_type(table: &Table, row: u32) -> bool
    requires { row < length table.now }
    ensures { result ≡ is_type (type_at table.now row) }
{
    match table.shape(row).of {
        CType::Unknown => false,
        _ => true,
    }
}

fn weighed(table: &Table, row: u32) -> u32
    requires { row < length table.now }
    ensures is { type_at table.now result ≡ weighed (type_at table.now row) }
    ensures within { result < length table.now }
{
    match table.shape(row).of {
        CType::Array(of, count) => if count == 0 { of } else { row },
        _ => row,
    }
}

// The completed object, and the plan of its initialiser.
fn completed(
    alloc: Global,
    table: &mut Table,
    tree: &Tree,
    columns: &Columns,
    anchors: &[Anchor],
    object: Object,
    at: u32,
) -> Result<Filled, AllocError>
    requires ready { AreReady table.old columns.now }
    requires row { object.row < length table.old }
    ensures within { IfOk result (λ f. f.row < length table.new) }
    ensures seated { IfOk result (λ f. AreSeated table.new f.lines) }
    ensures is { IfOk result (λ f. IsCompleted (known_at table.old tree.now.nodes.now columns.now anchors.now) (type_at table.old object.row) at object.initialiser (type_at table.new f.row) (entries_of table.new f.lines)) }
    ensures grows { OnOk result (Grows table.old table.new) }
{
    if is_open(table, object.row) {
        lengthened(alloc, table, tree, columns, anchors, object, at)
    } else {
        whole(alloc, table, tree, columns, anchors, object, at)
    }
}

// An array of unknown size, with the length that its initialiser asks for.
#[tactic(auto, using(crate::proofs::Kept::first_row, crate::proofs::Kept::row_kept, crate::proofs::Kept::lengthened_is))]
fn lengthened(
    alloc: Global,
    table: &mut Table,
    tree: &Tree,
    columns: &Columns,
    anchors: &[Anchor],
    object: Object,
    at: u32,
) -> Result<Filled, AllocError>
    requires ready { AreReady table.old columns.now }
    requires row { object.row < length table.old }
    ensures within { IfOk result (λ f. f.row < length table.new) }
    ensures seated { IfOk result (λ f. AreSeated table.new f.lines) }
    ensures is { IfOk result (λ f. IsCompleted (known_at table.old tree.now.nodes.now columns.now anchors.now) (type_at table.old object.row) at object.initialiser (type_at table.new f.row) (entries_of table.new f.lines)) }
    ensures grows { OnOk result (Grows table.old table.new) }
{
    let node = object.initialiser;
    let first = planned(alloc, table, tree, columns, anchors, object.row, at, node)?;
    let count = asked(table, tree, columns, anchors, object.row, &first)?;
    let row = complete(table, object.row, count)?;
    let last = planned(alloc, table, tree, columns, anchors, row, at, node)?;
    let lines = seated(alloc, table, &last)?;
    Ok(Filled { row, lines })
}

// An object that has its size.
#[tactic(auto, using(crate::proofs::Kept::first_row, crate::proofs::Kept::whole_is))]
fn whole(
    alloc: Global,
    table: &Table,
    tree: &Tree,
    columns: &Columns,
    anchors: &[Anchor],
    object: Object,
    at: u32,
) -> Result<Filled, AllocError>
    requires ready { AreReady table.now columns.now }
    requires row { object.row < length table.now }
    requires closed { is_open (type_at table.now object.row) ≡ false }
    ensures within { IfOk result (λ f. f.row < length table.now) }
    ensures seated { IfOk result (λ f. AreSeated table.now f.lines) }
    ensures is { IfOk result (λ f. IsCompleted (known_at table.now tree.now.nodes.now columns.now anchors.now) (type_at table.now object.row) at object.initialiser (type_at table.now f.row) (entries_of table.now f.lines)) }
{
    let row = object.row;
    let only = planned(
        alloc,
        table,
        tree,
        columns,
        anchors,
        row,
        at,
        object.initialiser,
    )?;
    let lines = seated(alloc, table, &only)?;
    Ok(Filled { row, lines })
}

/// Whether a row's type is an array of unknown size.
pub(crate) fn is_open(table: &Table, row: u32) -> bool
    requires { row < length table.now }
    ensures { result ≡ is_open (type_at table.now row) }
{
    match table.shape(row).of {
        CType::Array(_, count) => count == 0,
        _ => false,
    }
}

// The same lines; a row that isn't there is that of no type.
#[tactic(auto, using(crate::proofs::Kept::seated_same, crate::proofs::Kept::seated_there))]
fn seated(alloc: Global, table: &Table, lines: &[Line]) -> Result<Row<Line>, AllocError>
    requires { IsRow table.now 0 unknown }
    ensures is { IfOk result (λ s. entries_of table.now s ≡ entries_of table.now lines.now) }
    ensures within { IfOk result (λ s. AreSeated table.now s) }
{
    let rows = seats(alloc, table, lines)?;
    Ok(rows)
}

fn seats(alloc: Global, table: &Table, lines: &[Line]) -> Result<Row<Line>, AllocError>
    ensures { IfOk result (λ s. s ≡ map (seated table.now) lines.now) }
{
    let mut all = Row::new(alloc);
    for line in lines {
        all.push(seat(table, *line))?;
    }
    Ok(all)
}

fn seat(table: &Table, line: Line) -> Line
    ensures { result ≡ seated table.now line }
{
    match line {
        Line::Put(put) => Line::Put(Put {
            row: row_in(table, put.row),
            ..put
        }),
        Line::Excess(list) => Line::Excess(list),
    }
}

fn row_in(table: &Table, row: u32) -> u32
    ensures { result ≡ seat table.now row }
{
    if (row as usize) < table.len() { row } else { 0 }
}
