use crate::reading::{Read, nodes_of};
use crate::{expect, pair, push_type, row_of, triple, without};
use cr_check_constants::Constant;
use cr_check_expressions::Member;
use cr_check_initialisers::{
    Anchor, Line, Source, anchor_of_address, anchor_of_cast, anchor_of_member, anchor_of_object,
    anchor_of_reached, anchor_of_subscript, complete, first_fault, is_address, length_asked, plan,
    puts,
};
use cr_check_types::{Layout, Table};
use cr_rows::Row;
use cr_typed::Put;
use std::alloc::{AllocError, Global};
use std::test::Fail;

// The structure of node 0 is `struct {int a[2]; int b;}`, and that of node 1 has one such and an int; that of node 2 has itself as a
// member, and node 3 is none. The type of an object stands before its
// initialiser, with `static` for one of static duration. What follows is each cell at which an expression is put, `!` for a list with
// too many, the type of a completed array, and the first broken constraint with its token; the `=` is token 0. By hand
// from C11 6.7.9 and the table of constraints.
const INITIALISERS: &str = "\
int; 7 => 0
int; { 7 } => 0
int; { { 7 } } => 0
int; { 7 8 } => 0 ! K11@1
int; p => 0 K37@0
* int; p => 0
* const int; p => 0
* int; 0 => 0
* int; 5 => 0 K37@0
* char; p => 0 K37@0
void; 7 => 0 K37@0
int; u => 0
[2] int; { 1 } => 0
[2] int; { 1 2 3 } => 0 1 ! K11@1
[2] int; a => 0 K37@0
[2] int; { 1 p } => 0 1 K37@0
[2] [1] int; { { 1 2 } { 3 } } => 0 ! 1 K11@2
[2] [3] int; { { 1 2 } { 3 } } => 0 1 3
[2] [3] int; { 1 2 3 4 } => 0 1 2 3
[2] [3] int; { 1 2 { 3 } 4 } => 0 1 2 3
[] int; { 1 2 3 4 } => 0 1 2 3 [4] int
[] [2] int; { 1 2 3 } => 0 1 2 [2] [2] int
[] [2] int; { { 1 } 2 } => 0 2 [2] [2] int
[] S0; { 1 2 3 4 } => 0 1 2 3 [2] S0
[] int; 5 => 0 [] int K37@0
[2] S0; { 1 2 3 { { 4 } 5 } } => 0 1 2 3 5
[2] S0; { { 1 } { { 2 } 3 } } => 0 3 5
[2] S0; { s 1 2 3 } => 0 3 4 5
[2] S0; { 1 s } => 0 1 K37@0
S0; s => 0
S0; { s } => 0 K37@0
S0; x => 0 K37@0
S0; { 1 2 3 4 } => 0 1 2 ! K11@1
S1; s => 0 K37@0
S1; { s 9 } => 0 3
S1; { 1 2 3 9 } => 0 1 2 3
S1; { { 1 } 9 } => 0 3
S1; { { { 1 2 } 3 } 9 } => 0 1 2 3
S1; { { { 1 2 } 3 4 } 9 } => 0 1 2 ! 3 K11@2
[2] S0; { u 1 2 3 4 5 6 7 8 } => 0
[2] S1; { { u 1 2 3 4 5 } 5 } => 0 4
S0; { 1 u 3 } => 0 1 2
[4] char; \"abc\" => 0
[3] char; \"abc\" => 0
[2] char; \"abc\" => 0 K13@1
[2] schar; { \"ab\" } => 0
[] char; \"abc\" => 0 [4] char
[] char; { \"abc\" } => 0 [4] char
[] char; { 1 2 } => 0 1 [2] char
[3] char; { \"ab\" 1 } => 0 ! K11@1
[3] char; { 1 \"ab\" } => 0 1 K13@3
[2] [3] char; { \"ab\" \"\" } => 0 3
[2] [3] char; { { \"ab\" } { 1 } } => 0 3
[] [3] char; { \"ab\" \"ab\" } => 0 3 [2] [3] char
[2] int; \"ab\" => 0 K13@1
[2] int; { 1 \"ab\" } => 0 1 K13@3
int; \"ab\" => 0 K13@1
S0; \"ab\" => 0 K13@1
* char; \"ab\" => 0
* const char; { \"ab\" } => 0
* int; \"ab\" => 0 K37@0
[2] * char; { \"ab\" \"ab\" } => 0 1
[2] * char; \"ab\" => 0 K13@1
S2; { 7 8 } => 0 K37@0
S3; { 7 8 } => ! K11@1
[2] S3; { 7 8 } => 0 K37@0
[2] [] int; { 7 8 } => 0 K37@0
static int; 7 => 0
static int; x => 0 K12@1
static [2] int; { 1 x } => 0 1 K12@3
static [2] int; { { 1 } } => 0
static * int; q => 0
static * int; a => 0
static * int; 0 => 0
static * int; p => 0 K12@1
static bool; q => 0
static int; p => 0 K37@0
static S0; s => 0 K12@1
static * char; \"ab\" => 0
static [3] char; \"ab\" => 0
static [1] char; \"ab\" => 0 K13@1
static int; u => 0
[2] int; { { 1 x } 2 } => 0 ! 1 K11@2
static [2] int; { { 1 x } 2 } => 0 ! 1 K11@2";

// An operator, and whether its result's value is an address constant, where the result is an int, a pointer or an array. By hand from
// C11 6.6p9.
const ADDRESSES: &str = "\
name of static => false false true
name of automatic => false false false
& of place => true true true
& of address => false false false
* of address => false false true
* of moving => false false false
. of place => false false true
. of address => false false false
cast of address => true true true
cast of null => true true true
cast of one => false false false
[] of address => false false true
[] of index => false false true
[] of moving => false false false";

#[test]
fn initialisers_fill_the_places_that_are_left(rt: HostRuntime) -> Result<(), Fail> {
    let alloc = rt.alloc();
    for row in INITIALISERS.split('\n') {
        expect_outcome(alloc, row)?;
    }
    Ok(())
}

#[test]
fn addresses_are_constant_by_their_operators(rt: HostRuntime) -> Result<(), Fail> {
    let alloc = rt.alloc();
    let mut table = Table::new(alloc)?;
    let results = results_in(&mut table)?;
    for row in ADDRESSES.split('\n') {
        expect_address(alloc, &table, results, row)?;
    }
    Ok(())
}

// The rows of an operator's results.
#[derive(Clone, Copy)]
struct Results {
    number: u32,
    pointer: u32,
    array: u32,
}

fn results_in(table: &mut Table) -> Result<Results, AllocError> {
    Ok(Results {
        number: row_of(table, "int")?,
        pointer: row_of(table, "* int")?,
        array: row_of(table, "[2] int")?,
    })
}

fn expect_address(alloc: Global, table: &Table, results: Results, row: &str) -> Result<(), Fail> {
    let (given, told) = pair(row, " => ");
    let anchor = anchored(table, results.pointer, given);
    let number = is_address_in(table, results.number, anchor);
    let pointer = is_address_in(table, results.pointer, anchor);
    let array = is_address_in(table, results.array, anchor);
    let found = format!(in alloc; "{number} {pointer} {array}")?;
    expect(row, found.as_str(), told)
}

fn is_address_in(table: &Table, row: u32, anchor: Anchor) -> bool {
    (row as usize) < table.len() && is_address(table, row, anchor)
}

fn anchored(table: &Table, pointer: u32, given: &str) -> Anchor {
    if pointer as usize >= table.len() {
        return Anchor::Moving;
    }
    match given {
        "name of static" => anchor_of_object(true),
        "name of automatic" => anchor_of_object(false),
        "& of place" => anchor_of_address(Anchor::Place),
        "& of address" => anchor_of_address(Anchor::Address),
        "* of address" => anchor_of_reached(true),
        "* of moving" => anchor_of_reached(false),
        ". of place" => anchor_of_member(Anchor::Place),
        ". of address" => anchor_of_member(Anchor::Address),
        "cast of address" => anchor_of_cast(table, pointer, true, Constant::NotConstant),
        "cast of null" => anchor_of_cast(table, pointer, false, Constant::Value(0)),
        "cast of one" => anchor_of_cast(table, pointer, false, Constant::Value(1)),
        "[] of address" => {
            anchor_of_subscript(true, Constant::NotConstant, false, Constant::Value(1))
        }
        "[] of index" => anchor_of_subscript(
            false,
            Constant::Value(1),
            true,
            Constant::NotConstant,
        ),
        _ => anchor_of_subscript(true, Constant::NotConstant, false, Constant::NotConstant),
    }
}

const LAYOUTS: [Layout; 2] = [
    Layout {
        size: 12,
        alignment: 4,
        cells: 3,
    },
    Layout {
        size: 16,
        alignment: 4,
        cells: 4,
    },
];

// The members of the structures, of which each has an int last.
fn members_of(alloc: Global, table: &mut Table) -> Result<Vec<Row<Member>>, AllocError> {
    let mut structures = Vec::new(alloc);
    for first in ["[2] int", "S0", "S2"] {
        structures.push(structure(alloc, table, first)?)?;
    }
    Ok(structures)
}

fn structure(alloc: Global, table: &mut Table, first: &str) -> Result<Row<Member>, AllocError> {
    let first = row_of(table, first)?;
    let last = row_of(table, "int")?;
    let mut members = Row::new(alloc);
    members.push(Member {
        name: 0,
        row: first,
    })?;
    members.push(Member { name: 0, row: last })?;
    Ok(members)
}

fn expect_outcome(alloc: Global, row: &str) -> Result<(), Fail> {
    let (object, text, told) = triple(row, "; ", " =>");
    let mut found = String::new(alloc);
    push_outcome(alloc, &mut found, object, text)?;
    expect(row, found.as_str(), told)
}

// An object that is initialised.
#[derive(Clone, Copy)]
struct Object {
    row: u32,
    is_static: bool,
    is_open: bool,
}

fn object_in(table: &mut Table, text: &str) -> Result<Object, AllocError> {
    let (is_static, words) = without(text, "static ");
    Ok(Object {
        row: row_of(table, words)?,
        is_static,
        is_open: words.starts_with("[]"),
    })
}

// Adds what an initialiser fills of an object, both in words.
fn push_outcome(
    alloc: Global,
    out: &mut String,
    object: &str,
    text: &str,
) -> Result<(), AllocError> {
    let mut table = Table::new(alloc)?;
    let object = object_in(&mut table, object)?;
    push_filled(alloc, out, &mut table, object, text)
}

fn push_filled(
    alloc: Global,
    out: &mut String,
    table: &mut Table,
    object: Object,
    text: &str,
) -> Result<(), AllocError> {
    let members = members_of(alloc, table)?;
    let read = nodes_of(alloc, table, text)?;
    push_completed(alloc, out, table, &read, &members, object)
}

fn push_completed(
    alloc: Global,
    out: &mut String,
    table: &mut Table,
    read: &Read,
    members: &[Row<Member>],
    object: Object,
) -> Result<(), AllocError> {
    let count = count_asked(alloc, &source_of(table, read, members), object.row)?;
    let row = completed(table, object.row, count)?;
    let object = Object { row, ..object };
    push_plan(alloc, out, &source_of(table, read, members), object)
}

fn count_asked(alloc: Global, source: &Source, row: u32) -> Result<u64, AllocError> {
    let lines = plan_of(alloc, source, row)?;
    length_asked(source, row, &lines)
}

// The plan of the last node.
fn plan_of(alloc: Global, source: &Source, row: u32) -> Result<Vec<Line>, AllocError> {
    let above = u32::try_from(source.nodes.len()).unwrap_or(0);
    plan(alloc, source, row, above, above.saturating_sub(1))
}

fn push_plan(
    alloc: Global,
    out: &mut String,
    source: &Source,
    object: Object,
) -> Result<(), AllocError> {
    let lines = plan_of(alloc, source, object.row)?;
    push_puts(alloc, out, &lines)?;
    push_rest(out, source, object, &lines)
}

fn push_puts(alloc: Global, out: &mut String, lines: &[Line]) -> Result<(), AllocError> {
    let puts = puts(alloc, lines)?;
    push_cells(out, lines, puts.as_slice())
}

fn source_of<'a>(table: &'a Table, read: &'a Read, members: &'a [Row<Member>]) -> Source<'a> {
    Source {
        table,
        nodes: &read.nodes,
        facts: &read.facts,
        anchors: &read.anchors,
        layouts: &LAYOUTS,
        members,
    }
}

fn completed(table: &mut Table, row: u32, count: u64) -> Result<u32, AllocError> {
    if (row as usize) < table.len() {
        complete(table, row, count)
    } else {
        Ok(0)
    }
}

fn push_cells(out: &mut String, lines: &[Line], puts: &[Put]) -> Result<(), AllocError> {
    let mut at: usize = 0;
    for line in lines {
        match line {
            Line::Put(_) => {
                push_cell(out, puts.get(at))?;
                at = at.saturating_add(1);
            }
            Line::Excess(_) => out.push_str(" !")?,
        }
    }
    Ok(())
}

fn push_cell(out: &mut String, put: Option<&Put>) -> Result<(), AllocError> {
    match put {
        Some(put) => write!(out, " {}", put.cell),
        None => Ok(()),
    }
}

// Adds the type of a completed array, and the first broken constraint.
fn push_rest(
    out: &mut String,
    source: &Source,
    object: Object,
    lines: &[Line],
) -> Result<(), AllocError> {
    if object.is_open {
        out.push(' ')?;
        push_type(out, source.table, object.row)?;
    }
    match first_fault(source, object.is_static, 0, lines) {
        Some(found) => write!(out, " K{}@{}", found.row, found.token),
        None => Ok(()),
    }
}
