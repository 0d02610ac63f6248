use crate::texts::unit_of;
use cr_check_types::{Layout, NOTHING, Table, closed, offset, with_member};
use cr_syntax::Node;
use std::alloc::{AllocError, Global};
use std::test::Fail;
use tests_rules::{expect, expect_type, pair, row_of, triple, yes_or_no};

// Types are written from the outermost level to the innermost: `* const char` is a pointer to a constant char. `S3` is the
// structure of node 3.

// Two types and their composite; `none` where they aren't compatible. By hand from C11 6.2.7 and 6.7.3 to 6.7.6.
const PAIRS: &str = "\
int ~ int = int
int ~ uint = none
char ~ schar = none
long ~ llong = none
void ~ void = void
S5 ~ S5 = S5
S5 ~ S9 = none
const int ~ int = none
* int ~ * int = * int
* int ~ * char = none
* void ~ * int = none
* const char ~ * char = none
* const char ~ * const char = * const char
const * char ~ * char = none
* volatile int ~ * const int = none
* const volatile int ~ * const volatile int = * const volatile int
[] int ~ [3] int = [3] int
[3] int ~ [] int = [3] int
[3] int ~ [3] int = [3] int
[3] int ~ [4] int = none
[3] int ~ [3] char = none
[3] const int ~ [3] int = none
[3] int ~ * int = none
* [] int ~ * [3] int = * [3] int
[2] [] int ~ [] [3] int = [2] [3] int
const * [] * [2] char ~ const * [5] * [] char = const * [5] * [2] char";

// The derivations of a declarator from the name outwards, with `void` as the place of the name, and what they make of int:
// `*a[3]`, `(*a)[3]`, `*const *a`, `a[2][3]`, `a`.
const DECLARATORS: &str = "\
* [3] void = [3] * int
[3] * void = * [3] int
const * * void = * const * int
[3] [2] void = [2] [3] int
void = int";

// A type, and the same with `const` added: an array's go to its elements (6.7.3p9).
const CONSTANT: &str = "\
int = const int
const int = const int
volatile int = const volatile int
* int = const * int
[2] [3] char = [2] [3] const char
[] * int = [] const * int";

// Whether a type is complete at a node of `struct s{int a;};int x;`, whose structure is node 3.
const COMPLETE: &str = "\
int 0 = yes
void 7 = no
* void 0 = yes
* S3 0 = yes
S3 2 = no
S3 3 = no
S3 4 = yes
S2 7 = no
[2] S3 4 = yes
[2] S3 3 = no
[] int 7 = no
[2] [] int 7 = no
[2] [3] int 0 = yes";

// Bytes, alignment and cells.
const LAYOUTS: &str = "\
bool = 1 1 1
char = 1 1 1
short = 2 2 1
int = 4 4 1
long = 8 8 1
llong = 8 8 1
* void = 8 8 1
[3] int = 12 4 3
[2] [3] short = 12 2 6
[4] * char = 32 8 4
[] int = 0 4 0
void = 0 1 0
S0 = 12 4 3
[2] S0 = 24 4 6
S9 = 0 1 0
[4294967296] [4294967296] char = 18446744073709551615 1 18446744073709551615";

#[test]
fn types_have_their_composites(rt: HostRuntime) -> Result<(), Fail> {
    let alloc = rt.alloc();
    let mut table = Table::new(alloc)?;
    for row in PAIRS.split('\n') {
        expect_composite(alloc, &mut table, row)?;
    }
    Ok(())
}

#[test]
fn declarators_turn_types(rt: HostRuntime) -> Result<(), Fail> {
    let alloc = rt.alloc();
    let mut table = Table::new(alloc)?;
    for row in DECLARATORS.split('\n') {
        expect_turned(alloc, &mut table, row)?;
    }
    Ok(())
}

#[test]
fn qualifiers_go_to_the_elements(rt: HostRuntime) -> Result<(), Fail> {
    let alloc = rt.alloc();
    let mut table = Table::new(alloc)?;
    for row in CONSTANT.split('\n') {
        expect_constant(alloc, &mut table, row)?;
    }
    Ok(())
}

#[test]
fn structures_are_complete_behind_their_braces(rt: HostRuntime) -> Result<(), Fail> {
    let alloc = rt.alloc();
    match unit_of(alloc, "struct s{int a;};int x;")? {
        Some(unit) => expect_each_complete(alloc, unit.nodes.as_slice()),
        None => Err(Fail::from("no unit")),
    }
}

#[test]
fn types_have_their_sizes(rt: HostRuntime) -> Result<(), Fail> {
    let alloc = rt.alloc();
    let mut table = Table::new(alloc)?;
    let layouts = [structure(&mut table)?];
    for row in LAYOUTS.split('\n') {
        expect_layout(alloc, &mut table, &layouts, row)?;
    }
    Ok(())
}

#[test]
fn the_first_compatible_row_is_found(rt: HostRuntime) -> Result<(), Fail> {
    let mut table = Table::new(rt.alloc())?;
    expect_least(&mut table)
}

fn expect_composite(alloc: Global, table: &mut Table, row: &str) -> Result<(), Fail> {
    let (left, right, told) = triple(row, " ~ ", " = ");
    let left = row_of(table, left)?;
    let right = row_of(table, right)?;
    match composite(table, left, right)? {
        Some(found) => expect_type(alloc, table, found, row, told),
        None => expect(row, "none", told),
    }
}

fn expect_turned(alloc: Global, table: &mut Table, row: &str) -> Result<(), Fail> {
    let (text, told) = pair(row, " = ");
    let derivations = row_of(table, text)?;
    let base = row_of(table, "int")?;
    let found = turned(table, derivations, base)?;
    expect_type(alloc, table, found, row, told)
}

fn expect_constant(alloc: Global, table: &mut Table, row: &str) -> Result<(), Fail> {
    let (text, told) = pair(row, " = ");
    let given = row_of(table, text)?;
    let found = constant(table, given)?;
    expect_type(alloc, table, found, row, told)
}

fn expect_each_complete(alloc: Global, nodes: &[Node]) -> Result<(), Fail> {
    let mut table = Table::new(alloc)?;
    for row in COMPLETE.split('\n') {
        expect_complete(&mut table, nodes, row)?;
    }
    Ok(())
}

fn expect_complete(table: &mut Table, nodes: &[Node], row: &str) -> Result<(), Fail> {
    let (given, told) = pair(row, " = ");
    let (text, at) = given.rsplit_once(' ').ok_or("a node")?;
    let given = row_of(table, text)?;
    let found = is_complete(table, nodes, at.parse::<u32>().unwrap_or(0), given);
    expect(row, yes_or_no(found), told)
}

// The layout of `struct {char a; int b; char c;}`, whose members stand at 0, 4 and 8.
fn structure(table: &mut Table) -> Result<Layout, Fail> {
    let char = row_of(table, "char")?;
    let int = row_of(table, "int")?;
    let char = layout(table, &[], char);
    let int = layout(table, &[], int);
    let one = with_member(NOTHING, char);
    let two = with_member(one, int);
    if [offset(NOTHING, char), offset(one, int), offset(two, char)] == [0, 4, 8] {
        Ok(closed(with_member(two, char)))
    } else {
        Err(Fail::from("a member stands elsewhere"))
    }
}

fn expect_layout(
    alloc: Global,
    table: &mut Table,
    layouts: &[Layout],
    row: &str,
) -> Result<(), Fail> {
    let (text, told) = pair(row, " = ");
    let given = row_of(table, text)?;
    let found = layout(table, layouts, given);
    let shown = format!(in alloc; "{} {} {}", found.size, found.alignment, found.cells)?;
    expect(row, shown.as_str(), told)
}

fn expect_least(table: &mut Table) -> Result<(), Fail> {
    let unknown = row_of(table, "[] int")?;
    let three = row_of(table, "[3] int")?;
    let four = row_of(table, "[4] int")?;
    let pointer = row_of(table, "* int")?;
    let again = row_of(table, "* int")?;
    let rows = [
        least(table, three),
        least(table, four),
        least(table, pointer),
        again,
    ];
    if rows == [unknown, unknown, pointer, pointer] {
        Ok(())
    } else {
        Err(Fail::from("another row is the first"))
    }
}

// The row of the composite of two types, if they are compatible.
fn composite(table: &mut Table, left: u32, right: u32) -> Result<Option<u32>, AllocError> {
    let count = table.len();
    if left as usize >= count || right as usize >= count || !table.are_compatible(left, right) {
        return Ok(None);
    }
    let row = table.composite(left, right)?;
    Ok(Some(row))
}

fn turned(table: &mut Table, derivations: u32, base: u32) -> Result<u32, AllocError> {
    let count = table.len();
    if derivations as usize >= count || base as usize >= count {
        return Ok(0);
    }
    table.turned(derivations, base)
}

fn constant(table: &mut Table, row: u32) -> Result<u32, AllocError> {
    if row as usize >= table.len() {
        return Ok(0);
    }
    table.qualified(row, true, false)
}

fn is_complete(table: &Table, nodes: &[Node], at: u32, row: u32) -> bool {
    (row as usize) < table.len() && table.is_complete(nodes, at, row)
}

fn layout(table: &Table, layouts: &[Layout], row: u32) -> Layout {
    if (row as usize) < table.len() {
        table.layout(layouts, row)
    } else {
        NOTHING
    }
}

fn least(table: &Table, row: u32) -> u32 {
    if (row as usize) < table.len() {
        table.least_compatible(row)
    } else {
        row
    }
}
