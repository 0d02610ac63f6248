ghost use Rattle.std.specs.Prelude.{◌<◌, length};

use crate::lists::rows_of;
use crate::specifiers::{base_row, place_of, said, tell};
use crate::{all_rows, expect, expect_type, nodes_with, pair, push_type, quadruple, row_of};
use cr_check_constants::Constant;
use cr_check_declarators::{
    BARE, Class, Declarator, Size, adjusted, array, arrayed, cells_fault, declare, function,
    function_fault, has_whole_elements, hole, is_hole, is_object, is_too_large, is_whole_object,
    open_fault, pointed, pointer, size_of, structure_of,
};
use cr_check_enclosing::Place;
use cr_check_types::{Layout, NOTHING, Table};
use cr_syntax::{CType, Node};
use std::alloc::{AllocError, Global};
use std::test::Fail;

// A place, specifiers, and a declarator from the name outwards, in which `-` is a name alone, `()` an empty list of parameters, `(p)`
// another one, `[?]` a size without a type and `[x]` one that is no constant; `=` at the end is an initialiser. Told are the type, or
// `function` and that of the result, and the faults: the constraint and, where it stands at a bracket or a star, the number of that
// word. The structure is that of node 3, complete, with 600,000 cells. By hand from C11 6.7.6 and this project's limits.
const DECLARATORS: &str = "\
file; int; - => int
file; int; * => * int
file; int; *const => const * int
file; int; [3] => [3] int
file; int; [3] [4] => [3] [4] int
file; int; [3] * => [3] * int
file; int; * [3] => * [3] int
file; int; * *const [3] => * const * [3] int
file; void; * => * void
file; void; - => void 6
file; struct; - => S3
file; short long; [3] => none
extern; void; - => void 6
extern; int; [] => [] int
file; int; [] => [] int 14.1
file; int; [] = => [] int
file; int; * [] => * [] int 14.2
parameter; int; [] => [] int
parameter; int; [] [] => [] [] int 6
parameter; void; [3] => [3] void 6
file; void; * [3] => * [3] void 6
member; int; [] => [] int 14.1
member; void; - => void 6
member; int; *volatile => volatile * int 41.1
member; int; * *volatile => * volatile * int 41.2
file; int; *volatile => volatile * int
typedef; int; [] => [] int 14.1
typedef; void; - => void
typedef; void; [2] => [2] void 6
name; int; [] => [] int 14.1
file; int; [2] [] = => [2] [] int 6
file; int; [0] => none 7.1
file; int; [-1] => none 7.1
file; int; [x] => none 7.1
file; int; [?] => none
file; int; [2] [0] => none 7.2
file; int; [0] [0] => none 7.1
file; void; [0] => none 6 7.1
file; void; * [0] => none 6 7.2
file; void; [x] => none 6 7.1
file; int; [1048576] => [1048576] int
file; int; [1048577] => [1048577] int 7.1
file; int; [1024] [1024] => [1024] [1024] int
file; int; [1024] [1025] => [1024] [1025] int 7.1
file; int; [3] * [1048577] => [3] * [1048577] int 7.3
file; int; [1048577] * => [1048577] * int 7.1
file; int; [] [1048577] = => [] [1048577] int 7.2
file; int; [18446744073709551615] [2] => [18446744073709551615] [2] int 7.1
file; struct; [1] => [1] S3
file; struct; [2] => [2] S3 7.1
file; struct; * [2] => * [2] S3 7.2
file; struct; [2] * => [2] * S3
file; int; (p) => function int
file; int; (p) * => function * int
file; void; (p) => function void
file; struct; (p) => function S3 8
file; struct; (p) * => function * S3
file; int; (p) [3] => function [3] int 8
file; int; (p) * [3] => function * [3] int
file; int; () => function int 8
definition; int; () => function int
definition; int; (p) => function int
block; int; (p) => function int
file; int; * (p) => none 8
file; int; [3] (p) => none 8
file; int; (p) (p) => none 8
definition; int; () () => none 8
typedef; int; (p) => function int 8
parameter; int; (p) => function int 8
member; int; (p) => function int 8
member; void; (p) => function void 8
extern; void; (p) => function void
definition; int; (p) * [] => function * [] int 14.3";

// The declared type of a parameter, and its own. By hand from 6.7.6.3p7.
const PARAMETERS: &str = "\
int => int
const int => const int
* int => * int
[3] int => * int
[] const int => * const int
[2] [3] int => * [3] int
* [3] int => * [3] int
S3 => S3";

// Members, and the bytes, alignment and cells of their structure, with the constraints that it breaks and whether a member is constant.
// By hand from 6.7.2.1p15, p17 and 6.3.2.1p1; the structure of node 3 has 1,200,000 bytes of alignment 2 and 600,000 cells, and that of
// node 4 a constant member.
const STRUCTURES: &str = "\
int => 4 4 1
char, int => 8 4 2
int, char => 8 4 2
char, char, short => 4 2 3
char, * int => 16 8 2
[3] char, long => 16 8 4
char, S3 => 1200002 2 600001
S3, S3 => 2400000 2 1200000 7
const int => 4 4 1 constant
int, * const int => 16 8 2
int, const * int => 16 8 2 constant
[2] const char => 2 1 2 constant
S4 => 4 4 1 constant
[2] S4 => 8 4 2 constant
* S4 => 8 8 1";

#[test]
fn declarators_have_types_and_faults(rt: HostRuntime) -> Result<(), Fail> {
    let alloc = rt.alloc();
    let nodes = nodes_with(alloc, 5, &[3, 4])?;
    let mut table = Table::new(alloc)?;
    for row in DECLARATORS.split('\n') {
        expect_declared(alloc, &mut table, nodes.as_slice(), row)?;
    }
    Ok(())
}

#[test]
fn parameters_are_adjusted(rt: HostRuntime) -> Result<(), Fail> {
    let alloc = rt.alloc();
    let mut table = Table::new(alloc)?;
    for row in PARAMETERS.split('\n') {
        expect_adjusted(alloc, &mut table, row)?;
    }
    Ok(())
}

#[test]
fn structures_are_laid_out(rt: HostRuntime) -> Result<(), Fail> {
    let alloc = rt.alloc();
    let mut table = Table::new(alloc)?;
    for row in STRUCTURES.split('\n') {
        expect_laid_out(alloc, &mut table, row)?;
    }
    Ok(())
}

fn expect_declared(
    alloc: Global,
    table: &mut Table,
    nodes: &[Node],
    row: &str,
) -> Result<(), Fail> {
    let (place, specifiers, steps, told) = quadruple(row, "; ", " => ");
    let declared = declared_by(table, specifiers, steps)?;
    let mut found = String::new(alloc);
    push_ruled(&mut found, table, nodes, case_of(place, steps), declared)?;
    expect(row, found.as_str(), told)
}

fn expect_adjusted(alloc: Global, table: &mut Table, row: &str) -> Result<(), Fail> {
    let (text, told) = pair(row, " => ");
    let given = row_of(table, text)?;
    if given as usize >= table.len() {
        return Err(Fail::from("no type"));
    }
    let found = adjusted(table, given)?;
    expect_type(alloc, table, found, row, told)
}

fn expect_laid_out(alloc: Global, table: &mut Table, row: &str) -> Result<(), Fail> {
    let (given, told) = pair(row, " => ");
    let members = rows_of(alloc, table, given, ' ')?;
    let found = laid_out(alloc, table, members.as_slice())?;
    expect(row, found.as_str(), told)
}

fn laid_out(alloc: Global, table: &Table, members: &[u32]) -> Result<String, AllocError> {
    if !all_rows(table, members) {
        return Err(AllocError);
    }
    let found = structure_of(table, &LAYOUTS, &FIXED, members);
    let (size, alignment) = (found.layout.size, found.layout.alignment);
    let cells = found.layout.cells;
    let large = only_if(is_too_large(found.layout), " 7");
    let fixed = only_if(found.fixed, " constant");
    format!(in alloc; "{size} {alignment} {cells}{large}{fixed}")
}

fn only_if(so: bool, text: &'static str) -> &'static str {
    if so { text } else { "" }
}

const LARGE: Layout = Layout {
    size: 1_200_000,
    alignment: 2,
    cells: 600_000,
};

const SMALL: Layout = Layout {
    size: 4,
    alignment: 4,
    cells: 1,
};

// The layouts of the nodes up to the structures of nodes 3 and 4, of which the second has a constant member.
const LAYOUTS: [Layout; 5] = [NOTHING, NOTHING, NOTHING, LARGE, SMALL];

const FIXED: [bool; 5] = [false, false, false, false, true];

// A declarator so far, with the row of its derivations.
#[derive(Clone, Copy)]
struct Derived {
    declarator: Declarator,
    row: u32,
}

// How a declarator stands in its declaration.
#[derive(Clone, Copy)]
struct Case {
    place: Place,
    class: Option<Class>,
    initialised: bool,
}

fn case_of(place: &str, steps: &str) -> Case {
    let (place, class) = match place {
        "extern" => (Place::File, Some(Class::Extern)),
        "typedef" => (Place::File, Some(Class::Typedef)),
        word => (place_of(word), None),
    };
    Case {
        place,
        class,
        initialised: steps.ends_with("="),
    }
}

// A declarator with the rows of the type that its specifiers name and of the declared one.
#[derive(Clone, Copy)]
struct Declared {
    derived: Derived,
    base: u32,
    row: u32,
}

fn declared_by(table: &mut Table, specifiers: &str, steps: &str) -> Result<Declared, AllocError> {
    let base = base_row(table, said(specifiers))?;
    let derived = derived_by(table, steps)?;
    if derived.row as usize >= table.len() || base as usize >= table.len() {
        return Err(AllocError);
    }
    let row = declare(table, derived.declarator, derived.row, base)?;
    Ok(Declared { derived, base, row })
}

// Adds the type of a declarator, and its faults.
fn push_ruled(
    out: &mut String,
    table: &Table,
    nodes: &[Node],
    case: Case,
    declared: Declared,
) -> Result<(), AllocError> {
    let count = table.len();
    if declared.row as usize >= count
        || declared.base as usize >= count
        || declared.derived.row as usize >= count
    {
        return Err(AllocError);
    }
    push_declared(out, table, declared)?;
    push_faults(out, table, nodes, case, declared)
}

fn push_declared(out: &mut String, table: &Table, declared: Declared) -> Result<(), AllocError>
    requires { declared.row < length table.now }
{
    if is_untyped(table, declared.row) {
        return out.push_str("none");
    }
    let function = declared.derived.declarator.function.is_some();
    out.push_str(only_if(function, "function "))?;
    push_type(out, table, declared.row)
}

fn push_faults(
    out: &mut String,
    table: &Table,
    nodes: &[Node],
    case: Case,
    declared: Declared,
) -> Result<(), AllocError>
    requires derived { declared.derived.row < length table.now }
    requires base { declared.base < length table.now }
    requires row { declared.row < length table.now }
{
    let declarator = declared.derived.declarator;
    out.push_str(only_if(lacks_type(table, nodes, case, declared), " 6"))?;
    tell(out, 7, declarator.wrong)?;
    tell(
        out,
        7,
        cells_fault(table, &LAYOUTS, declarator, declared.base),
    )?;
    out.push_str(only_if(is_wrong_function(table, case, declared), " 8"))?;
    tell(
        out,
        14,
        open_fault(declarator, case.place, case.class, case.initialised),
    )?;
    tell(out, 41, volatile_of_member(case, declarator))
}

fn is_wrong_function(table: &Table, case: Case, declared: Declared) -> bool
    requires { declared.row < length table.now }
{
    let typedef = matches!(case.class, Some(Class::Typedef));
    function_fault(
        table,
        declared.derived.declarator,
        case.place,
        typedef,
        declared.row,
    )
}

fn volatile_of_member(case: Case, declarator: Declarator) -> Option<u32> {
    match case.place {
        Place::Member => declarator.volatile,
        _ => None,
    }
}

// Whether a type that has to be complete isn't.
fn lacks_type(table: &Table, nodes: &[Node], case: Case, declared: Declared) -> bool
    requires derived { declared.derived.row < length table.now }
    requires base { declared.base < length table.now }
    requires row { declared.row < length table.now }
{
    let derived = declared.derived;
    let function = derived.declarator.function.is_some();
    let whole = has_whole_elements(table, nodes, 9, derived.row, declared.base);
    let object = is_object(case.place, case.class, function);
    !whole || (object && !is_whole_object(table, nodes, 9, declared.row))
}

fn derived_by(table: &mut Table, steps: &str) -> Result<Derived, AllocError> {
    let row = hole(table)?;
    let mut derived = Derived {
        declarator: BARE,
        row,
    };
    let mut token = 0_u32;
    for word in steps.split(' ') {
        token = token.saturating_add(1);
        if derived.row as usize >= table.len() {
            return Err(AllocError);
        }
        derived = derive(table, derived, word, token)?;
    }
    Ok(derived)
}

fn derive(table: &mut Table, inner: Derived, word: &str, token: u32) -> Result<Derived, AllocError>
    requires { inner.row < length table.old }
{
    let declarator = inner.declarator;
    match word {
        "-" | "=" => Ok(inner),
        "()" | "(p)" => Ok(Derived {
            declarator: function(declarator, is_hole(table, inner.row), token, word == "()"),
            row: inner.row,
        }),
        "*" | "*const" => Ok(Derived {
            declarator: pointer(declarator, None),
            row: pointed(table, inner.row, word == "*const", false)?,
        }),
        "*volatile" => Ok(Derived {
            declarator: pointer(declarator, Some(token)),
            row: pointed(table, inner.row, false, true)?,
        }),
        _ => {
            let size = size_in(word);
            Ok(Derived {
                declarator: array(declarator, token, size),
                row: arrayed(table, inner.row, count_in(size))?,
            })
        }
    }
}

fn size_in(word: &str) -> Size {
    match word {
        "[]" => Size::Open,
        "[?]" => size_of(false, Constant::NotConstant),
        "[x]" => size_of(true, Constant::NotConstant),
        _ => {
            let inside = word.strip_prefix("[").unwrap_or("");
            let digits = inside.strip_suffix("]").unwrap_or("");
            size_of(true, Constant::Value(digits.parse::<i128>().unwrap_or(0)))
        }
    }
}

fn count_in(size: Size) -> u64 {
    match size {
        Size::Known(count) => count,
        Size::Open => 0,
        Size::Untyped | Size::Wrong => 1,
    }
}

fn is_untyped(table: &Table, row: u32) -> bool
    requires { row < length table.now }
{
    match table.shape(row).of {
        CType::Unknown => true,
        _ => false,
    }
}
