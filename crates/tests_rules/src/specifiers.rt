ghost use Rattle.std.specs.Prelude.{◌≡◌, ◌<◌, IfOk, length};

use crate::{expect, expect_type, pair, quadruple, row_of};
use cr_check_declarators::{
    Specified, UNSAID, inline_fault, is_one_type, joined, named_type, specifier, storage_fault,
    volatile_fault,
};
use cr_check_enclosing::Place;
use cr_check_types::Table;
use cr_syntax::Kind;
use std::alloc::{AllocError, Global};
use std::test::Fail;

// Specifiers, and the type that they name, by hand from C11 6.7.2p2: all rows of its list, some in another order, and their neighbours.
// `struct` stands for one whose type is given, that of node 3.
const TYPES: &str = "\
void => void
char => char
signed char => schar
char unsigned => uchar
short => short
signed short => short
short int => short
int signed short => short
unsigned short => ushort
short int unsigned => ushort
int => int
signed => int
signed int => int
unsigned => uint
int unsigned => uint
long => long
int long => long
signed long int => long
long unsigned => ulong
unsigned long int => ulong
long long => llong
long int long => llong
long signed int long => llong
unsigned long long => ullong
long int unsigned long => ullong
_Bool => bool
struct => S3
const int volatile => const volatile int
static const struct => const S3
 => none
const => none
extern => none
void int => none
int int => none
char int => none
signed unsigned => none
signed signed int => none
unsigned _Bool => none
short char => none
long char => none
short short => none
short long => none
long long long => none
long void => none
struct int => none
struct struct => none
unsigned struct => none";

// A place, specifiers, what is declared there, and the faults: the constraint and the number of the specifier. By hand from 6.7.1p2,
// p3, p7, 6.7.4p2, 6.7.6.3p2, 6.8.5p3, 6.9p2, 6.9.1p4 and this project's rule on `volatile`.
const STANDING: &str = "\
file; int; object =>
file; static int; object =>
file; extern int; function =>
file; typedef int; object =>
file; auto int; object => 2.0
file; int register; object => 2.1
file; static extern int; object => 2.1
file; static int static; object => 2.2
file; auto static int; object => 2.0
definition; static int; function =>
definition; extern int; function =>
definition; typedef int; function => 2.0
definition; register int; function => 2.0
block; static int; object =>
block; register int; object =>
block; auto int; object =>
block; static int; function => 2.0
block; auto int; function => 2.0
block; extern int; function =>
block; typedef int; function =>
clause; auto int; object =>
clause; register int; object =>
clause; static int; object => 2.0
clause; extern int; object => 2.0
clause; typedef int; object => 2.0
parameter; register int; object =>
parameter; int static; object => 2.1
parameter; auto int; object => 2.0
file; inline int; function =>
file; inline int inline; function =>
definition; static inline int; function =>
block; inline int; function =>
file; inline int; object => 4.0
file; static int inline inline; object => 4.2
parameter; inline int; function => 4.0
file; inline; nothing => 4.0
file; volatile int; object =>
file; const volatile struct; object => 41.1
file; volatile struct; nothing => 41.0
file; void volatile; function => 41.1
file; volatile int volatile; object =>
member; int; object =>
member; volatile int; object => 41.0
name; int volatile; object =>
parameter; volatile void; object => 41.0
block; static inline volatile struct; function => 2.0 41.2
file; volatile; object =>";

#[test]
fn specifiers_name_types(rt: HostRuntime) -> Result<(), Fail> {
    let alloc = rt.alloc();
    let mut table = Table::new(alloc)?;
    for row in TYPES.split('\n') {
        expect_named(alloc, &mut table, row)?;
    }
    Ok(())
}

#[test]
fn specifiers_stand_in_their_places(rt: HostRuntime) -> Result<(), Fail> {
    let alloc = rt.alloc();
    let mut table = Table::new(alloc)?;
    for row in STANDING.split('\n') {
        expect_faults(alloc, &mut table, row)?;
    }
    Ok(())
}

fn expect_named(alloc: Global, table: &mut Table, row: &str) -> Result<(), Fail> {
    let (text, told) = pair(row, " => ");
    let specified = said(text);
    if !is_one_type(specified) {
        return expect(row, "none", told);
    }
    let found = base_row(table, specified)?;
    expect_type(alloc, table, found, row, told)
}

fn expect_faults(alloc: Global, table: &mut Table, row: &str) -> Result<(), Fail> {
    let (place, text, what, told) = quadruple(row, "; ", " =>");
    let specified = said(text);
    let base = base_row(table, specified)?;
    let function = what == "function";
    let mut found = String::new(alloc);
    push_faults(
        &mut found,
        table,
        specified,
        place_of(place),
        function,
        base,
    )?;
    expect(row, found.as_str(), told)
}

// The row of the type that specifiers name, where a structure is that of node 3.
pub(crate) fn base_row(table: &mut Table, specified: Specified) -> Result<u32, AllocError>
    ensures { IfOk result (λ r. r < length table.new) }
{
    let given = row_of(table, "S3")?;
    if given as usize >= table.len() {
        return Err(AllocError);
    }
    named_type(table, specified, given)
}

// Adds the faults of specifiers whose type has a row.
fn push_faults(
    out: &mut String,
    table: &Table,
    specified: Specified,
    place: Place,
    function: bool,
    row: u32,
) -> Result<(), AllocError>
    requires { row < length table.now }
{
    tell(out, 2, storage_fault(specified, place, function))?;
    tell(out, 4, inline_fault(specified, place, function))?;
    tell(out, 41, volatile_fault(table, specified, place, row))
}

/// Tells a fault of a constraint at a token.
pub(crate) fn tell(out: &mut String, constraint: u8, token: Option<u32>) -> Result<(), AllocError> {
    match token {
        Some(token) => write!(out, " {constraint}.{token}"),
        None => Ok(()),
    }
}

/// What specifiers in words say.
pub(crate) fn said(text: &str) -> Specified {
    let mut specified = UNSAID;
    let mut token = 0_u32;
    for word in text.split(' ') {
        if let Some(kind) = kind_of(word) {
            specified = joined(specified, specifier(kind, token, false));
        }
        token = token.saturating_add(1);
    }
    specified
}

fn kind_of(word: &str) -> Option<Kind> {
    match word {
        "typedef" => Some(Kind::Typedef),
        "extern" => Some(Kind::Extern),
        "static" => Some(Kind::Static),
        "auto" => Some(Kind::Auto),
        "register" => Some(Kind::Register),
        "inline" => Some(Kind::Inline),
        "const" => Some(Kind::Const),
        "volatile" => Some(Kind::Volatile),
        "void" => Some(Kind::Void),
        "char" => Some(Kind::Char),
        "short" => Some(Kind::Short),
        "int" => Some(Kind::Int),
        "long" => Some(Kind::Long),
        "signed" => Some(Kind::Signed),
        "unsigned" => Some(Kind::Unsigned),
        "_Bool" => Some(Kind::Bool),
        "struct" => Some(Kind::StructTag),
        _ => None,
    }
}

/// A place in words.
pub(crate) fn place_of(word: &str) -> Place {
    match word {
        "file" => Place::File,
        "definition" => Place::Definition,
        "block" => Place::Block,
        "clause" => Place::Clause,
        "parameter" => Place::Parameter,
        "member" => Place::Member,
        _ => Place::Name,
    }
}
