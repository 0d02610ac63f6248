ghost use Rattle.std.specs.Prelude.{◌≡◌, ◌<◌, ◌≤◌, IfSome, length};
ghost use Rattle.cr_check_operands.specs.Values.{room_of};

use crate::{constant_in, expect, nodes_with, push_type, quadruple, row_of, triple, without};
use cr_check_constants::{Arithmetic, Constant, Relation, Shift, Sign};
use cr_check_operands::{
    Branch, Fact, Junction, Value, address, assign, cast, comma, compound, conditional,
    dereference, difference, equality, fact_of, increment, integers, is_integer, is_null_cast,
    is_passable, is_scalar, logical, member, negated, order, pointed_member, shifted, signed, size,
    structure_at, subscript, sum, text, value_of,
};
use cr_check_types::{Layout, NOTHING, Table};
use cr_syntax::{CType, Node};
use std::alloc::{AllocError, Global};
use std::test::Fail;

// S3 and S10 are the contents of structures, complete at node 14; S10 has a constant member, and S2 is no content.
const AT: u32 = 14;

// An operand is a type in words, with `place` and `register` before it; a number is an int constant, and `null` is the constant 0
// cast to `void *`. The result is a type, with its value where it is a constant; `none` where the operands are not allowed.

// Two operands and an operator. By hand from C11 6.5.2.1, 6.5.4 to 6.5.14, 6.5.16 and 6.5.17; with `cast` the left one names a
// type; `.` and `->` have the type of the member on the right.
const BINARY: &str = "\
int; *; long => long
char; /; char => int
uint; %; int => uint
6; *; 7 => int 42
int; *; * int => none
S3; *; int => none
void; *; int => none
int; &; ulong => ulong
int; ^; short => int
int; |; * char => none
char; <<; long => int
long; >>; char => long
1; <<; 4 => int 16
* int; <<; int => none
int; +; int => int
1; +; 2 => int 3
* int; +; int => * int
int; +; * S3 => * S3
const * int; +; int => * int
place [3] int; +; int => * int
[3] int; +; int => none
* S2; +; int => none
* void; +; int => none
* [] int; +; int => none
* int; +; * int => none
S3; +; int => none
* int; -; int => * int
int; -; * int => none
* int; -; * const int => long
* int; -; * char => none
* S2; -; * S2 => none
* S2; -; int => none
* [] int; -; * [3] int => none
* [3] int; -; * [] int => none
1; -; 2 => int -1
1; <; 2 => int 1
* int; <; * const int => int
* void; <; * void => int
* int; <; * char => none
* int; <; * void => none
* int; <; 0 => none
* int; ==; 0 => int
0; ==; * int => int
null; ==; * int => int
* int; ==; 1 => none
* int; ==; int => none
* int; ==; * const int => int
* int; ==; * void => int
* const void; ==; * int => int
* int; ==; * char => none
S3; ==; S3 => none
2; ==; 2 => int 1
* int; &&; int => int
0; &&; * int => int
0; &&; 3 => int 0
1; ||; 0 => int 1
S3; &&; int => none
int; ||; S3 => none
void; ||; int => none
int; ,; * char => * char
void; ,; char => char
int; ,; place [3] char => * char
int; ,; [3] char => [3] char
int; ,; S3 => S3
void; ,; void => void
1; ,; 2 => int
* int; []; int => place int
int; []; * int => place int
place [2] [3] int; []; int => place [3] int
* const S3; []; int => place const S3
* S2; []; int => none
* void; []; int => none
int; []; int => none
* int; []; * int => none
void; cast; S3 => void
void; cast; void => void
int; cast; S3 => none
S3; cast; S3 => none
char; cast; long => char
const char; cast; int => char
char; cast; 200 => char -56
bool; cast; 5 => bool 1
int; cast; void => none
int; cast; * int => none
bool; cast; * int => bool
* int; cast; 0 => * int
* int; cast; 1 => none
* int; cast; int => none
* void; cast; 0 => null
* const void; cast; 0 => * const void
* void; cast; null => * void
* char; cast; * int => * char
* int; cast; * const int => * int
* int; cast; * volatile int => none
* int; cast; * [3] volatile int => none
* volatile int; cast; * volatile char => * volatile int
[3] int; cast; * int => none
place int; =; long => int
place int; =; 1 => int
place int; =; * int => none
place bool; =; * int => bool
place * int; =; 0 => * int
place * int; =; null => * int
place * int; =; 1 => none
place * int; =; int => none
place * int; =; * const int => none
place * const int; =; * int => * const int
place * volatile int; =; * int => * volatile int
place * int; =; * volatile int => none
place * int; =; * void => * int
place * void; =; * int => * void
place * void; =; * const int => none
place * void; =; * [3] const int => none
place * int; =; * char => none
place * * const int; =; * * int => none
place const int; =; int => none
place volatile int; =; int => int
place const * int; =; * int => none
place S3; =; S3 => S3
place S3; =; S10 => none
place S3; =; int => none
place S10; =; S10 => none
place [3] int; =; [3] int => none
int; =; int => none
S3; =; S3 => none
place int; *=; long => int
place int; *=; * int => none
place * int; *=; int => none
place const int; *=; int => none
place * int; +=; long => * int
place int; +=; long => int
place int; +=; * int => none
place * int; +=; * int => none
place * void; +=; int => none
place const int; +=; int => none
int; +=; int => none
place S3; .; int => place int
place const S3; .; int => place const int
place const S3; .; [2] int => place [2] const int
place S3; .; const int => place const int
S3; .; int => int
register place S3; .; int => register place int
place S3; .; missing => none
* S3; ->; int => place int
* const S3; ->; int => place const int
int; passed; long => yes
const int; passed; int => yes
* int; passed; 0 => yes
* int; passed; place [3] int => yes
* int; passed; [3] int => none
* int; passed; 1 => none
* int; passed; * const int => none
int; passed; void => none
S3; passed; S3 => yes
missing; passed; S3 => yes
missing; passed; * int => yes
missing; passed; void => none
* S3; ->; missing => none
S3; ->; int => none";

// An operator before its operand. By hand from 6.5.2.4 and 6.5.3.
const UNARY: &str = "\
&; place int => * int
&; place const int => * const int
&; place [3] int => * [3] int
&; register place int => none
&; int => none
*; * int => place int
*; place [3] int => place int
*; [3] int => none
*; * [3] char => place [3] char
*; * const S3 => place const S3
*; * S2 => none
*; * void => none
*; int => none
+; char => int
+; * int => none
-; 5 => int -5
-; S3 => none
~; bool => int
~; * int => none
!; * int => int
!; 0 => int 1
!; S3 => none
!; void => none
++; place int => int
++; place char => char
++; place bool => bool
++; place * int => * int
++; place * S2 => none
++; place * void => none
++; place S3 => none
++; place const int => none
++; place [3] int => none
++; int => none
sizeof; int => ulong 4
sizeof; [3] int => ulong 12
sizeof; * void => ulong 8
sizeof; S3 => ulong 4
sizeof; S2 => none
sizeof; void => none
sizeof; [] int => none
scalar; int => yes
scalar; * S2 => yes
scalar; place [3] int => yes
scalar; [3] int => none
scalar; S3 => none
scalar; void => none
integer; char => yes
integer; * int => none
structure; const S3 => S3
structure; * S3 => none
structure; int => none";

// The three operands of `?:`. By hand from 6.5.15.
const CONDITIONAL: &str = "\
int; int; long => long
* int; char; char => int
1; 2; 3 => int 2
0; 2; 3 => int 3
* int; 2; 3 => int
S3; int; int => none
void; int; int => none
int; void; void => void
int; void; int => none
int; S3; S3 => S3
int; S3; S10 => none
int; * int; 0 => * int
int; 0; * int => * int
int; * int; 1 => none
int; * int; int => none
int; * int; null => * int
int; null; * int => * int
int; null; null => * void
int; 0; null => * void
int; * int; * void => * void
int; * const int; * void => * const void
int; * volatile void; * int => * volatile void
int; * int; * const int => * const int
int; * volatile int; * const int => * const volatile int
int; const * int; * int => * int
int; * int; * char => none
int; * [] int; * [3] int => * [3] int
int; * int; S3 => none";

#[test]
fn operators_allow_their_operands(rt: HostRuntime) -> Result<(), Fail> {
    let alloc = rt.alloc();
    let nodes = nodes_with(alloc, 11, &[3, 10])?;
    let mut table = Table::new(alloc)?;
    expect_operators(alloc, &mut table, nodes.as_slice())
}

#[test]
fn conditionals_have_the_type_of_both_branches(rt: HostRuntime) -> Result<(), Fail> {
    let alloc = rt.alloc();
    let mut table = Table::new(alloc)?;
    for row in CONDITIONAL.split('\n') {
        expect_conditional(alloc, &mut table, row)?;
    }
    Ok(())
}

#[test]
fn literals_are_arrays_of_char(rt: HostRuntime) -> Result<(), Fail> {
    let alloc = rt.alloc();
    let mut table = Table::new(alloc)?;
    let found = text(&mut table, 3)?;
    expect_fact(alloc, &table, found, "\"ab\"", "place [3] char")
}

fn expect_operators(alloc: Global, table: &mut Table, nodes: &[Node]) -> Result<(), Fail> {
    for row in BINARY.split('\n') {
        expect_binary(alloc, table, nodes, row)?;
    }
    for row in UNARY.split('\n') {
        expect_unary(alloc, table, nodes, row)?;
    }
    Ok(())
}

fn expect_binary(alloc: Global, table: &mut Table, nodes: &[Node], row: &str) -> Result<(), Fail> {
    let (left, operator, right, told) = quadruple(row, "; ", " => ");
    let left = operand(table, left)?;
    let right = operand(table, right)?;
    let found = binary(table, nodes, operator, left, right)?;
    expect_fact(alloc, table, found, row, told)
}

fn expect_unary(alloc: Global, table: &mut Table, nodes: &[Node], row: &str) -> Result<(), Fail> {
    let (operator, given, told) = triple(row, "; ", " => ");
    let given = operand(table, given)?;
    let found = unary(table, nodes, operator, given)?;
    expect_fact(alloc, table, found, row, told)
}

fn expect_conditional(alloc: Global, table: &mut Table, row: &str) -> Result<(), Fail> {
    let (condition, left, right, told) = quadruple(row, "; ", " => ");
    let condition = operand(table, condition)?;
    let left = operand(table, left)?;
    let right = operand(table, right)?;
    let found = chosen(table, condition, left, right)?;
    expect_fact(alloc, table, found, row, told)
}

fn expect_fact(
    alloc: Global,
    table: &Table,
    found: Fact,
    row: &str,
    told: &str,
) -> Result<(), Fail> {
    let mut shown = String::new(alloc);
    push_fact(&mut shown, table, found)?;
    expect(row, shown.as_str(), told)
}

fn binary(
    table: &mut Table,
    nodes: &[Node],
    operator: &str,
    left: Fact,
    right: Fact,
) -> Result<Fact, AllocError> {
    match operator {
        "[]" => element(table, nodes, left, right),
        "." => member_of(table, left, right),
        "->" => pointed_member_of(table, left, right),
        "cast" => named(table, left, right),
        "passed" => passed(table, left, right),
        "=" | "*=" | "+=" => {
            let given = assignment(table, nodes, operator, left, right);
            made(table, given, false)
        }
        _ => {
            let given = arithmetic(
                table,
                nodes,
                operator,
                value(table, left),
                value(table, right),
            );
            made(table, given, false)
        }
    }
}

fn arithmetic(table: &Table, nodes: &[Node], operator: &str, left: Value, right: Value) -> Value
    requires left { room_of left ≤ length table.now }
    requires right { room_of right ≤ length table.now }
{
    match operator {
        "*" => integers(Arithmetic::Multiply, left, right),
        "/" => integers(Arithmetic::Divide, left, right),
        "%" => integers(Arithmetic::Remainder, left, right),
        "&" => integers(Arithmetic::And, left, right),
        "^" => integers(Arithmetic::Xor, left, right),
        "|" => integers(Arithmetic::Or, left, right),
        "<<" => shifted(Shift::Left, left, right),
        ">>" => shifted(Shift::Right, left, right),
        "+" => sum(table, nodes, AT, left, right),
        "-" => difference(table, nodes, AT, left, right),
        "<" => order(table, Relation::Less, left, right),
        "==" => equality(table, Relation::Equal, left, right),
        "&&" => logical(Junction::Conjunction, left, right),
        "||" => logical(Junction::Disjunction, left, right),
        "," => comma(left, right),
        _ => Value::Unknown,
    }
}

// The structure of node 10 has a constant member.
const FIXED: [bool; 11] = [
    false, false, false, false, false, false, false, false, false, false, true,
];

fn assignment(table: &Table, nodes: &[Node], operator: &str, left: Fact, right: Fact) -> Value {
    if left.row as usize >= table.len() {
        return Value::Unknown;
    }
    let given = value(table, right);
    match operator {
        "=" => assign(table, nodes, AT, &FIXED, left, given),
        "+=" => compound(table, nodes, AT, &FIXED, true, left, given),
        _ => compound(table, nodes, AT, &FIXED, false, left, given),
    }
}

fn element(table: &mut Table, nodes: &[Node], left: Fact, right: Fact) -> Result<Fact, AllocError> {
    let left = value(table, left);
    let right = value(table, right);
    subscript(table, nodes, AT, left, right)
}

// The right one has the type of the member; a member that is missing has no type.
fn member_of(table: &mut Table, left: Fact, right: Fact) -> Result<Fact, AllocError> {
    let count = table.len();
    if left.row as usize >= count || right.row as usize >= count {
        return Ok(left);
    }
    let found = found(table, right.row);
    member(table, left, found)
}

fn pointed_member_of(table: &mut Table, left: Fact, right: Fact) -> Result<Fact, AllocError> {
    if right.row as usize >= table.len() {
        return Ok(left);
    }
    let whole = value(table, left);
    let found = found(table, right.row);
    pointed_member(table, whole, found)
}

fn found(table: &Table, row: u32) -> Option<u32>
    requires { row < length table.now }
    ensures { IfSome result (λ r. r < length table.now) }
{
    match table.shape(row).of {
        CType::Unknown => None,
        _ => Some(row),
    }
}

fn named(table: &mut Table, left: Fact, right: Fact) -> Result<Fact, AllocError> {
    if left.row as usize >= table.len() {
        return Ok(left);
    }
    let given = value(table, right);
    let null = is_null_cast(table, left.row, given);
    let target = cast(table, left.row, given);
    made(table, target, null)
}

// A fact that is shown as `yes` or `none`.
fn passed(table: &mut Table, left: Fact, right: Fact) -> Result<Fact, AllocError> {
    if left.row as usize >= table.len() {
        return Ok(left);
    }
    let parameter = found(table, left.row);
    let argument = value(table, right);
    let passable = is_passable(table, parameter, argument);
    answered(table, passable)
}

fn answered(table: &mut Table, so: bool) -> Result<Fact, AllocError> {
    if so {
        fact_of(table, Value::Structure(YES), false)
    } else {
        fact_of(table, Value::Unknown, false)
    }
}

// A structure that stands for an answer.
const YES: u32 = 99;

fn unary(
    table: &mut Table,
    nodes: &[Node],
    operator: &str,
    given: Fact,
) -> Result<Fact, AllocError> {
    match operator {
        "*" => {
            let target = value(table, given);
            dereference(table, nodes, AT, target)
        }
        "scalar" => {
            let holds = is_scalar(value(table, given));
            answered(table, holds)
        }
        "integer" => {
            let holds = is_integer(value(table, given));
            answered(table, holds)
        }
        _ => {
            let target = prefixed(table, nodes, operator, given);
            made(table, target, false)
        }
    }
}

fn prefixed(table: &Table, nodes: &[Node], operator: &str, given: Fact) -> Value {
    if given.row as usize >= table.len() {
        return Value::Unknown;
    }
    let operand = value(table, given);
    match operator {
        "&" => address(table, given),
        "+" => signed(Sign::Plus, operand),
        "-" => signed(Sign::Minus, operand),
        "~" => signed(Sign::Complement, operand),
        "!" => negated(operand),
        "++" => increment(table, nodes, AT, &FIXED, given),
        "sizeof" => size(table, nodes, AT, &LAYOUTS, given.row),
        _ => structure(table, given.row),
    }
}

const INT: Layout = Layout {
    size: 4,
    alignment: 4,
    cells: 1,
};

// The layouts of the nodes up to the structure of node 3.
const LAYOUTS: [Layout; 4] = [NOTHING, NOTHING, NOTHING, INT];

fn structure(table: &Table, row: u32) -> Value
    requires { row < length table.now }
{
    match structure_at(table, row) {
        Some(node) => Value::Structure(node),
        None => Value::Unknown,
    }
}

fn chosen(table: &mut Table, condition: Fact, left: Fact, right: Fact) -> Result<Fact, AllocError> {
    let condition = value(table, condition);
    let one = Branch {
        value: value(table, left),
        null: left.null,
    };
    let other = Branch {
        value: value(table, right),
        null: right.null,
    };
    let target = conditional(table, condition, one, other)?;
    made(table, target, false)
}

fn value(table: &Table, fact: Fact) -> Value
    ensures { room_of result ≤ length table.now }
{
    if (fact.row as usize) < table.len() {
        value_of(table, fact)
    } else {
        Value::Unknown
    }
}

fn made(table: &mut Table, target: Value, null: bool) -> Result<Fact, AllocError> {
    if room(target) > table.len() {
        return fact_of(table, Value::Unknown, false);
    }
    fact_of(table, target, null)
}

// Above which number the rows end that a value names.
fn room(target: Value) -> usize
    ensures { result ≡ room_of target }
{
    match target {
        Value::Pointer(row) => row as usize + 1,
        Value::Array(row) => row as usize + 1,
        _ => 0,
    }
}

// An operand in words.
fn operand(table: &mut Table, text: &str) -> Result<Fact, AllocError> {
    let (register, rest) = without(text, "register ");
    let (lvalue, words) = without(rest, "place ");
    let constant = constant_in(words);
    let row = row_of_operand(table, words, constant)?;
    Ok(Fact {
        row,
        lvalue,
        register,
        constant,
        null: words == "null",
    })
}

fn row_of_operand(table: &mut Table, words: &str, constant: Constant) -> Result<u32, AllocError> {
    if let Constant::Value(_) = constant {
        return row_of(table, "int");
    }
    match words {
        "missing" => Ok(0),
        "null" => row_of(table, "* void"),
        _ => row_of(table, words),
    }
}

// Adds what an expression has, in words.
fn push_fact(out: &mut String, table: &Table, fact: Fact) -> Result<(), AllocError> {
    match answer(table, fact) {
        Some(word) => out.push_str(word),
        None => push_typed(out, table, fact),
    }
}

// The one word for a fact whose type isn't told.
fn answer(table: &Table, fact: Fact) -> Option<&'static str> {
    if fact.row as usize >= table.len() || is_untyped(table, fact.row) {
        Some("none")
    } else if is_yes(table, fact.row) {
        Some("yes")
    } else if fact.null {
        Some("null")
    } else {
        None
    }
}

fn push_typed(out: &mut String, table: &Table, fact: Fact) -> Result<(), AllocError> {
    out.push_str(place_words(fact))?;
    push_type(out, table, fact.row)?;
    match fact.constant {
        Constant::Value(value) => write!(out, " {value}"),
        _ => Ok(()),
    }
}

fn place_words(fact: Fact) -> &'static str {
    match (fact.register, fact.lvalue) {
        (true, true) => "register place ",
        (true, false) => "register ",
        (false, true) => "place ",
        (false, false) => "",
    }
}

fn is_untyped(table: &Table, row: u32) -> bool
    requires { row < length table.now }
{
    match table.shape(row).of {
        CType::Unknown => true,
        _ => false,
    }
}

fn is_yes(table: &Table, row: u32) -> bool
    requires { row < length table.now }
{
    match table.shape(row).of {
        CType::Struct(node) => node == YES,
        _ => false,
    }
}
