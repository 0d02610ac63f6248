// Expressions as words in postfix, each a node.
//
// A word is a node's work, and behind `:` how its place is used: as a value of the type of this letter, or as an array of elements of so
// many cells, of so many cells in all; without it the place is kept. `i` is the place of that object, and `i:i` its value; `[1]:i` a
// subscript by elements of one cell whose place is read. Types are `i` int, `v` volatile int, `u` unsigned int, `l` long, `c` char,
// `b` _Bool, `*` a pointer to int, `s` the structure, `0` void. An arithmetic operator has the type in which it is done behind it, an
// assignment that of its object; `p+1` moves a pointer by elements of one cell, `d1` is the difference of two, `at1` is `*`.
// `f2` is a call with two arguments of a function that gives 0, `g0` of one that gives nothing, `h0` of one that gives a pointer to an
// object whose lifetime has ended.
use crate::unit::node_of;
use cr_eval::Table;
use cr_ints::{IntKind, promote};
use cr_meaning::{Access, Callee, Change, Form, Op, Operator, Relation, Sign, Work};
use cr_memory::{Element, Scalar};
use cr_rows::Row;
use std::alloc::{AllocError, Global};

fn digit(byte: u8) -> u32 {
    u32::from(byte.saturating_sub(b'0'))
}

// All types have one name here, so elements are told apart by their cells.
fn element(cells: u8) -> Element {
    Element {
        cells: digit(cells),
        of: 0,
    }
}

fn kind(letter: u8) -> IntKind {
    match letter {
        b'b' => IntKind::Bool,
        b'c' => IntKind::Char,
        b'u' => IntKind::UInt,
        b'l' => IntKind::Long,
        _ => IntKind::Int,
    }
}

fn form(letter: u8) -> Form {
    match letter {
        b'0' => Form::Void,
        b'*' => Form::Pointer(0),
        b's' => Form::Cells(0),
        _ => Form::Number(kind(letter)),
    }
}

fn access(of: &[u8]) -> Access {
    match of {
        [b'*'] => Access::Scalar(Scalar::Pointer(0), false),
        [b's'] => Access::Cells(0),
        [letter] => Access::Scalar(Scalar::Int(kind(*letter)), *letter == b'v'),
        [cells, whole] => Access::Array(element(*cells), digit(*whole)),
        _ => Access::Unused,
    }
}

fn operator(sign: &[u8]) -> Option<Operator> {
    match sign {
        [b'*'] => Some(Operator::Multiply),
        [b'/'] => Some(Operator::Divide),
        [b'%'] => Some(Operator::Remainder),
        [b'+'] => Some(Operator::Add),
        [b'-'] => Some(Operator::Subtract),
        [b'<', b'<'] => Some(Operator::ShiftLeft),
        [b'>', b'>'] => Some(Operator::ShiftRight),
        [b'&'] => Some(Operator::And),
        [b'^'] => Some(Operator::Xor),
        [b'|'] => Some(Operator::Or),
        _ => None,
    }
}

fn relation(sign: &[u8]) -> Option<Relation> {
    match sign {
        [b'<'] => Some(Relation::Less),
        [b'>'] => Some(Relation::Greater),
        [b'<', b'='] => Some(Relation::LessEqual),
        [b'>', b'='] => Some(Relation::GreaterEqual),
        [b'=', b'='] => Some(Relation::Equal),
        [b'!', b'='] => Some(Relation::NotEqual),
        _ => None,
    }
}

// ---- works, by the number of operands

fn constant(name: &str) -> Option<Work> {
    let (digits, kind) = match name.strip_suffix("u") {
        Some(digits) => (digits, IntKind::UInt),
        None => (name, IntKind::Int),
    };
    let value = digits.parse::<i128>().ok()?;
    Some(Work::Constant(kind, value))
}

fn object(name: &[u8]) -> Option<Work> {
    match name {
        [letter] => Some(Work::Object(node_of(*letter)?, 0)),
        _ => None,
    }
}

// `++` and `--` before and behind their operand.
fn update(sign: &[u8], of: u8, post: bool) -> Option<Work> {
    let change = Change::Arithmetic(operator(sign)?, promote(kind(of)));
    Some(Work::Update(change, form(of), of == b'v', post))
}

fn member(name: &[u8]) -> Option<Work> {
    match name {
        [b'.', b'm'] => Some(Work::Member(2, 0, element(b'1'), form(b'i'))),
        [b'.', b'p'] => Some(Work::Member(2, 1, element(b'1'), form(b'*'))),
        [b'-', b'>', b'm'] => Some(Work::PointerMember(element(b'2'), 0, element(b'1'))),
        _ => None,
    }
}

fn unary(name: &[u8]) -> Option<Work> {
    match name {
        [b'!'] => Some(Work::Not),
        [b'&'] => Some(Work::AddressOf),
        [b'(', b')'] => Some(Work::Pass),
        [b'(', of, b')'] => Some(Work::Cast(form(*of))),
        [b'~', of] => Some(Work::Unary(Sign::Complement, kind(*of))),
        _ => named(name),
    }
}

fn named(name: &[u8]) -> Option<Work> {
    match name {
        [b'a', b't', cells] => Some(Work::Dereference(element(*cells))),
        [b'n', b'e', b'g', of] => Some(Work::Unary(Sign::Minus, kind(*of))),
        [b'p', b'o', b's', b't', sign, of] => update(&[*sign], *of, true),
        [b'p', b'r', b'e', sign, of] => update(&[*sign], *of, false),
        _ => member(name),
    }
}

fn pointers(name: &[u8]) -> Option<Work> {
    match name {
        [b'[', cells, b']'] => Some(Work::Subscript(element(*cells))),
        [b'p', sign, cells] => Some(Work::Binary(Change::Move(*sign == b'-', element(*cells)))),
        [b'd', cells] => Some(Work::Distance(element(*cells))),
        [sign @ .., b'*'] => Some(Work::ComparePointers(relation(sign)?)),
        _ => None,
    }
}

fn integers(name: &[u8]) -> Option<Work> {
    let [sign @ .., of] = name else {
        return None;
    };
    if let Some(relation) = relation(sign) {
        return Some(Work::Compare(relation, kind(*of)));
    }
    match sign {
        [sign @ .., b'='] => update(sign, *of, false),
        _ => Some(Work::Binary(Change::Arithmetic(operator(sign)?, kind(*of)))),
    }
}

fn binary(name: &[u8]) -> Option<Work> {
    match name {
        [b','] => Some(Work::Comma),
        [b'&', b'&'] => Some(Work::LogicalAnd),
        [b'|', b'|'] => Some(Work::LogicalOr),
        [b'=', of] => Some(Work::Assign(form(*of))),
        _ => match pointers(name) {
            Some(work) => Some(work),
            None => integers(name),
        },
    }
}

// A call of the function with this body, and the number of arguments.
fn call(alloc: Global, name: &[u8]) -> Option<(Work, usize)> {
    match name {
        [letter, count] => {
            let body = u32::from(letter.checked_sub(b'f')?);
            let count = count.checked_sub(b'0')?;
            if body > 2 || count > 9 {
                return None;
            }
            let callee = Callee::Function(Row::new(alloc), body, false);
            Some((Work::Call(callee), usize::from(count)))
        }
        _ => None,
    }
}

fn operation(name: &[u8]) -> Option<(Work, usize)> {
    if let Some(work) = unary(name) {
        return Some((work, 1));
    }
    match name {
        [b'?', of] => Some((Work::Conditional(form(*of)), 3)),
        _ => Some((binary(name)?, 2)),
    }
}

fn leaf(name: &str) -> Option<(Work, usize)> {
    match constant(name) {
        Some(work) => Some((work, 0)),
        None => Some((object(name.as_bytes())?, 0)),
    }
}

// A node's work and the number of its parts.
fn work(alloc: Global, name: &str) -> Option<(Work, usize)> {
    if let Some(found) = leaf(name) {
        return Some(found);
    }
    match call(alloc, name.as_bytes()) {
        Some(found) => Some(found),
        None => operation(name.as_bytes()),
    }
}

// ---- nodes

// The last so many of the nodes, which are the parts of a new one.
fn parts(alloc: Global, open: &mut Vec<u32>, count: usize) -> Result<Row<u32>, AllocError> {
    let mut parts = Vec::new(alloc);
    for _ in 0..count {
        parts.push(open.pop().ok_or(AllocError)?)?;
    }
    parts.reverse();
    Ok(Row::from_vec(parts))
}

fn op_of(
    work: Work,
    access: Access,
    parts: Result<Row<u32>, AllocError>,
) -> Result<Op, AllocError> {
    match parts {
        Ok(parts) => Ok(Op {
            parts,
            work,
            access,
        }),
        Err(error) => Err(error),
    }
}

fn op(alloc: Global, open: &mut Vec<u32>, word: &str) -> Result<Op, AllocError> {
    let (name, of) = word.split_once(':').unwrap_or((word, ""));
    match work(alloc, name) {
        Some((work, count)) => op_of(work, access(of.as_bytes()), parts(alloc, open, count)),
        None => Err(AllocError),
    }
}

fn push_node(
    alloc: Global,
    table: &mut Table,
    open: &mut Vec<u32>,
    node: u32,
    word: &str,
) -> Result<(), AllocError> {
    table.ops.push(op(alloc, open, word)?)?;
    open.push(node)?;
    Ok(())
}

/// Puts the nodes of an expression into a table, numbered from 0 as its words are. The last one is the whole expression.
pub(crate) fn push_nodes(alloc: Global, table: &mut Table, words: &str) -> Result<u32, AllocError> {
    let mut open = Vec::new(alloc);
    let mut node: u32 = 0;
    for word in words.split_whitespace() {
        push_node(alloc, table, &mut open, node, word)?;
        node = node.saturating_add(1);
    }
    open.pop().ok_or(AllocError)
}
