use crate::texts::unit_of;
use cr_check_constants::{
    Arithmetic, Constant, Operand, Relation, Shift, Sign, arithmetic, cast, character, comma,
    conditional, enumerator, integer, logical_and, logical_or, next_enumerator, not, relation,
    shift, size, unary,
};
use cr_ints::IntKind;
use cr_syntax::{Kind, Node, Unit};
use cr_tokens::Token;
use std::alloc::{AllocError, Global};
use std::test::Fail;
use tests_rules::{expect, name_of, pair};

// An expression, its type, and its value: `no` where it is no constant, `undefined` where it is one only where it isn't
// evaluated. Worked out by hand from C11 6.3.1, 6.4.4, 6.5 and 6.6. A name is no constant here.
const CONSTANTS: &str = "\
0 is int 0
007 is int 7
0xFf is int 255
2147483647 is int 2147483647
2147483648 is long 2147483648
0x7fffffff is int 2147483647
0x80000000 is uint 2147483648
037777777777 is uint 4294967295
0x100000000 is long 4294967296
0xFFFFFFFFFFFFFFFF is ulong 18446744073709551615
9223372036854775807 is long 9223372036854775807
4294967295U is uint 4294967295
4294967296u is ulong 4294967296
1L is long 1
0xFFFFFFFFFFFFFFFFl is ulong 18446744073709551615
1ul is ulong 1
1ll is llong 1
1LLu is ullong 1
0x8000000000000000LL is ullong 9223372036854775808
'a' is int 97
'\\n' is int 10
'\\0' is int 0
'\\101' is int 65
'\\377' is int -1
'\\x41' is int 65
'\\x80' is int -128
'\\'' is int 39
'?' is int 63
1 + 2 * 3 is int 7
-7 / 2 is int -3
-7 % 2 is int -1
2147483647 + 1 is int undefined
2147483647 + 1u is uint 2147483648
0u - 1 is uint 4294967295
2147483647L + 1 is long 2147483648
1 / 0 is int undefined
1 % 0 is int undefined
(-2147483647 - 1) / -1 is int undefined
6 & -4 is int 4
6 | -8 is int -2
5 ^ 3 is int 6
-1 ^ 1u is uint 4294967294
0xF0 & 0x3CL is long 48
1 << 4 is int 16
1u << 31 is uint 2147483648
1u << 32 is uint undefined
1 << 31 is int undefined
1 << -1 is int undefined
1L << 40 is long 1099511627776
-8 >> 1 is int -4
1 << 4294967297L is int undefined
-1 < 0 is int 1
-1 < 0u is int 0
-1 < 0L is int 1
-1L < 0u is int 1
-1 == 4294967295u is int 1
3 >= 3 is int 1
3 > 3 is int 0
2 <= 3 is int 1
2 != 2 is int 0
1 || 1 / 0 is int 1
0 && 1 / 0 is int 0
1 && 1 / 0 is int undefined
0 || 1 / 0 is int undefined
1 / 0 && 0 is int undefined
2 && 3 is int 1
0 || 0 is int 0
0 || -5 is int 1
0 && x is int no
1 || x is int no
x && 0 is int no
1 ? 2 : 3u is uint 2
0 ? 2 : -1 is int -1
1 ? -1 : 0u is uint 4294967295
0 ? 1 / 0 : 5 is int 5
1 ? 1 / 0 : 5 is int undefined
1 / 0 ? 1 : 1 is int undefined
1 ? 5 : x is int no
x ? 1 : 1 is int no
(1, 2) is int undefined
0 && (1, 2) is int 0
(x, 2) is int no
(1, x) is int no
+'a' is int 97
-2147483648 is long -2147483648
-(-2147483647 - 1) is int undefined
-1u is uint 4294967295
~0 is int -1
~0u is uint 4294967295
~5L is long -6
!0 is int 1
!7 is int 0
!x is int no
!(1 / 0) is int undefined
(char)200 is char -56
(short)65537 is short 1
(_Bool)256 is bool 1
(_Bool)0 is bool 0
(unsigned)-1 is uint 4294967295
(long)-1 is long -1
(char)1 + (char)2 is int 3
(char)x is char no
(int)(1 / 0) is int undefined
sizeof(int) is ulong 4
sizeof(int) - 5 is ulong 18446744073709551615";

#[test]
fn expressions_have_their_values(rt: HostRuntime) -> Result<(), Fail> {
    let alloc = rt.alloc();
    for row in CONSTANTS.split('\n') {
        expect_value(alloc, row)?;
    }
    Ok(())
}

fn expect_value(alloc: Global, row: &str) -> Result<(), Fail> {
    let (text, told) = pair(row, " is ");
    let found = answer(alloc, text)?;
    expect(row, found.as_str(), told)
}

#[test]
fn enumerators_are_ints(rt: HostRuntime) {
    let values = [
        enumerator(Constant::Value(-2147483648)),
        enumerator(Constant::Value(2147483648)),
        enumerator(Constant::Undefined),
        enumerator(Constant::NotConstant),
        next_enumerator(2147483646),
        next_enumerator(2147483647),
    ];
    let told = [Some(-2147483648), None, None, None, Some(2147483647), None];
    let holds = values == told;
    assert!(rt; holds, "the rule doesn't hold");
}

// The type and the value of an expression, in words.
fn answer(alloc: Global, text: &str) -> Result<String, AllocError> {
    let file = format!(in alloc; "int a = {text};")?;
    match initialiser(alloc, file.as_str())? {
        Some(found) => in_words(alloc, found),
        None => String::from_str(alloc, "no unit"),
    }
}

fn initialiser(alloc: Global, file: &str) -> Result<Option<Operand>, AllocError> {
    match unit_of(alloc, file)? {
        Some(unit) => initialiser_in(alloc, file.as_bytes(), &unit),
        None => Ok(None),
    }
}

fn initialiser_in(alloc: Global, file: &[u8], unit: &Unit) -> Result<Option<Operand>, AllocError> {
    let mut operands: Vec<Operand> = Vec::new(alloc);
    let mut found = None;
    for node in unit.nodes.as_slice() {
        if node.kind == Kind::InitDeclarator {
            found = Some(part(&operands, node, 1));
        }
        operands.push(operand(file, unit, &operands, node))?;
    }
    Ok(found)
}

fn in_words(alloc: Global, operand: Operand) -> Result<String, AllocError> {
    let kind = name_of(operand.kind);
    match operand.constant {
        Constant::NotConstant => format!(in alloc; "{kind} no"),
        Constant::Undefined => format!(in alloc; "{kind} undefined"),
        Constant::Value(value) => format!(in alloc; "{kind} {value}"),
    }
}

const NOTHING: Operand = Operand {
    kind: IntKind::Int,
    constant: Constant::NotConstant,
};

fn part(operands: &[Operand], node: &Node, at: usize) -> Operand {
    match node.parts.as_slice().get(at) {
        Some(number) => operands.get(*number as usize).copied().unwrap_or(NOTHING),
        None => NOTHING,
    }
}

fn operand(file: &[u8], unit: &Unit, operands: &[Operand], node: &Node) -> Operand {
    let first = part(operands, node, 0);
    let second = part(operands, node, 1);
    match node.kind {
        Kind::Integer => integer(spelling(file, unit, node)).unwrap_or(NOTHING),
        Kind::Character => character(spelling(file, unit, node)).unwrap_or(NOTHING),
        Kind::Group => first,
        Kind::Cast => cast(first.kind, second.constant),
        Kind::SizeofType => size(4),
        Kind::Plus => unary(Sign::Plus, first),
        Kind::Minus => unary(Sign::Minus, first),
        Kind::Complement => unary(Sign::Complement, first),
        Kind::Not => not(first.constant),
        Kind::Comma => comma(first.constant, second),
        Kind::Conditional => conditional(first.constant, second, part(operands, node, 2)),
        Kind::LogicalAnd => an_int(logical_and(first.constant, second.constant)),
        Kind::LogicalOr => an_int(logical_or(first.constant, second.constant)),
        kind => binary(kind, first, second),
    }
}

fn binary(kind: Kind, left: Operand, right: Operand) -> Operand {
    match kind {
        Kind::Add => arithmetic(Arithmetic::Add, left, right),
        Kind::Subtract => arithmetic(Arithmetic::Subtract, left, right),
        Kind::Multiply => arithmetic(Arithmetic::Multiply, left, right),
        Kind::Divide => arithmetic(Arithmetic::Divide, left, right),
        Kind::Remainder => arithmetic(Arithmetic::Remainder, left, right),
        Kind::And => arithmetic(Arithmetic::And, left, right),
        Kind::Xor => arithmetic(Arithmetic::Xor, left, right),
        Kind::Or => arithmetic(Arithmetic::Or, left, right),
        Kind::ShiftLeft => shift(Shift::Left, left, right),
        Kind::ShiftRight => shift(Shift::Right, left, right),
        Kind::Equal => relation(Relation::Equal, left, right),
        Kind::NotEqual => relation(Relation::NotEqual, left, right),
        Kind::Less => relation(Relation::Less, left, right),
        Kind::Greater => relation(Relation::Greater, left, right),
        Kind::LessEqual => relation(Relation::LessEqual, left, right),
        Kind::GreaterEqual => relation(Relation::GreaterEqual, left, right),
        kind => specified(kind),
    }
}

// The type that a node of one type specifier stands for.
fn specified(kind: Kind) -> Operand {
    let kind = match kind {
        Kind::Char => IntKind::Char,
        Kind::Short => IntKind::Short,
        Kind::Long => IntKind::Long,
        Kind::Unsigned => IntKind::UInt,
        Kind::Bool => IntKind::Bool,
        _ => IntKind::Int,
    };
    Operand {
        kind,
        constant: Constant::NotConstant,
    }
}

fn an_int(constant: Constant) -> Operand {
    Operand {
        kind: IntKind::Int,
        constant,
    }
}

fn spelling<'a>(file: &'a [u8], unit: &Unit, node: &Node) -> &'a [u8] {
    let none = Token {
        kind: cr_tokens::TokenKind::Integer,
        start: 0,
        end: 0,
    };
    let token = unit
        .tokens
        .list
        .get(node.first as usize)
        .copied()
        .unwrap_or(none);
    file.get(token.start as usize..token.end as usize)
        .unwrap_or(&[])
}
