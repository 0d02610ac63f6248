use crate::rows::{cut, expect_value, kind, number, rows};
use cr_ints::{IntEnd, IntKind, add, common, convert, div, mul, promote, rem, shl, shr, sub};
use std::process::Abort;
use std::test::Fail;

// Values, the kinds that they are converted to, and what comes of it (C11 6.3.1.2, 6.3.1.3).
const CONVERSIONS: &str = "
300 UChar 44
200 Char -56
3 Bool 1
-1 UInt 4294967295
0 Bool 0
-9223372036854775808 Bool 1
256 UChar 0
-1 UChar 255
255 UChar 255
127 SChar 127
128 SChar -128
-129 SChar 127
32768 Short -32768
65535 UShort 65535
65536 UShort 0
4294967295 Int -1
2147483647 Int 2147483647
-2147483648 UInt 2147483648
18446744073709551615 Int -1
18446744073709551615 Long -1
-9223372036854775808 ULong 9223372036854775808
9223372036854775807 LLong 9223372036854775807
18446744073709551615 ULLong 18446744073709551615
";

// Kinds, and what they are promoted to (C11 6.3.1.1).
const PROMOTIONS: &str = "
Bool Int
Char Int
SChar Int
UChar Int
Short Int
UShort Int
Int Int
UInt UInt
Long Long
ULong ULong
LLong LLong
ULLong ULLong
";

// Two kinds and their common one (C11 6.3.1.8).
const COMMON: &str = "
Long UInt Long
LLong ULong ULLong
Char UShort Int
Int UInt UInt
Int Long Long
Long ULong ULong
Long LLong LLong
ULong ULLong ULLong
UInt LLong LLong
Bool ULLong ULLong
";

// Kinds with their least and their greatest values and their widths, by C11 5.2.4.2.1 and two's complement.
const SIGNED: &str = "
Int -2147483648 2147483647 32
Long -9223372036854775808 9223372036854775807 64
LLong -9223372036854775808 9223372036854775807 64
";

const UNSIGNED: &str = "
UInt 0 4294967295 32
ULong 0 18446744073709551615 64
ULLong 0 18446744073709551615 64
";

// Operations on each signed kind, with their value or the number of their undefined case.
const SIGNED_ROWS: &str = "
Add greatest 1 U1
Add least -1 U1
Add least greatest -1
Add greatest 0 greatest
Sub least 1 U1
Sub 0 least U1
Sub -1 least greatest
Sub 1 -1 2
Mul least -1 U1
Mul least 1 least
Mul greatest greatest U1
Mul least least U1
Mul -1 greatest least+1
Div 1 0 U2
Div least 0 U2
Div least -1 U3
Div least 1 least
Div greatest -1 least+1
Div -7 2 -3
Div 7 -2 -3
Rem 1 0 U2
Rem least 0 U2
Rem least -1 U3
Rem -7 2 -1
Rem 7 -2 1
Rem least greatest -1
Shl 1 width-1 U5
Shl 0 width-1 0
Shl 0 width U4
Shl 0 width+1 U4
Shl -1 -1 U4
Shl -1 0 U5
Shl least 1 U5
Shl greatest 0 greatest
Shl greatest 1 U5
Shl 3 4 48
Shl 1 18446744073709551615 U4
Shr -3 1 -2
Shr -1 width-1 -1
Shr least width-1 -1
Shr greatest width-1 0
Shr greatest 0 greatest
Shr 0 width U4
Shr 1 width+1 U4
Shr 1 -1 U4
Shr 1 -9223372036854775808 U4
";

// The same on each unsigned kind. `half` is the value of the highest bit.
const UNSIGNED_ROWS: &str = "
Add greatest 1 0
Add greatest greatest greatest-1
Add 0 1 1
Sub 0 1 greatest
Sub 0 greatest 1
Mul greatest greatest 1
Mul greatest 2 greatest-1
Mul greatest 0 0
Div greatest 0 U2
Div greatest greatest 1
Div 1 greatest 0
Rem greatest 0 U2
Rem 1 greatest 1
Rem greatest 10 5
Shl greatest 1 greatest-1
Shl greatest width-1 half
Shl 1 width U4
Shl 1 width+1 U4
Shl 0 -1 U4
Shr greatest width-1 1
Shr greatest width U4
Shr greatest -1 U4
";

fn expect_conversion(rt: &impl Abort, value: i128, to: IntKind, wanted: i128) {
    assert!(rt;
        IntKind::ULLong.can_represent(value) || IntKind::LLong.can_represent(value),
        "the kind doesn't represent the value"
    );
    assert!(rt; convert(value, to) == wanted, "{value} to {to:?}");
}

fn expect_converted(rt: &impl Abort, row: &str) -> Result<(), Fail> {
    let (value, rest) = cut(row);
    let (to, wanted) = cut(rest);
    expect_conversion(rt, number(value)?, kind(to)?, number(wanted)?);
    Ok(())
}

#[test]
fn conversions_are_those_of_the_standard(rt: HostRuntime) -> Result<(), Fail> {
    for row in rows(CONVERSIONS) {
        expect_converted(&rt, row)?;
    }
    Ok(())
}

fn expect_kind(rt: &impl Abort, found: IntKind, wanted: IntKind, row: &str) {
    assert!(rt; found == wanted, "{row}: {found:?} and not {wanted:?}");
}

fn expect_promoted(rt: &impl Abort, row: &str) -> Result<(), Fail> {
    let (from, wanted) = cut(row);
    expect_kind(rt, promote(kind(from)?), kind(wanted)?, row);
    Ok(())
}

fn expect_common(rt: &impl Abort, row: &str) -> Result<(), Fail> {
    let (left, rest) = cut(row);
    let (right, wanted) = cut(rest);
    let (left, right, wanted) = (kind(left)?, kind(right)?, kind(wanted)?);
    expect_kind(rt, common(left, right), wanted, row);
    expect_kind(rt, common(right, left), wanted, row);
    Ok(())
}

fn expect_promotions(rt: &impl Abort) -> Result<(), Fail> {
    for row in rows(PROMOTIONS) {
        expect_promoted(rt, row)?;
    }
    Ok(())
}

#[test]
fn promotions_and_common_kinds_are_those_of_the_standard(rt: HostRuntime) -> Result<(), Fail> {
    expect_promotions(&rt)?;
    for row in rows(COMMON) {
        expect_common(&rt, row)?;
    }
    Ok(())
}

// A kind with what the words of a row say of it.
#[derive(Clone, Copy)]
struct Limits {
    kind: IntKind,
    least: i128,
    greatest: i128,
    width: i128,
}

fn limits_of(row: &str) -> Result<Limits, Fail> {
    let (name, rest) = cut(row);
    let (least, rest) = cut(rest);
    let (greatest, width) = cut(rest);
    Ok(Limits {
        kind: kind(name)?,
        least: number(least)?,
        greatest: number(greatest)?,
        width: number(width)?,
    })
}

// A number, or `least`, `greatest`, `half` or `width` with a number added.
fn value(limits: Limits, word: &str) -> Result<i128, Fail> {
    if let Some(rest) = word.strip_prefix("least") {
        return offset(limits.least, rest);
    }
    if let Some(rest) = word.strip_prefix("greatest") {
        return offset(limits.greatest, rest);
    }
    if let Some(rest) = word.strip_prefix("width") {
        return offset(limits.width, rest);
    }
    if word == "half" {
        return Ok(limits.greatest / 2 + 1);
    }
    number(word)
}

fn offset(from: i128, rest: &str) -> Result<i128, Fail> {
    if rest.is_empty() {
        return Ok(from);
    }
    let offset = number(rest)?;
    Ok(from.checked_add(offset).ok_or("too large")?)
}

fn end(limits: Limits, word: &str) -> Result<IntEnd, Fail> {
    match word {
        "U1" => Ok(IntEnd::Undefined(1)),
        "U2" => Ok(IntEnd::Undefined(2)),
        "U3" => Ok(IntEnd::Undefined(3)),
        "U4" => Ok(IntEnd::Undefined(4)),
        "U5" => Ok(IntEnd::Undefined(5)),
        _ => Ok(IntEnd::Value(value(limits, word)?)),
    }
}

fn apply(rt: &impl Abort, operator: &str, kind: IntKind, left: i128, right: i128) -> IntEnd {
    expect_value(rt, kind, left);
    match operator {
        "Shl" => shl(kind, left, right),
        "Shr" => shr(kind, left, right),
        _ => apply_to_both(rt, operator, kind, left, right),
    }
}

fn apply_to_both(
    rt: &impl Abort,
    operator: &str,
    kind: IntKind,
    left: i128,
    right: i128,
) -> IntEnd {
    expect_value(rt, kind, left);
    expect_value(rt, kind, right);
    match operator {
        "Add" => add(kind, left, right),
        "Sub" => sub(kind, left, right),
        "Mul" => mul(kind, left, right),
        "Div" => div(kind, left, right),
        _ => rem(kind, left, right),
    }
}

fn expect_row(rt: &impl Abort, limits: Limits, row: &str) -> Result<(), Fail> {
    let (operator, rest) = cut(row);
    let (left, rest) = cut(rest);
    let (right, wanted) = cut(rest);
    let (left, right) = (value(limits, left)?, value(limits, right)?);
    let wanted = end(limits, wanted)?;
    let found = apply(rt, operator, limits.kind, left, right);
    let kind = limits.kind;
    assert!(rt; found == wanted, "{row} in {kind:?}");
    Ok(())
}

// A table of operations on one kind.
fn expect_operations(rt: &impl Abort, kind: &str, table: &'static str) -> Result<(), Fail> {
    let limits = limits_of(kind)?;
    for row in rows(table) {
        expect_row(rt, limits, row)?;
    }
    Ok(())
}

#[test]
fn signed_operations_at_the_edges(rt: HostRuntime) -> Result<(), Fail> {
    for kind in rows(SIGNED) {
        expect_operations(&rt, kind, SIGNED_ROWS)?;
    }
    Ok(())
}

#[test]
fn unsigned_operations_at_the_edges(rt: HostRuntime) -> Result<(), Fail> {
    for kind in rows(UNSIGNED) {
        expect_operations(&rt, kind, UNSIGNED_ROWS)?;
    }
    Ok(())
}
