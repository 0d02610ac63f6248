use crate::rows::{cut, expect_text, expect_value, kind, number, rows};
use cr_ints::{IntKind, bitand, bitor, bitxor, neg, not};
use std::alloc::{AllocError, Global};
use std::process::Abort;
use std::test::Fail;

// A kind, two operands, and what `&`, `|` and `^` make of them (C11 6.5.10 to 6.5.12), in two's complement.
const PAIRS: &str = "
Int 12 10 8 14 6
Int -1 1 1 -1 -2
Int -2147483648 2147483647 0 -1 -1
Int -4 6 4 -2 -6
UInt 4294967295 65536 65536 4294967295 4294901759
Long -9223372036854775808 -1 -9223372036854775808 -1 9223372036854775807
ULong 18446744073709551615 9223372036854775808 9223372036854775808 18446744073709551615 9223372036854775807
LLong 4294967296 -4294967296 4294967296 -4294967296 -8589934592
";

// A kind, an operand, what `~` makes of it, and how unary minus ends (6.5.3.3).
const SINGLES: &str = "
Int 0 -1 Value(0)
Int 2147483647 -2147483648 Value(-2147483647)
Int -2147483648 2147483647 Undefined(1)
UInt 0 4294967295 Value(0)
UInt 1 4294967294 Value(4294967295)
Long -9223372036854775808 9223372036854775807 Undefined(1)
ULong 18446744073709551615 0 Value(1)
LLong 5 -6 Value(-5)
";

fn pair(
    rt: &impl Abort,
    alloc: Global,
    kind: IntKind,
    left: i128,
    right: i128,
) -> Result<String, AllocError> {
    expect_value(rt, kind, left);
    expect_value(rt, kind, right);
    let (both, any, one) = (
        bitand(kind, left, right),
        bitor(kind, left, right),
        bitxor(kind, left, right),
    );
    format!(in alloc; "{both} {any} {one}")
}

fn expect_pair(rt: &impl Abort, alloc: Global, row: &str) -> Result<(), Fail> {
    let (name, rest) = cut(row);
    let (left, rest) = cut(rest);
    let (right, wanted) = cut(rest);
    let found = pair(rt, alloc, kind(name)?, number(left)?, number(right)?);
    Ok(expect_text(rt, found, wanted, row)?)
}

fn single(
    rt: &impl Abort,
    alloc: Global,
    kind: IntKind,
    value: i128,
) -> Result<String, AllocError> {
    expect_value(rt, kind, value);
    let turned = not(kind, value);
    let negated = neg(kind, value);
    format!(in alloc; "{turned} {negated:?}")
}

fn expect_single(rt: &impl Abort, alloc: Global, row: &str) -> Result<(), Fail> {
    let (name, rest) = cut(row);
    let (value, wanted) = cut(rest);
    let found = single(rt, alloc, kind(name)?, number(value)?);
    Ok(expect_text(rt, found, wanted, row)?)
}

#[test]
fn operations_on_bits_are_those_of_two_s_complement(rt: HostRuntime) -> Result<(), Fail> {
    for row in rows(PAIRS) {
        expect_pair(&rt, rt.alloc(), row)?;
    }
    Ok(())
}

#[test]
fn a_complement_and_a_negation_at_the_edges(rt: HostRuntime) -> Result<(), Fail> {
    for row in rows(SINGLES) {
        expect_single(&rt, rt.alloc(), row)?;
    }
    Ok(())
}
