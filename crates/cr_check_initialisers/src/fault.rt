ghost use Rattle.std.specs.Prelude.{◌≡◌, ◌≤◌, ◌++◌, ℕ, List, Option, length};
ghost use Rattle.cr_check_constants.specs.declared.constant.Constant.TheVariants.{NotConstant};
ghost use Rattle.cr_check_types.specs.Types.{Qualified, type_at, type_of};
ghost use Rattle.cr_check_operands.specs.Values.{valued_at, room_of, value_in};
ghost use Rattle.cr_check_expressions.specs.declared.least.Break as least;
ghost use Rattle.cr_check_expressions.specs.Breaks.{fault, first_of};
ghost use Rattle.cr_check_initialisers.specs.Known.{known_of};
ghost use Rattle.cr_check_initialisers.specs.Plans.{entry_of, entries_of};
ghost use Rattle.cr_check_initialisers.specs.Faults.{is_object, has_room, suits_literal, is_bad_literal, suits, is_badly_typed, is_constant, is_varying, faults_of, plan_faults};
ghost use Rattle.cr_check_initialisers.specs.Anchors.{is_array, is_pointer, is_address};

use crate::anchor::{Anchor, is_value};
use crate::kind::{is_char, is_untyped};
use crate::lines::{Line, count_in};
use crate::source::{
    Source, anchor_at, constant_at, first_at, is_literal, shape_at, shape_of, value_at, value_by,
};
use cr_check_constants::Constant;
use cr_check_expressions::{Break, break_if, lesser};
use cr_check_operands::{Fact, Value, is_assignable};
use cr_check_types::Shape;
use cr_syntax::CType;

/// The first constraint that a plan breaks. `equals` is the token of the declarator's `=`, and `is_static` whether its object is of static
/// duration.
#[tactic(auto, unfolding(crate::specs::Plans::entries_of, crate::specs::Faults::plan_faults))]
pub fn first_fault(source: &Source, is_static: bool, equals: u32, lines: &[Line]) -> Option<Break>
    ensures { result ≡ first_of (plan_faults (known_of source.now) is_static equals (entries_of source.now.table.now lines.now)) }
{
    let mut first = None;
    for at in (0..lines.len()).rev() {
        first = first_with(source, is_static, equals, lines[at], first);
    }
    first
}

// The first of what an entry breaks and what those behind it break.
fn first_with(
    source: &Source,
    is_static: bool,
    equals: u32,
    line: Line,
    behind: Option<Break>,
) -> Option<Break>
    ensures { (others : List (Option least.Break)) → behind ≡ first_of others → result ≡ first_of (faults_of (known_of source.now) is_static equals (entry_of source.now.table.now line) ++ others) }
{
    match line {
        Line::Put(put) => {
            let first = first_at(source, put.node);
            let typed = break_if(37, equals, is_badly_typed(source, put.row, put.node));
            let literal = break_if(13, first, is_bad_literal(source, put.row, put.node));
            let constant = break_if(12, first, is_varying(source, is_static, put.node));
            lesser(typed, lesser(literal, lesser(constant, behind)))
        }
        Line::Excess(list) => lesser(break_if(11, first_at(source, list), true), behind),
    }
}

// K37: an expression is assignable to its place.
fn is_badly_typed(source: &Source, row: u32, node: u32) -> bool
    ensures { result ≡ is_badly_typed (known_of source.now) (type_at source.now.table.now row) node }
{
    is_object(source, row)
        && !is_untyped(source, node)
        && (!is_literal(source, node) || is_pointer(source, row))
        && !suits(source, row, value_at(source, node))
}

// K13: a string literal initialises an array of characters that has room for it, or a pointer.
fn is_bad_literal(source: &Source, row: u32, node: u32) -> bool
    ensures { result ≡ is_bad_literal (known_of source.now) (type_at source.now.table.now row) node }
{
    is_object(source, row)
        && is_literal(source, node)
        && !suits_literal(source, row, count_in(source, node))
}

// K12: what initialises a static object is constant.
fn is_varying(source: &Source, is_static: bool, node: u32) -> bool
    ensures { result ≡ is_varying (known_of source.now) is_static node }
{
    is_static && !is_untyped(source, node) && !is_constant(source, node)
}

fn is_constant(source: &Source, node: u32) -> bool
    ensures { result ≡ is_constant (known_of source.now) node }
{
    is_value(constant_at(source, node)) || has_address(source, node)
}

fn has_address(source: &Source, node: u32) -> bool
    ensures { result ≡ is_address ((known_of source.now).anchor node) ((known_of source.now).seen node).type }
{
    match anchor_at(source, node) {
        Anchor::Address => true,
        Anchor::Place => is_array(shape_of(source, node)),
        Anchor::Moving => false,
    }
}

fn is_object(source: &Source, row: u32) -> bool
    ensures { result ≡ is_object (type_at source.now.table.now row) }
{
    match shape_at(source, row).of {
        CType::Unknown => false,
        CType::Function(_) => false,
        _ => true,
    }
}

fn is_pointer(source: &Source, row: u32) -> bool
    ensures { result ≡ is_pointer (type_at source.now.table.now row) }
{
    match shape_at(source, row).of {
        CType::Pointer(_) => true,
        _ => false,
    }
}

fn suits_literal(source: &Source, row: u32, count: u64) -> bool
    ensures { result ≡ suits_literal (type_at source.now.table.now row) count }
{
    match shape_at(source, row).of {
        CType::Pointer(_) => true,
        CType::Array(of, n) => is_char(source, of) && has_room(n, count),
        _ => false,
    }
}

// Whether an array has room for a literal of so many bytes, its zero among them, without that zero.
fn has_room(size: u64, count: u64) -> bool
    ensures { result ≡ has_room size count }
{
    size == 0 || count.saturating_sub(1) <= size
}

fn suits(source: &Source, row: u32, value: Value) -> bool
    requires { room_of value ≤ length source.now.table.now }
    ensures { result ≡ suits (type_at source.now.table.now row) (valued_at source.now.table.now value) }
{
    !is_array(shape_at(source, row)) && is_assignable(source.table, target(source, row), value)
}

// The value of a place of a row's type.
fn target(source: &Source, row: u32) -> Value
    ensures is { valued_at source.now.table.now result ≡ value_in (type_at source.now.table.now row) NotConstant }
    ensures within { room_of result ≤ length source.now.table.now }
{
    let fact = Fact {
        row,
        lvalue: true,
        register: false,
        constant: Constant::NotConstant,
        null: false,
    };
    value_by(source, fact)
}

fn is_array(shape: Shape) -> bool
    ensures { (look : ℕ → Qualified) → result ≡ is_array (type_of look shape) }
{
    match shape.of {
        CType::Array(..) => true,
        _ => false,
    }
}
