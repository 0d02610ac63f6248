ghost use Rattle.std.specs.Prelude.{◌≡◌, ◌<◌, ◌≤◌, length, slice_get};
ghost use Rattle.cr_check_types.specs.Types.{type_at};
ghost use Rattle.cr_check_operands.specs.Values.{valued_at, room_of, seen_at};
ghost use Rattle.cr_check_expressions.specs.Ruled.{operands_at, value, is_type, is_typed, facts_at, AreFacts};

use cr_check_constants::Constant;
use cr_check_operands::{Fact, Value, value_of};
use cr_check_types::Table;
use cr_rows::entry_at;
use cr_syntax::CType;

/// What has no type, where the table's first row is that of none.
pub const NO_FACT: Fact = Fact {
    row: 0,
    lvalue: false,
    register: false,
    constant: Constant::NotConstant,
    null: false,
};

/// The number of a node's part.
pub fn part_at(parts: &[u32], k: usize) -> Option<u32>
    ensures { result ≡ slice_get parts.now k }
{
    if k < parts.len() {
        Some(parts[k])
    } else {
        None
    }
}

/// What a node's part has.
pub fn operand(table: &Table, facts: &[Fact], parts: &[u32], k: usize) -> Fact
    requires { AreFacts table.now facts.now }
    ensures within { result.row < length table.now }
    ensures is { seen_at table.now result ≡ operands_at table.now facts.now parts.now k }
{
    match part_at(parts, k) {
        Some(part) => entry_at(facts, part as usize, NO_FACT),
        None => NO_FACT,
    }
}

/// The value of a node's part.
pub fn value(table: &Table, facts: &[Fact], parts: &[u32], k: usize) -> Value
    requires { AreFacts table.now facts.now }
    ensures within { room_of result ≤ length table.now }
    ensures is { valued_at table.now result ≡ value (facts_at table.now facts.now) parts.now k }
{
    value_of(table, operand(table, facts, parts, k))
}

/// Whether a row's type is one.
pub(crate) fn is_type(table: &Table, row: u32) -> bool
    requires { row < length table.now }
    ensures { result ≡ is_type (type_at table.now row) }
{
    match table.shape(row).of {
        CType::Unknown => false,
        _ => true,
    }
}

/// Whether an expression has a type.
pub fn is_typed(table: &Table, fact: Fact) -> bool
    requires { fact.row < length table.now }
    ensures { result ≡ is_typed (seen_at table.now fact) }
{
    is_type(table, fact.row)
}
