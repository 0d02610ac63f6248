ghost use Rattle.std.specs.Prelude.{◌≡◌, ◌<◌, ◌≤◌, ◌==◌, ◌&&◌, ◌||◌, ℕ, IfSome, length, nat_le, slice_get, if◌then◌else◌};
ghost use Rattle.cr_check_constants.specs.declared.constant.Constant.TheVariants.{NotConstant};
ghost use Rattle.cr_check_types.specs.Types.{Qualified, type_at};
ghost use Rattle.cr_check_operands.specs.Values.{valued_at, room_of, seen_at, value_in, untyped};
ghost use Rattle.cr_check_operands.specs.Places.{found_by};
ghost use Rattle.cr_check_expressions.specs.Known.{meaning_by, meaning_at, room_of_declared};
ghost use Rattle.cr_check_expressions.specs.Ruled.{operands_at, AreFacts, is_parameter, is_mispassed, are_passed, called};
ghost use Rattle.cr_check_expressions.specs.Breaks.{is_miscalled, mispasses};

use crate::known::Declared;
use crate::operands::{is_type, is_typed, operand, part_at};
use cr_check_constants::Constant;
use cr_check_operands::{Fact, Value, is_passable, value_in_row, value_of};
use cr_check_types::Table;

/// The value of a call (C11 6.5.2.2) of what is declared, with the parameters of these rows; `Unknown` where the number of
/// arguments or one of them is not allowed.
#[tactic(auto, unfolding(crate::specs::Ruled::called))]
pub(crate) fn called(
    table: &Table,
    declared: Declared,
    parameters: &[u32],
    facts: &[Fact],
    parts: &[u32],
) -> Value
    requires declared { room_of_declared declared ≤ length table.now }
    requires parameters { (k : ℕ) → IfSome (slice_get parameters.now k) (λ row. row < length table.now) }
    requires facts { AreFacts table.now facts.now }
    ensures is { valued_at table.now result ≡ called (meaning_at table.now parameters.now declared) (operands_at table.now facts.now parts.now) (length parts.now) }
    ensures within { room_of result ≤ length table.now }
{
    match declared {
        Declared::Function(row, more) => {
            let agree = counts_agree(parameters.len(), more, parts.len());
            let passed = are_passed(table, parameters, facts, parts);
            result_if(table, both(agree, passed), row)
        }
        Declared::Object(..) => Value::Unknown,
        Declared::Enumerator(_) => Value::Unknown,
        Declared::TypeName => Value::Unknown,
        Declared::Unclear => Value::Unknown,
    }
}

fn counts_agree(parameters: usize, more: bool, arguments: usize) -> bool
    ensures { result ≡ (parameters == arguments || (more && nat_le parameters arguments)) }
{
    parameters == arguments || (more && parameters <= arguments)
}

fn both(one: bool, other: bool) -> bool
    ensures { result ≡ (one && other) }
{
    one && other
}

// The value that a function gives, where the call is allowed.
fn result_if(table: &Table, allowed: bool, row: u32) -> Value
    requires { row < length table.now }
    ensures is { valued_at table.now result ≡ (if allowed then value_in (type_at table.now row) NotConstant else untyped) }
    ensures within { room_of result ≤ length table.now }
{
    if allowed {
        value_in_row(table, row, Constant::NotConstant)
    } else {
        Value::Unknown
    }
}

fn are_passed(table: &Table, parameters: &[u32], facts: &[Fact], parts: &[u32]) -> bool
    requires parameters { (k : ℕ) → IfSome (slice_get parameters.now k) (λ row. row < length table.now) }
    requires facts { AreFacts table.now facts.now }
    ensures { result ≡ are_passed (λ k. found_by (type_at table.now) (slice_get parameters.now k)) (operands_at table.now facts.now parts.now) (length parts.now) }
{
    let mut passed = true;
    for k in 0..parts.len() {
        let argument = operand(table, facts, parts, k);
        let wrong = is_mispassed(table, part_at(parameters, k), argument);
        passed = both(passed, !wrong);
    }
    passed
}

#[tactic(auto, unfolding(crate::specs::Ruled::is_mispassed))]
fn is_mispassed(table: &Table, parameter: Option<u32>, argument: Fact) -> bool
    requires parameter { IfSome parameter (λ row. row < length table.now) }
    requires argument { argument.row < length table.now }
    ensures { result ≡ is_mispassed (found_by (type_at table.now) parameter) (seen_at table.now argument) }
{
    is_parameter(table, parameter)
        && is_typed(table, argument)
        && !is_passable(table, parameter, value_of(table, argument))
}

fn is_parameter(table: &Table, parameter: Option<u32>) -> bool
    requires { IfSome parameter (λ row. row < length table.now) }
    ensures { result ≡ is_parameter (found_by (type_at table.now) parameter) }
{
    match parameter {
        Some(row) => is_type(table, row),
        None => true,
    }
}

/// Whether what is called is no function, or one of another number of parameters.
pub(crate) fn is_miscalled(declared: Declared, parameters: &[u32], arguments: usize) -> bool
    ensures { (look : ℕ → Qualified) → result ≡ is_miscalled (meaning_by look parameters.now declared) arguments }
{
    match declared {
        Declared::Function(_, more) => !counts_agree(parameters.len(), more, arguments),
        Declared::Object(..) => true,
        Declared::Enumerator(_) => true,
        Declared::TypeName => true,
        Declared::Unclear => false,
    }
}

/// Whether the argument of a number may not be passed to its parameter.
pub(crate) fn mispasses(
    table: &Table,
    declared: Declared,
    parameters: &[u32],
    k: usize,
    argument: Fact,
) -> bool
    requires parameters { (k : ℕ) → IfSome (slice_get parameters.now k) (λ row. row < length table.now) }
    requires argument { argument.row < length table.now }
    ensures { result ≡ mispasses (meaning_at table.now parameters.now declared) k (seen_at table.now argument) }
{
    match declared {
        Declared::Function(..) => is_mispassed(table, part_at(parameters, k), argument),
        Declared::Object(..) => false,
        Declared::Enumerator(_) => false,
        Declared::TypeName => false,
        Declared::Unclear => false,
    }
}
