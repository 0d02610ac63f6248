ghost use Rattle.std.specs.Prelude.{◌≡◌, ◌<◌, ◌≤◌, IfOk, OnOk, ℕ, length, if◌then◌else◌};
ghost use Rattle.cr_check_types.specs.Types.{Qualified, type_at, Grows, IsRow};
ghost use Rattle.cr_check_operands.specs.Values.{valued_by, valued_at, room_of, address, untyped};
ghost use Rattle.cr_check_types.specs.Relations.{composite_of};
ghost use Rattle.cr_check_operands.specs.Rules.{with_qualifiers_of, merged, chosen_value, conditional_value};

use crate::comparison::is_zero;
use crate::logic::scalar_constant;
use crate::pointed::{are_alike, is_void, qualifiers_of};
use crate::value::Value;
use cr_check_constants::{Constant, conditional as conditional_constant};
use cr_check_types::Table;
use std::alloc::AllocError;

/// The second or third operand of `?:`.
#[derive(Clone, Copy)]
pub struct Branch {
    pub value: Value,
    /// Whether it is the constant 0 cast to `void *`.
    pub null: bool,
}

/// `?:` (C11 6.5.15). It has a scalar first, then two integers, the same structure twice, two voids, or what may be compared by
/// `==`; `Unknown` for other operands.
pub fn conditional(
    table: &mut Table,
    condition: Value,
    left: Branch,
    right: Branch,
) -> Result<Value, AllocError>
    requires left { room_of left.value ≤ length table.old }
    requires right { room_of right.value ≤ length table.old }
    ensures is { IfOk result (λ v. valued_at table.new v ≡ conditional_value (valued_at table.old condition) left.null right.null (valued_at table.old left.value) (valued_at table.old right.value)) }
    ensures within { IfOk result (λ v. room_of v ≤ length table.new) }
    ensures grows { OnOk result (Grows table.old table.new) }
{
    match scalar_constant(condition) {
        Some(constant) => chosen(table, constant, left, right),
        None => Ok(Value::Unknown),
    }
}

fn chosen(
    table: &mut Table,
    condition: Constant,
    left: Branch,
    right: Branch,
) -> Result<Value, AllocError>
    requires left { room_of left.value ≤ length table.old }
    requires right { room_of right.value ≤ length table.old }
    ensures is { IfOk result (λ v. valued_at table.new v ≡ chosen_value condition left.null right.null (valued_at table.old left.value) (valued_at table.old right.value)) }
    ensures within { IfOk result (λ v. room_of v ≤ length table.new) }
    ensures grows { OnOk result (Grows table.old table.new) }
{
    match (left.value, right.value) {
        (Value::Integer(x), Value::Integer(y)) => {
            Ok(Value::Integer(conditional_constant(condition, x, y)))
        }
        (Value::Structure(one), Value::Structure(other)) => {
            Ok(where_allowed(one == other, left.value))
        }
        (Value::Void, Value::Void) => Ok(Value::Void),
        (Value::Pointer(to), Value::Pointer(other)) => {
            merged(table, left.null, right.null, to, other)
        }
        (Value::Pointer(_), Value::Integer(y)) => {
            Ok(where_allowed(is_zero(y.constant), left.value))
        }
        (Value::Integer(x), Value::Pointer(_)) => {
            Ok(where_allowed(is_zero(x.constant), right.value))
        }
        _ => Ok(Value::Unknown),
    }
}

fn where_allowed(allowed: bool, value: Value) -> Value
    ensures is { (look : ℕ → Qualified) → valued_by look result ≡ (if allowed then valued_by look value else untyped) }
    ensures within { (count : ℕ) → room_of value ≤ count → room_of result ≤ count }
{
    if allowed { value } else { Value::Unknown }
}

// Two pointers, each with whether it is a null pointer constant.
fn merged(
    table: &mut Table,
    left_null: bool,
    right_null: bool,
    left: u32,
    right: u32,
) -> Result<Value, AllocError>
    requires left { left < length table.old }
    requires right { right < length table.old }
    ensures is { IfOk result (λ v. valued_at table.new v ≡ merged left_null right_null (type_at table.old left) (type_at table.old right)) }
    ensures within { IfOk result (λ v. room_of v ≤ length table.new) }
    ensures grows { OnOk result (Grows table.old table.new) }
{
    if right_null {
        Ok(Value::Pointer(left))
    } else if left_null {
        Ok(Value::Pointer(right))
    } else if are_alike(table, left, right) {
        alike(table, left, right)
    } else if is_void(table, left) {
        Ok(Value::Pointer(qualified_like(table, right, left)?))
    } else if is_void(table, right) {
        Ok(Value::Pointer(qualified_like(table, left, right)?))
    } else {
        Ok(Value::Unknown)
    }
}

// A pointer to the composite of two types that are alike, with the qualifiers of both.
fn alike(table: &mut Table, left: u32, right: u32) -> Result<Value, AllocError>
    requires left { left < length table.old }
    requires right { right < length table.old }
    ensures is { IfOk result (λ v. valued_at table.new v ≡ address (with_qualifiers_of (type_at table.old right) (composite_of (type_at table.old left) (type_at table.old right)))) }
    ensures within { IfOk result (λ v. room_of v ≤ length table.new) }
    ensures grows { OnOk result (Grows table.old table.new) }
{
    let both = table.composite(left, right)?;
    Ok(Value::Pointer(qualified_like(table, right, both)?))
}

/// The type of a row, with the qualifiers of another row's type added.
pub(crate) fn qualified_like(table: &mut Table, from: u32, row: u32) -> Result<u32, AllocError>
    requires from { from < length table.old }
    requires row { row < length table.old }
    ensures made { IfOk result (λ r. IsRow table.new r (with_qualifiers_of (type_at table.old from) (type_at table.old row))) }
    ensures grows { OnOk result (Grows table.old table.new) }
{
    let added = qualifiers_of(table, from);
    table.qualified(row, added.constant, added.volatile)
}
