#![tactic(auto, using(crate::proofs::Answering::answers, crate::proofs::Answering::then_answers, crate::proofs::Answering::ends_answer, crate::proofs::Answering::written))]

ghost use Rattle.std.specs.Prelude.{[], ◌∷◌, Result, take, drop};
ghost use Rattle.cr_memory.specs.Memory.{Memory};
ghost use Rattle.cr_meaning.specs.World.{World};
ghost use Rattle.cr_meaning.specs.Work.{work_of, giving, at_place, member_of, passed, place_of, taken};
ghost use Rattle.cr_eval.specs.Answers.{Answers, meant, IsFound};
ghost use Rattle.cr_eval.specs.Table.{program_of};

use crate::did::{Did, plainly};
use crate::operators::{
    address, both, changed, compared_integers, conditional, decided, either, negated, signed,
    undecided,
};
use crate::places::{dereferenced, inner_of, pointed_member, used, whole_place};
use crate::pointers::{compared, distance, moved_either};
use crate::storing::{assigned, updated};
use crate::table::Table;
use crate::values::{UNUSED_VALUE, cast, copied, copied_cells, taken};
use cr_ints::IntKind;
use cr_meaning::{Access, Form, Op, Value, Work};
use cr_memory::{Cell, Element, Pointer, Store, Trap};
use std::alloc::Global;

/// A value with no event.
#[inline]
fn giving(value: Result<Value, Trap>) -> Result<Did, Trap>
    ensures { (memory : Memory) (want : Result Value Trap) → Answers want value → Answers (giving memory want) (meant memory result) }
{
    match value {
        Ok(value) => Ok(plainly(value)),
        Err(trap) => Err(trap),
    }
}

/// A place, used as a node says.
#[inline]
fn at_place(
    alloc: Global,
    table: &Table,
    access: Access,
    store: &Store,
    at: Result<Pointer, Trap>,
) -> Result<Did, Trap>
    ensures { (want : Result Pointer Trap) → Answers want at → Answers (at_place (program_of table.now) access store.now want) (meant store.now result) }
{
    match at {
        Ok(at) => used(alloc, table, access, store, at),
        Err(trap) => Err(trap),
    }
}

fn passed(
    alloc: Global,
    table: &Table,
    access: Access,
    store: &Store,
    value: &Value,
) -> Result<Did, Trap>
    ensures { Answers (passed (program_of table.now) access store.now value.now) (meant store.now result) }
{
    match value {
        Value::Place(at) => used(alloc, table, access, store, *at),
        Value::Nothing => Ok(plainly(Value::Nothing)),
        Value::Number(kind, number) => Ok(plainly(Value::Number(*kind, *number))),
        Value::Pointer(at) => Ok(plainly(Value::Pointer(*at))),
        Value::Cells(cells) => Ok(plainly(Value::Cells(copied_cells(alloc, cells.as_slice())?))),
    }
}

/// Some cells of a structure that is no lvalue, as a value of a type.
fn taken_part(
    alloc: Global,
    store: &Store,
    before: u32,
    count: u32,
    form: Form,
    cells: &[Cell],
) -> Result<Value, Trap>
    ensures { Answers (taken store.now form (take count (drop before cells.now))) result }
{
    let (before, count) = (before as usize, count as usize);
    if before > cells.len() || count > cells.len() - before {
        return Err(Trap::NoMemory);
    }
    let rest = &cells[before..];
    taken(alloc, store, form, &rest[..count])
}

/// The place of a node's object, if it was entered.
fn place_of(
    table: &Table,
    store: &Store,
    node: u32,
    of: u32,
    object: Option<u32>,
) -> Result<Pointer, Trap>
    ensures { Answers (place_of store.now object of) result }
{
    match object {
        Some(object) => whole_place(store, object, table.cells_for(node), of),
        None => Err(Trap::NoMemory),
    }
}

/// `.` (C11 6.5.2.3p3): N5, U15, U9, U10; of a structure that is no lvalue U10, U11.
fn member(
    alloc: Global,
    table: &Table,
    access: Access,
    store: &Store,
    whole: u32,
    before: u32,
    member: Element,
    form: Form,
    value: &Value,
) -> Result<Did, Trap>
    ensures { Answers (member_of (program_of table.now) access store.now whole before member form value.now) (meant store.now result) }
{
    match value {
        Value::Place(at) => at_place(
            alloc,
            table,
            access,
            store,
            inner_of(store, whole, before, member, *at),
        ),
        Value::Cells(cells) => giving(taken_part(
            alloc,
            store,
            before,
            member.cells,
            form,
            cells.as_slice(),
        )),
        Value::Nothing => Err(Trap::Undefined(UNUSED_VALUE)),
        Value::Number(_, _) | Value::Pointer(_) => Err(Trap::NoMemory),
    }
}

/// The own work of a node without operands (C11 6.5.1). An identifier's or a literal's object is given, where it was entered: U9
/// to U11 and N5 where the place is used. `NoMemory` is want of memory, or a node that no program of the subset has.
pub fn work_none(
    alloc: Global,
    table: &Table,
    store: &Store,
    op: &Op,
    object: Option<u32>,
) -> Result<Did, Trap>
    ensures { (world : World) → IsFound op.now.work world.bindings object
        → Answers (work_of (program_of table.now) (record world { memory = store.now }) op.now.work op.now.access []) (meant store.now result) }
{
    match &op.work {
        Work::Constant(kind, value) => Ok(plainly(Value::Number(*kind, *value))),
        Work::Object(node, of) => at_place(
            alloc,
            table,
            op.access,
            store,
            place_of(table, store, *node, *of, object),
        ),
        _ => Err(Trap::NoMemory),
    }
}

/// The own work of a node with one operand, on its value (6.5.2.3, 6.5.2.4, 6.5.3, 6.5.4); of `&&`, `||` and `?:` where no other is
/// evaluated. `NoMemory` is want of memory, or an operand that no program of the subset has. After an error the store is given up.
pub fn work_one(
    alloc: Global,
    table: &Table,
    store: &mut Store,
    op: &Op,
    value: &Value,
) -> Result<Did, Trap>
    ensures { (world : World) → Answers (work_of (program_of table.now) (record world { memory = store.old }) op.now.work op.now.access (value.now ∷ [])) (meant store.new result) }
{
    match &op.work {
        Work::Pass => passed(alloc, table, op.access, store, value),
        Work::Unary(sign, kind) => giving(signed(*sign, *kind, value)),
        Work::Not => giving(negated(store, value)),
        Work::Cast(form) => giving(cast(alloc, store, *form, value)),
        Work::AddressOf => giving(address(value)),
        Work::Dereference(own) => at_place(
            alloc,
            table,
            op.access,
            store,
            dereferenced(store, *own, value),
        ),
        Work::Member(whole, before, part, form) => member(
            alloc, table, op.access, store, *whole, *before, *part, *form, value,
        ),
        Work::PointerMember(whole, before, part) => at_place(
            alloc,
            table,
            op.access,
            store,
            pointed_member(store, *whole, *before, *part, value),
        ),
        Work::Update(change, form, volatile, post) => {
            updated(
                alloc,
                table,
                store,
                *change,
                *form,
                *volatile,
                *post,
                value,
                &Value::Number(IntKind::Int, 1),
            )
        }
        Work::LogicalAnd => giving(decided(store, value)),
        Work::LogicalOr => giving(decided(store, value)),
        Work::Conditional(form) => giving(undecided(store, *form, value)),
        _ => Err(Trap::NoMemory),
    }
}

/// The own work of a node with two operands, on their values (6.5.2.1, 6.5.5 to 6.5.17); of `?:` those are the first and the chosen
/// one. `NoMemory` is want of memory, or operands that no program of the subset has. After an error the store is given up.
pub fn work_two(
    alloc: Global,
    table: &Table,
    store: &mut Store,
    op: &Op,
    left: &Value,
    right: &Value,
) -> Result<Did, Trap>
    ensures { (world : World) → Answers (work_of (program_of table.now) (record world { memory = store.old }) op.now.work op.now.access (left.now ∷ right.now ∷ [])) (meant store.new result) }
{
    match &op.work {
        Work::Binary(change) => giving(changed(store, *change, left, right)),
        Work::Compare(relation, kind) => giving(compared_integers(
            store, *relation, *kind, left, right,
        )),
        Work::ComparePointers(relation) => giving(compared(store, *relation, left, right)),
        Work::Distance(own) => giving(distance(store, *own, left, right)),
        Work::Subscript(own) => at_place(
            alloc,
            table,
            op.access,
            store,
            moved_either(store, false, *own, left, right),
        ),
        Work::Assign(form) => assigned(alloc, table, store, *form, left, right),
        Work::Update(change, form, volatile, post) => updated(
            alloc, table, store, *change, *form, *volatile, *post, left, right,
        ),
        Work::Comma => giving(copied(alloc, right)),
        Work::LogicalAnd => giving(both(store, left, right)),
        Work::LogicalOr => giving(either(store, left, right)),
        Work::Conditional(form) => giving(conditional(alloc, store, *form, left, right)),
        _ => Err(Trap::NoMemory),
    }
}
