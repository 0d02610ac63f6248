// What the kinds of nodes are to the order of operands.
ghost use Rattle.std.specs.Prelude.{◌≡◌, slice_get};
ghost use Rattle.cr_eval.specs.Table.{program_of};
ghost use Rattle.cr_meaning.specs.Quiet.{is_quiet_work};
ghost use Rattle.cr_meaning_orders.specs.AnyOrder.{is_free};
ghost use Rattle.cr_meaning_loose.specs.Lists.{operands_at};
ghost use Rattle.cr_meaning_loose.specs.Sums.{is_noisy_op};

use cr_eval::Table;
use cr_meaning::Work;

/// Whether C leaves the order of the operands open.
fn is_free(work: &Work) -> bool
    ensures { result ≡ is_free work.now }
{
    match work {
        Work::Binary(_)
        | Work::Compare(_, _)
        | Work::ComparePointers(_)
        | Work::Distance(_)
        | Work::Subscript(_)
        | Work::Assign(_)
        | Work::Update(_, _, _, _)
        | Work::Call(_)
        | Work::Initialise(_, _) => true,
        _ => false,
    }
}

/// Whether it is an expression's, and no assignment, `++`, `--` or call.
fn is_quiet(work: &Work) -> bool
    ensures { result ≡ is_quiet_work work.now }
{
    match work {
        Work::Constant(_, _)
        | Work::Object(_, _)
        | Work::Pass
        | Work::Comma
        | Work::Conditional(_)
        | Work::LogicalAnd
        | Work::LogicalOr
        | Work::Binary(_)
        | Work::Compare(_, _)
        | Work::ComparePointers(_)
        | Work::Distance(_)
        | Work::Unary(_, _)
        | Work::Not
        | Work::Cast(_)
        | Work::AddressOf
        | Work::Dereference(_)
        | Work::Subscript(_)
        | Work::Member(_, _, _, _)
        | Work::PointerMember(_, _, _) => true,
        _ => false,
    }
}

/// How many operands of a node have no order among themselves; 0 where there aren't two.
pub(crate) fn operands_of(table: &Table, node: u32) -> usize
    ensures { result ≡ operands_at (program_of table.now) node }
{
    match table.ops.as_slice().get(node as usize) {
        Some(op) => {
            if is_free(&op.work) && op.parts.len() >= 2 {
                op.parts.len()
            } else {
                0
            }
        }
        None => 0,
    }
}

/// Whether the node is an assignment, `++`, `--`, a call, or no expression.
pub(crate) fn is_noisy(table: &Table, node: u32) -> bool
    ensures { result ≡ is_noisy_op (slice_get (program_of table.now).ops node) }
{
    match table.ops.as_slice().get(node as usize) {
        Some(op) => !is_quiet(&op.work),
        None => false,
    }
}
