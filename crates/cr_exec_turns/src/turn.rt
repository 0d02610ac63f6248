// All nodes.
#![tactic(auto, using(crate::proofs::Turning::known_is, crate::proofs::Turning::last_is))]

ghost use Rattle.std.specs.Prelude.{◌≡◌, ◌≢◌, true, List};
ghost use Rattle.std.specs.List.{AllZip};
ghost use Rattle.cr_meaning.specs.World.{Answer};
ghost use Rattle.cr_meaning.specs.Turns.{next_of};
ghost use Rattle.cr_exec_slices.specs.Shown.{way_of};
ghost use Rattle.cr_exec_turns.specs.Held.{shows};
ghost use Rattle.cr_exec_turns.specs.Kept.{way_by, Known};

use crate::expressions::{expression_way, is_expression};
use crate::held::Held;
use crate::lists::{block_way, program_way, switch_way};
use crate::loops::{do_way, for_way, if_way, while_way};
use crate::ways::operand;
use cr_exec_slices::Way;
use cr_meaning::{Op, Work};

/// The way on of a statement's or a declaration's node, and of the whole program.
fn statement_way(op: &Op, done: &[Held]) -> Way
    ensures { Known (way_by op.now.work op.now.parts done.now) result }
{
    let parts = op.parts.as_slice();
    match &op.work {
        Work::If => if_way(parts, done),
        Work::While => while_way(parts, done),
        Work::Do => do_way(parts, done),
        Work::For(_, first, control, step, body) => {
            for_way(*first, *control, *step, *body, done)
        }
        Work::Switch(kind, _, _, cases, other, labels) => switch_way(
            *kind,
            parts,
            cases.as_slice(),
            *other,
            labels.as_slice(),
            done,
        ),
        Work::Block(_, labels) => block_way(parts, labels.as_slice(), done),
        Work::Program(_, _, _, body) => program_way(parts, *body, done),
        _ => operand(parts, done.len()),
    }
}

/// How a node goes on after these answers of its parts. It is unknown only where a node has numbers that no program of the subset has.
#[inline]
pub fn next(op: &Op, done: &[Held]) -> Way
    ensures { (answers : List Answer) → AllZip shows done.now answers → result ≢ Way.Unknown → next_of op.now answers ≡ way_of answers result }
{
    if is_expression(&op.work) {
        expression_way(op, done)
    } else {
        statement_way(op, done)
    }
}
