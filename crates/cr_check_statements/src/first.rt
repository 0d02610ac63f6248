ghost use Rattle.std.specs.Prelude.{◌≡◌, ◌<◌, IfOk, length};
ghost use Rattle.cr_check_expressions.specs.Ruled.{AreFacts};
ghost use Rattle.cr_check_expressions.specs.Breaks.{first_of, IsFirst};
ghost use Rattle.cr_check_statements.specs.Setting.{scene_of, AreResults};
ghost use Rattle.cr_check_statements.specs.Statements.{faults_of, IsBroken};

use crate::setting::Setting;
use crate::statements::statement_break;
use cr_check_expressions::{Break, lesser};
use cr_check_types::Table;
use cr_syntax::number_of;
use std::alloc::AllocError;

/// The first constraint that a statement of a unit breaks; None where none is broken. The error is want of memory, which comes only
/// where the number of a node doesn't fit 32 bits.
#[tactic(auto, using(crate::proofs::Firsts::none_yet))]
pub fn check_statements(table: &Table, setting: &Setting) -> Result<Option<Break>, AllocError>
    requires facts { AreFacts table.now setting.now.facts.now }
    requires results { AreResults (length table.now) setting.now }
    ensures { IfOk result (λ first. IsFirst (IsBroken (scene_of table.now setting.now)) first) }
{
    let mut first = None;
    for at in 0..setting.nodes.len() {
        first = lesser(first, node_fault(table, setting, at)?);
    }
    Ok(first)
}

fn node_fault(table: &Table, setting: &Setting, at: usize) -> Result<Option<Break>, AllocError>
    requires within { at < length setting.now.nodes.now }
    requires facts { AreFacts table.now setting.now.facts.now }
    requires results { AreResults (length table.now) setting.now }
    ensures { IfOk result (λ fault. fault ≡ first_of (faults_of (scene_of table.now setting.now) at)) }
{
    let number = number_of(at)?;
    Ok(statement_break(table, setting, number, &setting.nodes[at]))
}
