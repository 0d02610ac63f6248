// What is ruled on a file, whatever is asked of its run.
ghost use Rattle.std.specs.Prelude.{◌≡◌, ◌⊎◌, ℕ, Bool, List, false};
ghost use Rattle.cr_cursor.specs.declared.law.Ruling.{Ruling};
ghost use Rattle.cr_meaning.specs.declared.run.Limits.{Limits as SpecLimits};
ghost use Rattle.cr_tokens.specs.Tokens.{Tokenizes};
ghost use Rattle.cr_lawful.specs.Lawful.{IsTypedUnit, Refuses};
ghost use Rattle.cr_lawful.specs.Looks.{Looks};
ghost use Rattle.cr_lawful.specs.Programs.{IsProgram};

use crate::program::{Program, reading_of};
use crate::units::{program_of_file, program_of_tokens};
use cr_cursor::{Ruling, Stop};
use cr_lawful_analysis::LastRead;
use cr_tokens::Tokens;
use cr_typed::Typed;
use std::alloc::Global;

/// What a law asks of the run of a file, once the file is a unit that breaks no constraint.
pub trait RunLaw {
    /// Within which limits it runs.
    ghost limits: { Self → SpecLimits };

    /// What its ruling says of the file; Stopped, that the stop was raised.
    ghost rules: { Self → List ℕ → Bool → Ruling → Type 0 };

    /// Rules on the run of the file's typed unit.
    fn ruled_on_run<S: Stop>(
        &self,
        alloc: Global,
        file: &[u8],
        typed: &Typed,
        stop: &mut S,
    ) -> Ruling
        requires unstopped { S.raised stop.old ≡ false }
        requires unit { IsTypedUnit file.now typed.now }
        ensures rules { rules self.now file.now (S.raised stop.new) result }
        ensures held { S.held stop.new ≡ S.held stop.old }
        ensures looks { Looks (limits self.now) file.now (S.looks stop.old) (S.looks stop.new) result };
}

/// Rules on a file: for what it is refused before its run, or else as the law rules on that. What was read of a lawful file is left
/// there.
pub fn ruled_by<L: RunLaw, S: Stop>(
    alloc: Global,
    file: &[u8],
    law: &L,
    last: Option<&LastRead>,
    stop: &mut S,
) -> Ruling
    requires { S.raised stop.old ≡ false }
    ensures rules { Refuses file.now (S.raised stop.new) result ⊎ L.rules law.now file.now (S.raised stop.new) result }
    ensures held { S.held stop.new ≡ S.held stop.old }
    ensures looks { Looks (L.limits law.now) file.now (S.looks stop.old) (S.looks stop.new) result }
{
    match program_of_file(alloc, file, stop) {
        Ok(program) => ruled_on_program(alloc, file, program, law, last, stop),
        Err(ruling) => ruling,
    }
}

/// The same of a file whose tokens were read before.
pub fn ruled_by_tokens<L: RunLaw, S: Stop>(
    alloc: Global,
    file: &[u8],
    tokens: &Tokens,
    law: &L,
    last: Option<&LastRead>,
    stop: &mut S,
) -> Ruling
    requires unstopped { S.raised stop.old ≡ false }
    requires tokens { Tokenizes file.now tokens.now.list.items }
    ensures rules { Refuses file.now (S.raised stop.new) result ⊎ L.rules law.now file.now (S.raised stop.new) result }
    ensures held { S.held stop.new ≡ S.held stop.old }
    ensures looks { Looks (L.limits law.now) file.now (S.looks stop.old) (S.looks stop.new) result }
{
    match program_of_tokens(alloc, file, tokens, stop) {
        Ok(program) => ruled_on_program(alloc, file, program, law, last, stop),
        Err(ruling) => ruling,
    }
}

fn ruled_on_program<L: RunLaw, S: Stop>(
    alloc: Global,
    file: &[u8],
    program: Program,
    law: &L,
    last: Option<&LastRead>,
    stop: &mut S,
) -> Ruling
    requires unstopped { S.raised stop.old ≡ false }
    requires program { IsProgram file.now program }
    ensures rules { L.rules law.now file.now (S.raised stop.new) result }
    ensures held { S.held stop.new ≡ S.held stop.old }
    ensures looks { Looks (L.limits law.now) file.now (S.looks stop.old) (S.looks stop.new) result }
{
    let ruling = law.ruled_on_run(alloc, file, &program.typed, stop);
    if ruling == Ruling::Lawful {
        leave(program, last);
    } else {
        drop(program);
    }
    ruling
}

fn leave(program: Program, last: Option<&LastRead>)
    requires { (file : List ℕ) × IsProgram file program }
{
    match last {
        Some(last) => {
            let (bytes, analysis) = reading_of(program);
            last.leave(bytes, analysis);
        }
        None => drop(program),
    }
}
