// What the run of a file comes to.
ghost use Rattle.std.specs.Prelude.{◌≢◌, IfOk};
ghost use Rattle.cr_lawful.specs.Runs.{ComesToEnd, EndIn, EndsAs, HasOneEnd, NoEndIn};

use crate::units::program_of_file;
use cr_cursor::{Never, Ruling};
use cr_exec_outcome::outcome;
use cr_meaning::{Limits, Run};
use cr_rows::Row;
use std::alloc::{AllocError, Global};

/// How a run ended.
#[derive(Debug, Drop)]
pub struct Ended {
    pub status: u8,
    /// What it printed.
    pub output: Row<u8>,
}

/// How a file's run within limits ends: None where the file isn't lawful within them. The error is want of memory.
pub fn end_of(alloc: Global, file: &[u8], limits: Limits) -> Result<Option<Ended>, AllocError>
    ensures { IfOk result (EndsAs (ComesToEnd limits file.now)) }
{
    let mut never = Never::default();
    match program_of_file(alloc, file, &mut never) {
        Ok(program) => {
            let run = outcome(alloc, &program.typed, limits, &mut never);
            drop(program);
            end_in(run)
        }
        Err(ruling) => no_end_in(ruling),
    }
}

// The end of a file without a program.
fn no_end_in(ruling: Ruling) -> Result<Option<Ended>, AllocError>
    requires refused { ruling ≢ Ruling.Lawful }
    requires unstopped { ruling ≢ Ruling.Stopped }
    ensures { IfOk result (NoEndIn ruling) }
{
    match ruling {
        Ruling::Unlawful(_) => Ok(None),
        Ruling::Lawful => unreachable!(),
        Ruling::Stopped => unreachable!(),
        Ruling::NoMemory => Err(AllocError),
    }
}

// The end that a run came to.
fn end_in(run: Run) -> Result<Option<Ended>, AllocError>
    requires { run ≢ Run.Stopped }
    ensures { IfOk result (EndIn run) }
{
    match run {
        Run::Ended {
            status,
            output,
            steps: _,
        } => Ok(Some(Ended { status, output })),
        Run::Undefined(_, _) => Ok(None),
        Run::Left(_, _) => Ok(None),
        Run::Stopped => unreachable!(),
        Run::NoMemory => Err(AllocError),
    }
}

/// Within the same limits the run of a file ends in one way at most.
pub fn a_file_has_one_end()
    ensures { HasOneEnd }
{}
