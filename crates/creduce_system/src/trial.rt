// One trial: where a judge puts the variant, and how it starts the test on it.
ghost use Rattle.std.specs.Prelude.{◌≡◌, IfOk, None, Some, codes, string_bytes};
ghost use Rattle.std.specs.Process.{command_args, command_program, command_var};
ghost use Rattle.cr_around.specs.Holding.{Holds};
ghost use Rattle.creduce_system.specs.Trial.{folder_of, shell_words};

use crate::faults::error_of;
use cr_around::{Place, hold_alone};
use std::alloc::{AllocError, Global};
use std::io;
use std::process::{Command, ExitStatus, Processes, Stdio};

// It goes to the trial's folder, and becomes the test. 126 and 127 are the shell's own words for a program that can't be started.
const SCRIPT: &str =
    "case \"$1\" in /*) t=$1;; *) t=$(pwd)/$1;; esac; cd \"$2\" || exit 126; exec \"$t\"";

/// The variable of a test's environment that says of which run it is.
const MARK: &str = "CREDUCE_RUN";

/// What is tried: a test on a variant, under the file's own name, by the run of this mark.
#[derive(Clone, Copy)]
pub struct Tried<'a> {
    pub test: &'a str,
    pub name: &'a str,
    pub variant: &'a [u8],
    pub mark: &'a str,
}

/// The folder in the current one where a judge puts the variant.
#[derive(Drop)]
pub struct Trial {
    folder: String,
}

impl Trial {
    /// The trial of judge `number`.
    pub fn new(alloc: Global, number: u32) -> Result<Trial, AllocError>
        ensures folder { IfOk result (λ trial. string_bytes trial.folder ≡ folder_of number) }
    {
        let folder = format!(in alloc; "creduce-trial-{number}")?;
        Ok(Trial { folder })
    }

    /// Leaves the folder with the variant alone, under the file's own name, and runs the test there until it ends.
    pub fn run<R: Processes, P: Place>(
        &self,
        rt: &R,
        alloc: Global,
        place: &mut P,
        tried: &Tried<'_>,
    ) -> io::Result<ExitStatus>
        ensures alone { IfOk result (λ _. Holds (string_bytes self.now.folder) tried.now.name.now tried.now.variant.now (P.told place.old) (P.told place.new)) }
    {
        match hold_alone(place, alloc, &self.folder, tried.name, tried.variant) {
            Ok(()) => shell(alloc, tried, &self.folder)?.status(rt),
            Err(fault) => Err(error_of(fault)),
        }
    }
}

// Starts the test in the trial's folder, with no input, and where it may write all that it wants without being seen. A CDPATH would take it to
// another folder of that name.
fn shell(alloc: Global, tried: &Tried<'_>, folder: &str) -> Result<Command, AllocError>
    ensures program { IfOk result (λ command. command_program command ≡ codes "sh") }
    ensures words { IfOk result (λ command. command_args command ≡ shell_words tried.now.test.now folder.now) }
    ensures folder { IfOk result (λ command. command_var command (codes "CDPATH") ≡ Some None) }
    ensures mark { IfOk result (λ command. command_var command (codes "CREDUCE_RUN") ≡ Some (Some tried.now.mark.now)) }
{
    let mut command = Command::new(alloc, "sh")?;
    command
        .arg("-c")?
        .arg(SCRIPT)?
        .arg("sh")?
        .arg(tried.test)?
        .arg(folder)?;
    command.env_remove("CDPATH")?;
    command.env(MARK, tried.mark)?;
    command
        .stdin(Stdio::null())
        .stdout(Stdio::null())
        .stderr(Stdio::null());
    Ok(command)
}
