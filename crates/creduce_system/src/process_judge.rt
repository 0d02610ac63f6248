// Programs as tests.
ghost use Rattle.std.specs.Prelude.{◌≡◌, None};
ghost use Rattle.creduce_system.specs.Trial.{Answers};

use crate::progress::Progress;
use crate::room::Room;
use crate::trial::{Trial, Tried};
use cr_outside::{Answer, Judge};
use std::alloc::Global;
use std::fs::File;
use std::io::{self, Eprint, ErrorKind};
use std::process::{ExitStatus, Processes};
use std::rt::{Clock, Files};

/// Runs the user's program as the test. It tells no content, so that all process judges have one key.
///
/// Judge K empties the folder `creduce-trial-K` in the current one, puts the variant there under the file's own name, and starts the
/// program in that folder, with the null device as its input, output and error. Exit status 0 is yes. The test has failed
/// where the variant can't be put there or the shell not be started, and at the exit statuses 126 and 127, by which a shell says
/// that a program can't be started. Every other end is no, a signal included. The program is waited for, however long it takes.
#[derive(Drop)]
pub struct ProcessJudge<'a, R> {
    rt: &'a R,
    number: u32,
    room: Room<'a, R>,
    mark: &'a str,
    progress: Option<&'a Progress<'a>>,
    /// How often it was asked. It stays at its last value.
    pub asked: u64,
    /// How often its test has failed. It stays at its last value.
    pub faults: u64,
}

impl<'a, R> ProcessJudge<'a, R> {
    /// The judge of this number, of the run of this mark, whose variants get this mode. It makes its folder when it is first asked.
    pub fn new(rt: &'a R, number: u32, mark: &'a str, mode: u32) -> ProcessJudge<'a, R>
        ensures number { result.number ≡ number }
        ensures asked { result.asked ≡ 0 }
        ensures faults { result.faults ≡ 0 }
    {
        ProcessJudge {
            rt,
            number,
            room: Room::new(rt, mode),
            mark,
            progress: None,
            asked: 0,
            faults: 0,
        }
    }

    /// The same judge, which notes its trials with others there: the smallest file that passed is kept, and progress is said.
    pub fn noting(self, progress: &'a Progress<'a>) -> ProcessJudge<'a, R>
        ensures number { result.number ≡ self.entry.number }
        ensures asked { result.asked ≡ self.entry.asked }
        ensures faults { result.faults ≡ self.entry.faults }
    {
        ProcessJudge {
            progress: Some(progress),
            ..self
        }
    }
}

fn answer(outcome: io::Result<ExitStatus>) -> Answer
    ensures { Answers outcome result }
{
    match outcome {
        Ok(status) => match status.code() {
            Some(0) => Answer::Yes,
            Some(126 | 127) => Answer::Failed,
            _ => Answer::No,
        },
        Err(e) if e.kind() == ErrorKind::OutOfMemory => Answer::NoMemory,
        Err(_) => Answer::Failed,
    }
}

impl<R: Clock + Clone + Drop + Eprint + Files<File = File> + Processes> Judge
    for ProcessJudge<'_, R> {
    type Key = ();

    ghost key = { λ _. tt };

    ghost says = { λ _ test name file. None };

    ghost asked = { λ j. j.asked };

    ghost calls = { λ _. None };

    ghost faults = { λ j. j.faults };

    fn ask(&mut self, alloc: Global, test: &str, name: &str, file: &[u8]) -> Answer {
        self.asked = self.asked.saturating_add(1);
        let trial = match Trial::new(alloc, self.number) {
            Ok(trial) => trial,
            Err(_) => return Answer::NoMemory,
        };
        if let Some(progress) = self.progress {
            progress.begin(self.rt, self.number);
        }
        let tried = Tried {
            test,
            name,
            variant: file,
            mark: self.mark,
        };
        let answer = answer(trial.run(self.rt, alloc, &mut self.room, &tried));
        if let Some(progress) = self.progress {
            progress.note(self.rt, alloc, self.number, file, answer == Answer::Yes);
        }
        if answer == Answer::Failed {
            self.faults = self.faults.saturating_add(1);
        }
        answer
    }
}
