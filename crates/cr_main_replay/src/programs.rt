// The passes and the law of programs in a replay.
ghost use Rattle.std.specs.Prelude.{◌≡◌, ◌⊎◌};
ghost use Rattle.cr_outside.specs.Story.{files_told};
ghost use Rattle.cr_main_replay.specs.Replay.{IsReplayed, RunsReplay};
ghost use Rattle.cr_main_replay.specs.Programs.{replaying_of};
ghost use Rattle.cr_main_task.specs.Outside.{outside};

use crate::replay::{Replay, run_replay};
use cr_lawful::CLaw;
use cr_lawful_analysis::LastRead;
use cr_outside::{Files, Sink};
use pass_list::CPasses;
use std::alloc::Global;

/// Checks the log of this name against the file of this name and its copy, as the reduction was asked for: with runs of so many
/// steps, and these passes.
pub fn replay_programs<F: Files, O: Sink>(
    alloc: Global,
    steps: u64,
    enabled: [bool; 12],
    log: &str,
    file: &str,
    files: &mut F,
    out: &mut O,
) -> u8
    ensures runs { RunsReplay (replaying_of steps enabled log.now file.now)
        (outside F.Outside F.Files.own files.old O.Sink out.old) (outside F.Outside F.Files.own files.new O.Sink out.new) result }

    // At 0 and 10 the log leads from the copy to the file, whoever wrote it.
    ensures replayed { (result ≡ 0) ⊎ (result ≡ 10) → IsReplayed (replaying_of steps enabled log.now file.now) (files_told (F.story files.old)) }
{
    let last = LastRead::new();
    let passes = CPasses {
        enabled,
        last: Some(&last),
    };
    let law = CLaw::with_steps(steps, Some(&last));
    let replay = Replay {
        passes: &passes,
        law: &law,
        log,
        file,
    };
    run_replay(alloc, &replay, files, out)
}
