// Who waits for the end of a run beside it.
use crate::one_run::Subject;
use cr_around::{Plain, quoted};
use creduce_system::{Lock, Watchman, watch};
use std::alloc::AllocError;
use std::process::Processes;

/// A watchman of the system's.
pub type Watching = Watchman<<HostRuntime as Processes>::Started>;

/// Starts a watchman, where there is something to end or to say when the program is ended from outside.
pub fn watching(
    rt: &HostRuntime,
    run: &Subject<'_>,
    lock: Option<&Lock>,
) -> Result<Option<Watching>, AllocError> {
    if !run.is_program && !run.keeps_journal() {
        return Ok(None);
    }
    let how = how_on(rt, run)?;
    let shared = lock.and_then(|lock| lock.share().ok());
    match watch(rt, rt.alloc(), shared, run.mark, run.name, how.as_str()) {
        Ok(watchman) => Ok(Some(watchman)),
        Err(_) => {
            let _ = eprintln!(rt;
                "creduce: no watchman could be started: where the program is killed, its tests go on"
            );
            Ok(None)
        }
    }
}

// How a run that was ended from outside is gone on with.
fn how_on(rt: &HostRuntime, run: &Subject<'_>) -> Result<String, AllocError> {
    let alloc = rt.alloc();
    let mut how = String::new(alloc);
    let Some(name) = run.name.filter(|_| !run.is_quiet) else {
        return Ok(how);
    };
    if !run.keeps_journal() {
        let name = Plain(name);
        write!(
            how,
            "creduce: the smallest variant that passed the test, if one did, is {name}.best; a run with --journal is gone on with by --resume"
        )?;
        return Ok(how);
    }
    how.push_str("creduce: this goes on with it: creduce")?;
    let mut is_option = true;
    for word in run.words {
        let word = match word.as_str() {
            "--journal" if is_option => "--resume",
            word => word,
        };
        is_option = is_option && word != "--";
        write!(how, " {}", quoted(alloc, word)?)?;
    }
    Ok(how)
}
