// The trial folders of a run whose test is a program.
use crate::one_run::Subject;
use cr_around::{Plain, folders_in, holder_in, holder_text};
use creduce_system::{Lock, Taking, is_others, is_within, takes_folders};
use std::alloc::AllocError;
use std::process;

/// Why a run doesn't get its trial folders, which was said.
#[derive(Clone, Copy)]
pub struct Denied;

/// Takes the lock of the trial folders, if a program is the test, and makes sure that they are creduce's own.
pub fn own_folders(
    rt: &HostRuntime,
    run: &Subject<'_>,
) -> Result<Result<Option<Lock>, Denied>, AllocError> {
    if !run.is_program {
        return Ok(Ok(None));
    }
    match Lock::take(rt, rt.alloc()) {
        Ok(Taking::Taken(lock, text)) => own(rt, run, Some(lock), text.as_str()),
        Ok(Taking::Untold(lock, text)) => {
            say_untold(rt);
            own(rt, run, Some(lock), text.as_str())
        }
        Ok(Taking::Busy(text)) => {
            let holder = holder_in(text.as_str());
            let _ = eprintln!(rt;
                "creduce: another run uses the folders creduce-trial-K here ({holder}): wait for its end, or call creduce in another folder"
            );
            Ok(Err(Denied))
        }
        Ok(Taking::NoFile) => {
            let _ = eprintln!(rt;
                "creduce: creduce-trial.lock isn't creduce's own, and is to be a plain file: move it away"
            );
            Ok(Err(Denied))
        }
        Ok(Taking::Missing) | Err(_) => {
            say_untold(rt);
            own(rt, run, None, "")
        }
    }
}

fn say_untold(rt: &HostRuntime) {
    let _ = eprintln!(rt;
        "creduce: this folder takes no lock: another run in it would use the same folders creduce-trial-K"
    );
}

// The lock, where there is one, if the folders are creduce's own by the text of its file, or hold nothing.
fn own(
    rt: &HostRuntime,
    run: &Subject<'_>,
    lock: Option<Lock>,
    text: &str,
) -> Result<Result<Option<Lock>, Denied>, AllocError> {
    let own = folders_in(text);
    if lacks_room(rt) || would_lose(rt, run)? || takes_others(rt, run, own)? {
        return Ok(Err(Denied));
    }
    let Some(mut lock) = lock else {
        return Ok(Ok(None));
    };
    let process = process::id(rt.process());
    let name = run.name.unwrap_or("a generated program");
    let text = holder_text(rt.alloc(), process, name, own.max(run.workers))?;
    // Without it the next run asks whose the folders are.
    let _ = lock.write(text.as_str());
    Ok(Ok(Some(lock)))
}

// Whether no folder can be made here, which is said.
fn lacks_room(rt: &HostRuntime) -> bool {
    let lacks = !takes_folders(rt);
    if lacks {
        let _ = eprintln!(rt;
            "creduce: no folder can be made here, where the tests are to run: call creduce in another folder"
        );
    }
    lacks
}

// Whether the file or the test stands in one of the folders, which is said.
fn would_lose(rt: &HostRuntime, run: &Subject<'_>) -> Result<bool, AllocError> {
    for number in 0..run.workers {
        for path in [run.name.unwrap_or(""), run.test] {
            if is_within(rt, rt.alloc(), number, path)? {
                let path = Plain(path);
                let _ = eprintln!(rt;
                    "creduce: {path} is in creduce-trial-{number}, which is emptied before each test: move it elsewhere"
                );
                return Ok(true);
            }
        }
    }
    Ok(false)
}

// Whether one of the folders, of which so many are creduce's own, is another's, which is said.
fn takes_others(rt: &HostRuntime, run: &Subject<'_>, own: u32) -> Result<bool, AllocError> {
    for number in own..run.workers {
        if is_others(rt, rt.alloc(), number)? {
            let _ = eprintln!(rt;
                "creduce: creduce-trial-{number} isn't creduce's own, and is emptied before each test: move it away"
            );
            return Ok(true);
        }
    }
    Ok(false)
}
