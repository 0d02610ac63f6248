// One run: what is seen before it, the files, the judges, and what is left when it ends.
ghost use Rattle.std.specs.Prelude.{◌≡◌, IfOk, length};

use crate::folders::own_folders;
use crate::journal::{tidy_words, words_of};
use crate::refused::begun;
use crate::usual::with_workers;
use crate::watched::watching;
use cr_around::{Begun, JournalWords, Plain, test_word};
use cr_main::run_more;
use cr_main_words::{Engine, Modes, Request, Settings, Source, request_of};
use cr_outside::{Files, Judge, Sink, Test};
use cr_outside_disk::Disk;
use cr_pool::Bench;
use creduce_system::{Lock, ProcessJudge, Progress, Shown, StdDisk, StdOut, columns};
use std::alloc::AllocError;
use std::io::IsTerminal;
use std::os::unix::fs::MetadataExt;
use std::sync::Wait;
use std::thread::Threads;
use std::time::SystemTime;
use std::{env, fs, process};

/// As many judges as there may be workers.
const JUDGES: u32 = 32;

/// Status 1: no reduction was begun.
const NOT_BEGUN: u8 = 1;

/// How a run has ended.
#[derive(Drop)]
pub struct Ended {
    pub status: u8,
    /// What was put on standard output.
    pub put: Vec<u8>,
    /// Whether the file was changed by somebody meanwhile, and left to them, which was said.
    pub was_changed: bool,
}

/// What a run is of.
#[derive(Clone, Copy)]
pub struct Subject<'a> {
    /// The words as they were given.
    pub words: &'a [String],
    /// The file, where it is none that is made.
    pub name: Option<&'a str>,
    /// The word that is the test, and whether a program is one.
    pub test: &'a str,
    pub is_program: bool,
    pub workers: u32,
    pub modes: &'a Modes,
    /// The label that is to be reached.
    pub reached: &'a Option<String>,
    /// What the tests of this run have in their environment, and no other's.
    pub mark: &'a str,
    /// Whether more may be said than what is needed.
    pub is_quiet: bool,
}

impl Subject<'_> {
    /// Whether a journal is kept.
    pub fn keeps_journal(&self) -> bool {
        match self.modes.engine {
            Engine::Journal | Engine::Resume => true,
            Engine::Plain | Engine::Standing => false,
        }
    }
}

/// Does what the words ask for.
pub fn run(
    rt: &HostRuntime,
    threads: &(impl Threads + Wait + Sync),
    words: &[String],
) -> Result<Ended, AllocError> {
    match with_workers(rt.alloc(), threads, words) {
        Ok(all) => run_all(rt, threads, words, all.as_slice()),
        Err(fault) => Err(fault),
    }
}

// What is said to people has the words as they were given; `all` are those with the number of workers.
fn run_all(
    rt: &HostRuntime,
    threads: &(impl Threads + Wait + Sync),
    words: &[String],
    all: &[String],
) -> Result<Ended, AllocError> {
    match request_of(rt.alloc(), all, JUDGES) {
        Ok(Request::Reduction(settings, modes)) => {
            run_marked(rt, threads, words, all, &settings, &modes)
        }
        // A replay has no test, and of other words `run_more` says that they are in no form.
        Ok(Request::Replay(_)) | Err(_) => reduce(
            rt,
            threads,
            all,
            None,
            "",
            &Progress::new(rt, Shown::Nothing, 0, None),
            None,
        ),
    }
}

fn run_marked(
    rt: &HostRuntime,
    threads: &(impl Threads + Wait + Sync),
    words: &[String],
    all: &[String],
    settings: &Settings,
    modes: &Modes,
) -> Result<Ended, AllocError> {
    match mark(rt) {
        Ok(mark) => run_labelled(rt, threads, words, all, settings, modes, mark.as_str()),
        Err(fault) => Err(fault),
    }
}

fn run_labelled(
    rt: &HostRuntime,
    threads: &(impl Threads + Wait + Sync),
    words: &[String],
    all: &[String],
    settings: &Settings,
    modes: &Modes,
    mark: &str,
) -> Result<Ended, AllocError> {
    match label_of(rt, modes) {
        Ok(reached) => {
            let run = Subject {
                words,
                name: name_of(settings),
                test: test_word(words).unwrap_or(""),
                is_program: is_program(&settings.test),
                workers: settings.workers,
                modes,
                reached: &reached,
                mark,
                is_quiet: is_quiet(rt),
            };
            begin(rt, threads, all, &run)
        }
        Err(fault) => Err(fault),
    }
}

/// Whether the environment asks for no more than what is needed.
pub fn is_quiet(rt: &HostRuntime) -> bool {
    match env::var(rt, "CREDUCE_QUIET") {
        Ok(quiet) => quiet.as_str() == "1",
        Err(_) => false,
    }
}

fn name_of(settings: &Settings) -> Option<&str> {
    match &settings.source {
        Source::Named(name) => Some(name.as_str()),
        Source::Made(_, _) => None,
    }
}

// Whether a program is the test, and no text or formula.
fn is_program(test: &Test) -> bool {
    match test {
        Test::Has(_) => false,
        Test::Program(path) => !path.starts_with("if:"),
    }
}

// The label that is to be reached, as a text.
fn label_of(rt: &HostRuntime, modes: &Modes) -> Result<Option<String>, AllocError> {
    let Some(label) = &modes.reached else {
        return Ok(None);
    };
    match str::from_utf8(label.as_slice()) {
        Ok(label) => Ok(Some(String::from_str(rt.alloc(), label)?)),
        // It is an identifier.
        Err(_) => Ok(None),
    }
}

fn mark(rt: &HostRuntime) -> Result<String, AllocError> {
    let now = SystemTime::now(rt).ok();
    let since = now.and_then(|now| now.duration_since(SystemTime::UNIX_EPOCH).ok());
    let nanoseconds = since.map_or(0, |since| since.as_nanos());
    format!(in rt.alloc(); "{}.{nanoseconds}", process::id(rt.process()))
}

// What can be seen first is said first; then the run is watched while it reduces.
fn begin(
    rt: &HostRuntime,
    threads: &(impl Threads + Wait + Sync),
    words: &[String],
    run: &Subject<'_>,
) -> Result<Ended, AllocError> {
    match begun(rt, run) {
        Ok(Some(begun)) => own(rt, threads, words, run, begun),
        Ok(None) => Ok(refused(rt)),
        Err(fault) => Err(fault),
    }
}

fn own(
    rt: &HostRuntime,
    threads: &(impl Threads + Wait + Sync),
    words: &[String],
    run: &Subject<'_>,
    begun: Begun,
) -> Result<Ended, AllocError> {
    match own_folders(rt, run) {
        Ok(Ok(lock)) => keep(rt, threads, words, run, begun, lock.as_ref()),
        Ok(Err(_)) => Ok(refused(rt)),
        Err(fault) => Err(fault),
    }
}

fn keep(
    rt: &HostRuntime,
    threads: &(impl Threads + Wait + Sync),
    words: &[String],
    run: &Subject<'_>,
    begun: Begun,
    lock: Option<&Lock>,
) -> Result<Ended, AllocError> {
    match words_of(rt, run, begun) {
        Ok(journal_words) => watch_over(rt, threads, words, run, lock, journal_words),
        Err(fault) => Err(fault),
    }
}

fn watch_over(
    rt: &HostRuntime,
    threads: &(impl Threads + Wait + Sync),
    words: &[String],
    run: &Subject<'_>,
    lock: Option<&Lock>,
    journal_words: Option<JournalWords>,
) -> Result<Ended, AllocError> {
    let progress = progress_of(rt, run);
    let watchman = match watching(rt, run, lock) {
        Ok(watchman) => watchman,
        Err(fault) => return Err(fault),
    };
    let ended = reduce(
        rt,
        threads,
        words,
        run.name,
        run.mark,
        &progress,
        journal_words,
    );
    if let Some(watchman) = watchman {
        // It goes by itself where it can't be told.
        let _ = watchman.dismiss();
    }
    match ended {
        Ok(ended) => settle(rt, run, &progress, ended),
        Err(fault) => Err(fault),
    }
}

fn settle(
    rt: &HostRuntime,
    run: &Subject<'_>,
    progress: &Progress<'_>,
    ended: Ended,
) -> Result<Ended, AllocError> {
    tidy_words(rt, run)?;
    if is_over(&ended) {
        // What stays there all the same is a smaller file that passed the test.
        let _ = progress.remove(rt, rt.alloc());
    } else {
        say_best(rt, run, progress);
    }
    Ok(ended)
}

// Says where the smallest variant is, where the run could not put its result.
fn say_best(rt: &HostRuntime, run: &Subject<'_>, progress: &Progress<'_>) {
    if let Some(name) = run.name.filter(|_| !run.is_quiet && progress.has_kept(rt)) {
        let name = Plain(name);
        let _ = eprintln!(rt; "creduce: the smallest variant that passed the test is {name}.best");
    }
}

fn refused(rt: &HostRuntime) -> Ended {
    Ended {
        status: NOT_BEGUN,
        put: Vec::new(rt.alloc()),
        was_changed: false,
    }
}

// What shows the progress, which says where standing workers would pay.
fn progress_of<'a>(rt: &HostRuntime, run: &Subject<'a>) -> Progress<'a> {
    let progress = progress(rt, run);
    if run.is_program && run.workers > 1 && run.modes.engine == Engine::Plain {
        progress.advising()
    } else {
        progress
    }
}

// How progress is shown: not where quiet is asked for, as a line that is renewed on a terminal, else line by line.
fn progress<'a>(rt: &HostRuntime, run: &Subject<'a>) -> Progress<'a> {
    if run.is_quiet {
        Progress::new(rt, Shown::Nothing, 0, run.name)
    } else if rt.stderr().is_terminal() {
        // The last column stays free, since a terminal may go on to the next line behind it.
        let columns = columns(rt, rt.alloc()).saturating_sub(1);
        Progress::new(rt, Shown::Renewed, columns, run.name)
    } else {
        Progress::new(rt, Shown::Lines, u64::MAX, run.name)
    }
}

// The mode of the variants: that of the file, and so that their owner can read and write them.
fn mode(rt: &HostRuntime, reduced: Option<&str>) -> u32 {
    let found = reduced.and_then(|name| fs::metadata(rt, name).ok());
    match found {
        Some(found) => found.mode() & 0o777 | 0o600,
        None => 0o666,
    }
}

fn bench<'a>(
    rt: &'a HostRuntime,
    progress: &'a Progress<'a>,
    mark: &'a str,
    mode: u32,
) -> Result<Bench<ProcessJudge<'a, HostRuntime>>, AllocError> {
    let mut judges = Vec::new(rt.alloc());
    for number in 0..JUDGES {
        judges.push(ProcessJudge::new(rt, number, mark, mode).noting(progress))?;
    }
    Bench::new(rt.alloc(), judges)
}

// Says what became of files that are somebody else's.
fn say_files(rt: &HostRuntime, world: &StdDisk<'_, HostRuntime>) {
    if let Some(kept) = world.kept() {
        let kept = Plain(kept.as_str());
        let _ = eprintln!(rt; "creduce: the copy of an earlier run is kept as {kept}");
    }
    if world.was_changed() {
        let _ = eprintln!(rt;
            "creduce: the file was changed while it was reduced, and is left as it is now"
        );
    }
}

fn end_of(
    rt: &HostRuntime,
    status: u8,
    world: &StdDisk<'_, HostRuntime>,
    out: &StdOut<'_, HostRuntime>,
) -> Result<Ended, AllocError> {
    let put = out.so_far().to_vec(rt.alloc())?;
    Ok(Ended {
        status,
        put,
        was_changed: world.was_changed(),
    })
}

// `run_more` for any world: what it promises is said there, and its clauses over the system's own types would be too large to read here.
fn reduce_in<W: Files + Disk, J: Judge + Send + Drop, O: Sink>(
    rt: &HostRuntime,
    threads: &(impl Threads + Wait + Sync),
    words: &[String],
    world: &mut W,
    bench: &mut Bench<J>,
    out: &mut O,
) -> u8 {
    run_more(threads, rt.alloc(), words, world, bench, out)
}

fn reduce(
    rt: &HostRuntime,
    threads: &(impl Threads + Wait + Sync),
    words: &[String],
    reduced: Option<&str>,
    mark: &str,
    progress: &Progress<'_>,
    journal_words: Option<JournalWords>,
) -> Result<Ended, AllocError> {
    let mut bench = bench(rt, progress, mark, mode(rt, reduced))?;
    // The files, and the journal beside one of them.
    let mut world = StdDisk::new(rt, reduced).noting(journal_words);
    let mut out = StdOut::new(rt, rt.alloc()).behind(progress);
    let status = reduce_in(rt, threads, words, &mut world, &mut bench, &mut out);
    progress.finish(rt);
    say_files(rt, &world);
    end_of(rt, status, &world, &out)
}

// Whether the file has the result then, so that no smallest file is needed beside it: at 8 too, where a variant's test failed.
fn is_over(ended: &Ended) -> bool {
    match ended.status {
        0 | 7 | 10 => true,
        8 => ended.put.ends_with(b" fault\n"),
        _ => false,
    }
}
