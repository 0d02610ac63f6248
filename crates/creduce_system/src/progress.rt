// What the judges of a run know together, and what they say of it.
ghost use Rattle.std.specs.Prelude.{◌≡◌, ◌≤◌, Some};
ghost use Rattle.creduce_system.specs.Progress.{is_smallest, smallest_of};

use crate::best::Best;
use cr_around::Plain;
use std::alloc::Global;
use std::fmt::{self, Display, Formatter};
use std::fs::File;
use std::io::{self, Eprint};
use std::rt::{Clock, Files};
use std::sync::atomic::{AtomicBool, Ordering};
use std::sync::{Mutex, MutexGuard};
use std::thread;
use std::time::{Duration, Instant};

/// How progress is shown on standard error.
#[derive(Clone, Copy, Drop, PartialEq, Eq)]
pub enum Shown {
    /// Not at all.
    Nothing,
    /// A line for each file that passed and is smaller than those before.
    Lines,
    /// One line that is renewed, some times a second.
    Renewed,
}

/// The trials so far. Sizes are bytes, times milliseconds since the start.
#[derive(Drop)]
struct Trials {
    count: u64,
    first: u64,
    best: Option<u64>,
    /// Whether the smallest file of this run stands beside the one that is reduced, and whether it was said that it can't.
    is_kept: bool,
    is_missed: bool,
    /// How long all of them took together, and whether the advice is still to be given.
    spent: u64,
    is_advising: bool,
    /// When the last line was shown, and whether none is to be shown any more.
    shown: u64,
    is_over: bool,
    /// When the trial that each judge makes was begun, if it makes one.
    begun: [Option<u64>; JUDGES],
}

impl Trials {
    fn begin(&mut self, judge: u32, at: Option<u64>) {
        if let Some(begun) = self.begun.get_mut(judge as usize) {
            *begun = at;
        }
    }

    fn end(&mut self, judge: u32, at: u64) {
        if let Some(Some(begun)) = self.begun.get(judge as usize) {
            self.spent = self.spent.saturating_add(at.saturating_sub(*begun));
        }
        self.count = self.count.saturating_add(1);
        self.begin(judge, None);
    }

    // Whether the trials so far are many and slow enough for the advice.
    fn are_slow(&self) -> bool {
        self.count >= MANY && self.spent >= SLOW.saturating_mul(self.count)
    }

    // Notes that a file passed, and returns whether it is the smallest so far.
    fn passed(&mut self, bytes: u64) -> bool
        ensures best { self.new.best ≡ Some (smallest_of self.old.best bytes) }
        ensures smallest { result ≡ is_smallest self.old.best bytes }
    {
        match self.best {
            None => {
                self.first = bytes;
                self.best = Some(bytes);
                true
            }
            Some(best) => {
                self.best = Some(bytes.min(best));
                bytes < best
            }
        }
    }
}

/// What all judges of a run share: how far it is, and the smallest file so far that passed the test, which stands beside the file that is
/// reduced, as NAME.best. What an earlier run has left there gets a name of its own before.
///
/// Such a file passed the test and is lawful and smaller than the one before it, as all are that a reduction asks about; it may be one
/// that a worker tried in vain, behind an accepted one. No answer of a judge depends on what is done here, and nothing that fails here
/// is a fault of the test.
#[derive(Drop)]
pub struct Progress<'a> {
    shown: Shown,
    columns: u64,
    reduced: Option<&'a str>,
    start: Option<Instant>,
    trials: Mutex<Trials>,
}

// Of so many judges it is known since when they wait for a trial.
const JUDGES: usize = 32;

// A line comes once a minute at least, and one that is renewed once a second. So long it is slept between two looks.
const MINUTE: u64 = 60_000;

const SECOND: u64 = 1000;

const NAP: u64 = 5;

// After so many trials that took so many milliseconds each, standing workers would pay.
const MANY: u64 = 32;

const SLOW: u64 = 100;

// A judge looks so often whether the others are done, a millisecond apart; then it goes on without.
const LOOKS: u32 = 1000;

// The line is renewed after so many milliseconds.
const PAUSE: u64 = 200;

impl<'a> Progress<'a> {
    /// No trial has been made. The time runs from here. A line that is renewed has at most so many columns. The smallest file is kept beside
    /// `reduced`.
    pub fn new<R: Clock>(
        rt: &R,
        shown: Shown,
        columns: u64,
        reduced: Option<&'a str>,
    ) -> Progress<'a> {
        Progress {
            shown,
            columns,
            reduced,
            start: Instant::now(rt).ok(),
            trials: Mutex::new(Trials {
                count: 0,
                first: 0,
                best: None,
                is_kept: false,
                is_missed: false,
                spent: 0,
                is_advising: false,
                shown: 0,
                is_over: false,
                begun: [None; JUDGES],
            }),
        }
    }

    /// The same, that says once where standing workers would pay: of a run with two workers or more that don't stand.
    pub fn advising(mut self) -> Progress<'a> {
        self.trials.get_mut().is_advising = self.shown != Shown::Nothing;
        self
    }

    /// Notes that a judge begins a trial.
    pub fn begin<R: Clock>(&self, rt: &R, judge: u32) {
        let now = self.elapsed(rt);
        if let Some(mut trials) = self.trials(rt) {
            trials.begin(judge, Some(now));
        }
    }

    /// Notes the end of a judge's trial on a file: counts it, keeps the file where it passed and is the smallest so far, and says so.
    pub fn note<R: Clock + Eprint + Files<File = File>>(
        &self,
        rt: &R,
        alloc: Global,
        judge: u32,
        file: &[u8],
        passed: bool,
    ) {
        let Some(mut trials) = self.trials(rt) else {
            return;
        };
        trials.end(judge, self.elapsed(rt));
        let smallest = passed && trials.passed(file.len() as u64);
        if smallest {
            self.keep(rt, alloc, &mut trials, file);
        }
        self.show(rt, &mut trials, smallest);
    }

    // The trials, once no other judge is at them.
    fn trials<R: Clock>(&self, rt: &R) -> Option<MutexGuard<'_, Trials>> {
        for _ in 0..LOOKS {
            if let Some(trials) = self.trials.try_lock() {
                return Some(trials);
            }
            thread::sleep(rt, Duration::from_millis(1));
        }
        None
    }

    // What can't be written is said once.
    fn keep<R: Eprint + Files<File = File>>(
        &self,
        rt: &R,
        alloc: Global,
        trials: &mut Trials,
        file: &[u8],
    ) {
        let Some(reduced) = self.reduced else {
            return;
        };
        if put_best(rt, alloc, reduced, file, !trials.is_kept).is_ok() {
            trials.is_kept = true;
            return;
        }
        if !trials.is_missed && self.shown != Shown::Nothing {
            let reduced = Plain(reduced);
            let _ = eprintln!(rt; "creduce: {reduced}.best could not be written");
        }
        trials.is_missed = true;
    }

    /// Whether the smallest file of this run stands beside the file that is reduced.
    pub fn has_kept<R: Clock>(&self, rt: &R) -> bool {
        match self.trials(rt) {
            Some(trials) => trials.is_kept,
            None => false,
        }
    }

    /// Takes away the smallest file of this run.
    pub fn remove<R: Clock + Files>(&self, rt: &R, alloc: Global) -> io::Result<()> {
        let Some(reduced) = self.reduced else {
            return Ok(());
        };
        if self.has_kept(rt) {
            Best::new(alloc, reduced)?.remove(rt)?;
        }
        Ok(())
    }

    // Milliseconds since the start, as far as the clock can be read.
    fn elapsed<R: Clock>(&self, rt: &R) -> u64 {
        match (self.start, Instant::now(rt)) {
            (Some(start), Ok(now)) => u64::try_from(
                now.duration_since(start).as_millis(),
            ).unwrap_or(u64::MAX),
            _ => 0,
        }
    }

    fn show<R: Clock + Eprint>(&self, rt: &R, trials: &mut Trials, smallest: bool) {
        let Some(best) = trials.best.filter(|_| !trials.is_over) else {
            return;
        };
        let elapsed = self.elapsed(rt);
        let line = Line {
            best,
            first: trials.first,
            count: trials.count,
            elapsed,
            columns: self.columns,
        };
        let is_due = smallest || elapsed.saturating_sub(trials.shown) >= PAUSE;
        let _ = match self.shown {
            Shown::Lines if smallest => {
                trials.shown = elapsed;
                rt.eprintln(line)
            }
            Shown::Renewed if is_due => {
                trials.shown = elapsed;
                eprint!(rt; "\r{line}\x1b[K")
            }
            _ => Ok(()),
        };
    }

    /// Says how far the run is, also while all trials take long, until it is over.
    pub fn tick<R: Clock + Eprint>(&self, rt: &R, over: &AtomicBool) {
        let (mut second, mut minute) = (0, 0);
        for _ in 0..u64::MAX {
            if over.load(Ordering::SeqCst) {
                return;
            }
            thread::sleep(rt, Duration::from_millis(NAP));
            let now = self.elapsed(rt);
            if now / SECOND > second {
                second = now / SECOND;
                self.renew(rt, now);
                self.advise(rt);
            }
            if now / MINUTE > minute {
                minute = now / MINUTE;
                self.say_minute(rt, now);
            }
        }
    }

    // Shows a line where none was shown for some time.
    fn renew<R: Clock + Eprint>(&self, rt: &R, now: u64) {
        let Some(mut trials) = self.trials(rt) else {
            return;
        };
        let pause = match self.shown {
            Shown::Nothing => return,
            Shown::Lines => MINUTE,
            Shown::Renewed => SECOND,
        };
        if now.saturating_sub(trials.shown) >= pause {
            self.show(rt, &mut trials, true);
        }
    }

    fn advise<R: Clock + Eprint>(&self, rt: &R) {
        let Some(mut trials) = self.trials(rt) else {
            return;
        };
        if !trials.is_advising || trials.is_over || !trials.are_slow() {
            return;
        }
        trials.is_advising = false;
        let _ = self.clear(rt);
        let _ = eprintln!(rt;
            "creduce: with a test that takes this long, --standing uses the workers better"
        );
    }

    fn say_minute<R: Clock + Eprint>(&self, rt: &R, now: u64) {
        let Some(trials) = self.trials(rt) else {
            return;
        };
        if trials.is_over || self.shown == Shown::Nothing {
            return;
        }
        if trials.count == 0 && trials.begun.iter().all(|begun| begun.is_none()) {
            // No judge is asked where a text or a formula is the test.
            let _ = eprintln!(rt; "creduce: {} min so far", now / MINUTE);
        }
        for (judge, begun) in trials.begun.iter().enumerate() {
            let waited = now.saturating_sub(begun.unwrap_or(now));
            if waited >= MINUTE / 2 {
                let _ = self.say_long(rt, judge, waited);
            }
        }
    }

    fn say_long<R: Eprint>(&self, rt: &R, judge: usize, waited: u64) -> io::Result<()> {
        let (minutes, seconds) = (waited / MINUTE, waited / SECOND % 60);
        self.clear(rt)?;
        eprintln!(rt;
            "creduce: a trial has run for {minutes} min {seconds} s in creduce-trial-{judge}"
        )
    }

    // Takes the line away that is renewed.
    fn clear<R: Eprint>(&self, rt: &R) -> io::Result<()> {
        if self.shown == Shown::Renewed {
            eprint!(rt; "\r\x1b[K")
        } else {
            Ok(())
        }
    }

    /// Shows nothing from now on, and takes away the line that is renewed.
    pub fn finish<R: Clock + Eprint>(&self, rt: &R) {
        if let Some(mut trials) = self.trials(rt) {
            trials.is_over = true;
        }
        let _ = self.clear(rt);
    }
}

fn put_best<R: Files<File = File>>(
    rt: &R,
    alloc: Global,
    reduced: &str,
    file: &[u8],
    is_first: bool,
) -> io::Result<()> {
    let best = Best::new(alloc, reduced)?;
    if is_first {
        best.clear(rt, alloc)?;
    }
    best.put(rt, file)
}

// What is said of the progress, as far as so many columns have room for it.
#[derive(Drop)]
struct Line {
    best: u64,
    first: u64,
    count: u64,
    elapsed: u64,
    columns: u64,
}

impl Display for Line {
    fn fmt<W: fmt::Write>(&self, f: &mut Formatter<W>) -> fmt::Result {
        let (minutes, seconds) = (self.elapsed / MINUTE, self.elapsed / SECOND % 60);
        let rate = rate(self.count, self.elapsed);
        let left = self
            .columns
            .saturating_sub(digits(self.best) + digits(self.first) + 19);
        write!(f, "creduce: {} of {} bytes", self.best, self.first)?;
        let trials = digits(self.count) + 9;
        if left < trials {
            return Ok(());
        }
        write!(f, ", {} trials", self.count)?;
        if left - trials < digits(rate / 10) + digits(minutes) + digits(seconds) + 22 {
            return Ok(());
        }
        let (whole, tenth) = (rate / 10, rate % 10);
        write!(f, ", {whole}.{tenth} a second, {minutes} min {seconds} s")
    }
}

// How many digits a number has.
fn digits(number: u64) -> u64
    ensures { result ≤ 20 }
{
    let mut left = number / 10;
    for digits in 1..20 {
        if left == 0 {
            return digits;
        }
        left /= 10;
    }
    20
}

// Trials in ten seconds.
fn rate(count: u64, elapsed: u64) -> u64 {
    count
        .saturating_mul(10_000)
        .checked_div(elapsed)
        .unwrap_or(0)
}
