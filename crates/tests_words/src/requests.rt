// Words with flags, words of a replay, and words that have the place of either and are neither. What is wanted was found by hand from
// their rules.
use crate::words::{expect_fault, list_of, tell_passes, tell_settings};
use cr_main_words::{Engine, Modes, ReplaySettings, Request, WordFault, request_of};
use std::alloc::{AllocError, Global};
use std::process::Abort;

/// What lists of words ask for where there are 32 workers, and behind it the words, each behind a bar: the engine, whether any order
/// counts, the label that is to be reached, and the settings, or `no`.
const FLAGS: &str = "\
journal 4 256 none 1000000 ltbusciprf has f.c|--journal|has:b|f.c
journal 4 256 none 1000000 ltbusciprf has f.c|has:b|--journal|f.c
journal 4 256 none 1000000 ltbusciprf has f.c|has:b|f.c|--journal
resume 4 256 none 1000000 ltbusciprf has f.c|--resume|has:b|f.c
resume 4 256 none 1000000 ltbusciprf has f.c|has:b|--resume|f.c
resume 4 256 none 1000000 ltbusciprf has f.c|has:b|f.c|--resume
standing 4 256 none 1000000 ltbusciprf has f.c|--standing|has:b|f.c
standing 4 256 none 1000000 ltbusciprf has f.c|has:b|--standing|f.c
standing 4 256 none 1000000 ltbusciprf has f.c|has:b|f.c|--standing
plain any 4 256 none 1000000 ltbusciprf has f.c|--any-order|has:b|f.c
plain to A 4 256 none 1000000 ltbusciprf has f.c|--reached=A|has:b|f.c
plain to A 4 256 none 1000000 ltbusciprf has f.c|has:b|f.c|--reached=A
plain any to _a9 4 256 none 1000000 ltbusciprf has f.c|--any-order|has:b|--reached=_a9|f.c
journal to Zz 4 256 none 1000000 ltbusciprf has f.c|--journal|has:b|--reached=Zz|f.c
plain to A 4 256 5 1000000 ltbusciprf has f.c|--limit|--reached=A|5|has:b|f.c
standing to A 4 256 none 1000000 ltbusciprf has gen 7 40|--reached=A|--standing|has:b|gen:7:40
plain 4 256 none 1000000 ltbusciprf --reached=A f.c|--|--reached=A|f.c
no|--reached=A|--reached=A|has:b|f.c
no|--reached=A|has:b|--reached=B|f.c
no|--reached=|has:b|f.c
no|--reached|has:b|f.c
no|--reached|A|has:b|f.c
no|--reached=9a|has:b|f.c
no|--reached=a-b|has:b|f.c
no|--reached=a |has:b|f.c
no|--Reached=A|has:b|f.c
no|--replay|a.log|--reached=A|f.c
no|--reached=A|--replay|a.log|f.c
plain any 4 256 none 1000000 ltbusciprf has f.c|has:b|--any-order|f.c
plain any 4 256 none 1000000 ltbusciprf has f.c|has:b|f.c|--any-order
plain 4 256 none 1000000 ltbusciprf has f.c|has:b|f.c
journal any 4 256 none 1000000 ltbusciprf has f.c|--journal|--any-order|has:b|f.c
resume any 4 256 none 1000000 ltbusciprf has f.c|--any-order|has:b|f.c|--resume
standing any 4 256 none 1000000 ltbusciprf has f.c|has:b|--standing|f.c|--any-order
journal any 2 16 7 99 bc t.sh f.c|--steps|99|--journal|t.sh|--workers=2|--any-order|--passes|cb|f.c|--limit|7|--window=16
no|--journal|--journal|has:b|f.c
no|--resume|has:b|--resume|f.c
no|--standing|has:b|f.c|--standing
no|--any-order|has:b|f.c|--any-order
no|has:b|--any-order|--any-order|f.c
no|--journal|--resume|has:b|f.c
no|--resume|has:b|--journal|f.c
no|--standing|has:b|f.c|--journal
no|--journal|has:b|f.c|--standing
no|--resume|--standing|has:b|f.c
no|has:b|f.c|--standing|--resume
no|--journal|--resume|--standing|has:b|f.c
no|--any-order|--journal|--resume|has:b|f.c
";

/// The same where a flag stands at a value's place, behind `--`, in a word that is like a flag, or beside what it isn't for.
const PLACES: &str = "\
journal 4 256 5 1000000 ltbusciprf has f.c|--limit|--journal|5|has:b|f.c
standing 4 256 none 1000000 l has f.c|has:b|f.c|--passes|--standing|l
plain any 2 256 none 1000000 ltbusciprf has f.c|--workers|--any-order|2|has:b|f.c
no|--limit|--journal|has:b|f.c
no|has:b|f.c|--workers|--standing
no|--limit=--resume|has:b|f.c
no|--passes=--any-order|has:b|f.c
plain 4 256 none 1000000 ltbusciprf --journal f.c|--|--journal|f.c
plain 4 256 none 1000000 ltbusciprf has --resume|has:b|--|--resume
plain 4 256 none 1000000 ltbusciprf has --standing|--|has:b|--standing
plain 4 256 none 1000000 ltbusciprf -- --any-order|--|--|--any-order
plain 4 256 none 1000000 ltbusciprf --any-order --any-order|--|--any-order|--any-order
journal 4 256 none 1000000 ltbusciprf has --journal|--journal|has:b|--|--journal
resume 4 256 none 1000000 ltbusciprf --journal --standing|--resume|--|--journal|--standing
no|has:b|f.c|--|--any-order
no|--|has:b|f.c|--journal
no|--journal=1|has:b|f.c
no|--any-order=|has:b|f.c
no|--journals|has:b|f.c
no|--journa|has:b|f.c
no|-journal|has:b|f.c
no|--Resume|has:b|f.c
no|--any_order|has:b|f.c
plain 4 256 none 1000000 ltbusciprf standing f.c|standing|f.c
standing 4 256 none 1000000 ltbusciprf standing resume|standing|--standing|resume
no|--journal
no|--any-order|has:b
no|--standing|--
no|--resume|has:b|f.c|g.c
no|--journal|has:|f.c
no|--standing|has:b|d/
no|--resume|--limit|1|--limit|2|has:b|f.c
no|--journal|has:b|gen:7:40
no|--resume|has:b|gen:7:40
no|--any-order|has:b|gen:7:40|--journal
no|--resume|has:b|--|gen:7:40
standing 4 256 none 1000000 ltbusciprf has gen 7 40|--standing|has:b|gen:7:40
plain any 4 256 none 1000000 ltbusciprf has gen 7 40|has:b|gen:7:40|--any-order
standing any 4 256 none 1000000 ltbusciprf has gen 7 40|--any-order|--standing|has:b|gen:7:40
no|--standing|has:b|gen:7:0
journal 4 256 none 1000000 ltbusciprf gen:7:40 f.c|--journal|gen:7:40|f.c
resume 4 256 none 1000000 ltbusciprf has d/gen:7:40|--resume|has:b|d/gen:7:40
plain 4 256 none 1000000 ltbusciprf if:ends(0) f.c|if:ends(0)|f.c
journal 4 256 none 1000000 ltbusciprf if:same f.c|--journal|if:same|f.c
standing any 4 256 none 1000000 ltbusciprf if:same gen 7 40|if:same|--standing|gen:7:40|--any-order
plain 4 256 none 1000000 ltbusciprf has if:same|has:b|if:same
no|if:same
";

/// The same of a replay: the steps, the passes, the log and the file.
const REPLAYS: &str = "\
replay 1000000 ltbusciprf f.c.log f.c|--replay|f.c.log|f.c
replay 7 ltbusciprf a.log f.c|--replay|--steps|7|a.log|f.c
replay 7 ltbusciprf a.log f.c|--replay|--steps=7|a.log|f.c
replay 7 ltbusciprf a.log f.c|--replay|a.log|--steps|7|f.c
replay 7 ltbusciprf a.log f.c|--replay|a.log|f.c|--steps=7
replay 1 ltbusciprf a.log f.c|--replay|--steps|0000000000000000001|a.log|f.c
replay 100000000 ltbusciprf a.log f.c|--replay|--steps|100000000|a.log|f.c
replay 1000000 lt a.log f.c|--replay|--passes|tl|a.log|f.c
replay 1000000 f a.log f.c|--replay|a.log|f.c|--passes=f
replay 1000000 fv a.log f.c|--replay|a.log|f.c|--passes=vf
replay 9 sc a.log f.c|--replay|--passes=cs|a.log|--steps|9|f.c
replay 1000000 ltbusciprf a.log f.c|--replay|--|a.log|f.c
replay 1000000 ltbusciprf a.log --steps|--replay|a.log|--|--steps
replay 1000000 ltbusciprf --journal -f.c|--replay|--|--journal|-f.c
replay 1000000 ltbusciprf has:b f.c|--replay|has:b|f.c
replay 1000000 ltbusciprf has: if:same|--replay|has:|if:same
replay 1000000 ltbusciprf - f.c|--replay|-|f.c
replay 1000000 ltbusciprf d/gen:1:1 /gen:1:1|--replay|d/gen:1:1|/gen:1:1
no|--replay
no|--replay|a.log
no|--replay|--
no|--replay|--steps|7
no|--replay|a.log|--steps|7
no|--replay|a.log|f.c|g.c
no|--replay|--steps|0|a.log|f.c
no|--replay|--steps|100000001|a.log|f.c
no|--replay|--steps|7|--steps|7|a.log|f.c
no|--replay|a.log|f.c|--steps
no|--replay|--passes|ll|a.log|f.c
no|--replay|--passes|x|a.log|f.c
no|--replay|--passes=l|a.log|f.c|--passes=l
no|--replay|--workers|1|a.log|f.c
no|--replay|a.log|f.c|--workers=4
no|--replay|--window=256|a.log|f.c
no|--replay|--limit|5|a.log|f.c
no|--replay||f.c
no|--replay|a.log|
no|--replay|d/|f.c
no|--replay|a.log|d/..
no|--replay|.|f.c
no|--replay|a.log|gen:7:40
no|--replay|gen:7:40|f.c
no|--replay|gen:|f.c
no|--replay|--journal|a.log|f.c
no|--replay|a.log|--any-order|f.c
no|--replay|--replay|a.log|f.c
no|--replay=a.log|f.c
no|--steps|7|--replay|a.log|f.c
no|--standing|--replay|a.log|f.c
no|has:b|--replay|f.c
plain 4 256 none 1000000 ltbusciprf --replay f.c|--|--replay|f.c
journal 4 256 none 1000000 ltbusciprf has --replay|--journal|has:b|--|--replay
";

fn engine_word(engine: Engine) -> &'static str {
    match engine {
        Engine::Plain => "plain",
        Engine::Journal => "journal",
        Engine::Resume => "resume",
        Engine::Standing => "standing",
    }
}

fn tell_modes(told: &mut String, modes: &Modes) -> Result<(), AllocError> {
    told.push_str(engine_word(modes.engine))?;
    told.push(' ')?;
    if modes.any_order {
        told.push_str("any ")?;
    }
    if let Some(name) = &modes.reached {
        told.push_str("to ")?;
        for byte in name.as_slice() {
            told.push(char::from(*byte))?;
        }
        told.push(' ')?;
    }
    Ok(())
}

fn tell_replay(told: &mut String, found: &ReplaySettings) -> Result<(), AllocError> {
    write!(told, "replay {} ", found.steps)?;
    tell_passes(told, &found.enabled)?;
    write!(told, " {} {}", found.log.as_str(), found.file.as_str())
}

fn told(alloc: Global, request: &Request) -> Result<String, AllocError> {
    let mut told = String::new(alloc);
    match request {
        Request::Reduction(settings, modes) => {
            tell_modes(&mut told, modes)?;
            tell_settings(&mut told, settings)?;
        }
        Request::Replay(found) => tell_replay(&mut told, found)?,
    }
    Ok(told)
}

fn answer(alloc: Global, line: &str) -> Result<String, AllocError> {
    let list = list_of(alloc, line)?;
    match request_of(alloc, &list, 32) {
        Ok(request) => told(alloc, &request),
        Err(WordFault::Usage) => String::from_str(alloc, "no"),
        Err(WordFault::NoMemory) => String::from_str(alloc, "no memory"),
    }
}

fn expect_all(rt: &impl Abort, alloc: Global, rows: &str) -> Result<(), AllocError> {
    for line in rows.lines() {
        let found = answer(alloc, line)?;
        let wanted = line.split('|').next().unwrap_or("");
        assert!(rt; found.as_str() == wanted, "{line}: {found}");
        expect_fault(rt, alloc, line, wanted == "no")?;
    }
    Ok(())
}

#[test]
fn flags_ask_for_modes_in_any_place_and_once(rt: HostRuntime) -> Result<(), AllocError> {
    expect_all(&rt, rt.alloc(), FLAGS)
}

#[test]
fn a_flag_is_one_wherever_it_stands_before_the_dashes(rt: HostRuntime) -> Result<(), AllocError> {
    expect_all(&rt, rt.alloc(), PLACES)
}

#[test]
fn a_replay_is_asked_for_by_its_first_word(rt: HostRuntime) -> Result<(), AllocError> {
    expect_all(&rt, rt.alloc(), REPLAYS)
}
