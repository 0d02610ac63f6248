// What the bytes read come to.
ghost use Rattle.std.specs.Prelude.{◌≡◌, ◌≤◌, IfOk, Ok, length};
ghost use Rattle.cr_cursor.specs.TokenLaw.{IsTokenized};
ghost use Rattle.cr_log.specs.Readers.{Reads};
ghost use Rattle.cr_main_replay.specs.Replay.{Answers, replaying, texts_of};
ghost use Rattle.cr_main_task.specs.Messages.{copy_name};
ghost use Rattle.cr_main_task.specs.Task.{IsOfPrograms};
ghost use Rattle.cr_replay.specs.Chains.{chain_of};
ghost use Rattle.cr_replay.specs.Checks.{Says};
ghost use Rattle.std.specs.Prelude.{None};

use crate::lines::{put_breaks, put_yes};
use crate::reading::Texts;
use crate::replay::Replay;
use cr_cursor::{Law, Passes};
use cr_log::{Log, LogFault, read_log};
use cr_main_task::{Refusal, refuse, ruled, status};
use cr_outside::Sink;
use cr_replay::{Verdict, check};
use std::alloc::Global;

/// Has the law rule on the copy, and the log checked.
pub fn answer<P: Passes, L: Law, O: Sink>(
    alloc: Global,
    replay: &Replay<'_, P, L>,
    copy: &str,
    texts: &Texts,
    out: &mut O,
) -> u8
    requires law { IsOfPrograms (L.lawful replay.now.law.now) (L.reasons replay.now.law.now) }
    requires named { copy.now ≡ copy_name replay.now.file.now }
    requires short { length texts.now.log.items ≤ 1073741824 }
    ensures { Answers (replaying P.Passes L.Law replay.now) (texts_of texts.now) (O.told out.old) (O.told out.new) (O.faults out.old) (O.faults out.new) result }
{
    match ruled(alloc, replay.law, &texts.copy) {
        Ok(None) => answer_log(alloc, replay, texts, out),
        Ok(Some(reason)) => refuse(alloc, out, copy, Refusal::Against(reason)),
        Err(_) => status::NO_MEMORY,
    }
}

// Where the copy is lawful.
fn answer_log<P: Passes, L: Law, O: Sink>(
    alloc: Global,
    replay: &Replay<'_, P, L>,
    texts: &Texts,
    out: &mut O,
) -> u8
    requires lawful { L.lawful replay.now.law.now texts.now.copy.items }
    requires tokenizes { IsTokenized texts.now.copy.items }
    requires short { length texts.now.log.items ≤ 1073741824 }
    ensures { Answers (replaying P.Passes L.Law replay.now) (texts_of texts.now) (O.told out.old) (O.told out.new) (O.faults out.old) (O.faults out.new) result }
{
    let log = match log_of(alloc, &texts.log) {
        Ok(log) => log,
        Err(LogFault::Line(number)) => return put_breaks(alloc, out, number),
        Err(LogFault::NoMemory) => return status::NO_MEMORY,
    };
    match verdict_on(alloc, replay, texts, &log) {
        Verdict::Yes => put_yes(alloc, out, replay.file, count_of(&log)),
        Verdict::Breaks(number) => put_breaks(alloc, out, number),
        Verdict::NoMemory => status::NO_MEMORY,
    }
}

fn count_of(log: &Log) -> usize
    ensures { result ≡ length log.now.accepted.items }
{
    log.accepted.len()
}

fn log_of(alloc: Global, text: &Vec<u8>) -> Result<Log, LogFault>
    requires { length text.now.items ≤ 1073741824 }
    ensures { Reads text.now.items result }
{
    read_log(alloc, text)
}

fn verdict_on<P: Passes, L: Law>(
    alloc: Global,
    replay: &Replay<'_, P, L>,
    texts: &Texts,
    log: &Log,
) -> Verdict
    requires tokenizes { IsTokenized texts.now.copy.items }
    ensures { Says (chain_of P.Passes replay.now.passes.now L.Law replay.now.law.now None) texts.now.copy.items log.now texts.now.file.items result }
{
    check(
        alloc,
        replay.passes,
        replay.law,
        &texts.copy,
        log,
        &texts.file,
    )
}
