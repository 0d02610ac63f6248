// What a worker does.
ghost use Rattle.std.specs.Prelude.{◌≡◌};
ghost use Rattle.std.specs.Arc.{arc_value};
ghost use Rattle.cr_standing_workers.specs.Channels.{AllNo, AreJoined, AreSeats, IsOpen, IsTrue};
ghost use Rattle.cr_standing_workers.specs.Serving.{Serves};
ghost use Rattle.cr_standing_workers.specs.Told.{IsAbout, replied_as, said_of, searching_by};
ghost use Rattle.cr_standing_workers.specs.declared.orders.Trial.{Trial};

use crate::channels::{Lines, Seat, next_order, send_reply};
use crate::hint::Watch;
use crate::orders::{Order, Place, Reply, Subject, Trial};
use crate::task::Task;
use crate::trial::{Tried, Weighed, ask, weigh};
use cr_cursor::{Law, Passes};
use cr_outside::{Judge, Question};
use std::alloc::Global;
use std::snapshot::Snapshot;
use std::sync::{Arc, Wait};
use std::thread::Promise;

/// What a worker promises of its judge.
#[derive(Drop)]
pub struct Word<'a, Q, J> {
    pub question: &'a Q,
    pub judge: Snapshot<J>,
}

impl<'a, Q: Question, J: Judge> Promise<J> for Word<'a, Q, J> {
    ghost use Rattle.cr_standing_workers.specs.Serving.{Serves};

    ghost kept_by = { λ w j. Serves J.Judge (Q.asks w.question.now) w.judge.value j };
}

/// What is to be replied of a position, and whether the question was asked about it.
struct Said {
    trial: Trial,
    asked: bool,
}

/// Goes over the positions of an order up to one that is smaller and lawful, says so, and asks about it. What needn't be tried any more,
/// and what the judge or the memory failed on, is skipped.
pub fn answer<R: Wait, S: Subject<P::Prep>, P: Passes, L: Law, Q: Question, J: Judge>(
    rt: &R,
    alloc: Global,
    task: &Task<'_, P, L, Q>,
    lines: &Lines<'_, S, P::Prep>,
    judge: &mut J,
    seat: &mut Seat<P::Prep>,
    place: Place<P::Prep>,
) -> Reply<P::Prep>
    requires about { IsAbout (searching_by P.Passes L.Law Q.Question task.now S.told) (P.offer task.now.passes.now) S.orders S.replies S.verdicts }
    requires told { J.says (J.key judge.old) ≡ S.told }
    requires seats { AreSeats lines.now seat.old }
    requires is_open { IsOpen S.orders place }
    ensures is_true { IsTrue S.replies result }
    ensures serves { Serves J.Judge (Q.asks task.now.question.now) judge.old judge.new }
    ensures seats { AreSeats lines.now seat.new }
{
    for at in place.from..place.to {
        if let Some(Said { trial, asked }) = try_place(
            rt, alloc, task, lines, judge, seat, &place, at,
        ) {
            return Reply {
                place,
                at,
                trial,
                asked,
            };
        }
    }
    let at = place.to - 1;
    Reply {
        place,
        at,
        trial: Trial::No,
        asked: false,
    }
}

/// Tries a position of an order. Answers what is to be replied and whether the question was asked, or nothing where the position is
/// rejected without asking.
fn try_place<R: Wait, S: Subject<P::Prep>, P: Passes, L: Law, Q: Question, J: Judge>(
    rt: &R,
    alloc: Global,
    task: &Task<'_, P, L, Q>,
    lines: &Lines<'_, S, P::Prep>,
    judge: &mut J,
    seat: &mut Seat<P::Prep>,
    place: &Place<P::Prep>,
    at: u64,
) -> Option<Said>
    requires about { IsAbout (searching_by P.Passes L.Law Q.Question task.now S.told) (P.offer task.now.passes.now) S.orders S.replies S.verdicts }
    requires told { J.says (J.key judge.old) ≡ S.told }
    requires seats { AreSeats lines.now seat.old }
    requires is_open { S.orders (arc_value place.now.file).prep (arc_value place.now.file).bytes.items (arc_value place.now.file).size at }
    requires rejected { AllNo S.replies (arc_value place.now.file).bytes.items place.now.from at }
    ensures says { S.replies (arc_value place.now.file).bytes.items at (said_of result) }
    ensures serves { Serves J.Judge (Q.asks task.now.question.now) judge.old judge.new }
    ensures seats { AreSeats lines.now seat.new }
{
    let hint = lines.hint;
    if hint.is_moot(place.ticket) {
        return Some(unasked(Trial::Skipped));
    }
    let mut watch = Watch {
        hint,
        ticket: place.ticket,
        raised: false,
        looks: 0,
    };
    match weigh(
        rt,
        alloc,
        task,
        lines.memory,
        &place.file,
        at,
        &mut seat.variant,
        &mut watch,
    ) {
        Weighed::No => None,
        Weighed::Yes => Some(unasked(Trial::Yes)),
        Weighed::Lawful => {
            if hint.is_moot(place.ticket) {
                return Some(unasked(Trial::Skipped));
            }
            tell(rt, lines, seat, place, at);
            let tried = ask(rt, alloc, task, lines.memory, judge, &seat.variant);
            Some(Said {
                trial: replied(tried),
                asked: true,
            })
        }
        Weighed::Stopped | Weighed::NoMemory => Some(unasked(Trial::Skipped)),
    }
}

fn unasked(trial: Trial) -> Said
    ensures { result.trial ≡ trial }
{
    Said {
        trial,
        asked: false,
    }
}

fn replied(tried: Tried) -> Trial
    ensures { result ≡ replied_as tried }
{
    match tried {
        Tried::No => Trial::No,
        Tried::Yes => Trial::Yes,
        Tried::Stopped | Tried::Failed | Tried::NoMemory => Trial::Skipped,
    }
}

/// Tells the caller that the test of a position runs, if memory for it is left.
fn tell<R: Wait, S: Subject<T>, T: Drop>(
    rt: &R,
    lines: &Lines<'_, S, T>,
    seat: &mut Seat<T>,
    place: &Place<T>,
    at: u64,
)
    requires seats { AreSeats lines.now seat.old }
    requires rejected { AllNo S.replies (arc_value place.now.file).bytes.items place.now.from at }
    requires asked { S.replies (arc_value place.now.file).bytes.items at Trial.Asked }
    ensures seats { AreSeats lines.now seat.new }
    ensures variant { seat.new.variant ≡ seat.old.variant }
{
    let Ok(file) = Arc::try_clone(&place.file) else {
        return;
    };
    let place = Place {
        ticket: place.ticket,
        from: place.from,
        to: place.to,
        file,
    };
    let reply = Reply {
        place,
        at,
        trial: Trial::Asked,
        asked: true,
    };
    let _ = send_reply(rt, lines, seat, reply);
}

/// Tries what is ordered until it is told to stop.
pub fn serve<R: Wait, S: Subject<P::Prep>, P: Passes, L: Law, Q: Question, J: Judge>(
    rt: &R,
    alloc: Global,
    task: &Task<'_, P, L, Q>,
    lines: &Lines<'_, S, P::Prep>,
    mut judge: J,
    mut seat: Seat<P::Prep>,
) -> J
    requires about { IsAbout (searching_by P.Passes L.Law Q.Question task.now S.told) (P.offer task.now.passes.now) S.orders S.replies S.verdicts }
    requires told { J.says (J.key judge) ≡ S.told }
    requires joined { AreJoined lines.now }
    requires seats { AreSeats lines.now seat }
    ensures { Serves J.Judge (Q.asks task.now.question.now) judge result }
{
    for _ in rt.forever() {
        let Some(Order::Try(place)) = next_order(rt, lines, &mut seat) else {
            break;
        };
        let said = answer(rt, alloc, task, lines, &mut judge, &mut seat, place);
        if !send_reply(rt, lines, &mut seat, said) {
            break;
        }
    }
    judge
}
