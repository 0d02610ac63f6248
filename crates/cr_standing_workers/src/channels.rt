// The two channels and their rules.
ghost use Rattle.std.specs.Prelude.{◌≡◌, IfSome};
ghost use Rattle.crossbeam_channel.specs.Claims.{IsSeatAt};
ghost use Rattle.crossbeam_channel.specs.Ends.{receives_on, sends_on};
ghost use Rattle.cr_standing_workers.specs.Channels.{AreJoined, AreSeats, IsFit, IsTrue};

use crate::hint::Hint;
use crate::memory::Memory;
use crate::orders::{Order, Reply, Subject};
use crossbeam_channel::protocol::{Lesson, Outcome, Protocol, Split};
use crossbeam_channel::{Pass, RuledReceiver, RuledSender};
use std::alloc::Global;
use std::marker::PhantomData;
use std::sync::{Mutex, Wait};

/// Each order is one that may be given.
pub struct Fit<S> {
    of: PhantomData<S>,
}

impl<S: Subject<T>, T> Protocol<Order<T>, ()> for Fit<S> {
    ghost use Rattle.cr_standing_workers.specs.Channels.{AllAre, IsFit};

    ghost holds = { λ items views. AllAre (IsFit S.orders) items };

    ghost first = { tt };
}

impl<S: Subject<T>, T> Outcome<Order<T>, ()> for Fit<S> {
    ghost use Rattle.cr_standing_workers.specs.Channels.{IsFit};

    ghost then = { λ v x w. IsFit S.orders x };
}

impl<S: Subject<T>, T> Lesson<Order<T>, ()> for Fit<S> {
    ghost use Rattle.std.specs.Prelude.{⊤};

    ghost fact = { λ v items. ⊤ };
}

/// Each reply is true.
pub struct True<S> {
    of: PhantomData<S>,
}

impl<S: Subject<T>, T> Protocol<Reply<T>, ()> for True<S> {
    ghost use Rattle.cr_standing_workers.specs.Channels.{AllAre, IsTrue};

    ghost holds = { λ items views. AllAre (IsTrue S.replies) items };

    ghost first = { tt };
}

impl<S: Subject<T>, T> Outcome<Reply<T>, ()> for True<S> {
    ghost use Rattle.cr_standing_workers.specs.Channels.{IsTrue};

    ghost then = { λ v x w. IsTrue S.replies x };
}

impl<S: Subject<T>, T> Lesson<Reply<T>, ()> for True<S> {
    ghost use Rattle.std.specs.Prelude.{⊤};

    ghost fact = { λ v items. ⊤ };
}

/// A thread more.
pub struct Twin;

impl Split<()> for Twin {
    ghost left = { λ v. tt };

    ghost right = { λ v. tt };
}

/// The ends of both channels, the hint, and what is remembered, which all threads share.
#[derive(Drop)]
pub struct Lines<'a, S: Subject<T>, T: Drop> {
    pub orders: &'a RuledSender<Order<T>, (), Fit<S>>,
    pub orders_out: &'a RuledReceiver<Order<T>, (), Fit<S>>,
    pub replies: &'a RuledSender<Reply<T>, (), True<S>>,
    pub replies_out: &'a RuledReceiver<Reply<T>, (), True<S>>,
    pub hint: &'a Hint,
    pub memory: &'a Mutex<Memory<S, T>>,
}

/// What each thread has of its own: its passes of both channels, and a buffer for variants.
#[derive(Drop)]
pub struct Seat<T> {
    pub orders: Pass<Order<T>, ()>,
    pub replies: Pass<Reply<T>, ()>,
    pub variant: Vec<u8>,
}

/// Sends an order. Answers whether it was sent.
pub fn send_order<R: Wait, S: Subject<T>, T: Drop>(
    rt: &R,
    lines: &Lines<'_, S, T>,
    seat: &mut Seat<T>,
    order: Order<T>,
) -> bool
    requires seats { AreSeats lines.now seat.old }
    requires fit { IsFit S.orders order }
    ensures seats { AreSeats lines.now seat.new }
{
    lines
        .orders
        .send_as::<Fit<S>, R>(rt, &mut seat.orders, order)
        .is_ok()
}

/// Sends a reply. Answers whether it was sent.
pub fn send_reply<R: Wait, S: Subject<T>, T: Drop>(
    rt: &R,
    lines: &Lines<'_, S, T>,
    seat: &mut Seat<T>,
    reply: Reply<T>,
) -> bool
    requires seats { AreSeats lines.now seat.old }
    requires is_true { IsTrue S.replies reply }
    ensures seats { AreSeats lines.now seat.new }
    ensures variant { seat.new.variant ≡ seat.old.variant }
{
    lines
        .replies
        .send_as::<True<S>, R>(rt, &mut seat.replies, reply)
        .is_ok()
}

/// The next order, for which it waits.
pub fn next_order<R: Wait, S: Subject<T>, T: Drop>(
    rt: &R,
    lines: &Lines<'_, S, T>,
    seat: &mut Seat<T>,
) -> Option<Order<T>>
    requires seats { AreSeats lines.now seat.old }
    requires joined { AreJoined lines.now }
    ensures seats { AreSeats lines.now seat.new }
    ensures fit { IfSome result (IsFit S.orders) }
{
    lines
        .orders_out
        .recv_as::<Fit<S>, R>(rt, &mut seat.orders)
        .ok()
}

/// An order that no worker has taken, if one is there.
pub fn open_order<R: Wait, S: Subject<T>, T: Drop>(
    rt: &R,
    lines: &Lines<'_, S, T>,
    seat: &mut Seat<T>,
) -> Option<Order<T>>
    requires seats { AreSeats lines.now seat.old }
    requires joined { AreJoined lines.now }
    ensures seats { AreSeats lines.now seat.new }
    ensures fit { IfSome result (IsFit S.orders) }
{
    lines
        .orders_out
        .try_recv_as::<Fit<S>, R>(rt, &mut seat.orders)
        .ok()
}

/// The next reply: one that has come or, if it is to wait, one for which it waits.
pub fn next_reply<R: Wait, S: Subject<T>, T: Drop>(
    rt: &R,
    lines: &Lines<'_, S, T>,
    seat: &mut Seat<T>,
    waits: bool,
) -> Option<Reply<T>>
    requires seats { AreSeats lines.now seat.old }
    requires joined { AreJoined lines.now }
    ensures seats { AreSeats lines.now seat.new }
    ensures is_true { IfSome result (IsTrue S.replies) }
{
    if waits {
        lines
            .replies_out
            .recv_as::<True<S>, R>(rt, &mut seat.replies)
            .ok()
    } else {
        lines
            .replies_out
            .try_recv_as::<True<S>, R>(rt, &mut seat.replies)
            .ok()
    }
}

/// The passes of one thread more.
pub fn another_seat<S: Subject<T>, T: Drop>(
    alloc: Global,
    lines: &Lines<'_, S, T>,
    seat: &mut Seat<T>,
) -> Seat<T>
    requires seats { AreSeats lines.now seat.old }
    ensures seats { AreSeats lines.now seat.new }
    ensures another { AreSeats lines.now result }
{
    Seat {
        orders: lines.orders.another::<Twin>(&mut seat.orders),
        replies: lines.replies.another::<Twin>(&mut seat.replies),
        variant: Vec::new(alloc),
    }
}

/// Tells so many workers to stop.
pub fn stop_workers<R: Wait, S: Subject<T>, T: Drop>(
    rt: &R,
    lines: &Lines<'_, S, T>,
    seat: &mut Seat<T>,
    many: usize,
)
    requires seats { AreSeats lines.now seat.old }
    ensures seats { AreSeats lines.now seat.new }
{
    for _ in 0..many {
        let _ = send_order(rt, lines, seat, Order::Stop);
    }
}
