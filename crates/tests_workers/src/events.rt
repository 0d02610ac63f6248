use cr_core::{Core, Entry, Event, First, HitKind, Mark, NoMemory, Settle, run};
use std::alloc::Global;
use std::process::Abort;

fn entry(position: u64, mark: Mark) -> Entry {
    Entry { position, mark }
}

// Two workers over three positions: worker 1 hits position 1 while worker 0 is at 0, which is rejected, and leaves at 2.
const ROW: [Event; 5] = [
    Event::Claim(0, Settle::Nothing),
    Event::Claim(1, Settle::Nothing),
    Event::Hit(1, HitKind::Yes),
    Event::Claim(0, Settle::No),
    Event::Leave(0, Settle::Skipped),
];

fn expect_list(rt: &impl Abort, core: &Core, worker: usize, wanted: &[Entry]) {
    assert!(rt; worker < core.lists.len(), "the machine has no such worker");
    assert!(rt; core.lists[worker].as_slice() == wanted, "worker {worker}");
}

fn expect_step(
    rt: &impl Abort,
    core: &mut Core,
    event: Event,
    wanted: bool,
) -> Result<(), NoMemory> {
    assert!(rt; core.next < 4, "{} and not below 4", core.next);
    assert!(rt; core.len == 3, "{} and not 3", core.len);
    let found = core.step(event)?;
    assert!(rt; found == wanted, "{event:?}");
    Ok(())
}

fn after(alloc: Global, count: usize) -> Result<Core, NoMemory> {
    run(alloc, 3, 2, &ROW[..count.min(5)])
}

#[test]
fn the_row_ends_at_the_hit(rt: HostRuntime) -> Result<(), NoMemory> {
    let core = run(rt.alloc(), 3, 2, &ROW)?;
    assert!(rt;
        (core.next, core.least) == (3, 4),
        "next is {}, least is {}",
        core.next,
        core.least
    );
    assert!(rt; core.lists.len() == 2, "{} and not 2", core.lists.len());
    expect_list(
        &rt,
        &core,
        0,
        &[entry(0, Mark::No), entry(2, Mark::Skipped)],
    );
    expect_list(&rt, &core, 1, &[entry(1, Mark::Hit(HitKind::Yes))]);
    assert!(rt;
        core.first() == First::At(1, HitKind::Yes),
        "another first hit"
    );
    Ok(())
}

// The core after so many events of the row and this one, which is allowed or isn't.
fn stepped(
    rt: &impl Abort,
    alloc: Global,
    count: usize,
    event: Event,
    wanted: bool,
) -> Result<Core, NoMemory> {
    let mut core = after(alloc, count)?;
    expect_step(rt, &mut core, event, wanted)?;
    Ok(core)
}

#[test]
fn each_event_of_the_row_is_allowed(rt: HostRuntime) -> Result<(), NoMemory> {
    for n in 0..ROW.len() {
        stepped(&rt, rt.alloc(), n, ROW[n], true)?;
    }
    Ok(())
}

#[test]
fn what_is_not_allowed_changes_nothing(rt: HostRuntime) -> Result<(), NoMemory> {
    for event in [
        Event::Claim(0, Settle::Skipped),
        Event::Leave(1, Settle::Nothing),
        Event::Look(1),
        Event::Look(2),
    ] {
        let core = stepped(&rt, rt.alloc(), 1, event, false)?;
        assert!(rt;
            (core.next, core.least, core.lists.len()) == (1, 15, 2),
            "next is {}, least is {}",
            core.next,
            core.least
        );
        expect_list(&rt, &core, 0, &[entry(0, Mark::Open)]);
        expect_list(&rt, &core, 1, &[]);
    }
    Ok(())
}

#[test]
fn a_later_hit_leaves_the_least(rt: HostRuntime) -> Result<(), NoMemory> {
    let hit = Event::Hit(0, HitKind::Failed);
    let core = stepped(&rt, rt.alloc(), 4, hit, true)?;
    assert!(rt; core.least == 4, "{} and not 4", core.least);
    Ok(())
}
