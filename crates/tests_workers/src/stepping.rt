ghost use Rattle.std.specs.Prelude.{◌≤◌};
ghost use Rattle.cr_core.specs.Core.{state_of};
ghost use Rattle.cr_core.specs.State.{IsSoundState};

use cr_core::{Core, Event, First, HitKind, NoMemory, Settle};
use std::process::Abort;

// A caller that keeps nothing of the core but its soundness: two workers over two positions, the upper one a hit first.
fn expect_hits(rt: &impl Abort, core: &mut Core) -> Result<(), NoMemory>
    requires small { core.old.len ≤ 4096 }
    requires sound { IsSoundState (state_of core.old) }
{
    assert!(rt;
        core.step(Event::Claim(0, Settle::Nothing))?,
        "the machine refused an event that is allowed"
    );
    assert!(rt;
        core.step(Event::Claim(1, Settle::Nothing))?,
        "the machine refused an event that is allowed"
    );
    assert!(rt;
        core.step(Event::Hit(1, HitKind::Yes))?,
        "the machine refused an event that is allowed"
    );
    assert!(rt;
        core.first() == First::At(1, HitKind::Yes),
        "another first hit"
    );
    assert!(rt;
        !core.step(Event::Claim(0, Settle::Skipped))?,
        "the machine took an event that isn't allowed"
    );
    assert!(rt;
        core.step(Event::Hit(0, HitKind::Failed))?,
        "the machine refused an event that is allowed"
    );
    assert!(rt;
        core.first() == First::At(0, HitKind::Failed),
        "another first hit"
    );
    Ok(())
}

#[test]
fn a_core_that_is_stepped_stays_sound(rt: HostRuntime) -> Result<(), NoMemory> {
    let mut core = Core::new(rt.alloc(), 2, 2)?;
    expect_hits(&rt, &mut core)
}
