ghost use Rattle.std.specs.Prelude.{◌≡◌, ◌<◌, [], true, false};
ghost use Rattle.cr_claims.specs.View.{new_view, one_split_more};

use cr_claims::{Claims, Pass};
use cr_core::{First, HitKind, Settle};
use std::alloc::{AllocError, Global};
use std::process::Abort;
use std::thread;

// Two workers over three positions, as in the core's own row: worker 1 hits position 1 while worker 0 is at 0.
#[test]
fn the_row_ends_at_the_hit(rt: HostRuntime) -> Result<(), AllocError> {
    let (claims, mut zero) = Claims::open(rt.alloc(), 3)?;
    let mut one = claims.split(&mut zero);
    let at = claims.claim(&mut zero, Settle::Nothing);
    assert!(rt; at == 0, "{at} and not 0");
    let at = claims.claim(&mut one, Settle::Nothing);
    assert!(rt; at == 1, "{at} and not 1");
    claims.hit(&mut one, HitKind::Yes);
    let at = claims.claim(&mut zero, Settle::No);
    assert!(rt; at == 2, "{at} and not 2");
    assert!(rt; claims.look(&mut zero), "the look saw no lower hit");
    claims.leave(&mut zero, Settle::Skipped);
    let at = claims.claim(&mut one, Settle::Nothing);
    assert!(rt; at == 3, "{at} and not 3");
    claims.leave(&mut one, Settle::Skipped);
    claims.join(&mut zero, one);
    let first = claims.close(zero);
    assert!(rt; first == First::At(1, HitKind::Yes), "another first hit");
    Ok(())
}

// A worker's pass, and the positions that it claimed.
#[derive(Drop)]
struct Worker {
    pass: Pass,
    seen: Vec<u64>,
    starved: bool,
}

impl Worker {
    ghost use Rattle.cr_claims.specs.Pass.{view_of, len_of, IsOf};

    fn new(alloc: Global, claims: &Claims, keeper: &mut Pass) -> Worker
        requires of { IsOf claims.now keeper.old }
        requires keeper { ((view_of keeper.old).keeper ≡ true) × ((view_of keeper.old).splits < 4096) }
        ensures stays { IsOf claims.now keeper.new × (view_of keeper.new ≡ one_split_more (view_of keeper.old)) }
        ensures new { IsOf claims.now result.pass × (view_of result.pass ≡ new_view (view_of keeper.old)) }
    {
        Worker {
            pass: claims.split(keeper),
            seen: Vec::new(alloc),
            starved: false,
        }
    }

    // Claims and rejects positions until one is past the end.
    fn claim_all(&mut self, claims: &Claims)
        requires of { IsOf claims.now self.old.pass × (len_of claims.now ≡ 1000) }
        requires new { ((view_of self.old.pass).own ≡ []) × ((view_of self.old.pass).left ≡ false) }
    {
        let mut at = claims.claim(&mut self.pass, Settle::Nothing);
        while at < 1000 {
            if self.seen.push(at).is_err() {
                self.starved = true;
                return;
            }
            at = claims.claim(&mut self.pass, Settle::No);
        }
        claims.leave(&mut self.pass, Settle::Skipped);
    }
}

// What the workers claimed, in order.
fn seen_by(rt: &impl Abort, alloc: Global, workers: &[Worker]) -> Result<Vec<u64>, AllocError> {
    let mut all = Vec::new(alloc);
    for worker in workers {
        assert!(rt; !worker.starved, "a worker ran out of memory");
        all.extend_from_slice(worker.seen.as_slice())?;
    }
    all.sort()?;
    Ok(all)
}

fn expect_each_once(rt: &impl Abort, alloc: Global, workers: &[Worker]) -> Result<(), AllocError> {
    let all = seen_by(rt, alloc, workers)?;
    assert!(rt; all.len() == 1000, "{} and not 1000", all.len());
    for (i, at) in all.iter().enumerate() {
        assert!(rt; *at == i as u64, "{at} and not {i}");
    }
    Ok(())
}

#[test]
fn each_position_is_claimed_once_by_four_threads(rt: HostRuntime) -> Result<(), AllocError> {
    let alloc = rt.alloc();
    let (claims, mut keeper) = Claims::open(alloc, 1000)?;
    let mut workers = [
        Worker::new(alloc, &claims, &mut keeper),
        Worker::new(alloc, &claims, &mut keeper),
        Worker::new(alloc, &claims, &mut keeper),
        Worker::new(alloc, &claims, &mut keeper),
    ];
    thread::for_each_mut(&rt, &mut workers, 4, &|_, w| w.claim_all(&claims));
    expect_each_once(&rt, alloc, &workers)
}
