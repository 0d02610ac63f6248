// Which orders needn't be tried any more. No clause rests on it.
ghost use Rattle.std.specs.Prelude.{ℕ};

use cr_cursor::Stop;
use std::sync::atomic::{AtomicU64, Ordering};

/// The orders that were dropped last: those with tickets from one to before another.
#[derive(Drop)]
pub struct Hint {
    low: AtomicU64,
    high: AtomicU64,
}

impl Hint {
    /// None was dropped yet.
    pub fn new() -> Hint {
        Hint {
            low: AtomicU64::new(u64::MAX),
            high: AtomicU64::new(0),
        }
    }

    /// Drops the orders from this ticket to before the other, which no order has yet.
    pub fn drop_tickets(&self, low: u64, high: u64) {
        // Whoever looks meanwhile, `high` first, sees no order as dropped that isn't.
        self.low.store(u64::MAX, Ordering::SeqCst);
        self.high.store(high, Ordering::SeqCst);
        self.low.store(low, Ordering::SeqCst);
    }

    /// Whether an order needn't be tried any more.
    pub fn is_moot(&self, ticket: u64) -> bool {
        let high = self.high.load(Ordering::SeqCst);
        let low = self.low.load(Ordering::SeqCst);
        low <= ticket && ticket < high
    }
}

/// Stops a ruling for an order that needn't be tried any more.
#[derive(Drop)]
pub struct Watch<'a> {
    pub hint: &'a Hint,
    pub ticket: u64,
    /// Whether a look has answered so.
    pub raised: bool,
    pub looks: u64,
}

impl<'a> Stop for Watch<'a> {
    type Held = ();

    ghost raised = { λ w. w.raised };

    ghost held = { λ _. tt };

    ghost looks = { λ w. w.looks };

    fn stop(&mut self) -> bool {
        self.looks = self.looks.saturating_add(1);
        let moot = self.hint.is_moot(self.ticket);
        self.raised = self.raised || moot;
        moot
    }
}
