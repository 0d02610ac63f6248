// Which calls of an object in memory fail.
ghost use Rattle.std.specs.Prelude.{◌≡◌, ◌↔◌, ◌≤◌, Contains, IsTrue};
ghost use Rattle.std.specs.Bool.{OnFalse, OnTrue};
ghost use Rattle.cr_outside.specs.Faults.{raised};

/// The numbers of the calls that fail, from 1, and the counts of calls and of faults so far.
#[derive(Debug, Drop)]
pub struct FaultPlan {
    pub failing: Vec<u64>,
    pub calls: u64,
    pub faults: u64,
}

impl FaultPlan {
    /// No call was made yet.
    pub fn new(failing: Vec<u64>) -> FaultPlan
        ensures { (result.failing.items ≡ failing.items) × (result.calls ≡ 0) × (result.faults ≡ 0) }
    {
        FaultPlan {
            failing,
            calls: 0,
            faults: 0,
        }
    }

    /// Counts one call, and says whether it is one that fails.
    pub fn next_fails(&mut self) -> bool
        ensures listed { IsTrue result ↔ Contains self.old.failing.items (raised self.old.calls) }
        ensures counted { self.new.calls ≡ raised self.old.calls }
        ensures rose { OnTrue result (self.new.faults ≡ raised self.old.faults) }
        ensures quiet { OnFalse result (self.new.faults ≡ self.old.faults) }
        ensures later { self.old.faults ≤ self.new.faults }
        ensures same { self.new.failing ≡ self.old.failing }
    {
        self.calls = self.calls.saturating_add(1);
        let fails = self.failing.contains(&self.calls);
        if fails {
            self.faults = self.faults.saturating_add(1);
        }
        fails
    }

    /// Counts a fault that no list named.
    pub fn count_fault(&mut self)
        ensures rose { self.new.faults ≡ raised self.old.faults }
        ensures later { self.old.faults ≤ self.new.faults }
        ensures same { (self.new.failing ≡ self.old.failing) × (self.new.calls ≡ self.old.calls) }
    {
        self.faults = self.faults.saturating_add(1);
    }
}
