// A stop for long rulings.
ghost use Rattle.std.specs.Prelude.{◌≡◌, ℕ, Bool, false, ◌||◌};
ghost use Rattle.cr_cursor.specs.Stops.{after_look};

/// Asked now and then by a long ruling: whether to give up, since the ruling is not wanted any more.
pub trait Stop {
    /// What a stop holds on to.
    type Held;

    /// Whether a call has answered true.
    ghost raised: { Self → Bool };

    /// No call changes it.
    ghost held: { Self → Self.Held };

    /// How many calls were made. It stays at its last value, 2^64 - 1.
    ghost looks: { Self → ℕ };

    /// Whether to give up.
    fn stop(&mut self) -> bool
        ensures raised { raised self.new ≡ (raised self.old || result) }
        ensures held { held self.new ≡ held self.old }
        ensures looks { looks self.new ≡ after_look (looks self.old) };
}

/// The stop that never asks to give up.
#[derive(Clone, Copy, Debug, PartialEq, Eq, Default)]
pub struct Never {
    pub looks: u64,
}

impl Stop for Never {
    type Held = ();

    ghost raised = { λ _. false };

    ghost held = { λ _. tt };

    ghost looks = { λ s. s.looks };

    fn stop(&mut self) -> bool {
        self.looks = self.looks.saturating_add(1);
        false
    }
}
