ghost use Rattle.std.specs.Prelude.{◌≡◌};
ghost use Rattle.cr_gen.specs.Program.{next_state, drawn};

/// The linear congruence that chooses operators and constants.
#[derive(Drop)]
pub struct Draws {
    pub state: u32,
}

impl Draws {
    /// The next draw, below 2^15.
    pub fn draw(&mut self) -> u32
        ensures state { self.new.state ≡ next_state self.old.state }
        ensures drawn { result ≡ drawn self.new.state }
    {
        let state = (u64::from(self.state) * 1_103_515_245 + 12_345) % 0x8000_0000;
        self.state = state as u32;
        self.state / 65_536
    }
}
