// The stop that a law gets.
ghost use Rattle.std.specs.Prelude.{◌≡◌, ◌<◌, ◌/◌, ◌-◌, ◌^◌, true, ℕ, min};
ghost use Rattle.cr_core.specs.Row.{last_position, last_mark};
ghost use Rattle.cr_core.specs.declared.marks.Mark.TheVariants.{Open};
ghost use Rattle.cr_claims.specs.declared.view.View.{View};
ghost use Rattle.cr_claims.specs.Pass.{view_of, IsOf, steady};
ghost use Rattle.atomic_table.specs.declared.shared.Seat.{Seat};

use cr_claims::{Claims, Pass, Seat, View};
use cr_cursor::Stop;

/// Gives up a ruling once a lower position is a hit.
#[derive(Drop)]
pub struct Looker<'a> {
    pub claims: &'a Claims,
    pub pass: &'a mut Pass,
    /// Whether a look has answered so.
    pub raised: bool,
    pub ghost ours: { IsOf claims.now pass.now },
    pub ghost open: { last_mark (view_of pass.now).own ≡ Open },
    pub ghost seen: { raised ≡ true → (view_of pass.now).read / 4 < last_position (view_of pass.now).own },
}

impl<'a> Stop for Looker<'a> {
    type Held = (Seat<u8, View>, u64);

    ghost raised = { λ l. l.raised };

    ghost held = { λ l. (steady l.pass.now, l.pass.ghost_name) };

    ghost looks = { λ l. min (view_of l.pass.now).looks (2 ^ 64 - 1) };

    fn stop(&mut self) -> bool {
        if self.claims.look(self.pass) {
            self.raised = true;
            return true;
        }
        false
    }
}
