// What a run comes to where its order isn't fixed.
ghost use Rattle.std.specs.Prelude.{◌≡◌};
ghost use Rattle.cr_order.specs.Orders.{ended_in_order};

use cr_meaning::Run;

/// The number of the case: what a program does depends on the order of its operands.
pub const LEFT_BY_ORDER: u8 = 8;

/// A run that ended leaves the profile where the operands of a node or a list see one another; another comes to what it came to.
pub fn ended_in_order(run: Run, loose: Option<u32>) -> Run
    ensures { result ≡ ended_in_order run loose }
{
    match (run, loose) {
        (Run::Ended { .. }, Some(node)) => Run::Left(LEFT_BY_ORDER, node),
        (run, _) => run,
    }
}
