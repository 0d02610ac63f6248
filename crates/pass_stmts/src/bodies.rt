// Which parts of a statement are its bodies.
ghost use Rattle.std.specs.Prelude.{◌≡◌};
ghost use Rattle.pass_stmts.specs.Bodies.{bodies_by, bodies_of, last_of};

use cr_syntax::Kind;
use pass_levels::{behind_first, first_of};

/// Which parts of a statement are the statements that it governs (C11 6.8).
#[derive(Clone, Copy, PartialEq, Eq)]
pub enum Bodies {
    /// It governs none.
    NoBody,
    /// Those behind what an `if` asks: one, and with `else` a second.
    Branches,
    /// The first, of a `do`.
    First,
    /// The last, of a `switch` and of the other loops.
    Last,
    /// The last, behind a label.
    BehindLabel,
}

/// Which parts of a node of this kind are bodies.
pub fn bodies_by(kind: Kind) -> Bodies
    ensures { result ≡ bodies_by kind }
{
    match kind {
        Kind::If => Bodies::Branches,
        Kind::Do => Bodies::First,
        Kind::Switch | Kind::While | Kind::For => Bodies::Last,
        Kind::Label | Kind::Case | Kind::Default => Bodies::BehindLabel,
        _ => Bodies::NoBody,
    }
}

/// The bodies of a node, among its parts.
pub fn bodies_of(bodies: Bodies, parts: &[u32]) -> &[u32]
    ensures { result.now ≡ bodies_of bodies parts.now }
{
    match bodies {
        Bodies::NoBody => &[],
        Bodies::Branches => behind_first(parts),
        Bodies::First => first_of(parts),
        Bodies::Last | Bodies::BehindLabel => last_of(parts),
    }
}

fn last_of(parts: &[u32]) -> &[u32]
    ensures { result.now ≡ last_of parts.now }
{
    &parts[parts.len().saturating_sub(1)..]
}
