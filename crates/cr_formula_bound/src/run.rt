// What is asked of a run.
ghost use Rattle.std.specs.Prelude.{◌≡◌, ◌↔◌, IsTrue};
ghost use Rattle.cr_formula_bound.specs.Values.{EndsBy, PrintsBy, SameBy, StandsIn};

use cr_lawful::Ended;
use memchr::memmem;

/// Whether bytes stand in others as an unbroken run.
fn holds_run(text: &[u8], all: &[u8]) -> bool
    ensures { IsTrue result ↔ StandsIn text.now all.now }
{
    memmem::find(all, text).is_some()
}

/// Whether the run ended, and printed these bytes.
pub(crate) fn prints(text: &[u8], end: &Option<Ended>) -> bool
    ensures { IsTrue result ↔ PrintsBy text.now end.now }
{
    match end {
        Some(end) => holds_run(text, end.output.as_slice()),
        None => false,
    }
}

/// Whether the run ended with this status.
pub(crate) fn ends(status: u8, end: &Option<Ended>) -> bool
    ensures { IsTrue result ↔ EndsBy status end.now }
{
    match end {
        Some(end) => end.status == status,
        None => false,
    }
}

/// Whether the run ended as the input's did.
pub(crate) fn is_same(end: &Option<Ended>, input: &Ended) -> bool
    ensures { IsTrue result ↔ SameBy end.now input.now }
{
    match end {
        Some(end) => is_alike(end, input),
        None => false,
    }
}

fn is_alike(one: &Ended, other: &Ended) -> bool
    ensures { IsTrue result ↔ ((one.now.status ≡ other.now.status) × (one.now.output ≡ other.now.output)) }
{
    one.status == other.status && one.output.as_slice() == other.output.as_slice()
}
