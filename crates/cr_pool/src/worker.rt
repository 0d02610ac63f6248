// What one worker does in an epoch.
ghost use Rattle.std.specs.Prelude.{◌≡◌, ◌≢◌, ◌<◌, ◌++◌, ◌∷◌, [], ℕ, true, false, Some, None};
ghost use Rattle.cr_core.specs.Row.{with_last};
ghost use Rattle.cr_core.specs.Machine.{MayClaim, MayHit, claimed, settled};
ghost use Rattle.cr_core.specs.declared.marks.Mark.TheVariants.{Open, Hit, Skipped};
ghost use Rattle.cr_claims.specs.Pass.{view_of, len_of, IsOf};
ghost use Rattle.cr_claims.specs.Plays.{RisesAbove};
ghost use Rattle.cr_pool.specs.Epoch.{BeginsRight};
ghost use Rattle.cr_pool.specs.Jobs.{IsPlaced, trying};
ghost use Rattle.cr_pool.specs.Sizes.{HasSize};
ghost use Rattle.cr_pool.specs.Tally.{tally_of};
ghost use Rattle.cr_pool.specs.Works.{Works, HitIsSo, IsBlank, NotesAreSo, NotesTell};

use crate::job::Job;
use crate::trial::{Trial, try_position};
use crate::verdict::Verdict;
use crate::verdicts::Verdicts;
use cr_claims::{Claims, Pass};
use cr_core::{HitKind, Settle};
use cr_cursor::{Law, Passes};
use cr_outside::{Judge, Question};
use std::alloc::Global;

/// Claims the next position; at the end, or above the least hit, the pass leaves instead.
fn next(claims: &Claims, len: u64, pass: &mut Pass, done: Settle) -> Option<u64>
    requires of { IsOf claims.now pass.old }
    requires len { len ≡ len_of claims.now }
    requires in_force { (view_of pass.old).left ≡ false }
    requires may { MayClaim len (view_of pass.old).read done (view_of pass.old).own }
    ensures stays { IsOf claims.now pass.new }
    ensures claimed { (at : ℕ) → result ≡ Some at → (at < len) × ((view_of pass.new).own ≡ claimed at done (view_of pass.old).own) × ((view_of pass.new).left ≡ false) × RisesAbove at (view_of pass.old).own }
    ensures left { result ≡ None → ((view_of pass.new).left ≡ true)
        × ((at : ℕ) × ((view_of pass.new).own ≡ settled done (view_of pass.old).own ++ record { position = at; mark = Skipped } ∷ [])) }
{
    let at = claims.claim(pass, done);
    if at >= len {
        claims.leave(pass, Settle::Skipped);
        return None;
    }
    if claims.look(pass) {
        claims.leave(pass, Settle::Skipped);
        return None;
    }
    Some(at)
}

/// The claimed position is a hit. Each position claimed from then on lies above it, so the pass leaves at the next one.
fn strike(claims: &Claims, pass: &mut Pass, kind: HitKind)
    requires of { IsOf claims.now pass.old }
    requires in_force { (view_of pass.old).left ≡ false }
    requires may { MayHit (len_of claims.now) (view_of pass.old).own }
    ensures stays { IsOf claims.now pass.new }
    ensures left { (view_of pass.new).left ≡ true }
    ensures own { (at : ℕ) × ((view_of pass.new).own ≡ with_last (Hit kind) (view_of pass.old).own ++ record { position = at; mark = Skipped } ∷ []) }
{
    claims.hit(pass, kind);
    claims.claim(pass, Settle::Nothing);
    claims.leave(pass, Settle::Skipped);
}

/// Tries positions until the pass leaves, and says which one was a hit, if one was. The verdicts that it comes to are noted, each at
/// its position.
pub fn drive<P: Passes, L: Law, Q: Question, J: Judge>(
    alloc: Global,
    claims: &Claims,
    job: &Job<P, L, Q>,
    verdicts: &Verdicts,
    pass: &mut Pass,
    judge: &mut J,
    variant: &mut Vec<u8>,
    notes: &mut Vec<Option<Verdict>>,
) -> Option<(u64, HitKind)>
    requires placed { IsPlaced P.Passes job.now }
    requires sized { HasSize job.now.file.now job.now.size }
    requires len { job.now.len ≡ len_of claims.now }
    requires of { IsOf claims.now pass.old }
    requires fresh { ((view_of pass.old).own ≡ []) × ((view_of pass.old).left ≡ false) }
    requires right { BeginsRight (trying P.Passes L.Law Q.Question J.Judge job.now judge.old verdicts.now) }
    requires blank { IsBlank job.now.len notes.old.items }
    ensures stays { IsOf claims.now pass.new }
    ensures left { ((view_of pass.new).left ≡ true) × ((view_of pass.new).own ≢ []) }
    ensures works { Works (trying P.Passes L.Law Q.Question J.Judge job.now judge.old verdicts.now) (tally_of J.Judge judge.old) (tally_of J.Judge judge.new) result (view_of pass.new).own }
    ensures hit { HitIsSo (trying P.Passes L.Law Q.Question J.Judge job.now judge.old verdicts.now) (tally_of J.Judge judge.old) (tally_of J.Judge judge.new) variant.new.items result }
    ensures notes { NotesAreSo (trying P.Passes L.Law Q.Question J.Judge job.now judge.old verdicts.now) (tally_of J.Judge judge.old) (tally_of J.Judge judge.new) notes.new.items }
    ensures tell { NotesTell (trying P.Passes L.Law Q.Question J.Judge job.now judge.old verdicts.now) (view_of pass.new).own notes.new.items }
    ensures key { J.key judge.new ≡ J.key judge.old }
    ensures silent { Q.asks job.now.question.now ≡ false → judge.new ≡ judge.old }
{
    let mut done = Settle::Nothing;
    while let Some(at) = next(claims, job.len, pass, done) {
        let note = &mut notes[at as usize];
        match try_position(alloc, claims, job, verdicts, at, pass, judge, variant, note) {
            Trial::Rejected => done = Settle::No,
            Trial::Stopped => {
                claims.leave(pass, Settle::Skipped);
                return None;
            }
            Trial::Hit(kind) => {
                strike(claims, pass, kind);
                return Some((at, kind));
            }
        }
    }
    None
}
