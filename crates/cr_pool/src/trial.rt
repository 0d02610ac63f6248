// The trial of one position.
ghost use Rattle.std.specs.Prelude.{◌≡◌, ◌<◌, ◌≤◌, ◌/◌, ◌+◌, ℕ, OnOk, false, None};
ghost use Rattle.cr_core.specs.Row.{last_position, last_mark};
ghost use Rattle.cr_core.specs.declared.marks.Mark.TheVariants.{Open};
ghost use Rattle.cr_core.specs.declared.marks.HitKind.{HitKind};
ghost use Rattle.cr_claims.specs.Pass.{view_of, IsOf};
ghost use Rattle.cr_cursor.specs.declared.law.Reason.{Reason};
ghost use Rattle.cr_tokens.specs.Tokens.{Tokenizes};
ghost use Rattle.cr_pool.specs.declared.verdict.Verdict.{Verdict};
ghost use Rattle.cr_pool.specs.Answers.{trial_by, trial_of, verdict_of};
ghost use Rattle.cr_pool.specs.Epoch.{BeginsRight, variant_at};
ghost use Rattle.cr_pool.specs.Jobs.{IsPlaced, offer_of, trying};
ghost use Rattle.cr_pool.specs.Kept.{IsDecided, IsKept};
ghost use Rattle.cr_pool.specs.Sizes.{HasSize};
ghost use Rattle.cr_pool.specs.Tally.{tally_of};
ghost use Rattle.cr_pool.specs.Trials.{IsGood, IsLarge};
ghost use Rattle.cr_pool.specs.Works.{Tries, MayNoteNothing, NoteIsSo, RejectsAt, HitSays, IsSameList};

use crate::job::Job;
use crate::looker::Looker;
use crate::measuring::read_and_measure;
use crate::verdict::Verdict;
use crate::verdicts::Verdicts;
use cr_claims::{Claims, Pass};
use cr_core::HitKind;
use cr_cursor::{Law, Passes, Ruling, cursor_at};
use cr_outside::{Answer, Judge, NoMemory, Question};
use cr_tokens::Tokens;
use std::alloc::Global;

/// What the trial of a position came to.
pub enum Trial {
    Rejected,
    /// A lower position is a hit, so it was given up.
    Stopped,
    Hit(HitKind),
}

/// What was found of a variant before anything is asked about it.
enum Screened {
    /// It is smaller and lawful, and no verdict on it is kept.
    Good,
    /// It isn't smaller.
    Large,
    /// It is smaller, and this verdict on it is kept, or is the law's.
    Decided(Verdict),
    Stopped,
    NoMemory,
}

/// Makes the variant at a position of the epoch.
pub fn make<P: Passes, L: Law, Q: Question>(
    job: &Job<P, L, Q>,
    at: u64,
    variant: &mut Vec<u8>,
) -> Result<(), NoMemory>
    requires within { at < job.now.len }
    requires placed { IsPlaced P.Passes job.now }
    ensures { OnOk result (variant.new.items ≡ variant_at (offer_of P.Passes job.now) (job.now.start + at)) }
{
    let cursor = cursor_at(job.passes, job.prep, job.start + at);
    job.passes.variant(job.prep, job.file, cursor, variant)
}

/// Rules on a file, and gives up once a lower position than the claimed one is a hit.
fn rule_on<L: Law>(
    alloc: Global,
    claims: &Claims,
    law: &L,
    file: &[u8],
    tokens: &Tokens,
    pass: &mut Pass,
) -> Ruling
    requires tokens { Tokenizes file.now tokens.now.list.items }
    requires of { IsOf claims.now pass.old }
    requires is_open { last_mark (view_of pass.old).own ≡ Open }
    ensures stays { IsOf claims.now pass.new }
    ensures same { IsSameList pass.old pass.new }
    ensures lawful { result ≡ Ruling.Lawful → L.lawful law.now file.now }
    ensures unlawful { (reason : Reason) → result ≡ Ruling.Unlawful reason → L.lawful law.now file.now → ⊥ }
    ensures stopped { result ≡ Ruling.Stopped → (view_of pass.new).read / 4 < last_position (view_of pass.new).own }
{
    let mut looker = Looker {
        claims,
        pass,
        raised: false,
    };
    law.rule_on_tokens(alloc, file, tokens, &mut looker)
}

/// Measures a variant. Where it is below the limit and no verdict on it is kept, the law rules on it.
fn screen<L: Law>(
    alloc: Global,
    claims: &Claims,
    law: &L,
    verdicts: &Verdicts,
    variant: &[u8],
    limit: u64,
    pass: &mut Pass,
) -> Screened
    requires of { IsOf claims.now pass.old }
    requires is_open { last_mark (view_of pass.old).own ≡ Open }
    ensures stays { IsOf claims.now pass.new }
    ensures same { IsSameList pass.old pass.new }
    ensures good { result ≡ Screened.Good → (n : ℕ) × IsGood (L.lawful law.now) variant.now limit n }
    ensures unkept { result ≡ Screened.Good → IsKept verdicts.now variant.now → ⊥ }
    ensures large { result ≡ Screened.Large → IsLarge variant.now limit }
    ensures decided { (verdict : Verdict) → result ≡ Screened.Decided verdict → IsDecided (L.lawful law.now) verdicts.now variant.now limit verdict }
    ensures stopped { result ≡ Screened.Stopped → (view_of pass.new).read / 4 < last_position (view_of pass.new).own }
{
    let found = match read_and_measure(alloc, variant) {
        Ok(Some(found)) => found,
        Ok(None) => return Screened::Large,
        Err(_) => return Screened::NoMemory,
    };
    if found.size >= limit {
        return Screened::Large;
    }
    if let Some(verdict) = verdicts.find(variant) {
        return Screened::Decided(verdict);
    }
    match rule_on(alloc, claims, law, variant, &found.tokens, pass) {
        Ruling::Lawful => Screened::Good,
        Ruling::Unlawful(_) => Screened::Decided(Verdict::Unlawful),
        Ruling::Stopped => Screened::Stopped,
        Ruling::NoMemory => Screened::NoMemory,
    }
}

fn came_of(answer: Answer) -> Trial
    ensures { result ≡ trial_of answer }
{
    match answer {
        Answer::Yes => Trial::Hit(HitKind::Yes),
        Answer::No => Trial::Rejected,
        Answer::Failed => Trial::Hit(HitKind::Failed),
        Answer::NoMemory => Trial::Hit(HitKind::Starved),
    }
}

fn said_by(answer: Answer) -> Option<Verdict>
    ensures { result ≡ verdict_of answer }
{
    match answer {
        Answer::Yes => Some(Verdict::Yes),
        Answer::No => Some(Verdict::No),
        Answer::Failed | Answer::NoMemory => None,
    }
}

fn decided_by(verdict: Verdict) -> Trial
    ensures { result ≡ trial_by verdict }
{
    match verdict {
        Verdict::Yes => Trial::Hit(HitKind::Yes),
        Verdict::Unlawful | Verdict::No => Trial::Rejected,
    }
}

/// Tries the claimed position, and notes the verdict on its variant if it comes to one. The variant is made and measured. Where it
/// is smaller and no verdict on it is kept, the law rules on it, and where it is lawful too, the question is asked.
pub fn try_position<P: Passes, L: Law, Q: Question, J: Judge>(
    alloc: Global,
    claims: &Claims,
    job: &Job<P, L, Q>,
    verdicts: &Verdicts,
    at: u64,
    pass: &mut Pass,
    judge: &mut J,
    variant: &mut Vec<u8>,
    note: &mut Option<Verdict>,
) -> Trial
    requires within { at < job.now.len }
    requires placed { IsPlaced P.Passes job.now }
    requires sized { HasSize job.now.file.now job.now.size }
    requires right { BeginsRight (trying P.Passes L.Law Q.Question J.Judge job.now judge.old verdicts.now) }
    requires of { IsOf claims.now pass.old }
    requires is_open { last_mark (view_of pass.old).own ≡ Open }
    ensures stays { IsOf claims.now pass.new }
    ensures same { IsSameList pass.old pass.new }
    ensures tries { Tries (trying P.Passes L.Law Q.Question J.Judge job.now judge.old verdicts.now) (tally_of J.Judge judge.old) (tally_of J.Judge judge.new) at }
    ensures rejected { result ≡ Trial.Rejected → RejectsAt (trying P.Passes L.Law Q.Question J.Judge job.now judge.old verdicts.now) (tally_of J.Judge judge.old) (tally_of J.Judge judge.new) at }
    ensures stopped { result ≡ Trial.Stopped → (view_of pass.new).read / 4 < last_position (view_of pass.new).own }
    ensures hit { (kind : HitKind) → result ≡ Trial.Hit kind → HitSays (trying P.Passes L.Law Q.Question J.Judge job.now judge.old verdicts.now) (tally_of J.Judge judge.old) (tally_of J.Judge judge.new) variant.new.items at kind }
    ensures noted { NoteIsSo (trying P.Passes L.Law Q.Question J.Judge job.now judge.old verdicts.now) (tally_of J.Judge judge.old) (tally_of J.Judge judge.new) at note.new }
    ensures unnoted { note.new ≡ None → MayNoteNothing (trying P.Passes L.Law Q.Question J.Judge job.now judge.old verdicts.now) at result }
    ensures key { J.key judge.new ≡ J.key judge.old }
    ensures silent { Q.asks job.now.question.now ≡ false → judge.new ≡ judge.old }
{
    *note = None;
    if make(job, at, variant).is_err() {
        return Trial::Hit(HitKind::Starved);
    }
    match screen(alloc, claims, job.law, verdicts, variant, job.size, pass) {
        Screened::Good => {
            let answer = job.question.ask(alloc, judge, job.name, variant);
            *note = said_by(answer);
            came_of(answer)
        }
        Screened::Large => Trial::Rejected,
        Screened::Decided(verdict) => {
            *note = Some(verdict);
            decided_by(verdict)
        }
        Screened::Stopped => Trial::Stopped,
        Screened::NoMemory => Trial::Hit(HitKind::Starved),
    }
}
