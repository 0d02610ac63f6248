// The trial of one position.
ghost use Rattle.std.specs.Prelude.{◌≡◌, ◌<◌, ◌∷◌, [], ℕ, List, None, Ok, Some, false, length, OnOk};
ghost use Rattle.cr_tokens.specs.declared.token.Tokens.{Tokens as SpecTokens};
ghost use Rattle.cr_tokens.specs.Tokens.{Tokenizes};
ghost use Rattle.cr_cursor.specs.Variants.{Offer};
ghost use Rattle.cr_pool.specs.Sizes.{HasSize, IsSmaller};
ghost use Rattle.cr_pool.specs.declared.verdict.Verdict.{Verdict};
ghost use Rattle.cr_pool.specs.Trials.{IsLarge};
ghost use Rattle.cr_reduce.specs.Bench.{judging_of};
ghost use Rattle.cr_reduce.specs.Reduction.{cursors_of};
ghost use Rattle.cr_standing_workers.specs.Serving.{Serves};
ghost use Rattle.cr_standing_workers.specs.Told.{AtPosition, IsAbout, IsCandidate, TriedAt, WeighedAt, WeighedSays, found_of, searching_by, tried_of, weighed_of};

use crate::memory::Memory;
use crate::orders::{Shared, Subject};
use crate::task::Task;
use cr_cursor::{Law, Passes, Ruling, Stop, cursor_at};
use cr_outside::{Answer, Judge, NoMemory, Question};
use cr_pool::{Verdict, read_and_measure};
use cr_tokens::Tokens;
use std::alloc::Global;
use std::sync::{Mutex, Wait};

/// What is known of a variant before anything is asked about it.
pub enum Weighed {
    No,
    Yes,
    /// It is smaller and lawful.
    Lawful,
    /// The stop asked to give up.
    Stopped,
    NoMemory,
}

/// What a trial came to.
pub enum Tried {
    No,
    Yes,
    /// The stop asked to give up.
    Stopped,
    /// The test failed.
    Failed,
    NoMemory,
}

/// What the question's answer says of a variant that is lawful.
enum Found {
    Verdict(Verdict),
    Failed,
    NoMemory,
}

/// Makes the variant at a position.
pub fn make_variant<P: Passes>(
    passes: &P,
    file: &Shared<P::Prep>,
    position: u64,
    variant: &mut Vec<u8>,
) -> Result<(), NoMemory>
    requires below { position < length (cursors_of (P.offer passes.now file.now.prep file.now.bytes.items)) }
    ensures { OnOk result (AtPosition (P.offer passes.now file.now.prep file.now.bytes.items) position (λ bytes. variant.new.items ≡ bytes)) }
{
    let cursor = cursor_at(passes, &file.prep, position);
    passes.variant(&file.prep, &file.bytes, cursor, variant)
}

/// The tokens of a variant that is below the limit.
fn read_below(alloc: Global, variant: &[u8], limit: u64) -> Result<Option<Tokens>, NoMemory>
    ensures below { (tokens : SpecTokens) → result ≡ Ok (Some tokens) → Tokenizes variant.now tokens.list.items × ((n : ℕ) × HasSize variant.now n × (n < limit)) }
    ensures large { result ≡ Ok None → IsLarge variant.now limit }
{
    let Some(found) = read_and_measure(alloc, variant)? else {
        return Ok(None);
    };
    if found.size >= limit {
        return Ok(None);
    }
    Ok(Some(found.tokens))
}

fn found_by(answer: Answer) -> Found
    ensures { result ≡ found_of answer }
{
    match answer {
        Answer::Yes => Found::Verdict(Verdict::Yes),
        Answer::No => Found::Verdict(Verdict::No),
        Answer::Failed => Found::Failed,
        Answer::NoMemory => Found::NoMemory,
    }
}

fn tried_by(found: Found) -> Tried
    ensures { result ≡ tried_of found }
{
    match found {
        Found::Verdict(Verdict::Yes) => Tried::Yes,
        Found::Verdict(Verdict::Unlawful | Verdict::No) => Tried::No,
        Found::Failed => Tried::Failed,
        Found::NoMemory => Tried::NoMemory,
    }
}

fn weighed_by(verdict: Verdict) -> Weighed
    ensures { result ≡ weighed_of verdict }
{
    match verdict {
        Verdict::Yes => Weighed::Yes,
        Verdict::Unlawful | Verdict::No => Weighed::No,
    }
}

/// Remembers what was found, where it is a verdict.
fn remember<R: Wait, S: Subject<T>, T: Drop>(
    rt: &R,
    alloc: Global,
    memory: &Mutex<Memory<S, T>>,
    variant: &[u8],
    found: &Found,
)
    requires { (verdict : Verdict) → found.now ≡ Found.Verdict verdict → S.verdicts variant.now verdict }
{
    if let Found::Verdict(verdict) = found {
        memory.lock(rt).put(alloc, variant, *verdict);
    }
}

/// What is remembered of a smaller variant or, where nothing is, what the law says of it.
fn weigh_smaller<R: Wait, S: Subject<P::Prep>, P: Passes, L: Law, Q: Question, T: Stop>(
    rt: &R,
    alloc: Global,
    task: &Task<'_, P, L, Q>,
    memory: &Mutex<Memory<S, P::Prep>>,
    variant: &[u8],
    tokens: &Tokens,
    stop: &mut T,
) -> Weighed
    requires tokens { Tokenizes variant.now tokens.now.list.items }
    requires about { IsAbout (searching_by P.Passes L.Law Q.Question task.now S.told) (P.offer task.now.passes.now) S.orders S.replies S.verdicts }
    requires unraised { T.raised stop.old ≡ false }
    ensures { (file : List ℕ) → IsSmaller variant.now file → WeighedSays (searching_by P.Passes L.Law Q.Question task.now S.told) file variant.now result }
{
    let known = memory.lock(rt).find(variant);
    if let Some(verdict) = known {
        return weighed_by(verdict);
    }
    match task.law.rule_on_tokens(alloc, variant, tokens, stop) {
        Ruling::Lawful => Weighed::Lawful,
        Ruling::Unlawful(_) => {
            memory.lock(rt).put(alloc, variant, Verdict::Unlawful);
            Weighed::No
        }
        Ruling::Stopped => Weighed::Stopped,
        Ruling::NoMemory => Weighed::NoMemory,
    }
}

/// Weighs a variant of a file of this size: where it is smaller, and nothing is remembered of it, the law rules on it.
fn weigh_variant<R: Wait, S: Subject<P::Prep>, P: Passes, L: Law, Q: Question, T: Stop>(
    rt: &R,
    alloc: Global,
    task: &Task<'_, P, L, Q>,
    memory: &Mutex<Memory<S, P::Prep>>,
    variant: &[u8],
    size: u64,
    stop: &mut T,
) -> Weighed
    requires about { IsAbout (searching_by P.Passes L.Law Q.Question task.now S.told) (P.offer task.now.passes.now) S.orders S.replies S.verdicts }
    requires unraised { T.raised stop.old ≡ false }
    ensures { (file : List ℕ) → HasSize file size → WeighedSays (searching_by P.Passes L.Law Q.Question task.now S.told) file variant.now result }
{
    match read_below(alloc, variant, size) {
        Ok(Some(tokens)) => weigh_smaller(rt, alloc, task, memory, variant, &tokens, stop),
        Ok(None) => Weighed::No,
        Err(_) => Weighed::NoMemory,
    }
}

/// Makes the variant at a position of a file, one that may be ordered, and finds out what can be known without asking.
pub fn weigh<R: Wait, S: Subject<P::Prep>, P: Passes, L: Law, Q: Question, T: Stop>(
    rt: &R,
    alloc: Global,
    task: &Task<'_, P, L, Q>,
    memory: &Mutex<Memory<S, P::Prep>>,
    file: &Shared<P::Prep>,
    position: u64,
    variant: &mut Vec<u8>,
    stop: &mut T,
) -> Weighed
    requires about { IsAbout (searching_by P.Passes L.Law Q.Question task.now S.told) (P.offer task.now.passes.now) S.orders S.replies S.verdicts }
    requires is_open { S.orders file.now.prep file.now.bytes.items file.now.size position }
    requires unraised { T.raised stop.old ≡ false }
    ensures { WeighedAt (searching_by P.Passes L.Law Q.Question task.now S.told) S.replies
        file.now.bytes.items (P.offer task.now.passes.now file.now.prep file.now.bytes.items) position variant.new.items result }
{
    if make_variant(task.passes, file, position, variant).is_err() {
        return Weighed::NoMemory;
    }
    weigh_variant(rt, alloc, task, memory, variant, file.size, stop)
}

/// Asks the question about a lawful variant, and remembers the answer.
pub fn ask<R: Wait, S: Subject<P::Prep>, P: Passes, L: Law, Q: Question, J: Judge>(
    rt: &R,
    alloc: Global,
    task: &Task<'_, P, L, Q>,
    memory: &Mutex<Memory<S, P::Prep>>,
    judge: &mut J,
    variant: &[u8],
) -> Tried
    requires about { IsAbout (searching_by P.Passes L.Law Q.Question task.now S.told) (P.offer task.now.passes.now) S.orders S.replies S.verdicts }
    requires told { J.says (J.key judge.old) ≡ S.told }
    requires lawful { L.lawful task.now.law.now variant.now }
    ensures says { (file : List ℕ) (offer : Offer) (position : ℕ) → IsCandidate (searching_by P.Passes L.Law Q.Question task.now S.told) file offer position variant.now
        → TriedAt (searching_by P.Passes L.Law Q.Question task.now S.told) (judging_of J.Judge (judge.old ∷ [])) (judging_of J.Judge (judge.new ∷ [])) S.replies file offer position result }
    ensures serves { Serves J.Judge (Q.asks task.now.question.now) judge.old judge.new }
{
    let found = found_by(task.question.ask(alloc, judge, task.name, variant));
    remember(rt, alloc, memory, variant, &found);
    tried_by(found)
}

/// Tries the variant at a position of a file, one that may be ordered.
pub fn try_at<R: Wait, S: Subject<P::Prep>, P: Passes, L: Law, Q: Question, J: Judge, T: Stop>(
    rt: &R,
    alloc: Global,
    task: &Task<'_, P, L, Q>,
    memory: &Mutex<Memory<S, P::Prep>>,
    judge: &mut J,
    file: &Shared<P::Prep>,
    position: u64,
    variant: &mut Vec<u8>,
    stop: &mut T,
) -> Tried
    requires about { IsAbout (searching_by P.Passes L.Law Q.Question task.now S.told) (P.offer task.now.passes.now) S.orders S.replies S.verdicts }
    requires told { J.says (J.key judge.old) ≡ S.told }
    requires is_open { S.orders file.now.prep file.now.bytes.items file.now.size position }
    requires unraised { T.raised stop.old ≡ false }
    ensures says { TriedAt (searching_by P.Passes L.Law Q.Question task.now S.told) (judging_of J.Judge (judge.old ∷ [])) (judging_of J.Judge (judge.new ∷ [])) S.replies
        file.now.bytes.items (P.offer task.now.passes.now file.now.prep file.now.bytes.items) position result }
    ensures serves { Serves J.Judge (Q.asks task.now.question.now) judge.old judge.new }
{
    match weigh(rt, alloc, task, memory, file, position, variant, stop) {
        Weighed::No => Tried::No,
        Weighed::Yes => Tried::Yes,
        Weighed::Lawful => ask(rt, alloc, task, memory, judge, variant),
        Weighed::Stopped => Tried::Stopped,
        Weighed::NoMemory => Tried::NoMemory,
    }
}
