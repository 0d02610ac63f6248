// Why a run doesn't begin.
ghost use Rattle.std.specs.Prelude.{◌≡◌, ◌↔◌, IsTrue, MatchOption};
ghost use Rattle.cr_around.specs.Refusals.{Answers, IsChanged, IsLabel, IsMissing, IsNoFile, IsNoPlace, IsOfOtherLabel, IsOfOtherOrder, IsOfOtherTest, IsOther, IsShort, IsSumOf, IsUnknown, IsUnwritable, LacksNew, Refuses, site_at};
ghost use Rattle.cr_around.specs.declared.facts.Kind.{Kind};

use crate::facts::{Begun, Ending, Facts, Kind, Site};

/// A file may have so many bytes at least: what a run may want to write.
const WANTED: u64 = 16_777_216;

/// Why a run doesn't begin. Nothing was changed then.
#[derive(Clone, Copy, Debug, PartialEq, Eq)]
pub enum Refusal {
    /// The file is none, but this.
    NoFile(Kind),
    /// The file can't be written.
    Unwritable,
    /// No new file can be made beside it, and its copy or its log isn't there or can't be written.
    NoNew,
    /// Where a file of this name is to stand, something else does.
    NoPlace(Ending, Kind),
    /// A file may have at most so many bytes.
    Short(u64),
    /// The journal was begun by no run that is known.
    Unknown,
    /// The journal was begun with another test.
    OtherTest,
    /// The journal was begun with the law of any order, or without.
    OtherOrder,
    /// The journal was begun with another label that is to be reached, or with none, or this run has none.
    OtherLabel,
    /// The file holds neither its copy's bytes nor the journal's result.
    Changed,
}

/// The first row that holds of the facts, of a run with this test, this law and this label.
pub fn refusal_of(
    facts: &Facts,
    test: &str,
    any_order: bool,
    reached: &Option<String>,
) -> Option<Refusal>
    ensures { Refuses facts.now test.now any_order reached.now result }
{
    no_file(facts)
        .or(unwritable(facts))
        .or(no_new(facts))
        .or(no_place(facts, Ending::Copy))
        .or(no_place(facts, Ending::Log))
        .or(no_place(facts, Ending::Best))
        .or(no_place(facts, Ending::Journal))
        .or(no_place(facts, Ending::JournalWords))
        .or(short(facts))
        .or(unknown(facts))
        .or(other_test(facts, test))
        .or(other_order(facts, any_order))
        .or(other_label(facts, reached))
        .or(changed(facts))
}

// What stands there, where it is no plain file.
fn other_kind(site: Site) -> Option<Kind>
    ensures { MatchOption result ((kind : Kind) → IsOther site kind → ⊥) (IsOther site) }
{
    match site.kind {
        None | Some(Kind::Plain) => None,
        Some(kind) => Some(kind),
    }
}

// Whether no file is there that can be written.
fn is_missing(site: Site) -> bool
    ensures { IsTrue result ↔ IsMissing site }
{
    site.kind.is_none() || !site.is_writable
}

fn no_file(facts: &Facts) -> Option<Refusal>
    ensures { Answers (IsNoFile facts.now) result }
{
    match other_kind(facts.file) {
        Some(kind) => Some(Refusal::NoFile(kind)),
        None => None,
    }
}

fn unwritable(facts: &Facts) -> Option<Refusal>
    ensures { Answers (IsUnwritable facts.now) result }
{
    if facts.file.kind.is_some() && !facts.file.is_writable {
        Some(Refusal::Unwritable)
    } else {
        None
    }
}

fn no_new(facts: &Facts) -> Option<Refusal>
    ensures { Answers (LacksNew facts.now) result }
{
    if !facts.takes_new && (is_missing(facts.copy) || is_missing(facts.log)) {
        Some(Refusal::NoNew)
    } else {
        None
    }
}

fn site_at(facts: &Facts, ending: Ending) -> Site
    ensures { result ≡ site_at facts.now ending }
{
    match ending {
        Ending::Copy => facts.copy,
        Ending::Log => facts.log,
        Ending::Best => facts.best,
        Ending::Journal => facts.journal,
        Ending::JournalWords => facts.journal_words,
    }
}

fn no_place(facts: &Facts, ending: Ending) -> Option<Refusal>
    ensures { Answers (IsNoPlace facts.now ending) result }
{
    match other_kind(site_at(facts, ending)) {
        Some(kind) => Some(Refusal::NoPlace(ending, kind)),
        None => None,
    }
}

fn short(facts: &Facts) -> Option<Refusal>
    ensures { Answers (IsShort facts.now) result }
{
    match facts.most {
        Some(most) if most < WANTED => Some(Refusal::Short(most)),
        _ => None,
    }
}

fn unknown(facts: &Facts) -> Option<Refusal>
    ensures { Answers (IsUnknown facts.now) result }
{
    match &facts.begun {
        Begun::Unknown => Some(Refusal::Unknown),
        Begun::Nothing | Begun::With(_) => None,
    }
}

fn other_test(facts: &Facts, test: &str) -> Option<Refusal>
    ensures { Answers (IsOfOtherTest facts.now test.now) result }
{
    match &facts.begun {
        Begun::With(words) if !is_text(words.test.as_str(), test) => Some(Refusal::OtherTest),
        Begun::Nothing | Begun::Unknown | Begun::With(_) => None,
    }
}

fn other_order(facts: &Facts, any_order: bool) -> Option<Refusal>
    ensures { Answers (IsOfOtherOrder facts.now any_order) result }
{
    match &facts.begun {
        Begun::With(words) if !is_law(words.any_order, any_order) => Some(Refusal::OtherOrder),
        Begun::Nothing | Begun::Unknown | Begun::With(_) => None,
    }
}

fn other_label(facts: &Facts, reached: &Option<String>) -> Option<Refusal>
    ensures { Answers (IsOfOtherLabel facts.now reached.now) result }
{
    match &facts.begun {
        Begun::With(words) if !is_label(&words.reached, reached) => Some(Refusal::OtherLabel),
        Begun::Nothing | Begun::Unknown | Begun::With(_) => None,
    }
}

fn changed(facts: &Facts) -> Option<Refusal>
    ensures { Answers (IsChanged facts.now) result }
{
    match (&facts.begun, &facts.file_sum, &facts.copy_sum) {
        (Begun::With(words), Some(file), Some(copy))
            if !is_text(file.as_str(), copy.as_str()) && !is_same(&words.result, file) => {
            Some(Refusal::Changed)
        }
        _ => None,
    }
}

fn is_same(noted: &Option<String>, file: &String) -> bool
    ensures { IsTrue result ↔ IsSumOf noted.now file.now }
{
    match noted {
        Some(noted) => noted == file,
        None => false,
    }
}

fn is_label(one: &Option<String>, other: &Option<String>) -> bool
    ensures { IsTrue result ↔ IsLabel one.now other.now }
{
    match (one, other) {
        (None, None) => true,
        (Some(one), Some(other)) => one == other,
        (None, Some(_)) | (Some(_), None) => false,
    }
}

fn is_text(one: &str, other: &str) -> bool
    ensures { IsTrue result ↔ (one.now ≡ other.now) }
{
    one == other
}

fn is_law(one: bool, other: bool) -> bool
    ensures { IsTrue result ↔ (one ≡ other) }
{
    one == other
}
