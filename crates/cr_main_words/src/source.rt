// Where the file comes from.
ghost use Rattle.std.specs.Prelude.{◌≡◌, ◌↔◌, ◌⊎◌, ◌++◌, List, ℕ, [], Err, IfOk, IsTrue, MatchOption, codes};
ghost use Rattle.cr_main_words.specs.Names.{EndsFolder, HasLastPart, IsGenerated, IsMade, IsNoName, IsSource};
ghost use Rattle.cr_main_words.specs.declared.source.Source.{Source};

use crate::command::WordFault;
use crate::numbers::number_of;
use std::alloc::Global;

/// Where the file comes from.
#[derive(Debug, Drop)]
pub enum Source {
    /// A file of this name.
    Named(String),
    /// The generated program of this number with so many items.
    Made(u32, u32),
}

/// What a word asks for as the file.
pub fn source_of(alloc: Global, word: &str) -> Result<Source, WordFault>
    ensures source { IfOk result (IsSource word.now) }
    ensures usage { result ≡ Err WordFault.Usage → (source : Source) → IsSource word.now source → ⊥ }
{
    match word.strip_prefix("gen:") {
        Some(rest) => match made_of(rest) {
            Some((number, items)) => Ok(Source::Made(number, items)),
            None => Err(WordFault::Usage),
        },
        None => named(alloc, word),
    }
}

// NUMBER:ITEMS.
fn made_of(rest: &str) -> Option<(u32, u32)>
    ensures { MatchOption result ((number items : ℕ) → IsGenerated (codes "gen:" ++ rest.now) number items → ⊥) (λ made. IsGenerated (codes "gen:" ++ rest.now) made.0 made.1) }
{
    let (number, items) = rest.split_once(':')?;
    let number = number_of(number, 0, 2_147_483_647)?;
    let items = number_of(items, 1, 10_000)?;
    Some((number as u32, items as u32))
}

fn named(alloc: Global, word: &str) -> Result<Source, WordFault>
    requires { IsMade word.now → ⊥ }
    ensures source { IfOk result (IsSource word.now) }
    ensures usage { result ≡ Err WordFault.Usage → IsNoName word.now }
{
    if has_no_part(word.as_bytes()) {
        return Err(WordFault::Usage);
    }
    match String::from_str(alloc, word) {
        Ok(name) => Ok(Source::Named(name)),
        Err(_) => Err(WordFault::NoMemory),
    }
}

// Whether no file is named by the part after the last `/`.
fn has_no_part(word: &[u8]) -> bool
    ensures { IsTrue result ↔ (HasLastPart word.now [] ⊎ HasLastPart word.now (codes ".") ⊎ HasLastPart word.now (codes "..")) }
{
    has_last_part(word, b"") || has_last_part(word, b".") || has_last_part(word, b"..")
}

// Whether the part after the last `/` is this one.
fn has_last_part(name: &[u8], part: &[u8]) -> bool
    ensures { IsTrue result ↔ HasLastPart name.now part.now }
{
    match front_of(name, part) {
        Some(front) => ends_folder(front),
        None => false,
    }
}

fn ends_folder(front: &[u8]) -> bool
    ensures { IsTrue result ↔ EndsFolder front.now }
{
    match front_of(front, b"/") {
        Some(_) => true,
        None => is_nothing(front),
    }
}

// What stands before the part at the end.
fn front_of<'a>(name: &'a [u8], part: &[u8]) -> Option<&'a [u8]>
    ensures { MatchOption result ((front : List ℕ) → name.now ≡ front ++ part.now → ⊥) (λ x. name.now ≡ x.now ++ part.now) }
{
    name.strip_suffix(part)
}

fn is_nothing(text: &[u8]) -> bool
    ensures { IsTrue result ↔ (text.now ≡ []) }
{
    text.is_empty()
}
