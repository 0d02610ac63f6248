// The words of a formula: the spellings of its tokens.
ghost use Rattle.std.specs.Prelude.{◌≡◌, ◌∷◌, [], ℕ, List, IfOk, MatchOption, codes, slice_index, slice_range};
ghost use Rattle.cr_tokens.specs.Runs.{AllWithin, IsWithin, spellings};
ghost use Rattle.cr_formula.specs.Forms.{name_of};
ghost use Rattle.cr_formula.specs.declared.words.Head.{Head};

use cr_rows::Row;
use cr_tokens::Token;
use std::alloc::{AllocError, Global};

/// Which word a formula begins with.
#[derive(Clone, Copy, Debug, PartialEq, Eq, Drop)]
pub(crate) enum Head {
    Has,
    Prints,
    Ends,
    Same,
    And,
    Or,
    Not,
}

/// The tokens' spellings. The error is want of memory.
pub(crate) fn words_of(
    alloc: Global,
    text: &[u8],
    tokens: &[Token],
) -> Result<Vec<Row<u8>>, AllocError>
    requires { AllWithin text.now tokens.now }
    ensures { IfOk result (λ words. words.items ≡ spellings text.now tokens.now) }
{
    let mut words = Vec::new(alloc);
    for token in tokens {
        words.push(word_of(alloc, text, token)?)?;
    }
    Ok(words)
}

fn word_of(alloc: Global, text: &[u8], token: &Token) -> Result<Row<u8>, AllocError>
    requires { IsWithin text.now token.now }
    ensures { IfOk result (λ word. word ≡ slice_range text.now token.now.start token.now.end) }
{
    let word = token.spelling(text).to_vec(alloc)?;
    Ok(Row::from_vec(word))
}

/// The first word, and what follows.
pub(crate) fn first_of(words: &[Row<u8>]) -> Option<(&Row<u8>, &[Row<u8>])>
    ensures { MatchOption result (words.now ≡ []) (λ parts. words.now ≡ parts.0.now ∷ parts.1.now) }
{
    words.split_first()
}

/// What follows a word, where the words begin with it.
pub(crate) fn past<'a>(words: &'a [Row<u8>], word: &[u8]) -> Option<&'a [Row<u8>]>
    ensures { MatchOption result ((rest : List (List ℕ)) → words.entry.now ≡ word.now ∷ rest → ⊥) (λ rest. words.entry.now ≡ word.now ∷ rest.now) }
{
    let Some((first, rest)) = first_of(words) else {
        return None;
    };
    if first.as_slice() == word {
        Some(rest)
    } else {
        None
    }
}

/// A word in brackets, and what follows.
pub(crate) fn in_brackets(words: &[Row<u8>]) -> Option<(&Row<u8>, &[Row<u8>])>
    ensures { MatchOption result ((word : List ℕ) (rest : List (List ℕ)) → words.now ≡ codes "(" ∷ word ∷ codes ")" ∷ rest → ⊥)
        (λ found. words.now ≡ codes "(" ∷ found.0.now ∷ codes ")" ∷ found.1.now) }
{
    let Some(inside) = past(words, b"(") else {
        return None;
    };
    let Some((word, behind)) = first_of(inside) else {
        return None;
    };
    let Some(rest) = past(behind, b")") else {
        return None;
    };
    Some((word, rest))
}

/// The word that a formula begins with, and what follows.
pub(crate) fn head_of(words: &[Row<u8>]) -> Option<(Head, &[Row<u8>])>
    ensures { MatchOption result ((head : Head) (rest : List (List ℕ)) → words.now ≡ name_of head ∷ rest → ⊥) (λ found. words.now ≡ name_of found.0 ∷ found.1.now) }
{
    let Some((first, rest)) = first_of(words) else {
        return None;
    };
    match head_in(first.as_slice()) {
        Some(head) => Some((head, rest)),
        None => None,
    }
}

fn head_in(word: &[u8]) -> Option<Head>
    ensures { MatchOption result ((head : Head) → word.now ≡ name_of head → ⊥) (λ head. word.now ≡ name_of head) }
{
    if word == b"has".as_slice() {
        Some(Head::Has)
    } else if word == b"prints".as_slice() {
        Some(Head::Prints)
    } else if word == b"ends".as_slice() {
        Some(Head::Ends)
    } else if word == b"same".as_slice() {
        Some(Head::Same)
    } else if word == b"and".as_slice() {
        Some(Head::And)
    } else if word == b"or".as_slice() {
        Some(Head::Or)
    } else if word == b"not".as_slice() {
        Some(Head::Not)
    } else {
        None
    }
}

/// The first byte; 0 where there is none.
pub(crate) fn first_byte(word: &[u8]) -> u8
    ensures { result ≡ slice_index word.now 0 }
{
    if word.is_empty() { 0 } else { word[0] }
}
