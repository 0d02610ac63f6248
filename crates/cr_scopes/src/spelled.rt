ghost use Rattle.std.specs.Prelude.{◌≡◌, ◌<◌, ◌==◌, ℕ, length, Some, None, IfOk, OnOk, List, slice_index_or, if◌then◌else◌};
ghost use Rattle.std.specs.Str.{bytes_eq};
ghost use Rattle.cr_syntax.specs.Words.{AreSpans};
ghost use Rattle.cr_scopes.specs.Looking.{or_else, or_given};
ghost use Rattle.cr_scopes.specs.Spelled.{known_as, said_in, spelling_of, name_of};
ghost use Rattle.cr_scopes.specs.States.{name_in};

use cr_syntax::number_of;
use cr_tokens::Token;
use indexmap::IndexMap;
use std::alloc::{AllocError, Global};

/// The first token of each spelling so far. That of a single byte, as most punctuators have, stands by its byte and is hashed nowhere.
#[derive(Drop)]
struct Known {
    bytes: [Option<u32>; 256],
    words: IndexMap<Vec<u8>, u32>,
}

/// For each token the number of the first one that is spelled like it, so that equal spellings have equal numbers. The error is want of
/// memory, or more than 2^32 tokens.
#[tactic(auto, using(crate::proofs::Spellings::known_step, crate::proofs::Spellings::named_step, crate::proofs::Spellings::all_named))]
pub fn names_of(alloc: Global, file: &[u8], tokens: &[Token]) -> Result<Vec<u32>, AllocError>
    requires { AreSpans file.now tokens.now }
    ensures count { IfOk result (λ names. length names.items ≡ length tokens.now) }
    ensures each { IfOk result (λ names. (t : ℕ) → name_in names.items t ≡ name_of file.now tokens.now t) }
{
    let mut known = nothing_known(alloc);
    let mut names = Vec::with_capacity(alloc, tokens.len())?;
    for at in 0..tokens.len() {
        let number = number_of(at)?;
        names.push(first_of(alloc, &mut known, spelling_at(file, tokens, at), number)?)?;
    }
    Ok(names)
}

fn nothing_known(alloc: Global) -> Known
    ensures { (s : List ℕ) → said_in result s ≡ None }
{
    Known {
        bytes: [None; 256],
        words: IndexMap::new(alloc),
    }
}

fn spelling_at<'a>(file: &'a [u8], tokens: &[Token], at: usize) -> &'a [u8]
    requires spans { AreSpans file.now tokens.now }
    requires within { at < length tokens.now }
    ensures { result.now ≡ spelling_of file.now tokens.now at }
{
    tokens[at].spelling(file)
}

// The first token of a spelling; where none is known, it is this one from then on.
#[tactic(auto, using(crate::proofs::Spellings::byte_said, crate::proofs::Spellings::word_said, crate::proofs::Spellings::byte_more, crate::proofs::Spellings::word_more))]
fn first_of(
    alloc: Global,
    known: &mut Known,
    spelling: &[u8],
    number: u32,
) -> Result<u32, AllocError>
    ensures first { IfOk result (λ first. first ≡ or_given (said_in known.old spelling.now) number) }
    ensures known { OnOk result ((s : List ℕ) → said_in known.new s ≡ or_else (said_in known.old s) (if bytes_eq s spelling.now then Some number else None)) }
{
    if spelling.len() == 1 {
        Ok(first_of_byte(&mut known.bytes, spelling[0], number))
    } else {
        first_of_word(alloc, &mut known.words, spelling, number)
    }
}

#[tactic(auto, using(crate::proofs::Spellings::byte_put, crate::proofs::Spellings::byte_kept))]
fn first_of_byte(bytes: &mut [Option<u32>; 256], byte: u8, number: u32) -> u32
    ensures first { result ≡ or_given (slice_index_or bytes.old byte None) number }
    ensures known { (b : ℕ) → slice_index_or bytes.new b None ≡ or_else (slice_index_or bytes.old b None) (if b == byte then Some number else None) }
{
    match bytes[byte as usize] {
        Some(first) => first,
        None => {
            bytes[byte as usize] = Some(number);
            number
        }
    }
}

#[tactic(auto, using(crate::proofs::Spellings::more_is, crate::proofs::Spellings::kept_is))]
fn first_of_word(
    alloc: Global,
    words: &mut IndexMap<Vec<u8>, u32>,
    spelling: &[u8],
    number: u32,
) -> Result<u32, AllocError>
    ensures first { IfOk result (λ first. first ≡ or_given (known_as words.old.entries spelling.now) number) }
    ensures known { OnOk result ((s : List ℕ) → known_as words.new.entries s ≡ or_else (known_as words.old.entries s) (if bytes_eq s spelling.now then Some number else None)) }
{
    match words.get(spelling).copied() {
        Some(first) => Ok(first),
        None => {
            words.insert(spelling.to_vec(alloc)?, number)?;
            Ok(number)
        }
    }
}
