// Forms whose holes are filled.
ghost use Rattle.std.specs.Prelude.{◌≡◌, ◌<◌, ◌≤◌, ◌++◌, ◌∷◌, [], List, ℕ, length, slice_range, if◌then◌else◌, vec_capacity, IfOk, OnOk, OnErr};
ghost use Rattle.cr_tokens.specs.Runs.{spellings};
ghost use Rattle.pass_edit.specs.Forms.{after, bit_words, filled, form_words, run_at, sign_byte};
ghost use Rattle.pass_edit.specs.Glue.{glued};
ghost use Rattle.pass_edit.specs.Space.{needs_space};

use crate::form::{Bit, Kept, Run, Sign};
use crate::glue::put;
use crate::range::part;
use crate::space::needs_space;
use cr_tokens::Token;
use std::alloc::AllocError;

/// Puts a sign behind a text, and behind it a form with its holes filled.
pub fn put_filled(
    out: &mut Vec<u8>,
    file: &[u8],
    kept: &Kept,
    first: Sign,
    form: u32,
    runs: u32,
) -> Result<(), AllocError>
    ensures glued { OnOk result (out.new.items ≡ glued out.old.items (filled file.now kept.now first form runs)) }
    ensures capacity { vec_capacity out.old ≤ vec_capacity out.new }
    ensures full { OnErr result (vec_capacity out.old < length (glued out.old.items (filled file.now kept.now first form runs))) }
{
    put(out, text(first))?;
    put_form(
        out,
        text(first),
        file,
        kept.tokens.as_slice(),
        kept.runs(runs),
        kept.form(form),
    )
}

fn put_form(
    out: &mut Vec<u8>,
    first: &[u8],
    file: &[u8],
    tokens: &[Token],
    runs: &[Run],
    form: &[Bit],
) -> Result<(), AllocError>
    ensures put { OnOk result (out.new.items ≡ out.old.items ++ after first.now (form_words file.now tokens.now runs.now form.now)) }
    ensures capacity { vec_capacity out.old ≤ vec_capacity out.new }
    ensures full { OnErr result (vec_capacity out.old < length (out.old.items ++ after first.now (form_words file.now tokens.now runs.now form.now))) }
{
    let mut left = first;
    for bit in form {
        left = put_bit(out, left, file, tokens, runs, *bit)?;
    }
    Ok(())
}

// Answers the last spelling that stands there then.
fn put_bit<'a>(
    out: &mut Vec<u8>,
    left: &'a [u8],
    file: &'a [u8],
    tokens: &[Token],
    runs: &[Run],
    bit: Bit,
) -> Result<&'a [u8], AllocError>
    ensures put { IfOk result (λ last. (rest : List (List ℕ)) → out.old.items ++ after left.now (bit_words file.now tokens.now runs.now bit ++ rest) ≡ out.new.items ++ after last.now rest) }
    ensures capacity { vec_capacity out.old ≤ vec_capacity out.new }
    ensures full { OnErr result ((rest : List (List ℕ)) → vec_capacity out.old < length (out.old.items ++ after left.now (bit_words file.now tokens.now runs.now bit ++ rest))) }
{
    match bit {
        Bit::Tokens(run) => put_run(out, left, file, tokens_of(tokens, run)),
        Bit::Hole(at) => put_run(out, left, file, tokens_of(tokens, run_at(runs, at))),
        Bit::Put(sign) => {
            put_word(out, left, text(sign))?;
            Ok(text(sign))
        }
    }
}

fn put_run<'a>(
    out: &mut Vec<u8>,
    left: &'a [u8],
    file: &'a [u8],
    tokens: &[Token],
) -> Result<&'a [u8], AllocError>
    ensures put { IfOk result (λ last. (rest : List (List ℕ)) → out.old.items ++ after left.now (spellings file.now tokens.now ++ rest) ≡ out.new.items ++ after last.now rest) }
    ensures capacity { vec_capacity out.old ≤ vec_capacity out.new }
    ensures full { OnErr result ((rest : List (List ℕ)) → vec_capacity out.old < length (out.old.items ++ after left.now (spellings file.now tokens.now ++ rest))) }
{
    let mut last = left;
    for token in tokens {
        let word = part(file, token.start as usize, token.end as usize);
        put_word(out, last, word)?;
        last = word;
    }
    Ok(last)
}

fn put_word(out: &mut Vec<u8>, left: &[u8], word: &[u8]) -> Result<(), AllocError>
    ensures put { OnOk result (out.new.items ≡ out.old.items ++ (if needs_space left.now word.now then 32 ∷ [] else []) ++ word.now) }
    ensures capacity { vec_capacity out.old ≤ vec_capacity out.new }
    ensures full { OnErr result (vec_capacity out.old < length (out.old.items ++ (if needs_space left.now word.now then 32 ∷ [] else []) ++ word.now)) }
{
    if needs_space(left, word) {
        out.push(b' ')?;
    }
    out.extend_from_slice(word)
}

fn tokens_of<'a>(tokens: &'a [Token], run: Run) -> &'a [Token]
    ensures { result.now ≡ slice_range tokens.now run.from run.to }
{
    part(tokens, run.from as usize, run.to as usize)
}

fn run_at(runs: &[Run], at: u32) -> Run
    ensures { result ≡ run_at runs.now at }
{
    match runs.get(at as usize) {
        Some(run) => *run,
        None => Run { from: 0, to: 0 },
    }
}

fn text(sign: Sign) -> &'static [u8]
    ensures { result.now ≡ sign_byte sign ∷ [] }
{
    match sign {
        Sign::OpenParenthesis => b"(",
        Sign::CloseParenthesis => b")",
        Sign::OpenBrace => b"{",
        Sign::CloseBrace => b"}",
        Sign::Equals => b"=",
        Sign::Semicolon => b";",
    }
}
