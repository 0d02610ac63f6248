// Short names.
ghost use Rattle.std.specs.Prelude.{◌≡◌, ◌<◌, ◌+◌, ◌++◌, ℕ, not, Some, IfOk, OnOk, length, slice_range};
ghost use Rattle.std.specs.List.{list_any};
ghost use Rattle.std.specs.Str.{bytes_eq};
ghost use Rattle.pass_names.specs.Short.{first_free, four_letters, is_taken, one_letter, short_name, three_letters, two_letters};

use cr_tokens::{Token, is_keyword};
use pass_edit::part;
use std::alloc::{AllocError, Global};

fn put_one(out: &mut Vec<u8>, number: u32) -> Result<(), AllocError>
    requires { number < 26 }
    ensures { OnOk result (out.new.items ≡ out.old.items ++ one_letter number) }
{
    out.push(b'a' + number as u8)?;
    Ok(())
}

fn put_two(out: &mut Vec<u8>, number: u32) -> Result<(), AllocError>
    requires { number < 676 }
    ensures { OnOk result (out.new.items ≡ out.old.items ++ two_letters number) }
{
    put_one(out, number / 26)?;
    put_one(out, number % 26)
}

fn put_three(out: &mut Vec<u8>, number: u32) -> Result<(), AllocError>
    requires { number < 17576 }
    ensures { OnOk result (out.new.items ≡ out.old.items ++ three_letters number) }
{
    put_one(out, number / 676)?;
    put_two(out, number % 676)
}

fn put_four(out: &mut Vec<u8>, number: u32) -> Result<(), AllocError>
    requires { number < 456976 }
    ensures { OnOk result (out.new.items ≡ out.old.items ++ four_letters number) }
{
    put_one(out, number / 17576)?;
    put_three(out, number % 17576)
}

fn put_name(out: &mut Vec<u8>, number: u32) -> Result<(), AllocError>
    requires { number < 475254 }
    ensures { OnOk result (out.new.items ≡ out.old.items ++ short_name number) }
{
    if number < 26 {
        put_one(out, number)
    } else if number < 702 {
        put_two(out, number - 26)
    } else if number < 18278 {
        put_three(out, number - 702)
    } else {
        put_four(out, number - 18278)
    }
}

/// The short name of a number below 475,254. The error is want of memory.
pub fn short_name(alloc: Global, number: u32) -> Result<Vec<u8>, AllocError>
    requires { number < 475254 }
    ensures { IfOk result (λ name. name.items ≡ short_name number) }
{
    let mut name = Vec::new(alloc);
    put_name(&mut name, number)?;
    Ok(name)
}

fn is_spelled(file: &[u8], tokens: &[Token], name: &[u8]) -> bool
    ensures { result ≡ list_any (λ token. bytes_eq (slice_range file.now token.start token.end) name.now) tokens.now }
{
    tokens.iter().any(|token| part(file, token.start as usize, token.end as usize) == name)
}

fn is_taken(file: &[u8], tokens: &[Token], name: &[u8]) -> bool
    ensures { result ≡ is_taken file.now tokens.now name.now }
{
    is_keyword(name) || is_spelled(file, tokens, name)
}

fn is_free(alloc: Global, file: &[u8], tokens: &[Token], number: u32) -> Result<bool, AllocError>
    requires { number < 475254 }
    ensures { IfOk result (λ free. free ≡ not (is_taken file.now tokens.now (short_name number))) }
{
    let name = short_name(alloc, number)?;
    Ok(!is_taken(file, tokens, name.as_slice()))
}

/// The number of the first short name that is no keyword and isn't spelled by a token of the file. It takes time by the tokens for each name
/// that is tried. The error is want of memory, also where there are more tokens than a file has.
pub fn first_free(alloc: Global, file: &[u8], tokens: &[Token]) -> Result<Option<u32>, AllocError>
    ensures free { IfOk result (λ number. number ≡ first_free file.now tokens.now) }
    ensures few { IfOk result (λ number. (n : ℕ) → number ≡ Some n → n < 475254) }
{
    let most = most(tokens.len())?;
    for number in 0..most {
        if is_free(alloc, file, tokens, number)? {
            return Ok(Some(number));
        }
    }
    Ok(None)
}

// How many names are tried.
fn most(tokens: usize) -> Result<u32, AllocError>
    ensures most { IfOk result (λ most. most ≡ tokens + 45) }
    ensures few { IfOk result (λ most. most < 475254) }
{
    if tokens < 475_209 {
        Ok(tokens as u32 + 45)
    } else {
        Err(AllocError)
    }
}
