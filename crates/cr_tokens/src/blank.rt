ghost use Rattle.std.specs.Prelude.{◌≡◌, ◌≢◌, ◌↔◌, ◌≤◌, ◌<◌, ◌+◌, ℕ, IsTrue, IfOk, IfErr, IfSome, IfNone, length, slice_index};
ghost use Rattle.cr_tokens.specs.Blanks.{IsSplice, EndsLine, OpensBlock, OpensComment, ClosesBlock, IsComment, StandsFirst, BeginsSkipped, IsPragma};
ghost use Rattle.cr_tokens.specs.Items.{StandsAt};
ghost use Rattle.cr_tokens.specs.Faults.{FaultAt};

use crate::bytes::{byte_at, is_digit, is_indent, is_word_byte, run_end};
use crate::item::Item;
use crate::token::TokenFault;

/// The comment at a place where one opens.
pub fn comment_at(file: &[u8], at: usize) -> Result<Item, TokenFault>
    requires inside { at < length file.now }
    requires short { length file.now ≤ 1048576 }
    requires opens { OpensComment file.now at }
    ensures item { IfOk result (StandsAt file.now at) }
    ensures fault { IfErr result (FaultAt file.now at) }
{
    let Some(end) = comment_end(file, at) else {
        return Err(TokenFault::OpenComment(at as u32));
    };
    match first_splice(file, at, end) {
        Some(bad) => Err(TokenFault::BadByte(bad as u32)),
        None => Ok(Item::Blank(end)),
    }
}

/// Where the comment ends that opens at a place.
fn comment_end(file: &[u8], at: usize) -> Option<usize>
    requires inside { at < length file.now }
    requires opens { OpensComment file.now at }
    ensures comment { IfSome result (IsComment file.now at) }
    ensures some { IfSome result (λ to. (at < to) × (to ≤ length file.now)) }
    ensures block { IfNone result (OpensBlock file.now at) }
    ensures none { IfNone result ((k : ℕ) → at + 2 ≤ k → ¬ ClosesBlock file.now k) }
{
    if byte_at(file, at + 1) == b'/' {
        return Some(line_end(file, at));
    }
    match block_close(file, at + 2) {
        Some(close) => Some(close + 2),
        None => None,
    }
}

/// The first `*/` from `from` on.
fn block_close(file: &[u8], from: usize) -> Option<usize>
    requires { from ≤ length file.now }
    ensures after { IfSome result (λ close. (from ≤ close) × (close + 2 ≤ length file.now)) }
    ensures closed { IfSome result (ClosesBlock file.now) }
    ensures first { IfSome result (λ close. (k : ℕ) → from ≤ k → k < close → ¬ ClosesBlock file.now k) }
    ensures none { IfNone result ((k : ℕ) → from ≤ k → ¬ ClosesBlock file.now k) }
{
    for at in from..file.len() {
        if file[at] == b'*' && byte_at(file, at + 1) == b'/' {
            return Some(at);
        }
    }
    None
}

/// The first place from `from` to before `to` at which a line is spliced.
fn first_splice(file: &[u8], from: usize, to: usize) -> Option<usize>
    requires order { from ≤ to }
    requires inside { to ≤ length file.now }
    ensures range { IfSome result (λ bad. (from ≤ bad) × (bad < to)) }
    ensures spliced { IfSome result (IsSplice file.now) }
    ensures first { IfSome result (λ bad. (k : ℕ) → from ≤ k → k < bad → ¬ IsSplice file.now k) }
    ensures none { IfNone result ((k : ℕ) → from ≤ k → k < to → ¬ IsSplice file.now k) }
{
    for at in from..to {
        if is_splice(file, at) {
            return Some(at);
        }
    }
    None
}

/// Whether a line is spliced at a place.
pub fn is_splice(file: &[u8], at: usize) -> bool
    requires { at < length file.now }
    ensures { IsTrue result ↔ IsSplice file.now at }
{
    match file[at] {
        b'\\' => byte_at(file, at + 1) == b'\n',
        b'?' => {
            byte_at(file, at + 1) == b'?'
                && byte_at(file, at + 2) == b'/'
                && byte_at(file, at + 3) == b'\n'
        }
        _ => false,
    }
}

fn line_end(file: &[u8], from: usize) -> usize
    requires { from ≤ length file.now }
    ensures { EndsLine file.now from result }
{
    run_end(file, from, is_within_line)
}

fn is_within_line(byte: u8) -> bool
    ensures { IsTrue result ↔ (byte ≢ 10) }
{
    byte != b'\n'
}

/// The skipped line at a `#`.
pub fn skipped_line_at(file: &[u8], at: usize) -> Result<Item, TokenFault>
    requires inside { at < length file.now }
    requires short { length file.now ≤ 1048576 }
    requires hash { slice_index file.now at ≡ 35 }
    ensures item { IfOk result (StandsAt file.now at) }
    ensures fault { IfErr result (FaultAt file.now at) }
{
    if begins_skipped(file, at) {
        Ok(Item::Blank(line_end(file, at)))
    } else {
        Err(TokenFault::BadByte(at as u32))
    }
}

fn begins_skipped(file: &[u8], at: usize) -> bool
    requires inside { at < length file.now }
    requires hash { slice_index file.now at ≡ 35 }
    ensures { IsTrue result ↔ BeginsSkipped file.now at }
{
    if !stands_first(file, at) {
        return false;
    }
    let next = run_end(file, at + 1, is_indent);
    is_digit(byte_at(file, next)) || is_pragma(file, next)
}

/// Whether only spaces and tabs stand before a place on its line.
fn stands_first(file: &[u8], at: usize) -> bool
    requires { at ≤ length file.now }
    ensures { IsTrue result ↔ StandsFirst file.now at }
{
    for before in (0..at).rev() {
        if file[before] == b'\n' {
            return true;
        }
        if !is_indent(file[before]) {
            return false;
        }
    }
    true
}

fn is_pragma(file: &[u8], at: usize) -> bool
    requires { at ≤ length file.now }
    ensures { IsTrue result ↔ IsPragma file.now at }
{
    file.len() - at >= 6
        && &file[at..at + 6] == b"pragma".as_slice()
        && !is_word_byte(byte_at(file, at + 6))
}
