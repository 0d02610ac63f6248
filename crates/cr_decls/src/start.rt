//! Tests of the next token, and the refusals by rows of the refused forms.

ghost use Rattle.std.specs.Prelude.{◌≡◌, ◌+◌, ◌≤◌, ◌<◌, IsTrue, true, false, OnOk, OnErr, IfErr, length};
ghost use Rattle.cr_syntax_machine.specs.Machine.{has_word, passes, barred};
ghost use Rattle.cr_syntax.specs.Scopes.{Scopes};
ghost use Rattle.cr_syntax_machine.specs.MachineBody.{is_designator, is_label, is_any, label_start};
ghost use Rattle.cr_syntax.specs.Units.{begins_statement};
ghost use Rattle.cr_exprs_descent.specs.Source.{IsReadable, text_of};
ghost use Rattle.cr_decls.specs.Programs.{is_marked};
ghost use Rattle.cr_exprs_descent.specs.Answers.{IsRefusal};

use cr_exprs_descent::{ParseFault, Source, barred, here, stands};
use cr_syntax::Word;

/// Whether some token stands here.
pub(crate) fn stands_any(source: &Source, at: usize) -> bool
    requires { IsReadable source.now }
    ensures answer { result ≡ has_word (text_of source.now) at is_any }
    ensures inside { IsTrue result → at < length source.now.tokens.now }
    ensures end { result ≡ false → length source.now.tokens.now ≤ at }
{
    here(source, at).is_some()
}

/// Whether an identifier stands here directly before a colon: where a statement begins, it labels it (C11 6.8.1).
pub(crate) fn stands_label(source: &Source, at: usize) -> bool
    requires readable { IsReadable source.now }
    requires at { at ≤ length source.now.tokens.now }
    ensures answer { result ≡ is_marked (text_of source.now) at }
    ensures inside { IsTrue result → at + 1 < length source.now.tokens.now }
{
    stands(source, at, Word::Identifier) && stands(source, at + 1, Word::Colon)
}

/// Refuses a designator (C11 6.7.9), where so many levels are open.
pub(crate) fn bar_designator(source: &Source, at: usize, depth: usize) -> Result<(), ParseFault>
    requires readable { IsReadable source.now }
    requires at { at ≤ length source.now.tokens.now }
    ensures ok { OnOk result (has_word (text_of source.now) at is_designator ≡ false) }
    ensures stands { OnErr result (has_word (text_of source.now) at is_designator ≡ true) }
    ensures err { IfErr result (λ fault. IsRefusal fault (barred (text_of source.now) 2 at depth) at) }
{
    if here(source, at).is_some_and(is_designator) {
        return Err(barred(source, at, 2, depth));
    }
    Ok(())
}

/// Refuses `case` and `default` (6.8.1), where so many levels are open.
pub(crate) fn bar_label(source: &Source, at: usize, depth: usize) -> Result<(), ParseFault>
    requires readable { IsReadable source.now }
    requires at { at ≤ length source.now.tokens.now }
    ensures ok { OnOk result (has_word (text_of source.now) at is_label ≡ false) }
    ensures stands { OnErr result (has_word (text_of source.now) at is_label ≡ true) }
    ensures err { IfErr result (λ fault. IsRefusal fault (barred (text_of source.now) 6 at depth) at) }
{
    if here(source, at).is_some_and(is_label) {
        return Err(barred(source, at, 6, depth));
    }
    Ok(())
}

/// Refuses the label of a switch in the place of a switch's body (6.8.4.2), where so many levels are open.
pub(crate) fn bar_body_label(source: &Source, at: usize, depth: usize) -> Result<(), ParseFault>
    requires readable { IsReadable source.now }
    requires at { at ≤ length source.now.tokens.now }
    ensures ok { OnOk result ((c : Scopes) → passes (text_of source.now) c at label_start ≡ false) }
    ensures stands { OnErr result ((c : Scopes) → passes (text_of source.now) c at label_start ≡ true) }
    ensures err { IfErr result (λ fault. IsRefusal fault (barred (text_of source.now) 6 at depth) at) }
{
    if stands(source, at, Word::Case) || stands(source, at, Word::Default) {
        return Err(barred(source, at, 6, depth));
    }
    Ok(())
}

/// Refuses the first word of another statement than a block or a label, where so many levels are open.
pub(crate) fn bar_statement(source: &Source, at: usize, depth: usize) -> Result<(), ParseFault>
    requires readable { IsReadable source.now }
    requires at { at ≤ length source.now.tokens.now }
    ensures ok { OnOk result (has_word (text_of source.now) at begins_statement ≡ false) }
    ensures stands { OnErr result (has_word (text_of source.now) at begins_statement ≡ true) }
    ensures err { IfErr result (λ fault. IsRefusal fault (barred (text_of source.now) 7 at depth) at) }
{
    if here(source, at).is_some_and(begins_statement) {
        return Err(barred(source, at, 7, depth));
    }
    Ok(())
}

fn is_designator(word: Word) -> bool
    ensures { result ≡ is_designator word }
{
    match word {
        Word::Dot | Word::LeftBracket => true,
        _ => false,
    }
}

fn is_label(word: Word) -> bool
    ensures { result ≡ is_label word }
{
    match word {
        Word::Case | Word::Default => true,
        _ => false,
    }
}

fn begins_statement(word: Word) -> bool
    ensures { result ≡ begins_statement word }
{
    match word {
        Word::Semicolon
        | Word::If
        | Word::Switch
        | Word::While
        | Word::Do
        | Word::For
        | Word::Goto
        | Word::Break
        | Word::Continue
        | Word::Return
        | Word::PlusPlus
        | Word::MinusMinus
        | Word::Ampersand
        | Word::Star
        | Word::Plus
        | Word::Minus
        | Word::Tilde
        | Word::Bang
        | Word::Sizeof
        | Word::Identifier
        | Word::Integer
        | Word::Character
        | Word::Text
        | Word::LeftParen => true,
        _ => false,
    }
}
