ghost use Rattle.std.specs.Prelude.{◌≡◌, ℕ, ◌≤◌, ◌<◌, ◌^◌, IsTrue, IfOk, IfErr, OnOk, OnErr, true, false, length};
ghost use Rattle.cr_syntax.specs.Words.{AreSpans, spelling_at, word_at};
ghost use Rattle.cr_syntax.specs.Reads.{is_word, is_qualifier};
ghost use Rattle.cr_syntax.specs.Units.{is_unused, is_opening};
ghost use Rattle.cr_syntax_machine.specs.Machine.{has_word, passes, has, or, ordinary, type_identifier, declared, verdict, barred, overflows, exceeds, too_deep};
ghost use Rattle.cr_syntax_machine.specs.MachineBody.{is_plain_start, is_specifier_start, is_abstract_start, is_declarator_start};
ghost use Rattle.cr_exprs_descent.specs.Source.{IsReadable, text_of, words_in};
ghost use Rattle.cr_syntax.specs.Scopes.{Scopes};
ghost use Rattle.cr_syntax.specs.Trees.{none};
ghost use Rattle.cr_syntax_machine.specs.Machine.{texts, qualifiers};
ghost use Rattle.cr_syntax_machine.specs.MachineBody.{body};
ghost use Rattle.cr_exprs_descent.specs.Answers.{IsRefusal, Gives};

use crate::fault::ParseFault;
use cr_syntax::{MOST_LEVELS, OpenScopes, Word, is_type, word_at};
use cr_tokens::Token;
use std::alloc::{AllocError, Global};

/// What is read: a file, its tokens, and what each token is to the grammar.
#[derive(Clone, Copy)]
pub struct Source<'a> {
    pub file: &'a [u8],
    pub tokens: &'a [Token],
    pub words: &'a [Word],
}

/// What each token of a file is to the grammar. The error is want of memory.
pub fn words_of(alloc: Global, file: &[u8], tokens: &[Token]) -> Result<Vec<Word>, AllocError>
    requires { AreSpans file.now tokens.now }
    ensures { IfOk result (λ v. v.items ≡ words_in file.now tokens.now) }
{
    let mut words = Vec::with_capacity(alloc, tokens.len())?;
    for token in tokens {
        words.push(word_at(file, token))?;
    }
    Ok(words)
}

/// What the token with this number is to the grammar, none where there is no token.
pub fn here(source: &Source, at: usize) -> Option<Word>
    requires { IsReadable source.now }
    ensures { result ≡ word_at (text_of source.now) at }
{
    let word = source.words.get(at)?;
    Some(*word)
}

/// Whether the token with this number is this word.
pub fn stands(source: &Source, at: usize, word: Word) -> bool
    requires { IsReadable source.now }
    ensures answer { result ≡ is_word (text_of source.now) at word }
    ensures inside { IsTrue result → at < length source.now.tokens.now }
{
    match source.words.get(at) {
        Some(found) => *found == word,
        None => false,
    }
}

/// The bytes of the token with this number, none where there is no token.
pub(crate) fn spelling<'a>(source: &'a Source, at: usize) -> &'a [u8]
    requires { IsReadable source.now }
    ensures { result.now ≡ spelling_at (text_of source.now) at }
{
    match source.tokens.get(at) {
        Some(token) => &source.file[token.start as usize..token.end as usize],
        None => &[],
    }
}

/// Whether an identifier stands here that is no type.
pub(crate) fn is_ordinary(source: &Source, at: usize, scopes: &OpenScopes) -> bool
    requires { IsReadable source.now }
    ensures { result ≡ passes (text_of source.now) scopes.now at ordinary }
{
    stands(source, at, Word::Identifier) && !is_type(scopes, spelling(source, at))
}

/// Whether an identifier stands here that is a type, where no type specifier stands before it.
pub fn is_type_identifier(source: &Source, at: usize, typed: bool, scopes: &OpenScopes) -> bool
    requires { IsReadable source.now }
    ensures answer { result ≡ passes (text_of source.now) scopes.now at (type_identifier typed) }
    ensures inside { IsTrue result → at < length source.now.tokens.now }
{
    stands(source, at, Word::Identifier) && is_type(scopes, spelling(source, at)) && !typed
}

/// Whether an identifier stands here that may be declared, behind a type specifier or another token, or not.
pub(crate) fn is_declared(source: &Source, at: usize, typed: bool, scopes: &OpenScopes) -> bool
    requires { IsReadable source.now }
    ensures answer { result ≡ passes (text_of source.now) scopes.now at (declared typed) }
    ensures inside { IsTrue result → at < length source.now.tokens.now }
{
    stands(source, at, Word::Identifier) && (typed || !is_type(scopes, spelling(source, at)))
}

/// Whether a specifier without storage classes begins here, where a type specifier stands before it or doesn't.
pub(crate) fn starts_plain(source: &Source, at: usize, typed: bool, scopes: &OpenScopes) -> bool
    requires { IsReadable source.now }
    ensures { result ≡ passes (text_of source.now) scopes.now at (or (has is_plain_start) (type_identifier typed)) }
{
    here(source, at).is_some_and(is_plain_start) || is_type_identifier(source, at, typed, scopes)
}

/// Whether a specifier begins here, where a type specifier stands before it or doesn't.
pub fn starts_specifier(source: &Source, at: usize, typed: bool, scopes: &OpenScopes) -> bool
    requires { IsReadable source.now }
    ensures { result ≡ passes (text_of source.now) scopes.now at (or (has is_specifier_start) (type_identifier typed)) }
{
    here(source, at).is_some_and(is_specifier_start)
        || is_type_identifier(source, at, typed, scopes)
}

/// Whether a declarator without a name begins here.
pub(crate) fn starts_abstract(source: &Source, at: usize) -> bool
    requires { IsReadable source.now }
    ensures { result ≡ has_word (text_of source.now) at is_abstract_start }
{
    here(source, at).is_some_and(is_abstract_start)
}

/// Whether a declarator with or without a name begins here.
pub(crate) fn starts_declarator(source: &Source, at: usize) -> bool
    requires { IsReadable source.now }
    ensures { result ≡ has_word (text_of source.now) at is_declarator_start }
{
    here(source, at).is_some_and(is_declarator_start)
}

fn is_plain_start(word: Word) -> bool
    ensures { result ≡ is_plain_start word }
{
    match word {
        Word::Const
        | Word::Volatile
        | Word::Void
        | Word::Char
        | Word::Short
        | Word::Int
        | Word::Long
        | Word::Signed
        | Word::Unsigned
        | Word::Bool
        | Word::Struct
        | Word::Enum => true,
        _ => false,
    }
}

fn is_specifier_start(word: Word) -> bool
    ensures { result ≡ is_specifier_start word }
{
    match word {
        Word::Typedef | Word::Extern | Word::Static | Word::Auto | Word::Register | Word::Inline =>
            true,
        _ => is_plain_start(word),
    }
}

fn is_abstract_start(word: Word) -> bool
    ensures { result ≡ is_abstract_start word }
{
    match word {
        Word::Star | Word::LeftParen | Word::LeftBracket => true,
        _ => false,
    }
}

fn is_declarator_start(word: Word) -> bool
    ensures { result ≡ is_declarator_start word }
{
    match word {
        Word::Identifier => true,
        _ => is_abstract_start(word),
    }
}

/// Whether the grammar has a keyword nowhere.
fn is_unused(word: Word) -> bool
    ensures { result ≡ is_unused word }
{
    match word {
        Word::Double
        | Word::Float
        | Word::Restrict
        | Word::Union
        | Word::Alignas
        | Word::Alignof
        | Word::Atomic
        | Word::Complex
        | Word::Generic
        | Word::Imaginary
        | Word::Noreturn
        | Word::StaticAssert
        | Word::ThreadLocal => true,
        _ => false,
    }
}

/// Whether a word is a bracket that has no room for its level, where so many are open.
fn overflows(word: Word, depth: usize) -> bool
    ensures { result ≡ overflows word depth }
{
    match word {
        Word::LeftParen | Word::LeftBracket | Word::LeftBrace => depth >= MOST_LEVELS,
        _ => false,
    }
}

/// The same of a word that opens a level by itself, where the grammar has it.
fn exceeds(word: Word, depth: usize) -> bool
    ensures { result ≡ exceeds word depth }
{
    is_opening(word) && depth >= MOST_LEVELS
}

fn is_opening(word: Word) -> bool
    ensures { result ≡ is_opening word }
{
    match word {
        Word::LeftParen
        | Word::LeftBracket
        | Word::LeftBrace
        | Word::Do
        | Word::PlusPlus
        | Word::MinusMinus
        | Word::Ampersand
        | Word::Star
        | Word::Plus
        | Word::Minus
        | Word::Tilde
        | Word::Bang
        | Word::Sizeof => true,
        _ => false,
    }
}

/// The refusal of a token that nothing fits, where so many levels are open.
pub fn refused(source: &Source, at: usize, depth: usize) -> ParseFault
    requires readable { IsReadable source.now }
    requires at { at ≤ length source.now.tokens.now }
    ensures { IsRefusal result (verdict (text_of source.now) at depth) at }
{
    let Some(word) = source.words.get(at) else {
        return ParseFault::Ended;
    };
    if is_unused(*word) {
        return ParseFault::OutsideSubset(at as u32, 1);
    }
    if overflows(*word, depth) {
        return ParseFault::TooDeep(at as u32);
    }
    ParseFault::Unexpected(at as u32)
}

/// The refusal of a token that a row of the refused forms names, where so many levels are open.
pub fn barred(source: &Source, at: usize, row: u8, depth: usize) -> ParseFault
    requires readable { IsReadable source.now }
    requires at { at ≤ length source.now.tokens.now }
    ensures { IsRefusal result (barred (text_of source.now) row at depth) at }
{
    let Some(word) = source.words.get(at) else {
        return ParseFault::Ended;
    };
    if exceeds(*word, depth) {
        return ParseFault::TooDeep(at as u32);
    }
    ParseFault::OutsideSubset(at as u32, row)
}

/// Refuses the token that opens a level where there is no room for one.
pub fn room(at: usize, depth: usize) -> Result<(), ParseFault>
    requires { at < 2 ^ 32 }
    ensures ok { OnOk result (depth < 128) }
    ensures full { OnErr result (128 ≤ depth) }
    ensures err { IfErr result (λ fault. fault ≡ ParseFault.TooDeep at) }
{
    if depth >= MOST_LEVELS {
        return Err(ParseFault::TooDeep(at as u32));
    }
    Ok(())
}

/// Refuses another token than this word, where so many levels are open.
pub fn expect(source: &Source, at: usize, word: Word, depth: usize) -> Result<(), ParseFault>
    requires readable { IsReadable source.now }
    requires at { at ≤ length source.now.tokens.now }
    ensures ok { OnOk result (is_word (text_of source.now) at word ≡ true) }
    ensures inside { OnOk result (at < length source.now.tokens.now) }
    ensures other { OnErr result (is_word (text_of source.now) at word ≡ false) }
    ensures err { IfErr result (λ fault. IsRefusal fault (verdict (text_of source.now) at depth) at) }
{
    if !stands(source, at, word) {
        return Err(refused(source, at, depth));
    }
    Ok(())
}

/// Refuses this word, by a row of the refused forms, where so many levels are open.
pub(crate) fn bar(
    source: &Source,
    at: usize,
    word: Word,
    row: u8,
    depth: usize,
) -> Result<(), ParseFault>
    requires readable { IsReadable source.now }
    requires at { at ≤ length source.now.tokens.now }
    ensures ok { OnOk result (is_word (text_of source.now) at word ≡ false) }
    ensures stands { OnErr result (is_word (text_of source.now) at word ≡ true) }
    ensures err { IfErr result (λ fault. IsRefusal fault (barred (text_of source.now) row at depth) at) }
{
    if stands(source, at, word) {
        return Err(barred(source, at, row, depth));
    }
    Ok(())
}

/// Refuses a keyword that the grammar has nowhere.
pub(crate) fn bar_unused(source: &Source, at: usize, depth: usize) -> Result<(), ParseFault>
    requires readable { IsReadable source.now }
    requires at { at ≤ length source.now.tokens.now }
    ensures ok { OnOk result (has_word (text_of source.now) at is_unused ≡ false) }
    ensures stands { OnErr result (has_word (text_of source.now) at is_unused ≡ true) }
    ensures row { IfErr result (λ fault. fault ≡ ParseFault.OutsideSubset at 1) }
    ensures err { IfErr result (λ fault. IsRefusal fault (barred (text_of source.now) 1 at depth) at) }
{
    if here(source, at).is_some_and(is_unused) {
        return Err(ParseFault::OutsideSubset(at as u32, 1));
    }
    Ok(())
}

/// The token after string literals side by side.
pub(crate) fn texts(source: &Source, at: usize) -> usize
    requires readable { IsReadable source.now }
    requires at { at ≤ length source.now.tokens.now }
    ensures from { at ≤ result }
    ensures to { result ≤ length source.now.tokens.now }
    ensures read { (d : ℕ) (c : Scopes) → Gives (text_of source.now) (body (texts d)) c at none c result }
{
    after(source, at, Word::Text)
}

/// The token after any number of type qualifiers (6.7.3).
pub(crate) fn qualifiers(source: &Source, at: usize) -> usize
    requires readable { IsReadable source.now }
    requires at { at ≤ length source.now.tokens.now }
    ensures from { at ≤ result }
    ensures to { result ≤ length source.now.tokens.now }
    ensures read { (d : ℕ) (c : Scopes) → Gives (text_of source.now) (body (qualifiers d)) c at none c result }
{
    let mut next = at;
    'qualifiers: while is_qualifier(source, next) {
        next += 1;
    }
    next
}

fn is_qualifier(source: &Source, at: usize) -> bool
    requires { IsReadable source.now }
    ensures answer { result ≡ is_qualifier (text_of source.now) at }
    ensures inside { IsTrue result → at < length source.now.tokens.now }
{
    stands(source, at, Word::Const) || stands(source, at, Word::Volatile)
}

fn after(source: &Source, at: usize, word: Word) -> usize
    requires readable { IsReadable source.now }
    requires at { at ≤ length source.now.tokens.now }
    ensures from { at ≤ result }
    ensures to { result ≤ length source.now.tokens.now }
    ensures all { (k : ℕ) → at ≤ k → k < result → is_word (text_of source.now) k word ≡ true }
    ensures other { is_word (text_of source.now) result word ≡ false }
{
    let mut next = at;
    while stands(source, next, word) {
        next += 1;
    }
    next
}
