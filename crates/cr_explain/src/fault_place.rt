// Where a file's first fault stands.
ghost use Rattle.std.specs.Prelude.{◌≡◌};
ghost use Rattle.cr_syntax.specs.Words.{AreSpans};
ghost use Rattle.cr_tokens.specs.Tokens.{Tokenizes};

use crate::extensions::extension_remedy;
use crate::place::{Place, is_of_library, text_at};
use cr_check::{TypeFault, check};
use cr_decls::parse;
use cr_exprs_descent::ParseFault;
use cr_scopes::{NameFault, Names, resolve_whole};
use cr_syntax::{Unit, tokens_are_spans};
use cr_tokens::{Token, TokenFault, TokenKind, Tokens, read};
use std::alloc::{AllocError, Global};

/// In front of a token that fits nowhere so many tokens are looked at.
const LOOKED_AT: usize = 64;

fn byte(at: u32) -> Place {
    let start = at as usize;
    Place {
        start,
        end: start.saturating_add(1),
        form: 0,
        cause: None,
        is_name: false,
    }
}

fn place_of(tokens: &[Token], number: usize, form: u8) -> Option<Place> {
    let token = tokens.get(number)?;
    Some(Place {
        start: token.start as usize,
        end: token.end as usize,
        form,
        cause: None,
        is_name: false,
    })
}

// A token that fits nowhere.
fn misfit(file: &[u8], tokens: &[Token], number: usize) -> Option<Place> {
    let cause = cause(file, tokens, number).or(no_type(file, tokens, number));
    let is_name = is_identifier(tokens.get(number)?);
    let place = place_of(tokens, number, 0)?;
    Some(Place {
        cause,
        is_name,
        ..place
    })
}

/// Where the first fault of a file's tokens, its parse, its names or its types stands. Of K40, which stands at the last token, it is the first
/// use of a function or an object that the file doesn't define, if there is one.
pub fn first_place(alloc: Global, file: &[u8]) -> Result<Option<Place>, AllocError> {
    match read(alloc, file) {
        Ok(tokens) => place_in(alloc, file, &tokens),
        Err(TokenFault::NoMemory) => Err(AllocError),
        Err(TokenFault::TooLong) => Ok(None),
        Err(TokenFault::BadByte(at) | TokenFault::OpenComment(at)) => Ok(Some(byte(at))),
        Err(TokenFault::OpenLiteral(at) | TokenFault::TooMany(at)) => Ok(Some(byte(at))),
    }
}

fn place_in(alloc: Global, file: &[u8], tokens: &Tokens) -> Result<Option<Place>, AllocError>
    requires { Tokenizes file.now tokens.now.list.items }
{
    tokens_are_spans();
    let list = tokens.list.as_slice();
    match parse(alloc, file, tokens) {
        Ok(unit) => place_of_names(alloc, file, &unit),
        Err(ParseFault::NoMemory) => Err(AllocError),
        Err(ParseFault::Ended) => Ok(place_of(list, list.len().saturating_sub(1), 0)),
        Err(ParseFault::Unexpected(token)) => Ok(misfit(file, list, token as usize)),
        Err(ParseFault::TooDeep(token)) => Ok(place_of(list, token as usize, 0)),
        Err(ParseFault::OutsideSubset(token, form)) => Ok(place_of(list, token as usize, form)),
    }
}

fn place_of_names(alloc: Global, file: &[u8], unit: &Unit) -> Result<Option<Place>, AllocError>
    requires { Tokenizes file.now unit.now.tokens.list.items }
{
    tokens_are_spans();
    let resolution = resolve_whole(alloc, file, unit)?;
    let list = unit.tokens.list.as_slice();
    match resolution.fault {
        Some(NameFault::NoMemory) => Err(AllocError),
        Some(NameFault::Unknown(token) | NameFault::Twice(token)) => {
            Ok(place_of(list, token as usize, 0))
        }
        None => place_of_types(alloc, file, unit, &resolution.names),
    }
}

fn place_of_types(
    alloc: Global,
    file: &[u8],
    unit: &Unit,
    names: &Names,
) -> Result<Option<Place>, AllocError>
    requires { AreSpans file.now unit.now.tokens.list.items }
{
    let list = unit.tokens.list.as_slice();
    match check(alloc, file, unit, names) {
        Ok(checked) => {
            drop(checked);
            Ok(None)
        }
        Err(TypeFault::NoMemory) => Err(AllocError),
        Err(TypeFault::Broken(40, _)) => Ok(undefined_use(file, list, names)),
        Err(TypeFault::Twice(token) | TypeFault::Broken(_, token)) => {
            Ok(place_of(list, token as usize, 0))
        }
    }
}

// The first word of compilers or headers in front of a token, in its statement or declaration.
fn cause(file: &[u8], tokens: &[Token], number: usize) -> Option<(usize, usize)> {
    let mut found = None;
    for token in tokens.get(..number)?.iter().rev().take(LOOKED_AT) {
        let (start, end) = (token.start as usize, token.end as usize);
        match text_at(file, start, end) {
            Some(";" | "{" | "}") => break,
            Some(word) if extension_remedy(word).is_some() => found = Some((start, end)),
            _ => {}
        }
    }
    found
}

// The name in front of a name, where a declaration begins with it.
fn no_type(file: &[u8], tokens: &[Token], number: usize) -> Option<(usize, usize)> {
    let word = tokens.get(number.checked_sub(1)?)?;
    if !is_identifier(tokens.get(number)?) || !is_identifier(word) {
        return None;
    }
    match number.checked_sub(2) {
        Some(before) if !begins(spelled(file, tokens, before)) => None,
        _ => Some((word.start as usize, word.end as usize)),
    }
}

fn is_identifier(token: &Token) -> bool {
    matches!(token.kind, TokenKind::Identifier)
}

// Whether a declaration begins behind this token.
fn begins(front: Option<&str>) -> bool {
    matches!(front, Some(";" | "{" | "}" | "(" | ","))
}

// The first use of a function or an object that the file doesn't define, by the look of its declarations.
fn undefined_use(file: &[u8], tokens: &[Token], names: &Names) -> Option<Place> {
    for entity in names.entities.as_slice() {
        let declared = entity.declared.as_slice();
        let Some(first) = entity.uses.as_slice().first() else {
            continue;
        };
        let place = place_of(tokens, *first as usize, 0)?;
        let is_named = match place.text(file) {
            Some(name) => !is_of_library(name),
            None => false,
        };
        if is_named && entity.space == 0 && are_undefined(file, tokens, declared) {
            return Some(place);
        }
    }
    None
}

// Whether these tokens declare a function, by a list behind the name, or an object elsewhere, by `extern` in front of it, and none of them
// defines one.
fn are_undefined(file: &[u8], tokens: &[Token], declared: &[u32]) -> bool {
    !declared.is_empty()
        && declared
            .iter()
            .all(|name| is_elsewhere(file, tokens, *name as usize))
}

// Whether this declares something without a definition: a list behind the name and no body behind that, or `extern` and no value.
fn is_elsewhere(file: &[u8], tokens: &[Token], name: usize) -> bool {
    let behind = name.saturating_add(1);
    if spelled(file, tokens, behind) == Some("(") {
        spelled(file, tokens, behind_list(file, tokens, behind)) != Some("{")
            && front_of(file, tokens, name) != Lead::Bracket
    } else {
        front_of(file, tokens, name) == Lead::Extern && !has_value(file, tokens, behind)
    }
}

// What stands in front of a name in its declaration.
#[derive(Clone, Copy, PartialEq, Eq)]
enum Lead {
    /// An opening bracket: it is a parameter, or stands in brackets of its own.
    Bracket,
    Extern,
    Else,
}

fn front_of(file: &[u8], tokens: &[Token], name: usize) -> Lead {
    let Some(before) = tokens.get(..name) else {
        return Lead::Else;
    };
    let mut depth: usize = 0;
    for token in before.iter().rev().take(LOOKED_AT) {
        match text_at(file, token.start as usize, token.end as usize) {
            Some("extern") => return Lead::Extern,
            Some(";" | "{" | "}") => return Lead::Else,
            Some(")") => depth = depth.saturating_add(1),
            Some("(") if depth == 0 => return Lead::Bracket,
            Some("(") => depth = depth.saturating_sub(1),
            _ => {}
        }
    }
    Lead::Else
}

// Whether a value stands behind a declared name.
fn has_value(file: &[u8], tokens: &[Token], behind: usize) -> bool {
    for number in behind..tokens.len() {
        match spelled(file, tokens, number) {
            Some("=") => return true,
            Some("," | ";") => return false,
            _ => {}
        }
    }
    false
}

fn spelled<'a>(file: &'a [u8], tokens: &[Token], number: usize) -> Option<&'a str> {
    let token = tokens.get(number)?;
    text_at(file, token.start as usize, token.end as usize)
}

// The token behind the list that begins at this one.
fn behind_list(file: &[u8], tokens: &[Token], opening: usize) -> usize {
    let mut depth: usize = 0;
    for number in opening..tokens.len() {
        match spelled(file, tokens, number) {
            Some("(") => depth = depth.saturating_add(1),
            Some(")") => depth = depth.saturating_sub(1),
            _ => {}
        }
        if depth == 0 {
            return number.saturating_add(1);
        }
    }
    tokens.len()
}
