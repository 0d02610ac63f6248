ghost use Rattle.std.specs.Prelude.{IfOk, IfSome};
ghost use Rattle.cr_syntax.specs.Words.{AreSpans};

use cr_decls::parse;
use cr_exprs_descent::ParseFault;
use cr_scopes::{NameFault, Names, resolve};
use cr_syntax::{Unit, tokens_are_spans};
use cr_tokens::{TokenFault, read};
use std::alloc::{AllocError, Global};

// The unit of a text; None where it is none.
pub(crate) fn unit_of(alloc: Global, text: &str) -> Result<Option<Unit>, AllocError>
    ensures { IfOk result (λ found. IfSome found (λ unit. AreSpans text.now unit.tokens.list.items)) }
{
    match read(alloc, text.as_bytes()) {
        Ok(tokens) => {
            tokens_are_spans();
            match parse(alloc, text.as_bytes(), &tokens) {
                Ok(unit) => Ok(Some(unit)),
                Err(ParseFault::NoMemory) => Err(AllocError),
                Err(_) => Ok(None),
            }
        }
        Err(TokenFault::NoMemory) => Err(AllocError),
        Err(_) => Ok(None),
    }
}

// What the names of a text stand for, or their fault; None where the text is no unit.
pub(crate) fn named(
    alloc: Global,
    text: &str,
) -> Result<Option<Result<Names, NameFault>>, AllocError> {
    match unit_of(alloc, text)? {
        Some(unit) => Ok(Some(resolve(alloc, text.as_bytes(), &unit))),
        None => Ok(None),
    }
}
