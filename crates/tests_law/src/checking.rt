ghost use Rattle.cr_syntax.specs.Words.{AreSpans};

use crate::texts::unit_of;
use cr_check::{TypeFault, check};
use cr_cursor::line_of;
use cr_scopes::{NameFault, resolve};
use cr_syntax::Unit;
use cr_tokens::Token;
use std::alloc::{AllocError, Global};

// What a text comes to: `typed`, the first fault of its names or its types with its line, or `no unit`.
pub(crate) fn checked(alloc: Global, text: &str) -> Result<String, AllocError> {
    match unit_of(alloc, text)? {
        Some(unit) => unit_shown(alloc, text.as_bytes(), unit),
        None => String::from_str(alloc, "no unit"),
    }
}

fn unit_shown(alloc: Global, file: &[u8], unit: Unit) -> Result<String, AllocError>
    requires { AreSpans file.now unit.tokens.list.items }
{
    match resolve(alloc, file, &unit) {
        Ok(names) => match check(alloc, file, &unit, &names) {
            Ok(_) => String::from_str(alloc, "typed"),
            Err(fault) => type_fault_shown(alloc, file, unit.tokens.list.as_slice(), fault),
        },
        Err(fault) => name_fault_shown(alloc, file, unit.tokens.list.as_slice(), fault),
    }
}

fn line(file: &[u8], tokens: &[Token], token: u32) -> u32 {
    match tokens.get(token as usize) {
        Some(token) if file.len() <= 1_048_576 => line_of(file, token.start),
        _ => 0,
    }
}

fn type_fault_shown(
    alloc: Global,
    file: &[u8],
    tokens: &[Token],
    fault: TypeFault,
) -> Result<String, AllocError> {
    match fault {
        TypeFault::NoMemory => Err(AllocError),
        TypeFault::Twice(token) => format!(in alloc; "name 2 {}", line(file, tokens, token)),
        TypeFault::Broken(row, token) => format!(in alloc;
            "type {row} {}",
            line(file, tokens, token)
        ),
    }
}

fn name_fault_shown(
    alloc: Global,
    file: &[u8],
    tokens: &[Token],
    fault: NameFault,
) -> Result<String, AllocError> {
    match fault {
        NameFault::NoMemory => Err(AllocError),
        NameFault::Unknown(token) => format!(in alloc; "name 1 {}", line(file, tokens, token)),
        NameFault::Twice(token) => format!(in alloc; "name 2 {}", line(file, tokens, token)),
    }
}
