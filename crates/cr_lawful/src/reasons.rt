// The reasons against a file whose tokens are in order: a number, and the line of a token.
ghost use Rattle.std.specs.Prelude.{◌≡◌, ◌≤◌, length};
ghost use Rattle.cr_lawful.specs.Lawful.{parse_fault_reason, name_reason, type_reason, ruling_by, run_ruling, token_line, node_line};

use cr_check::TypeFault;
use cr_cursor::{Reason, Ruling, line_of};
use cr_exprs_descent::ParseFault;
use cr_meaning::Run;
use cr_scopes::NameFault;
use cr_tokens::Token;
use cr_typed::Typed;

// The line on which a token begins, from 1; 1 where there is no such token.
fn token_line(file: &[u8], tokens: &[Token], token: usize) -> u32
    requires { length file.now ≤ 1048576 }
    ensures { result ≡ token_line file.now tokens.now token }
{
    match tokens.get(token) {
        Some(token) => line_of(file, token.start),
        None => 1,
    }
}

pub(crate) fn parse_ruling(file: &[u8], tokens: &[Token], fault: ParseFault) -> Ruling
    requires { length file.now ≤ 1048576 }
    ensures { result ≡ ruling_by (parse_fault_reason file.now tokens.now fault) }
{
    let (number, token) = match fault {
        ParseFault::NoMemory => return Ruling::NoMemory,
        ParseFault::Unexpected(token) => (1, token as usize),
        ParseFault::Ended => (2, tokens.len().saturating_sub(1)),
        ParseFault::TooDeep(token) => (3, token as usize),
        ParseFault::OutsideSubset(token, _) => (4, token as usize),
    };
    Ruling::Unlawful(Reason::Parse(number, token_line(file, tokens, token)))
}

pub(crate) fn name_ruling(file: &[u8], tokens: &[Token], fault: NameFault) -> Ruling
    requires { length file.now ≤ 1048576 }
    ensures { result ≡ ruling_by (name_reason file.now tokens.now fault) }
{
    let (number, token) = match fault {
        NameFault::NoMemory => return Ruling::NoMemory,
        NameFault::Unknown(token) => (1, token),
        NameFault::Twice(token) => (2, token),
    };
    Ruling::Unlawful(Reason::Name(number, token_line(file, tokens, token as usize)))
}

// A typedef name that is declared again with another type is a fault of names.
pub(crate) fn type_ruling(file: &[u8], tokens: &[Token], fault: TypeFault) -> Ruling
    requires { length file.now ≤ 1048576 }
    ensures { result ≡ ruling_by (type_reason file.now tokens.now fault) }
{
    Ruling::Unlawful(match fault {
        TypeFault::NoMemory => return Ruling::NoMemory,
        TypeFault::Twice(token) => Reason::Name(2, token_line(file, tokens, token as usize)),
        TypeFault::Broken(row, token) => {
            Reason::Typing(row, token_line(file, tokens, token as usize))
        }
    })
}

// The line on which a node's first token begins, from 1; 1 where there is no such node.
fn node_line(file: &[u8], typed: &Typed, node: u32) -> u32
    requires { length file.now ≤ 1048576 }
    ensures { result ≡ node_line file.now typed.now node }
{
    match typed.nodes.as_slice().get(node as usize) {
        Some(node) => token_line(file, typed.tokens.as_slice(), node.first as usize),
        None => 1,
    }
}

/// What is ruled on what the run of a file's typed unit came to: Lawful, where it ended.
pub fn run_ruling(file: &[u8], typed: &Typed, run: &Run) -> Ruling
    requires { length file.now ≤ 1048576 }
    ensures { result ≡ run_ruling file.now typed.now run.now }
{
    match run {
        Run::Ended { .. } => Ruling::Lawful,
        Run::Undefined(number, node) => {
            Ruling::Unlawful(Reason::Undefined(*number, node_line(file, typed, *node)))
        }
        Run::Left(number, node) => {
            Ruling::Unlawful(Reason::Left(*number, node_line(file, typed, *node)))
        }
        Run::Stopped => Ruling::Stopped,
        Run::NoMemory => Ruling::NoMemory,
    }
}
