// Functions whose names mean something outside the file.
ghost use Rattle.std.specs.Prelude.{◌≡◌, ◌++◌, IfOk, OnOk};
ghost use Rattle.cr_scopes_events.specs.Events.{events_of};
ghost use Rattle.pass_names.specs.Reserved.{is_main, is_of_library, is_reserved, reserved_in, reserved_tokens};

use cr_scopes_events::{Event, Role, events};
use cr_syntax::Unit;
use cr_tokens::Token;
use pass_levels::spelling_at;
use std::alloc::{AllocError, Global};

fn is_main(text: &[u8]) -> bool
    ensures { result ≡ is_main text.now }
{
    text == b"main".as_slice()
}

fn is_of_library(text: &[u8]) -> bool
    ensures { result ≡ is_of_library text.now }
{
    text == b"printf".as_slice()
        || text == b"putchar".as_slice()
        || text == b"abort".as_slice()
        || text == b"exit".as_slice()
}

fn is_reserved(library: bool, text: &[u8]) -> bool
    ensures { result ≡ is_reserved library text.now }
{
    is_main(text) || library && is_of_library(text)
}

fn reserved_tokens(
    alloc: Global,
    file: &[u8],
    tokens: &[Token],
    library: bool,
    events: &[Event],
) -> Result<Vec<u32>, AllocError>
    ensures { IfOk result (λ found. found.items ≡ reserved_tokens file.now tokens.now library events.now) }
{
    let mut found = Vec::new(alloc);
    for event in events {
        put_reserved(file, tokens, library, *event, &mut found)?;
    }
    Ok(found)
}

fn put_reserved(
    file: &[u8],
    tokens: &[Token],
    library: bool,
    event: Event,
    found: &mut Vec<u32>,
) -> Result<(), AllocError>
    ensures { OnOk result (found.new.items ≡ found.old.items ++ reserved_in file.now tokens.now library event) }
{
    match event {
        Event::Name(token, Role::Function) => if is_reserved(
            library,
            spelling_at(file, tokens, token as usize),
        ) {
            found.push(token)?;
        },
        _ => {}
    }
    Ok(())
}

/// The tokens that declare main as a function, and with `library` those that declare a function of the library. The error is want of memory.
pub fn reserved_of(
    alloc: Global,
    file: &[u8],
    unit: &Unit,
    library: bool,
) -> Result<Vec<u32>, AllocError>
    ensures { IfOk result (λ found. found.items ≡ reserved_tokens file.now unit.now.tokens.list.items library (events_of unit.now.tokens.list.items unit.now.nodes unit.now.items)) }
{
    let events = events(alloc, unit)?;
    let events = events.as_slice();
    let tokens = unit.tokens.list.as_slice();
    reserved_tokens(alloc, file, tokens, library, events)
}
