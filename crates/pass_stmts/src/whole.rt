// Pass f: the printed unit.
ghost use Rattle.std.specs.Prelude.{◌≡◌, IfOk};
ghost use Rattle.cr_tokens.specs.Tokens.{Tokenizes};
ghost use Rattle.pass_edit.specs.declared.change.Text.TheVariants as TheText;
ghost use Rattle.pass_stmts.specs.Printed.{IsPrintedOffering, f_offering};

use cr_printer::print;
use cr_rows::Row;
use cr_syntax::Unit;
use pass_edit::{Change, Edits, Kept, Menu, Text};
use std::alloc::{AllocError, Global};

/// What pass f offers for a file with this unit: the whole file becomes the printed unit. The error is want of memory.
pub fn printed(alloc: Global, file: &[u8], unit: &Unit) -> Result<Menu, AllocError>
    requires { Tokenizes file.now unit.now.tokens.list.items }
    ensures { IfOk result (IsPrintedOffering file.now unit.now.tokens.list.items) }
{
    let text = print(alloc, file, unit)?;
    menu(alloc, file, text)
}

fn menu(alloc: Global, file: &[u8], text: Vec<u8>) -> Result<Menu, AllocError>
    ensures { IfOk result (λ menu. menu ≡ f_offering file.now text.items) }
{
    let whole = whole_becomes(file.len(), text.len())?;
    let mut edits = Edits::new(alloc);
    edits.push(&[whole])?;
    let mut levels = Vec::new(alloc);
    levels.push(edits)?;
    let mut kept = Kept::nothing(alloc);
    kept.bytes = Row::from_vec(text);
    Ok(Menu::new(levels, kept))
}

// All bytes of a file of so many go, and so many kept ones come.
fn whole_becomes(bytes: usize, kept: usize) -> Result<Change, AllocError>
    ensures { IfOk result (λ change. change ≡ record { start = 0; end = bytes; text = TheText.Kept 0 kept }) }
{
    Ok(Change {
        start: 0,
        end: place(bytes)?,
        text: Text::Kept(0, place(kept)?),
    })
}

fn place(at: usize) -> Result<u32, AllocError>
    ensures { IfOk result (λ place. place ≡ at) }
{
    match u32::try_from(at) {
        Ok(place) => Ok(place),
        Err(_) => Err(AllocError),
    }
}
