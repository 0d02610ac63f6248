// Pass o: what `printf` prints.
ghost use Rattle.std.specs.Prelude.{◌≡◌, IfOk};
ghost use Rattle.pass_output.specs.Output.{kept_d, o_offering};

use crate::beside::bytes_level;
use crate::known::Known;
use crate::numbers::numbers_level;
use crate::taken::conversions_level;
use cr_rows::Row;
use cr_syntax::{Node, Unit};
use cr_tokens::Token;
use pass_edit::{Kept, Menu};
use std::alloc::{AllocError, Global};

// The bytes that come at level 2.
fn kept(alloc: Global) -> Result<Kept, AllocError>
    ensures { IfOk result (λ kept. kept ≡ kept_d) }
{
    let mut bytes = Vec::new(alloc);
    bytes.extend_from_slice(b"%d")?;
    Ok(Kept {
        bytes: Row::from_vec(bytes),
        tokens: Row::new(alloc),
        forms: Row::new(alloc),
        runs: Row::new(alloc),
    })
}

/// What pass o offers for a file's unit: at level 0 each conversion of a format that has an argument goes, with the argument and the comma before
/// it; at level 1 each format that has a conversion, and other bytes beside it, becomes its conversions; at level 2 each conversion of an
/// integer other than `%d` that has an argument becomes `%d`, and the argument, where that is a cast, what is cast, and an integer
/// constant without its suffix. It takes time by the formats' bytes and the nodes. The error is want of memory.
pub fn output(alloc: Global, file: &[u8], unit: &Unit) -> Result<Menu, AllocError>
    ensures { IfOk result (λ menu. menu ≡ o_offering file.now unit.now.tokens.list.items unit.now.nodes) }
{
    menu(
        alloc,
        file,
        unit.tokens.list.as_slice(),
        unit.nodes.as_slice(),
    )
}

fn menu(alloc: Global, file: &[u8], tokens: &[Token], nodes: &[Node]) -> Result<Menu, AllocError>
    ensures { IfOk result (λ menu. menu ≡ o_offering file.now tokens.now nodes.now) }
{
    let known = Known {
        file,
        tokens,
        nodes,
    };
    let mut levels = Vec::new(alloc);
    levels.push(conversions_level(alloc, &known)?)?;
    levels.push(bytes_level(alloc, &known)?)?;
    levels.push(numbers_level(alloc, &known)?)?;
    Ok(Menu::new(levels, kept(alloc)?))
}
