// Pass v: what passes through a variable.
ghost use Rattle.std.specs.Prelude.{◌≡◌, IfOk};
ghost use Rattle.pass_values.specs.Values.{v_offering};

use crate::assigned::assigned_level;
use crate::bare::declarations_level;
use crate::declarators::{kept, plains_in};
use crate::initial::initials_level;
use crate::known::Known;
use crate::lefts::lefts_in;
use cr_scopes::Names;
use cr_syntax::{Node, Unit};
use cr_tokens::Token;
use pass_edit::Menu;
use std::alloc::{AllocError, Global};

/// What pass v offers for a unit with these names: at level 0 each expression that initialises a declarator comes, in brackets, to the one use
/// of the declarator's name, and the declarator goes; at level 1 the right side of each assignment, where that is a statement, comes to
/// the other use of what its left side names, unless that is a left side too, the statement becomes `;`, and the declarator goes; at level 2
/// each declaration in a block that has one declarator, whose name has no use, becomes its initialiser. It takes time by the assignments times
/// the declarators and the assignments. The error is want of memory.
pub fn values(alloc: Global, unit: &Unit, names: &Names) -> Result<Menu, AllocError>
    ensures { IfOk result (λ menu. menu ≡ v_offering unit.now.tokens.list.items unit.now.nodes names.now) }
{
    menu(
        alloc,
        unit.tokens.list.as_slice(),
        unit.nodes.as_slice(),
        names,
    )
}

fn menu(alloc: Global, tokens: &[Token], nodes: &[Node], names: &Names) -> Result<Menu, AllocError>
    ensures { IfOk result (λ menu. menu ≡ v_offering tokens.now nodes.now names.now) }
{
    let plains = plains_in(alloc, nodes, names)?;
    let lefts = lefts_in(alloc, nodes)?;
    let known = Known {
        tokens,
        nodes,
        names,
        plains: plains.as_slice(),
        lefts: lefts.as_slice(),
    };
    let mut levels = Vec::new(alloc);
    levels.push(initials_level(alloc, &known)?)?;
    levels.push(assigned_level(alloc, &known)?)?;
    levels.push(declarations_level(alloc, &known)?)?;
    Ok(Menu::new(levels, kept(alloc, tokens, nodes)?))
}
