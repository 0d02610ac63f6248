// The levels of pass c.
ghost use Rattle.std.specs.Prelude.{◌≡◌, length, IfOk};
ghost use Rattle.pass_levels.specs.Level.{level_of};
ghost use Rattle.pass_exprs.specs.Expressions.{c_offering, constant_gives, first_gives, last_gives, last_of_several, operands_at};

use crate::operands::{Operands, operands_by, operands_of};
use cr_syntax::Node;
use cr_tokens::Token;
use pass_edit::{Edits, Kept, Menu, Text};
use pass_levels::{Counted, Level, becoming, first_of, kind_at, list, parts_at, put_in_its_place};
use std::alloc::{AllocError, Global};

// Each expression becomes a constant.
#[derive(Drop)]
struct Constants<'a> {
    tokens: &'a [Token],
    nodes: &'a [Node],
    text: Text,
}

impl Level for Constants<'_> {
    ghost gives = { λ l k. constant_gives l.tokens.now l.nodes.now l.text k };

    fn give(&self, alloc: Global, node: usize, all: &mut Vec<Counted>) -> Result<(), AllocError> {
        match operands_by(kind_at(self.nodes, node)) {
            Operands::NoExpression => {}
            _ => all.push(becoming(alloc, self.tokens, self.nodes, node, self.text)?)?,
        }
        Ok(())
    }
}

// Each expression with an operand becomes the first one.
#[derive(Drop)]
struct FirstOperands<'a> {
    tokens: &'a [Token],
    nodes: &'a [Node],
}

impl Level for FirstOperands<'_> {
    ghost gives = { λ l k. first_gives l.tokens.now l.nodes.now k };

    fn give(&self, alloc: Global, node: usize, all: &mut Vec<Counted>) -> Result<(), AllocError> {
        let operands = first_of(operands_at(self.nodes, node));
        put_in_its_place(alloc, self.tokens, self.nodes, node, operands, all)
    }
}

// Each expression with several operands becomes the last one.
#[derive(Drop)]
struct LastOperands<'a> {
    tokens: &'a [Token],
    nodes: &'a [Node],
}

impl Level for LastOperands<'_> {
    ghost gives = { λ l k. last_gives l.tokens.now l.nodes.now k };

    fn give(&self, alloc: Global, node: usize, all: &mut Vec<Counted>) -> Result<(), AllocError> {
        let operands = last_of_several(operands_at(self.nodes, node));
        put_in_its_place(alloc, self.tokens, self.nodes, node, operands, all)
    }
}

fn operands_at(nodes: &[Node], node: usize) -> &[u32]
    ensures { result.now ≡ operands_at nodes.now node }
{
    operands_of(operands_by(kind_at(nodes, node)), parts_at(nodes, node))
}

fn last_of_several(operands: &[u32]) -> &[u32]
    ensures { result.now ≡ last_of_several operands.now }
{
    if operands.len() >= 2 {
        &operands[operands.len() - 1..]
    } else {
        &[]
    }
}

fn all_become(
    alloc: Global,
    tokens: &[Token],
    nodes: &[Node],
    text: Text,
) -> Result<Edits, AllocError>
    ensures { IfOk result (λ edits. edits ≡ level_of (constant_gives tokens.now nodes.now text) (length nodes.now)) }
{
    list(
        alloc,
        nodes.len(),
        &Constants {
            tokens,
            nodes,
            text,
        },
    )
}

/// What pass c offers for a unit of these tokens and nodes: at level 0 each expression becomes `0`, at level 1 `1`, at level 2 its first
/// operand, and at level 3 the last one of two or more. The error is want of memory.
pub fn expressions(alloc: Global, tokens: &[Token], nodes: &[Node]) -> Result<Menu, AllocError>
    ensures { IfOk result (λ menu. menu ≡ c_offering tokens.now nodes.now) }
{
    let count = nodes.len();
    let mut levels = Vec::new(alloc);
    levels.push(all_become(alloc, tokens, nodes, Text::Zero)?)?;
    levels.push(all_become(alloc, tokens, nodes, Text::One)?)?;
    levels.push(list(alloc, count, &FirstOperands { tokens, nodes })?)?;
    levels.push(list(alloc, count, &LastOperands { tokens, nodes })?)?;
    Ok(Menu::new(levels, Kept::nothing(alloc)))
}
