//! Where reading begins. Each function here and in the modules that it stands on is told the token to begin at and how many
//! levels are open before it.

ghost use Rattle.std.specs.Prelude.{◌≤◌, [], IfOk, length};
ghost use Rattle.cr_syntax.specs.Kept.{PartsAreBelow};
ghost use Rattle.cr_syntax_machine.specs.Machine.{whole};
ghost use Rattle.cr_syntax_machine.specs.MachineBody.{body, start_goal};
ghost use Rattle.cr_exprs_descent.specs.Source.{IsReadable, text_of};
ghost use Rattle.cr_exprs_descent.specs.Answers.{Reads, IsPlaced};
ghost use Rattle.cr_exprs_descent.specs.Parts.{part_of};

use crate::expressions::{assignment, conditional, expression};
use crate::fault::ParseFault;
use crate::found::Found;
use crate::goal::Goal;
use crate::source::{Source, bar_unused};
use cr_rows::Row;
use cr_syntax::{Node, OpenScopes};
use std::alloc::Global;

/// What is to be read, with no unused keyword behind it.
pub fn whole(
    alloc: Global,
    source: &Source,
    goal: Goal,
    at: usize,
    depth: usize,
    scopes: &mut OpenScopes,
    nodes: &mut Row<Node>,
) -> Result<Found, ParseFault>
    requires readable { IsReadable source.now }
    requires at { at ≤ length source.now.tokens.now }
    requires depth { depth ≤ 128 }
    requires below { PartsAreBelow nodes.old }
    ensures reads { Reads (text_of source.now) (body (whole (part_of goal) depth)) scopes.old at nodes.new scopes.new result }
    ensures placed { IfOk result (λ x. IsPlaced (length source.now.tokens.now) at nodes.old nodes.new [] x) }
{
    let found = read(alloc, source, goal, at, depth, scopes, nodes)?;
    bar_unused(source, found.next, depth)?;
    Ok(found)
}

/// What is to be read, whatever stands behind it.
pub fn read(
    alloc: Global,
    source: &Source,
    goal: Goal,
    at: usize,
    depth: usize,
    scopes: &mut OpenScopes,
    nodes: &mut Row<Node>,
) -> Result<Found, ParseFault>
    requires readable { IsReadable source.now }
    requires at { at ≤ length source.now.tokens.now }
    requires depth { depth ≤ 128 }
    requires below { PartsAreBelow nodes.old }
    ensures reads { Reads (text_of source.now) (body (start_goal (part_of goal) depth)) scopes.old at nodes.new scopes.new result }
    ensures placed { IfOk result (λ x. IsPlaced (length source.now.tokens.now) at nodes.old nodes.new [] x) }
{
    match goal {
        Goal::Expression => expression(alloc, source, at, depth, scopes, nodes),
        Goal::Assignment => assignment(alloc, source, at, depth, scopes, nodes),
        Goal::Conditional => conditional(alloc, source, at, depth, scopes, nodes),
    }
}
