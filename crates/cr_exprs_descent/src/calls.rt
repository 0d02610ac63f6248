//! What the parser of declarations and statements reads by.

ghost use Rattle.std.specs.Prelude.{[], ◌≤◌, IfOk, length};
ghost use Rattle.cr_syntax.specs.Kept.{PartsAreBelow};
ghost use Rattle.cr_syntax.specs.Context.{fresh};
ghost use Rattle.cr_syntax_machine.specs.Machine.{named, row, declarator};
ghost use Rattle.cr_syntax_machine.specs.MachineBody.{body};
ghost use Rattle.cr_exprs_descent.specs.Source.{IsReadable, text_of};
ghost use Rattle.cr_exprs_descent.specs.Answers.{Reads, IsPlaced};

use crate::declarators::{Wanted, declarator};
use crate::fault::ParseFault;
use crate::found::Found;
use crate::source::Source;
use crate::specifiers::row;
use cr_rows::Row;
use cr_syntax::{Context, Node, OpenScopes, Part};
use std::alloc::Global;

/// Specifiers, with storage classes.
pub fn specifier_row(
    alloc: Global,
    source: &Source,
    at: usize,
    depth: usize,
    scopes: &mut OpenScopes,
    nodes: &mut Row<Node>,
) -> Result<Found, ParseFault>
    requires readable { IsReadable source.now }
    requires at { at ≤ length source.now.tokens.now }
    requires depth { depth ≤ 128 }
    requires below { PartsAreBelow nodes.old }
    ensures reads { Reads (text_of source.now) (body (row Part.Specifiers fresh depth)) scopes.old at nodes.new scopes.new result }
    ensures placed { IfOk result (λ x. IsPlaced (length source.now.tokens.now) at nodes.old nodes.new [] x) }
{
    row(alloc, source, Part::Specifiers, at, depth, scopes, nodes)
}

/// A declarator with a name, where so much is said before.
pub fn named_declarator(
    alloc: Global,
    source: &Source,
    context: Context,
    at: usize,
    depth: usize,
    scopes: &mut OpenScopes,
    nodes: &mut Row<Node>,
) -> Result<Found, ParseFault>
    requires readable { IsReadable source.now }
    requires at { at ≤ length source.now.tokens.now }
    requires depth { depth ≤ 128 }
    requires below { PartsAreBelow nodes.old }
    ensures reads { Reads (text_of source.now) (body (declarator named context depth)) scopes.old at nodes.new scopes.new result }
    ensures placed { IfOk result (λ x. IsPlaced (length source.now.tokens.now) at nodes.old nodes.new [] x) }
{
    declarator(
        alloc,
        source,
        Wanted::Named,
        context,
        at,
        depth,
        scopes,
        nodes,
    )
}
