ghost use Rattle.std.specs.Prelude.{◌≡◌, [], false, ◌<◌, ◌≤◌, ◌^◌, IfOk, IfErr, OnErr, length};
ghost use Rattle.cr_syntax.specs.Words.{AreSpans, lexemes_of};
ghost use Rattle.cr_syntax.specs.Kept.{PartsAreBelow};
ghost use Rattle.cr_syntax.specs.Expressions.{Read, IsReading};
ghost use Rattle.cr_exprs_descent.specs.Answers.{IsPlaced, tree};
ghost use Rattle.cr_exprs.specs.Names.{scopes_of};
ghost use Rattle.cr_exprs.specs.Expression.{start_of, IsRefused};

use crate::behind::append;
use crate::names::TypeNames;
use cr_exprs_descent::{Goal, ParseFault, Source, whole, words_of};
use cr_rows::Row;
use cr_syntax::Node;
use cr_tokens::Tokens;
use std::alloc::Global;

/// Reads the longest run of tokens from `at` on that begins a text of the goal in these scopes, where so many levels are
/// open, and appends its nodes. It gives the node and the token after it, or the first refusal in the run or directly
/// behind it. After a refusal, and for want of memory, the nodes are as they were.
pub fn expression(
    alloc: Global,
    file: &[u8],
    tokens: &Tokens,
    at: u32,
    depth: u32,
    goal: Goal,
    scope: &TypeNames,
    nodes: &mut Row<Node>,
) -> Result<(u32, u32), ParseFault>
    requires spans { AreSpans file.now tokens.now.list.items }
    requires few { length tokens.now.list.items < 2 ^ 32 }
    requires at { at ≤ length tokens.now.list.items }
    requires depth { depth ≤ 128 }
    requires below { PartsAreBelow nodes.old }
    ensures read { IfOk result (λ x. IsReading (lexemes_of file.now tokens.now.list.items) (start_of goal (scopes_of scope.now) depth at) (Read (tree nodes.new x.0) x.1)) }
    ensures refused { IfErr result (IsRefused (lexemes_of file.now tokens.now.list.items) (start_of goal (scopes_of scope.now) depth at)) }
    ensures placed { IfOk result (λ x. IsPlaced (length tokens.now.list.items) at nodes.old nodes.new [] (record { node = x.0; next = x.1 })) }
    ensures old { OnErr result (nodes.new ≡ nodes.old) }
{
    let words = words_of(alloc, file, tokens.list.as_slice())?;
    let source = Source {
        file,
        tokens: tokens.list.as_slice(),
        words: words.as_slice(),
    };
    let mut scopes = scope.to_scopes(alloc)?;
    let mut own = Row::new(alloc);
    let found = whole(
        alloc,
        &source,
        goal,
        at as usize,
        depth as usize,
        &mut scopes,
        &mut own,
    )?;
    let node = append(alloc, nodes, own.as_slice(), found.node)?;
    Ok((node, found.next as u32))
}
