//! How nodes that were numbered from 0 on come to stand behind others.

ghost use Rattle.std.specs.Prelude.{◌≡◌, ◌+◌, ◌++◌, IfOk, OnOk, OnErr, IfErr, length};
ghost use Rattle.cr_syntax.specs.Kept.{PartsAreBelow};
ghost use Rattle.cr_exprs.specs.Behind.{numbers_behind, nodes_behind};
ghost use Rattle.cr_exprs_descent.specs.Answers.{Keeps};

use cr_exprs_descent::{ParseFault, drop_to};
use cr_rows::Row;
use cr_syntax::Node;
use std::alloc::{AllocError, Global};

/// Appends nodes whose parts are numbered from the first of them on, and gives the number that the one with this number
/// has then. After an error the nodes are as they were.
pub(crate) fn append(
    alloc: Global,
    nodes: &mut Row<Node>,
    more: &[Node],
    number: u32,
) -> Result<u32, ParseFault>
    requires below { PartsAreBelow nodes.old }
    requires more { PartsAreBelow more.now }
    ensures ok { IfOk result (λ node. nodes.new ≡ nodes.old ++ nodes_behind (length nodes.old) more.now) }
    ensures node { IfOk result (λ node. node ≡ number + length nodes.old) }
    ensures old { OnErr result (nodes.new ≡ nodes.old) }
    ensures err { IfErr result (λ fault. fault ≡ ParseFault.NoMemory) }
{
    let Ok(before) = u32::try_from(nodes.len()) else {
        return Err(ParseFault::NoMemory);
    };
    let node = number_behind(before, number)?;
    match push_all(alloc, nodes, before, more) {
        Ok(()) => Ok(node),
        Err(_) => {
            drop_to(nodes, before as usize);
            Err(ParseFault::NoMemory)
        }
    }
}

/// Appends them behind so many, where some may be left at an error.
fn push_all(
    alloc: Global,
    nodes: &mut Row<Node>,
    before: u32,
    more: &[Node],
) -> Result<(), AllocError>
    requires before { before ≡ length nodes.old }
    requires below { PartsAreBelow nodes.old }
    requires more { PartsAreBelow more.now }
    ensures ok { OnOk result (nodes.new ≡ nodes.old ++ nodes_behind before more.now) }
    ensures keeps { OnErr result (Keeps nodes.old nodes.new) }
    ensures below { OnErr result (PartsAreBelow nodes.new) }
{
    for node in more {
        nodes.push(Node {
            kind: node.kind,
            first: node.first,
            last: node.last,
            parts: numbers_behind(alloc, before, node.parts.as_slice())?,
        })?;
    }
    Ok(())
}

fn numbers_behind(alloc: Global, before: u32, parts: &[u32]) -> Result<Row<u32>, AllocError>
    ensures { IfOk result (λ row. row ≡ numbers_behind before parts.now) }
{
    let mut row = Row::new(alloc);
    for part in parts {
        row.push(number_behind(before, *part)?)?;
    }
    Ok(row)
}

fn number_behind(before: u32, number: u32) -> Result<u32, AllocError>
    ensures { IfOk result (λ n. n ≡ number + before) }
{
    number.checked_add(before).ok_or(AllocError)
}
