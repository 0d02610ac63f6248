//! How declared names enter their scopes (C11 6.2.1).

ghost use Rattle.std.specs.Prelude.{◌≡◌, ◌<◌, ◌∷◌, OnOk, IfErr, length};
ghost use Rattle.cr_syntax.specs.Kept.{PartsAreBelow};
ghost use Rattle.cr_syntax_machine.specs.Machine.{innermost_of};
ghost use Rattle.cr_exprs_descent.specs.Source.{IsReadable, text_of};
ghost use Rattle.cr_exprs_descent.specs.Answers.{tree};
ghost use Rattle.cr_exprs_descent.specs.Parts.{declared};

use cr_exprs_descent::{Found, ParseFault, Source, bring, give_back, past, taken};
use cr_rows::Row;
use cr_syntax::{Context, Node, OpenScopes};
use std::alloc::Global;

/// The name of a declarator enters the scope around that of its own parameters, which goes on: it is the one of a function's body.
pub(crate) fn define(
    alloc: Global,
    source: &Source,
    context: Context,
    declarator: Found,
    scopes: &mut OpenScopes,
    nodes: &Row<Node>,
) -> Result<(), ParseFault>
    requires readable { IsReadable source.now }
    requires below { PartsAreBelow nodes.now }
    requires node { declarator.node < length nodes.now }
    ensures ok { OnOk result (scopes.new ≡ innermost_of scopes.old ∷ declared (text_of source.now) declarator.next context (tree nodes.now declarator.node) scopes.old) }
    ensures err { IfErr result (λ fault. fault ≡ ParseFault.NoMemory) }
{
    let said = past(nodes, context, declarator.node);
    let own = taken(alloc, scopes);
    bring(
        alloc,
        source,
        declarator.next,
        said.name as usize,
        said.type_name,
        scopes,
    )?;
    give_back(scopes, own)?;
    Ok(())
}
