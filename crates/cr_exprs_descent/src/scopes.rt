//! The scopes that are open while the parser reads, and how declared names enter them (C11 6.2.1).

ghost use Rattle.std.specs.Prelude.{◌≡◌, ◌<◌, ◌∷◌, OnOk, IfErr, length, if◌then◌else◌};
ghost use Rattle.cr_syntax.specs.Scopes.{enter};
ghost use Rattle.cr_syntax.specs.Kept.{PartsAreBelow};
ghost use Rattle.cr_syntax.specs.Context.{is_bare};
ghost use Rattle.cr_syntax_machine.specs.Machine.{brought, innermost_of, around};
ghost use Rattle.cr_exprs_descent.specs.Source.{IsReadable, text_of};
ghost use Rattle.cr_exprs_descent.specs.Answers.{tree};
ghost use Rattle.cr_exprs_descent.specs.Parts.{declared, entered};

use crate::arena::{is_declarator, is_name, past};
use crate::fault::ParseFault;
use crate::found::Found;
use crate::source::{Source, spelling};
use cr_rows::Row;
use cr_syntax::{Context, Node, OpenScopes, Scope, enter};
use std::alloc::{AllocError, Global};

/// Takes the innermost scope off, an empty one where none is open.
pub fn taken(alloc: Global, scopes: &mut OpenScopes) -> Scope
    ensures value { result ≡ innermost_of scopes.old }
    ensures rest { scopes.new ≡ around scopes.old }
{
    match scopes.pop_front() {
        Some(scope) => scope,
        None => Scope::new(alloc),
    }
}

/// Puts a scope on the others. The error is want of memory.
pub fn give_back(scopes: &mut OpenScopes, scope: Scope) -> Result<(), AllocError>
    ensures { OnOk result (scopes.new ≡ scope ∷ scopes.old) }
{
    scopes.push_front(scope)?;
    Ok(())
}

/// Ends the innermost scope.
pub fn drop_scope(scopes: &mut OpenScopes)
    ensures { scopes.new ≡ around scopes.old }
{
    let _ = scopes.pop_front();
}

/// The identifier with number `name`, one before token `at`, enters the innermost scope.
pub fn bring(
    alloc: Global,
    source: &Source,
    at: usize,
    name: usize,
    is_type: bool,
    scopes: &mut OpenScopes,
) -> Result<(), ParseFault>
    requires { IsReadable source.now }
    ensures ok { OnOk result (scopes.new ≡ enter (brought (text_of source.now) at name is_type) scopes.old) }
    ensures err { IfErr result (λ fault. fault ≡ ParseFault.NoMemory) }
{
    let spelling = if name < at {
        spelling(source, name)
    } else {
        &[]
    };
    enter(alloc, scopes, spelling, is_type)?;
    Ok(())
}

/// The name of a declarator enters the scope around that of its own parameters, which ends.
pub fn declare(
    alloc: Global,
    source: &Source,
    context: Context,
    declarator: Found,
    scopes: &mut OpenScopes,
    nodes: &Row<Node>,
) -> Result<(), ParseFault>
    requires readable { IsReadable source.now }
    requires below { PartsAreBelow nodes.now }
    requires node { declarator.node < length nodes.now }
    ensures ok { OnOk result (scopes.new ≡ declared (text_of source.now) declarator.next context (tree nodes.now declarator.node) scopes.old) }
    ensures err { IfErr result (λ fault. fault ≡ ParseFault.NoMemory) }
{
    let said = past(nodes, context, declarator.node);
    drop_scope(scopes);
    bring(
        alloc,
        source,
        declarator.next,
        said.name as usize,
        said.type_name,
        scopes,
    )
}

/// The same for a parameter, which may have no name.
pub(crate) fn enter_parameter(
    alloc: Global,
    source: &Source,
    context: Context,
    declarator: Found,
    scopes: &mut OpenScopes,
    nodes: &Row<Node>,
) -> Result<(), ParseFault>
    requires readable { IsReadable source.now }
    requires below { PartsAreBelow nodes.now }
    requires node { declarator.node < length nodes.now }
    ensures ok { OnOk result (scopes.new ≡ entered (text_of source.now) declarator.next context (tree nodes.now declarator.node) scopes.old) }
    ensures err { IfErr result (λ fault. fault ≡ ParseFault.NoMemory) }
{
    if !is_declarator(nodes, declarator.node) {
        return Ok(());
    }
    declare(alloc, source, context, declarator, scopes, nodes)
}

/// The scope that stays on a declarator of a function: its parameters' where it is a name itself.
pub(crate) fn kept(nodes: &Row<Node>, declarator: u32, names: Scope, own: Scope) -> Scope
    requires below { PartsAreBelow nodes.now }
    requires node { declarator < length nodes.now }
    ensures { result ≡ (if is_bare (tree nodes.now declarator) then names else own) }
{
    if is_name(nodes, declarator) {
        names
    } else {
        own
    }
}
