ghost use Rattle.std.specs.Prelude.{◌≡◌, ◌∷◌, [], OnOk, IfSome, IfNone, ◌++◌, option_to_list};
ghost use Rattle.cr_syntax.specs.Scopes.{is_type, said_of, put, enter};

use cr_rows::Row;
use indexmap::IndexMap;
use std::alloc::{AllocError, Global};
use std::collections::LinkedList;
use std::marker::Model;

/// An identifier that a scope declares, and whether it is a typedef name there.
#[derive(Drop, Debug)]
pub struct TypeName {
    pub name: Row<u8>,
    pub is_type: bool,
}

/// The names that a scope declares, each once, in the order of their first declarations. A clause sees the list of them.
#[derive(Drop)]
pub struct Scope {
    names: IndexMap<Vec<u8>, bool>,
}

impl Model for Scope {
    ghost use Rattle.std.specs.Prelude.{List};
    ghost use Rattle.std.specs.Coded.{coded_list};
    ghost use Rattle.cr_syntax.specs.declared.scopes.TypeName as type_name;
    ghost use Rattle.cr_syntax.specs.Scopes.{names_in};

    ghost Value = { List type_name.TypeName };

    ghost view = { λ scope. names_in scope.names.entries };
}

/// The scopes that are open, the innermost first.
pub type OpenScopes = LinkedList<Scope>;

impl Scope {
    /// A scope with nothing declared.
    pub fn new(alloc: Global) -> Scope
        ensures { result ≡ [] }
    {
        Scope {
            names: IndexMap::new(alloc),
        }
    }

    /// Declares a name. The error is want of memory.
    pub fn enter(&mut self, alloc: Global, spelling: &[u8], is_type: bool) -> Result<(), AllocError>
        ensures { OnOk result (self.new ≡ put (record { name = spelling.now; is_type = is_type }) self.old) }
    {
        self.names.insert(spelling.to_vec(alloc)?, is_type)?;
        Ok(())
    }

    fn said(&self, spelling: &[u8]) -> Option<bool>
        ensures { result ≡ said_of self.now spelling.now }
    {
        self.names.get(spelling).copied()
    }
}

/// Whether the scopes make an identifier a type.
pub fn is_type(scopes: &OpenScopes, spelling: &[u8]) -> bool
    ensures { result ≡ is_type scopes.now spelling.now }
{
    let mut left = scopes.iter();
    while let Some(scope) = left.next() {
        if let Some(found) = scope.said(spelling) {
            return found;
        }
    }
    false
}

/// Puts a name into the innermost scope. The error is want of memory.
pub fn enter(
    alloc: Global,
    scopes: &mut OpenScopes,
    spelling: &[u8],
    is_type: bool,
) -> Result<(), AllocError>
    ensures { OnOk result (scopes.new ≡ enter (record { name = spelling.now; is_type = is_type }) scopes.old) }
{
    let mut scope = match scopes.pop_front() {
        Some(scope) => scope,
        None => Scope::new(alloc),
    };
    scope.enter(alloc, spelling, is_type)?;
    scopes.push_front(scope)?;
    Ok(())
}

/// Opens a scope with nothing declared. The error is want of memory.
pub fn begin(alloc: Global, scopes: &mut OpenScopes) -> Result<(), AllocError>
    ensures { OnOk result (scopes.new ≡ [] ∷ scopes.old) }
{
    scopes.push_front(Scope::new(alloc))?;
    Ok(())
}
