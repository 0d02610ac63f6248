ghost use Rattle.std.specs.Prelude.{◌≡◌, [], IfOk};
ghost use Rattle.cr_exprs.specs.Names.{names_onto, scopes_of};

use cr_exprs_descent::give_back;
use cr_rows::Row;
use cr_syntax::{OpenScopes, Scope, TypeName};
use std::alloc::{AllocError, Global};
use std::collections::LinkedList;

/// The scopes that are open, the innermost last, each with its names, the latest last.
#[derive(Drop, Debug)]
pub struct TypeNames {
    pub scopes: Row<Row<TypeName>>,
}

impl TypeNames {
    /// The scopes as the grammar has them, the innermost first. The error is want of memory.
    pub fn to_scopes(&self, alloc: Global) -> Result<OpenScopes, AllocError>
        ensures { IfOk result (λ scopes. scopes ≡ scopes_of self.now) }
    {
        let mut scopes = LinkedList::new(alloc);
        for names in self.scopes.as_slice() {
            give_back(&mut scopes, scope_of(alloc, names.as_slice())?)?;
        }
        Ok(scopes)
    }
}

fn scope_of(alloc: Global, names: &[TypeName]) -> Result<Scope, AllocError>
    ensures { IfOk result (λ scope. scope ≡ names_onto names.now []) }
{
    let mut scope = Scope::new(alloc);
    for entry in names {
        scope.enter(alloc, entry.name.as_slice(), entry.is_type)?;
    }
    Ok(scope)
}
