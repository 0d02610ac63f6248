// The first fault of a checked unit.
ghost use Rattle.std.specs.Prelude.{◌≡◌, ◌-◌, IfErr, IfOk, OnOk, length};
ghost use Rattle.cr_syntax.specs.Words.{AreSpans};
ghost use Rattle.cr_check.specs.Columns.{IsCheckedFirst};
ghost use Rattle.cr_check.specs.Checked.{IsFirstFault, IsFound, IsSoundOf, constraint_of, found_of};

use crate::checked::{Checked, declarations_of};
use crate::fault::TypeFault;
use cr_check_definitions::{is_defined, repeated};
use cr_check_expressions::Break;
use cr_scopes::Names;
use cr_syntax::Unit;
use std::alloc::{AllocError, Global};

/// Answers where there is none. Else it is a typedef name that is declared again with another type, else the first constraint that is
/// broken, else K40.
#[tactic(auto, using(crate::proofs::Found::fault_is, crate::proofs::Found::want_is))]
pub(crate) fn no_fault(
    alloc: Global,
    file: &[u8],
    unit: &Unit,
    names: &Names,
    checked: &Checked,
) -> Result<(), TypeFault>
    requires spans { AreSpans file.now unit.now.tokens.list.items }
    requires checked { IsCheckedFirst file.now unit.now names.now checked.now }
    ensures sound { OnOk result (IsSoundOf file.now unit.now names.now checked.now) }
    ensures fault { IfErr result (λ fault. IsFirstFault file.now unit.now names.now fault) }
{
    match first_fault(alloc, file, unit, names, checked)? {
        Some(fault) => Err(fault),
        None => Ok(()),
    }
}

// The first fault. The error is want of memory.
#[tactic(auto, using(crate::proofs::Found::found_is))]
fn first_fault(
    alloc: Global,
    file: &[u8],
    unit: &Unit,
    names: &Names,
    checked: &Checked,
) -> Result<Option<TypeFault>, AllocError>
    requires spans { AreSpans file.now unit.now.tokens.list.items }
    requires checked { IsCheckedFirst file.now unit.now names.now checked.now }
    ensures { IfOk result (λ fault. IsFound file.now unit.now names.now checked.now fault) }
{
    let declarations = declarations_of(file, unit, checked);
    let twice = repeated(alloc, names, &declarations)?;
    let defined = is_defined(unit.items.as_slice(), names, &declarations);
    let last = last_token(unit)?;
    Ok(first_of(twice, checked.whole.broken, defined, last))
}

fn first_of(
    twice: Option<u32>,
    broken: Option<Break>,
    defined: bool,
    last: u32,
) -> Option<TypeFault>
    ensures { result ≡ found_of twice broken defined last }
{
    match twice {
        Some(token) => Some(TypeFault::Twice(token)),
        None => constraint_of(broken, defined, last),
    }
}

fn constraint_of(broken: Option<Break>, defined: bool, last: u32) -> Option<TypeFault>
    ensures { result ≡ constraint_of broken defined last }
{
    match broken {
        Some(broken) => Some(TypeFault::Broken(broken.row, broken.token)),
        None if defined => None,
        None => Some(TypeFault::Broken(40, last)),
    }
}

fn last_token(unit: &Unit) -> Result<u32, AllocError>
    ensures { IfOk result (λ token. token ≡ length unit.now.tokens.list.items - 1) }
{
    u32::try_from(unit.tokens.list.len().saturating_sub(1)).map_err(|_| AllocError)
}
