ghost use Rattle.std.specs.Prelude.{◌≡◌, IfOk, IfErr};
ghost use Rattle.cr_syntax.specs.Words.{AreSpans};
ghost use Rattle.cr_check.specs.Checked.{IsFirstFault, IsSoundOf};

use crate::checked::{Checked, gather};
use crate::fault::TypeFault;
use crate::faults::no_fault;
use cr_scopes::Names;
use cr_syntax::Unit;
use std::alloc::Global;

/// What a unit is checked by, where it has no fault. Twice is a typedef name that is declared again with another type than that of its
/// first declaration (C11 6.7p3), and the first such is answered before all constraints. Broken is the first constraint of K1 to K39 and
/// K41 to K43 that is broken, by tokens and then by rows, else K40 at the last token. The names are those of the unit.
pub fn check(alloc: Global, file: &[u8], unit: &Unit, names: &Names) -> Result<Checked, TypeFault>
    requires { AreSpans file.now unit.now.tokens.list.items }
    ensures sound { IfOk result (λ checked. IsSoundOf file.now unit.now names.now checked) }
    ensures fault { IfErr result (λ fault. IsFirstFault file.now unit.now names.now fault) }
{
    let checked = gather(alloc, file, unit, names)?;
    no_fault(alloc, file, unit, names, &checked).and(Ok(checked))
}
