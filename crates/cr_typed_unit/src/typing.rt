// The typed unit of a checked one.
ghost use Rattle.std.specs.Prelude.{◌≡◌, ◌<◌, ◌^◌, [], IfOk, OnOk, length};
ghost use Rattle.cr_syntax.specs.Words.{AreSpans};
ghost use Rattle.cr_check.specs.Checked.{IsSoundOf};
ghost use Rattle.cr_check_declarations.specs.declared.tree.Tree as tree;
ghost use Rattle.cr_check_types.specs.Types.{type_at, unknown};
ghost use Rattle.cr_typed_fit.specs.Fits.{IsFitting};
ghost use Rattle.cr_typed_unit.specs.Made.{statics_in, IsMade};
ghost use Rattle.cr_typed_unit.specs.Typed.{IsAssembledOf, IsTypedOf};

use crate::columns::{checked_columns, statics_of};
use cr_check::Checked;
use cr_rows::Row;
use cr_scopes::Names;
use cr_syntax::Unit;
use cr_typed::Typed;
use cr_typed_columns::assemble;
use cr_typed_fit::fits;
use std::alloc::{AllocError, Global};
use std::mem;

/// The typed unit of a unit that was checked and has no fault. The error is want of memory.
pub fn typed(
    alloc: Global,
    file: &[u8],
    unit: Unit,
    names: &Names,
    checked: Checked,
) -> Result<Typed, AllocError>
    requires spans { AreSpans file.now unit.tokens.list.items }
    requires sound { IsSoundOf file.now unit names.now checked }
    ensures { IfOk result (λ typed. IsTypedOf file.now unit names.now typed) }
{
    let mut checked = checked;
    let typed = typed_by(alloc, file, unit, names, &mut checked);
    drop(checked);
    typed
}

fn typed_by(
    alloc: Global,
    file: &[u8],
    unit: Unit,
    names: &Names,
    checked: &mut Checked,
) -> Result<Typed, AllocError>
    requires spans { AreSpans file.now unit.tokens.list.items }
    requires sound { IsSoundOf file.now unit names.now checked.old }
    ensures { IfOk result (λ typed. IsTypedOf file.now unit names.now typed) }
{
    let typed = assembled(alloc, file, unit, names, checked)?;
    fitting(alloc, &typed).and(Ok(typed))
}

// What is assembled of the unit, before it is tested whether its types fit it; its nodes have numbers.
fn assembled(
    alloc: Global,
    file: &[u8],
    unit: Unit,
    names: &Names,
    checked: &mut Checked,
) -> Result<Typed, AllocError>
    requires spans { AreSpans file.now unit.tokens.list.items }
    requires sound { IsSoundOf file.now unit names.now checked.old }
    ensures assembled { IfOk result (λ typed. IsAssembledOf file.now unit names.now typed) }
    ensures few { OnOk result (length unit.nodes < 2 ^ 32) }
{
    let bytes = Row::from_vec(file.to_vec(alloc)?);
    let statics = statics_of(alloc, file, &unit, checked)?;
    let texts = texts_of(alloc, checked);
    made(
        alloc,
        bytes,
        unit,
        texts,
        names,
        checked,
        statics.as_slice(),
    )
}

// The columns of what was checked of this unit, with these literals.
fn made(
    alloc: Global,
    bytes: Row<u8>,
    unit: Unit,
    texts: Row<Row<u8>>,
    names: &Names,
    checked: &Checked,
    statics: &[bool],
) -> Result<Typed, AllocError>
    requires spans { AreSpans bytes unit.tokens.list.items }
    requires first { type_at checked.now.table 0 ≡ unknown }
    ensures { (t : tree.Tree) → statics.now ≡ statics_in t checked.now.whole.typing.specified → IfOk result (IsMade bytes unit texts names.now checked.now t) }
{
    let columns = checked_columns(
        names,
        &checked.surroundings,
        &checked.table,
        &checked.whole,
        statics,
    );
    assemble(alloc, bytes, unit, texts, &columns)
}

// The bytes of the literals, which are taken out.
fn texts_of(alloc: Global, checked: &mut Checked) -> Row<Row<u8>>
    ensures texts { result ≡ checked.old.texts }
    ensures rest { checked.new ≡ record { surroundings = checked.old.surroundings; texts = []; table = checked.old.table; whole = checked.old.whole } }
{
    mem::replace(&mut checked.texts, Row::new(alloc))
}

// Whether its types fit the unit. Where they don't, that counts as want of memory.
fn fitting(alloc: Global, typed: &Typed) -> Result<(), AllocError>
    ensures { OnOk result (IsFitting typed.now) }
{
    if fits(alloc, typed)? {
        Ok(())
    } else {
        Err(AllocError)
    }
}
