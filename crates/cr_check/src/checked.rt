// What a unit is checked by.
ghost use Rattle.std.specs.Prelude.{◌≡◌, IfOk};
ghost use Rattle.cr_syntax.specs.Words.{AreSpans};
ghost use Rattle.cr_check_types.specs.Types.{unknown, IsRow};
ghost use Rattle.cr_check_unit.specs.Typing.{AreWithin};
ghost use Rattle.cr_check_definitions.specs.Known.{AreKnown, known_of};
ghost use Rattle.cr_check.specs.Columns.{IsCheckedFirst, IsWholeFirst, known_in};

use cr_check_definitions::Declarations;
use cr_check_literals::texts;
use cr_check_surroundings::Surroundings;
use cr_check_types::Table;
use cr_check_unit::{Whole, check_unit};
use cr_holding::holding;
use cr_rows::Row;
use cr_scopes::Names;
use cr_syntax::Unit;
use std::alloc::{AllocError, Global};

/// What a unit is checked by: what is known of its nodes before, the bytes of its literals, its types, and what its nodes have.
#[derive(Drop)]
pub struct Checked {
    pub surroundings: Surroundings,
    pub texts: Row<Row<u8>>,
    pub table: Table,
    pub whole: Whole,
}

/// Checks a unit. The error is want of memory.
pub(crate) fn gather(
    alloc: Global,
    file: &[u8],
    unit: &Unit,
    names: &Names,
) -> Result<Checked, AllocError>
    requires { AreSpans file.now unit.now.tokens.list.items }
    ensures { IfOk result (λ j. IsCheckedFirst file.now unit.now names.now j) }
{
    let tokens = unit.tokens.list.as_slice();
    let texts = texts(alloc, file, tokens, unit.nodes.as_slice())?;
    let mut table = Table::new(alloc)?;
    let surroundings = Surroundings::new(alloc, file, unit, names)?;
    let whole = whole_of(alloc, &mut table, file, unit, &surroundings, &texts);
    let (whole, surroundings) = holding(whole, surroundings)?;
    Ok(Checked {
        surroundings,
        texts: Row::from_vec(texts),
        table,
        whole,
    })
}

#[tactic(auto, using(crate::proofs::Trees::tree_spans))]
fn whole_of(
    alloc: Global,
    table: &mut Table,
    file: &[u8],
    unit: &Unit,
    surroundings: &Surroundings,
    texts: &[Row<u8>],
) -> Result<Whole, AllocError>
    requires spans { AreSpans file.now unit.now.tokens.list.items }
    requires first { IsRow table.old 0 unknown }
    ensures { IfOk result (λ whole. IsWholeFirst file.now unit.now surroundings.now texts.now table.new whole) }
{
    let tree = surroundings.tree(file, unit);
    check_unit(alloc, table, &tree, texts)
}

/// What is known of a checked unit's declarations.
pub(crate) fn declarations_of<'a>(
    file: &'a [u8],
    unit: &'a Unit,
    checked: &'a Checked,
) -> Declarations<'a>
    ensures file { result.file.now ≡ file.now }
    ensures tokens { result.tokens.now ≡ unit.now.tokens.list.items }
    ensures known { known_of result ≡ known_in file.now unit.now checked.now }
    ensures within { AreWithin checked.now.table checked.now.whole.typing → AreKnown result }
{
    let typing = &checked.whole.typing;
    Declarations {
        table: &checked.table,
        file,
        tokens: unit.tokens.list.as_slice(),
        nodes: unit.nodes.as_slice(),
        above: checked.surroundings.above.as_slice(),
        declarers: checked.surroundings.bindings.declarers.as_slice(),
        specified: typing.specified.as_slice(),
        declarators: typing.declarators.as_slice(),
        declared: typing.declared.as_slice(),
        named: typing.named.as_slice(),
        parameters: typing.parameters.as_slice(),
    }
}
