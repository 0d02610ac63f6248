ghost use Rattle.std.specs.Prelude.{◌≡◌, ◌<◌, ◌||◌, false, length, map, slice_index_or};
ghost use Rattle.cr_check_types.specs.Types.{type_at};
ghost use Rattle.cr_check_types.specs.Relations.{AreRows};
ghost use Rattle.cr_check_declarators.specs.Structures.{is_constant_leaf, holds_constant, members_of, laid_out, has_constant, is_too_large_of};

use crate::declarator::MOST_CELLS;
use cr_check_types::{Layout, NOTHING, Table, closed, with_member};
use cr_rows::entry_at;
use cr_syntax::CType;

/// What a structure has by its members.
#[derive(Clone, Copy)]
pub struct Structure {
    pub layout: Layout,
    /// Whether one of its members is constant, or has such a member or element.
    pub fixed: bool,
}

/// A structure whose members have the types of these rows (C11 6.7.2.1). `layouts` and `fixed` have what each structure before it has
/// at its node.
pub fn structure_of(table: &Table, layouts: &[Layout], fixed: &[bool], members: &[u32]) -> Structure
    requires { AreRows table.now members.now }
    ensures layout { result.layout ≡ laid_out layouts.now (map (type_at table.now) members.now) }
    ensures fixed { result.fixed ≡ has_constant (λ n. slice_index_or fixed.now n false) (map (type_at table.now) members.now) }
{
    Structure {
        layout: closed(members_of(table, layouts, members)),
        fixed: has_constant(table, fixed, members),
    }
}

fn members_of(table: &Table, layouts: &[Layout], members: &[u32]) -> Layout
    requires { AreRows table.now members.now }
    ensures { result ≡ members_of layouts.now (map (type_at table.now) members.now) }
{
    let mut before = NOTHING;
    for row in members {
        before = with_member(before, table.layout(layouts, *row));
    }
    before
}

fn has_constant(table: &Table, fixed: &[bool], members: &[u32]) -> bool
    requires { AreRows table.now members.now }
    ensures { result ≡ has_constant (λ n. slice_index_or fixed.now n false) (map (type_at table.now) members.now) }
{
    let mut so = false;
    for row in members {
        let holds = holds_constant(table, fixed, *row);
        so = so || holds;
    }
    so
}

fn holds_constant(table: &Table, fixed: &[bool], row: u32) -> bool
    requires { row < length table.now }
    ensures { result ≡ holds_constant (λ n. slice_index_or fixed.now n false) (type_at table.now row) }
{
    let mut inner = row;
    loop {
        let shape = table.shape(inner);
        match shape.of {
            CType::Array(below, _) => inner = below,
            CType::Pointer(_) => return shape.constant,
            of => return shape.constant || is_constant_leaf(fixed, of),
        }
    }
}

fn is_constant_leaf(fixed: &[bool], of: CType) -> bool
    ensures { result ≡ is_constant_leaf (λ n. slice_index_or fixed.now n false) of }
{
    match of {
        CType::Struct(node) => entry_at(fixed, node as usize, false),
        _ => false,
    }
}

/// Whether a structure has more cells than one may have (K7).
pub fn is_too_large(layout: Layout) -> bool
    ensures { result ≡ is_too_large_of layout }
{
    layout.cells > MOST_CELLS
}
