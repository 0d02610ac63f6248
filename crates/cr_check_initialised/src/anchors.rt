ghost use Rattle.std.specs.Prelude.{◌≡◌, ℕ, None, List, slice_index_or};
ghost use Rattle.cr_check_types.specs.Types.{Qualified};
ghost use Rattle.cr_check_expressions.specs.Known.{meaning_by, declared_by};
ghost use Rattle.cr_check_expressions.specs.Forms.{form_of};
ghost use Rattle.cr_check_declarators.specs.Specifiers.{nothing};
ghost use Rattle.cr_check_declarations.specs.Before.{before_at, AreColumns};
ghost use Rattle.cr_check_initialised.specs.Anchors.{names_object, names_static, anchor_at, anchor_if, anchor_in, has_address, constant_in, anchor_by};

use crate::durations::is_static;
use cr_check_constants::Constant;
use cr_check_declarations::{Columns, Tree, declared_of, named_of, visible};
use cr_check_expressions::{Declared, Form, form_of, operand, part_at};
use cr_check_initialisers::{
    Anchor, anchor_of_address, anchor_of_cast, anchor_of_member, anchor_of_object,
    anchor_of_reached, anchor_of_subscript, is_address,
};
use cr_check_types::Table;
use cr_rows::entry_at;
use cr_syntax::Node;

/// What of an expression's address is constant (C11 6.6p9), by what the nodes before it have; what is no expression has none.
pub fn anchor_of(
    table: &Table,
    tree: &Tree,
    columns: &Columns,
    anchors: &[Anchor],
    at: u32,
    node: &Node,
) -> Anchor
    requires { AreColumns table.now columns.now }
    ensures { (look : ℕ → Qualified) (rows : List ℕ) → result ≡ anchor_by (form_of node.now.kind) (before_at table.now columns.now) (anchor_at anchors.now) (names_static (meaning_by look rows (declared_by columns.now.declared.now (slice_index_or tree.now.visible.now at None))) tree.now (λ p. slice_index_or columns.now.specified.now p nothing) (slice_index_or tree.now.visible.now at None)) node.now.parts }
{
    let parts = node.parts.as_slice();
    match form_of(node.kind) {
        Form::Name => anchor_of_object(names_static(tree, columns, visible(tree, at))),
        Form::Text => anchor_of_object(true),
        Form::Group => anchor_in(anchors, parts, 0),
        Form::Subscript => anchor_of_subscript(
            has_address(table, columns, anchors, parts, 0),
            constant_in(table, columns, parts, 0),
            has_address(table, columns, anchors, parts, 1),
            constant_in(table, columns, parts, 1),
        ),
        Form::Member => anchor_of_member(anchor_in(anchors, parts, 0)),
        Form::PointerMember => { anchor_of_reached(has_address(table, columns, anchors, parts, 0)) }
        Form::Address => anchor_of_address(anchor_in(anchors, parts, 0)),
        Form::Dereference => anchor_of_reached(has_address(table, columns, anchors, parts, 0)),
        Form::Cast => {
            let row = named_of(table, columns, part_at(parts, 0));
            let address = has_address(table, columns, anchors, parts, 1);
            anchor_of_cast(table, row, address, constant_in(table, columns, parts, 1))
        }
        _ => Anchor::Moving,
    }
}

fn names_static(tree: &Tree, columns: &Columns, node: Option<u32>) -> bool
    ensures { (look : ℕ → Qualified) (rows : List ℕ) → result ≡ names_static (meaning_by look rows (declared_by columns.now.declared.now node)) tree.now (λ p. slice_index_or columns.now.specified.now p nothing) node }
{
    names_object(declared_of(columns, node)) && is_static(tree, columns, node)
}

fn names_object(declared: Declared) -> bool
    ensures { (look : ℕ → Qualified) (rows : List ℕ) → result ≡ names_object (meaning_by look rows declared) }
{
    match declared {
        Declared::Object(..) => true,
        Declared::Enumerator(_) => false,
        Declared::Function(..) => false,
        Declared::TypeName => false,
        Declared::Unclear => false,
    }
}

fn anchor_in(anchors: &[Anchor], parts: &[u32], k: usize) -> Anchor
    ensures { result ≡ anchor_in (anchor_at anchors.now) parts.now k }
{
    match part_at(parts, k) {
        None => Anchor::Moving,
        Some(part) => entry_at(anchors, part as usize, Anchor::Moving),
    }
}

fn has_address(
    table: &Table,
    columns: &Columns,
    anchors: &[Anchor],
    parts: &[u32],
    k: usize,
) -> bool
    requires { AreColumns table.now columns.now }
    ensures { result ≡ has_address (before_at table.now columns.now).seen (anchor_at anchors.now) parts.now k }
{
    let row = operand(table, columns.facts, parts, k).row;
    is_address(table, row, anchor_in(anchors, parts, k))
}

fn constant_in(table: &Table, columns: &Columns, parts: &[u32], k: usize) -> Constant
    requires { AreColumns table.now columns.now }
    ensures { result ≡ constant_in (before_at table.now columns.now).seen parts.now k }
{
    operand(table, columns.facts, parts, k).constant
}
