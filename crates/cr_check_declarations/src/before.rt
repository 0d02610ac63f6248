ghost use Rattle.std.specs.Prelude.{◌≡◌, ◌<◌, [], None, false, length, slice_index_or};
ghost use Rattle.cr_check_types.specs.Types.{type_at};
ghost use Rattle.cr_check_expressions.specs.declared.known.Declared.TheVariants.{Unclear};
ghost use Rattle.cr_check_expressions.specs.Known.{declared_by};
ghost use Rattle.cr_check_declarators.specs.Specifiers.{nothing};
ghost use Rattle.cr_check_declarators.specs.Declarators.{name_alone};
ghost use Rattle.cr_check_declarations.specs.Before.{Before, before_at, AreColumns, type_in, declarator_in, specified_in, enumerated_in};

use cr_check_declarators::{BARE, Declarator, Enumerated, Specified, UNSAID};
use cr_check_expressions::{Declared, Member};
use cr_check_operands::Fact;
use cr_check_types::{Layout, Table};
use cr_rows::{Row, entry_at, row_at};

/// What the nodes so far have: columns with one entry a node, and what is not there is as nothing. A number is that of a row of
/// types.
#[derive(Clone, Copy)]
pub struct Columns<'a> {
    /// What each expression has.
    pub facts: &'a [Fact],
    /// What specifiers say.
    pub specified: &'a [Specified],
    /// The type that specifiers or a type name name, and that a whole declarator gives its name, or the result of its function.
    pub named: &'a [u32],
    /// What a declarator has.
    pub declarators: &'a [Declarator],
    /// What it derives, from the name outwards.
    pub derivations: &'a [u32],
    /// What each node declares.
    pub declared: &'a [Declared],
    /// The types of the parameters of its function.
    pub parameters: &'a [Row<u32>],
    /// The members that a member declaration or the content of a structure has.
    pub members: &'a [Row<Member>],
    /// The layout of each structure, at its content.
    pub layouts: &'a [Layout],
    /// Whether it has a constant member.
    pub fixed: &'a [bool],
    /// The enumerators.
    pub enumerated: &'a [Option<Enumerated>],
}

/// What specifiers say.
pub fn specified_of(columns: &Columns, node: Option<u32>) -> Specified
    ensures { result ≡ specified_in (λ p. slice_index_or columns.now.specified.now p nothing) node }
{
    match node {
        Some(node) => entry_at(columns.specified, node as usize, UNSAID),
        None => UNSAID,
    }
}

/// The row of the type that a node names.
pub fn named_of(table: &Table, columns: &Columns, node: Option<u32>) -> u32
    requires { AreColumns table.now columns.now }
    ensures within { result < length table.now }
    ensures is { type_at table.now result ≡ type_in (before_at table.now columns.now).named node }
{
    match node {
        Some(node) => entry_at(columns.named, node as usize, 0),
        None => 0,
    }
}

/// What a declarator has.
pub(crate) fn declarator_of(columns: &Columns, node: Option<u32>) -> Declarator
    ensures { result ≡ declarator_in (λ p. slice_index_or columns.now.declarators.now p name_alone) node }
{
    match node {
        Some(node) => entry_at(columns.declarators, node as usize, BARE),
        None => BARE,
    }
}

/// The row of what a declarator derives.
pub(crate) fn derivations_at(table: &Table, columns: &Columns, node: u32) -> u32
    requires { AreColumns table.now columns.now }
    ensures within { result < length table.now }
    ensures is { type_at table.now result ≡ (before_at table.now columns.now).derived node }
{
    entry_at(columns.derivations, node as usize, 0)
}

/// An enumerator.
pub(crate) fn enumerated_of(columns: &Columns, node: Option<u32>) -> Option<Enumerated>
    ensures { result ≡ enumerated_in (λ p. slice_index_or columns.now.enumerated.now p None) node }
{
    match node {
        Some(node) => entry_at(columns.enumerated, node as usize, None),
        None => None,
    }
}

/// What a node declares.
pub fn declared_of(columns: &Columns, node: Option<u32>) -> Declared
    ensures { result ≡ declared_by columns.now.declared.now node }
{
    match node {
        Some(node) => entry_at(columns.declared, node as usize, Declared::Unclear),
        None => Declared::Unclear,
    }
}

/// The rows of the types of a function's parameters.
pub fn parameters_at<'a>(columns: &'a Columns, at: u32) -> &'a [u32]
    ensures { result.now ≡ slice_index_or columns.now.parameters.now at [] }
{
    row_at(columns.parameters, at as usize)
}

/// The members that a member declaration has.
pub(crate) fn members_at<'a>(columns: &'a Columns, at: u32) -> &'a [Member]
    ensures { result.now ≡ slice_index_or columns.now.members.now at [] }
{
    row_at(columns.members, at as usize)
}
