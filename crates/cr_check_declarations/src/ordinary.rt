ghost use Rattle.std.specs.Prelude.{◌≡◌, ◌≤◌, ◌+◌, None, slice_get, slice_index_or};
ghost use Rattle.cr_check_expressions.specs.Known.{room_of_declared};
ghost use Rattle.cr_check_declarators.specs.Specifiers.{nothing};
ghost use Rattle.cr_check_declarations.specs.Named.{class_of, is_typedef, is_register, is_variadic_list, is_variadic, value_by, declared_as, names_ordinary, ordinary_by, ordinary_of, constant_by, declares_name, named_declared, declared_by, declaration_of};

use crate::before::{Columns, specified_of};
use crate::declaration::{declaration_of, is_declarator, specifiers_in};
use crate::tree::{Tree, kind_of, parts_of};
use cr_check_declarators::{Class, Declarator, Enumerated, Storage};
use cr_check_expressions::{Declared, part_at};
use cr_syntax::{Kind, Node};

/// What a node declares as an ordinary identifier (C11 6.2.3), by what it has itself and the row of the type that it gives: a whole
/// declarator, also with its initialiser, and an enumerator.
pub fn declared(
    tree: &Tree,
    columns: &Columns,
    own: Declarator,
    row: u32,
    enumerated: Option<Enumerated>,
    at: u32,
    node: &Node,
) -> Declared
    ensures room { room_of_declared result ≤ row + 1 }
    ensures is { result ≡ declared_by node.now.kind tree.now.nodes.now (λ p. slice_index_or columns.now.specified.now p nothing) own row enumerated (declaration_of tree.now.nodes.now tree.now.above.now at) }
{
    match node.kind {
        Kind::Enumerator => constant_by(enumerated),
        kind => named_declared(tree, columns, own, row, kind, at),
    }
}

fn named_declared(
    tree: &Tree,
    columns: &Columns,
    own: Declarator,
    row: u32,
    kind: Kind,
    at: u32,
) -> Declared
    ensures room { room_of_declared result ≤ row + 1 }
    ensures is { result ≡ named_declared kind tree.now.nodes.now (λ p. slice_index_or columns.now.specified.now p nothing) own row (declaration_of tree.now.nodes.now tree.now.above.now at) }
{
    if declares_name(kind) {
        ordinary_of(tree, columns, own, row, declaration_of(tree, at))
    } else {
        Declared::Unclear
    }
}

fn declares_name(kind: Kind) -> bool
    ensures { result ≡ declares_name kind }
{
    match kind {
        Kind::InitDeclarator => true,
        kind => is_declarator(kind),
    }
}

fn constant_by(enumerated: Option<Enumerated>) -> Declared
    ensures room { room_of_declared result ≡ 0 }
    ensures is { result ≡ constant_by enumerated }
{
    match enumerated {
        None => Declared::Unclear,
        Some(own) => match own.value {
            None => Declared::Unclear,
            Some(value) => Declared::Enumerator(value),
        },
    }
}

fn ordinary_of(
    tree: &Tree,
    columns: &Columns,
    own: Declarator,
    row: u32,
    declaration: Option<u32>,
) -> Declared
    ensures room { room_of_declared result ≤ row + 1 }
    ensures is { result ≡ ordinary_of tree.now.nodes.now (λ p. slice_index_or columns.now.specified.now p nothing) own row declaration }
{
    if names_ordinary(kind_of(tree.nodes, declaration)) {
        ordinary_by(tree, columns, own, row, specifiers_in(tree, declaration))
    } else {
        Declared::Unclear
    }
}

fn ordinary_by(
    tree: &Tree,
    columns: &Columns,
    own: Declarator,
    row: u32,
    specifiers: Option<u32>,
) -> Declared
    ensures room { room_of_declared result ≤ row + 1 }
    ensures is { result ≡ ordinary_by tree.now.nodes.now (λ p. slice_index_or columns.now.specified.now p nothing) own row specifiers }
{
    match specifiers {
        None => Declared::Unclear,
        Some(specifiers) => {
            let said = specified_of(columns, Some(specifiers));
            declared_as(tree, class_of(said.storage), own, row)
        }
    }
}

fn declared_as(tree: &Tree, class: Option<Class>, own: Declarator, row: u32) -> Declared
    ensures room { room_of_declared result ≤ row + 1 }
    ensures is { result ≡ declared_as tree.now.nodes.now class own row }
{
    if is_typedef(class) {
        Declared::TypeName
    } else {
        value_by(tree, class, own.function, row)
    }
}

fn value_by(tree: &Tree, class: Option<Class>, function: Option<u32>, row: u32) -> Declared
    ensures room { room_of_declared result ≤ row + 1 }
    ensures is { result ≡ value_by tree.now.nodes.now class function row }
{
    match function {
        None => Declared::Object(row, is_register(class)),
        Some(function) => Declared::Function(row, is_variadic(tree, function)),
    }
}

/// The storage class of specifiers; `typedef` counts before any other beside it.
pub fn class_of(storage: Option<Storage>) -> Option<Class>
    ensures { result ≡ class_of storage }
{
    match storage {
        None => None,
        Some(storage) if storage.typedefs => Some(Class::Typedef),
        Some(storage) => Some(storage.class),
    }
}

/// Whether it is `typedef`.
pub(crate) fn is_typedef(class: Option<Class>) -> bool
    ensures { result ≡ is_typedef class }
{
    match class {
        Some(Class::Typedef) => true,
        _ => false,
    }
}

fn is_register(class: Option<Class>) -> bool
    ensures { result ≡ is_register class }
{
    match class {
        Some(Class::Register) => true,
        _ => false,
    }
}

fn is_variadic(tree: &Tree, function: u32) -> bool
    ensures { result ≡ is_variadic tree.now.nodes.now function }
{
    let list = part_at(parts_of(tree.nodes, Some(function)), 1);
    is_variadic_list(kind_of(tree.nodes, list))
}

fn is_variadic_list(kind: Option<Kind>) -> bool
    ensures { result ≡ is_variadic_list kind }
{
    match kind {
        Some(Kind::VariadicParameters) => true,
        _ => false,
    }
}

fn names_ordinary(kind: Option<Kind>) -> bool
    ensures { result ≡ names_ordinary kind }
{
    match kind {
        Some(Kind::Declaration) => true,
        Some(Kind::FunctionDefinition) => true,
        Some(Kind::Parameter) => true,
        _ => false,
    }
}
