ghost use Rattle.std.specs.Prelude.{◌≡◌, ◌<◌, ◌&&◌, ◌||◌, ◌-◌, ℕ, None, Some, IfOk, drop, false, length, not, slice_get, slice_index_or};
ghost use Rattle.std.specs.List.{list_any, list_all};
ghost use Rattle.std.specs.Option.{is_some};
ghost use Rattle.cr_check_types.specs.Types.{type_at};
ghost use Rattle.cr_check_types.specs.Relations.{is_complete_at};
ghost use Rattle.cr_check_types.specs.Layouts.{layout_of};
ghost use Rattle.cr_check_expressions.specs.Breaks.{first_of};
ghost use Rattle.cr_check_declarators.specs.Specifiers.{is_member, nothing};
ghost use Rattle.cr_check_declarators.specs.Declarators.{name_alone, whole_elements, whole_object, is_object_of, cells_fault_of};
ghost use Rattle.cr_check_declarations.specs.Before.{before_at, AreColumns, kind_in, first_in, type_in, specified_in};
ghost use Rattle.cr_check_declarations.specs.Named.{class_of, declaration_of, specifiers_in, is_initialised, is_listed, tag_breaks};
ghost use Rattle.cr_check_declarations.specs.Faults.{has_at, fault_at, token_if, place_of, is_specifier, are_specifiers, is_whole, is_lone, tag_fault, brace_before, specifier_faults};
ghost use Rattle.cr_check_declarations.specs.Faults.{is_function, is_nothing, declares_function, declares_functions, declaration_faults, is_incomplete, declarator_faults, whole_faults, may_have_initialiser, initialised_faults, enumerator_breaks};
ghost use Rattle.cr_check_declarations.specs.Faults.{name_or, name_token, other_faults, faults_in};

use crate::before::{Columns, declarator_of, named_of, specified_of};
use crate::declaration::{declaration_of, is_declarator, is_initialised, specifiers_in};
use crate::definition::definition_fault;
use crate::lists::rest;
use crate::names::{is_listed, tag_breaks};
use crate::ordinary::{class_of, is_typedef};
use crate::tree::{Tag, Tree, above, around, first_of, kind_of, tag_of};
use cr_check_declarators::{
    Class, Declarator, Enumerated, Linkage, Specified, cells_fault, function_fault,
    has_whole_elements, inline_fault, is_object, is_one_type, is_too_large, is_whole_object,
    linkage_of, may_be_initialised, open_fault, storage_fault, volatile_fault,
};
use cr_check_enclosing::Place;
use cr_check_expressions::{Break, break_if, lesser, part_at};
use cr_check_types::{Layout, Table};
use cr_scopes_events::declared_by;
use cr_syntax::{Kind, Node};
use std::alloc::{AllocError, Global};

/// What a node has itself as a part of a declaration. A number is that of a row of types.
#[derive(Clone, Copy)]
pub struct Own {
    pub specified: Specified,
    pub declarator: Declarator,
    pub derivations: u32,
    pub named: u32,
    pub layout: Layout,
    pub enumerated: Option<Enumerated>,
}

/// The first constraint that a node of a declaration breaks, by what it has itself and what the nodes before it have. A row is judged
/// only where what it speaks of has types. Not judged here are declarations of linked names (K9, K10) and what initialisers
/// initialise. The error is want of memory.
pub fn declaration_break(
    alloc: Global,
    table: &Table,
    tree: &Tree,
    columns: &Columns,
    own: Own,
    at: u32,
    node: &Node,
) -> Result<Option<Break>, AllocError>
    requires columns { AreColumns table.now columns.now }
    requires derivations { own.derivations < length table.now }
    requires named { own.named < length table.now }
    ensures { IfOk result (λ b. b ≡ first_of (faults_in node.now.kind (has_at table.now own) (before_at table.now columns.now) tree.now at node.now)) }
{
    let parts = node.parts.as_slice();
    match node.kind {
        Kind::Declaration => {
            let said = specified_of(columns, part_at(parts, 0));
            let place = place_of(tree, at);
            Ok(declaration_fault(columns, place, said, rest(parts), node))
        }
        Kind::FunctionDefinition => {
            let said = specified_of(columns, part_at(parts, 0));
            let function = declarator_of(columns, part_at(parts, 1)).function;
            definition_fault(
                alloc,
                table,
                tree,
                columns,
                at,
                said,
                part_at(parts, 1),
                function,
            )
        }
        Kind::InitDeclarator => {
            let declaration = declaration_of(tree, at);
            Ok(initialised_fault(tree, columns, own, at, node, declaration))
        }
        Kind::Enumerator => Ok(break_if(15, node.first, enumerator_breaks(own.enumerated))),
        _ => Ok(other_fault(table, tree, columns, own, at, node)),
    }
}

fn other_fault(
    table: &Table,
    tree: &Tree,
    columns: &Columns,
    own: Own,
    at: u32,
    node: &Node,
) -> Option<Break>
    requires columns { AreColumns table.now columns.now }
    requires derivations { own.derivations < length table.now }
    requires named { own.named < length table.now }
    ensures { result ≡ first_of (other_faults node.now.kind (has_at table.now own) (before_at table.now columns.now) tree.now at node.now) }
{
    if is_specifier(node.kind) {
        specifier_fault(table, tree, own, place_of(tree, at), at, node)
    } else if is_declarator(node.kind) {
        whole_fault(table, tree, columns, own, at, declaration_of(tree, at))
    } else {
        None
    }
}

/// The break of a row at a token, where that is there.
pub fn fault_at(row: u8, token: Option<u32>) -> Option<Break>
    ensures { result ≡ fault_at row token }
{
    match token {
        None => None,
        Some(token) => Some(Break { token, row }),
    }
}

/// A token, where it is judged.
pub fn token_if(judged: bool, token: Option<u32>) -> Option<u32>
    ensures { result ≡ token_if judged token }
{
    if judged { token } else { None }
}

/// What the declaration around a node is for.
pub fn place_of(tree: &Tree, at: u32) -> Place
    ensures { result ≡ place_of tree.now at }
{
    around(tree, at).place
}

fn is_specifier(kind: Kind) -> bool
    ensures { result ≡ is_specifier kind }
{
    match kind {
        Kind::Specifiers | Kind::PlainSpecifiers | Kind::Typedef | Kind::Extern => true,
        Kind::Static | Kind::Auto | Kind::Register | Kind::Inline => true,
        Kind::Const | Kind::Volatile | Kind::Void | Kind::Char | Kind::Short => true,
        Kind::Int | Kind::Long | Kind::Signed | Kind::Unsigned | Kind::Bool => true,
        Kind::TypedefName | Kind::StructContent | Kind::StructTag => true,
        Kind::EnumContent | Kind::EnumTag => true,
        _ => false,
    }
}

fn are_specifiers(kind: Option<Kind>) -> bool
    ensures { result ≡ are_specifiers kind }
{
    match kind {
        Some(Kind::Specifiers) => true,
        Some(Kind::PlainSpecifiers) => true,
        _ => false,
    }
}

// All specifiers of a declaration, and not one of several.
fn is_whole(tree: &Tree, at: u32) -> bool
    ensures { result ≡ is_whole tree.now at }
{
    !are_specifiers(kind_of(tree.nodes, above(tree, at)))
}

// A parameter, a member or a type name.
fn is_lone(place: Place) -> bool
    ensures { result ≡ is_lone place }
{
    match place {
        Place::Parameter | Place::Member | Place::Name => true,
        Place::File | Place::Definition | Place::Block | Place::Clause => false,
    }
}

fn specifier_fault(
    table: &Table,
    tree: &Tree,
    own: Own,
    place: Place,
    at: u32,
    node: &Node,
) -> Option<Break>
    requires { own.named < length table.now }
    ensures { result ≡ first_of (specifier_faults (has_at table.now own) tree.now place at node.now) }
{
    let whole = is_whole(tree, at);
    let lone = whole && is_lone(place);
    let said = own.specified;
    let one = break_if(1, node.first, whole && !is_one_type(said));
    let storage = fault_at(2, token_if(lone, storage_fault(said, place, false)));
    let inline = fault_at(4, token_if(lone, inline_fault(said, place, false)));
    let tag = tag_fault(tree, node.kind, at, tag_of(tree, at));
    let cells = break_if(7, brace_before(tree, node), is_too_large(own.layout));
    let volatile = volatile_fault(table, said, place, own.named);
    let volatile = fault_at(41, token_if(whole, volatile));
    let last = lesser(tag, lesser(cells, volatile));
    lesser(one, lesser(storage, lesser(inline, last)))
}

fn brace_before(tree: &Tree, node: &Node) -> u32
    ensures { result ≡ brace_before tree.now.nodes.now node.now }
{
    first_of(tree.nodes, part_at(node.parts.as_slice(), 0)).saturating_sub(1)
}

fn tag_fault(tree: &Tree, kind: Kind, at: u32, tag: Option<Tag>) -> Option<Break>
    ensures { result ≡ tag_fault kind tree.now at tag }
{
    match tag {
        None => None,
        Some(tag) => {
            let first = kind_of(tree.nodes, Some(tag.first));
            let listed = is_listed(tag.content, at);
            break_if(5, tag.token, tag_breaks(kind, first, listed))
        }
    }
}

fn declaration_fault(
    columns: &Columns,
    place: Place,
    said: Specified,
    declarators: &[u32],
    node: &Node,
) -> Option<Break>
    ensures { result ≡ first_of (declaration_faults (λ p. slice_index_or columns.now.declarators.now p name_alone) place said declarators.now node.now) }
{
    let some = declares_function(columns, said, declarators);
    let storage = fault_at(2, storage_fault(said, place, some));
    let none = is_nothing(declarators);
    let nothing = break_if(3, node.first, none && !said.declares);
    let inline = inline_fault(said, place, declares_functions(columns, said, declarators));
    lesser(storage, lesser(nothing, fault_at(4, inline)))
}

// Whether some of what is declared is a function, and no type names.
fn declares_function(columns: &Columns, said: Specified, declarators: &[u32]) -> bool
    ensures { result ≡ declares_function (λ p. slice_index_or columns.now.declarators.now p name_alone) said declarators.now }
{
    !is_typedef(class_of(said.storage)) && has_function(columns, declarators)
}

// Whether all that is declared is functions, and no type names.
fn declares_functions(columns: &Columns, said: Specified, declarators: &[u32]) -> bool
    ensures { result ≡ declares_functions (λ p. slice_index_or columns.now.declarators.now p name_alone) said declarators.now }
{
    !is_typedef(class_of(said.storage))
        && !is_nothing(declarators)
        && has_functions_alone(columns, declarators)
}

fn is_nothing(parts: &[u32]) -> bool
    ensures { result ≡ is_nothing parts.now }
{
    match parts {
        [] => true,
        [_, ..] => false,
    }
}

fn has_function(columns: &Columns, declarators: &[u32]) -> bool
    ensures { result ≡ list_any (is_function (λ p. slice_index_or columns.now.declarators.now p name_alone)) declarators.now }
{
    let mut some = false;
    for part in declarators {
        some = some || declarator_of(columns, Some(*part)).function.is_some();
    }
    some
}

fn has_functions_alone(columns: &Columns, declarators: &[u32]) -> bool
    ensures { result ≡ list_all (is_function (λ p. slice_index_or columns.now.declarators.now p name_alone)) declarators.now }
{
    let mut all = true;
    for part in declarators {
        all = all && declarator_of(columns, Some(*part)).function.is_some();
    }
    all
}

fn whole_fault(
    table: &Table,
    tree: &Tree,
    columns: &Columns,
    own: Own,
    at: u32,
    declaration: Option<u32>,
) -> Option<Break>
    requires columns { AreColumns table.now columns.now }
    requires derivations { own.derivations < length table.now }
    requires named { own.named < length table.now }
    ensures { result ≡ first_of (whole_faults (has_at table.now own) (before_at table.now columns.now) tree.now at declaration) }
{
    match declaration {
        None => None,
        Some(declaration) => {
            let specifiers = specifiers_in(tree, Some(declaration));
            let of = Of {
                place: place_of(tree, at),
                class: class_of(specified_of(columns, specifiers).storage),
                initialised: is_initialised(kind_of(tree.nodes, above(tree, at))),
                base: named_of(table, columns, specifiers),
                name: name_token(tree, at, declaration),
            };
            declarator_fault(table, tree, columns, own, at, of)
        }
    }
}

fn name_token(tree: &Tree, declarator: u32, declaration: u32) -> u32
    ensures { result ≡ name_token tree.now.nodes.now declarator (Some declaration) }
{
    name_or(
        declared_by(tree.nodes, declarator).name,
        first_of(tree.nodes, Some(declaration)),
    )
}

/// A name's token, or another one.
pub(crate) fn name_or(name: Option<u32>, token: u32) -> u32
    ensures { result ≡ name_or name token }
{
    match name {
        None => token,
        Some(name) => name,
    }
}

/// Of what declaration a declarator is.
#[derive(Clone, Copy)]
struct Of {
    place: Place,
    class: Option<Class>,
    initialised: bool,
    /// The row of the type of its specifiers.
    base: u32,
    /// The token of its name, or the first one.
    name: u32,
}

fn declarator_fault(
    table: &Table,
    tree: &Tree,
    columns: &Columns,
    own: Own,
    at: u32,
    of: Of,
) -> Option<Break>
    requires columns { AreColumns table.now columns.now }
    requires derivations { own.derivations < length table.now }
    requires named { own.named < length table.now }
    requires base { of.base < length table.now }
    ensures { result ≡ first_of (declarator_faults (has_at table.now own) (before_at table.now columns.now) tree.now.nodes.now at of.place of.class of.initialised (type_at table.now of.base) of.name) }
{
    let declarator = own.declarator;
    let incomplete = break_if(6, of.name, is_incomplete(table, tree, own, at, of));
    let wrong = fault_at(7, declarator.wrong);
    let cells = fault_at(7, cells_fault(table, columns.layouts, declarator, of.base));
    let typedef = is_typedef(of.class);
    let misplaced = function_fault(table, declarator, of.place, typedef, own.named);
    let function = break_if(8, of.name, misplaced);
    let open = fault_at(
        14,
        open_fault(declarator, of.place, of.class, of.initialised),
    );
    let volatile = fault_at(41, token_if(is_member(of.place), declarator.volatile));
    let last = lesser(function, lesser(open, volatile));
    lesser(incomplete, lesser(wrong, lesser(cells, last)))
}

fn is_member(place: Place) -> bool
    ensures { result ≡ is_member place }
{
    match place {
        Place::Member => true,
        _ => false,
    }
}

// K6.
fn is_incomplete(table: &Table, tree: &Tree, own: Own, at: u32, of: Of) -> bool
    requires derivations { own.derivations < length table.now }
    requires named { own.named < length table.now }
    requires base { of.base < length table.now }
    ensures { result ≡ is_incomplete (has_at table.now own) tree.now.nodes.now at of.place of.class (type_at table.now of.base) }
{
    let function = own.declarator.function.is_some();
    !has_whole_elements(table, tree.nodes, at, own.derivations, of.base)
        || (is_object(of.place, of.class, function)
            && !is_whole_object(table, tree.nodes, at, own.named))
}

fn initialised_fault(
    tree: &Tree,
    columns: &Columns,
    own: Own,
    at: u32,
    node: &Node,
    declaration: Option<u32>,
) -> Option<Break>
    ensures { result ≡ first_of (initialised_faults own.declarator (λ p. slice_index_or columns.now.specified.now p nothing) tree.now at node.now declaration) }
{
    let class = class_of(specified_of(columns, specifiers_in(tree, declaration)).storage);
    let function = own.declarator.function.is_some();
    let may = may_have_initialiser(place_of(tree, at), class, function);
    let first = first_of(tree.nodes, part_at(node.parts.as_slice(), 1));
    break_if(11, first, !may)
}

fn may_have_initialiser(place: Place, class: Option<Class>, function: bool) -> bool
    ensures { result ≡ may_have_initialiser place class function }
{
    let linkage = linkage_of(place, class, function, None);
    may_be_initialised(place, is_typedef(class), function, linkage)
}

fn enumerator_breaks(own: Option<Enumerated>) -> bool
    ensures { result ≡ enumerator_breaks own }
{
    match own {
        None => false,
        Some(own) => own.broken,
    }
}
