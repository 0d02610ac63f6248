// K40.
ghost use Rattle.std.specs.Prelude.{◌≡◌};
ghost use Rattle.std.specs.List.{list_all, list_any};
ghost use Rattle.cr_syntax.specs.Words.{AreSpans};
ghost use Rattle.cr_check_definitions.specs.Known.{AreKnown, known_of};
ghost use Rattle.cr_check_definitions.specs.Defined.{is_declaration, is_defined, is_definition, is_extern, is_extern_by, is_extern_class, is_open, is_open_at, is_undefined, is_used};

use crate::known::{Declarations, first_part, kind_above, spelled};
use crate::mains::has_main;
use cr_check_declarators::{Class, Specified, UNSAID, library_of};
use cr_check_expressions::Declared;
use cr_rows::entry_at;
use cr_scopes::{Entity, Names};
use cr_syntax::{Kind, parts_at};

/// Whether `main` is defined as a program's first function, and each function but the library's, and each object, that is used is defined
/// in the file (K40).
pub fn is_defined(items: &[u32], names: &Names, declarations: &Declarations) -> bool
    requires spans { AreSpans declarations.now.file.now declarations.now.tokens.now }
    requires known { AreKnown declarations.now }
    ensures { result ≡ is_defined (known_of declarations.now) items.now names.now }
{
    has_main(items, declarations) && !has_undefined(declarations, names.entities.as_slice())
}

fn has_undefined(declarations: &Declarations, entities: &[Entity]) -> bool
    requires { AreSpans declarations.now.file.now declarations.now.tokens.now }
    ensures { result ≡ list_any (is_undefined (known_of declarations.now)) entities.now }
{
    entities
        .iter()
        .any(|entity| is_undefined(declarations, entity))
}

fn is_undefined(declarations: &Declarations, entity: &Entity) -> bool
    requires { AreSpans declarations.now.file.now declarations.now.tokens.now }
    ensures { result ≡ is_undefined (known_of declarations.now) entity.now }
{
    entity.space == 0
        && is_used(entity.uses.as_slice())
        && are_open(declarations, entity.declared.as_slice())
}

fn is_used(uses: &[u32]) -> bool
    ensures { result ≡ is_used uses.now }
{
    match uses {
        [] => false,
        [..] => true,
    }
}

fn are_open(declarations: &Declarations, declared: &[u32]) -> bool
    requires { AreSpans declarations.now.file.now declarations.now.tokens.now }
    ensures { result ≡ list_all (is_open (known_of declarations.now)) declared.now }
{
    declared.iter().all(|token| is_open(declarations, *token))
}

// Whether the declaration of a token's name leaves a definition to another one.
fn is_open(declarations: &Declarations, token: u32) -> bool
    requires { AreSpans declarations.now.file.now declarations.now.tokens.now }
    ensures { result ≡ is_open (known_of declarations.now) token }
{
    match entry_at(declarations.declarers, token as usize, None) {
        Some(node) => is_open_at(declarations, token, node),
        None => false,
    }
}

fn is_open_at(declarations: &Declarations, token: u32, node: u32) -> bool
    requires { AreSpans declarations.now.file.now declarations.now.tokens.now }
    ensures { result ≡ is_open_at (known_of declarations.now) token node }
{
    let above = kind_above(declarations, node);
    match entry_at(declarations.declared, node as usize, Declared::Unclear) {
        Declared::Function(..) => {
            !is_definition(above) && library_of(spelled(declarations, token)).is_none()
        }
        Declared::Object(..) => is_declaration(above) && is_extern(declarations, node),
        _ => false,
    }
}

fn is_definition(kind: Option<Kind>) -> bool
    ensures { result ≡ is_definition kind }
{
    match kind {
        Some(Kind::FunctionDefinition) => true,
        _ => false,
    }
}

fn is_declaration(kind: Option<Kind>) -> bool
    ensures { result ≡ is_declaration kind }
{
    match kind {
        Some(Kind::Declaration) => true,
        _ => false,
    }
}

// Whether the specifiers of the declaration above a declarator say `extern`.
fn is_extern(declarations: &Declarations, node: u32) -> bool
    ensures { result ≡ is_extern (known_of declarations.now) node }
{
    match entry_at(declarations.above, node as usize, None) {
        Some(above) => match first_part(parts_at(declarations.nodes, above as usize)) {
            Some(specifiers) => is_extern_by(entry_at(
                declarations.specified,
                specifiers as usize,
                UNSAID,
            )),
            None => false,
        },
        None => false,
    }
}

fn is_extern_by(specified: Specified) -> bool
    ensures { result ≡ is_extern_by specified.storage }
{
    match specified.storage {
        Some(storage) => is_extern_class(storage.class),
        None => false,
    }
}

fn is_extern_class(class: Class) -> bool
    ensures { result ≡ is_extern_class class }
{
    match class {
        Class::Extern => true,
        _ => false,
    }
}
