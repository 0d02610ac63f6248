ghost use Rattle.std.specs.Prelude.{◌≡◌, slice_index_or};
ghost use Rattle.cr_check_declarators.specs.Specifiers.{nothing};
ghost use Rattle.cr_check_initialised.specs.Durations.{is_kept_class, is_kept, is_static};

use cr_check_declarations::{
    Columns, Tree, class_of, declaration_of, place_of, specified_of, specifiers_in,
};
use cr_check_declarators::Class;
use cr_check_enclosing::Place;

/// Whether the object that a node declares lives as long as the program runs (C11 6.2.4p3): it has linkage, or is declared `static`.
/// The node is a whole declarator, or one with its initialiser. Of what declares no object nothing is said.
pub fn is_static(tree: &Tree, columns: &Columns, node: Option<u32>) -> bool
    ensures { result ≡ is_static tree.now (λ p. slice_index_or columns.now.specified.now p nothing) node }
{
    match node {
        None => false,
        Some(node) => {
            let specifiers = specifiers_in(tree, declaration_of(tree, node));
            let class = class_of(specified_of(columns, specifiers).storage);
            is_kept(place_of(tree, node), class)
        }
    }
}

fn is_kept(place: Place, class: Option<Class>) -> bool
    ensures { result ≡ is_kept place class }
{
    match place {
        Place::File => true,
        Place::Block => is_kept_class(class),
        Place::Clause => is_kept_class(class),
        _ => false,
    }
}

fn is_kept_class(class: Option<Class>) -> bool
    ensures { result ≡ is_kept_class class }
{
    match class {
        Some(Class::Static) => true,
        Some(Class::Extern) => true,
        _ => false,
    }
}
