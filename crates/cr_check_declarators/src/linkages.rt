ghost use Rattle.std.specs.Prelude.{◌≡◌};
ghost use Rattle.cr_check_declarators.specs.Linkages.{inherited, at_file, in_block, linkage_of, same_linkage, is_again_of, repeats, with_declaration_of, may_be_initialised_of};

use crate::words::Class;
use cr_check_enclosing::Place;

/// Which declarations of a name declare the same (C11 6.2.2p1, p2).
#[derive(Clone, Copy)]
pub enum Linkage {
    /// no other one
    Alone,
    /// all of the file
    Internal,
    /// all of the program
    External,
}

/// The linkage of a name that is declared in a place with a storage class (6.2.2p3 to p6). `function` is whether it is a function, and
/// `visible` the linkage of the declaration of the name that is visible there, if there is one.
pub fn linkage_of(
    place: Place,
    class: Option<Class>,
    function: bool,
    visible: Option<Linkage>,
) -> Linkage
    ensures { result ≡ linkage_of place class function visible }
{
    match place {
        Place::File | Place::Definition => at_file(class, function, visible),
        Place::Block | Place::Clause => in_block(class, function, visible),
        Place::Parameter | Place::Member | Place::Name => Linkage::Alone,
    }
}

fn at_file(class: Option<Class>, function: bool, visible: Option<Linkage>) -> Linkage
    ensures { result ≡ at_file class function visible }
{
    match class {
        Some(Class::Typedef) => Linkage::Alone,
        Some(Class::Static) => Linkage::Internal,
        Some(Class::Extern) => inherited(visible),
        None if function => inherited(visible),
        _ => Linkage::External,
    }
}

fn in_block(class: Option<Class>, function: bool, visible: Option<Linkage>) -> Linkage
    ensures { result ≡ in_block class function visible }
{
    match class {
        Some(Class::Typedef) => Linkage::Alone,
        Some(Class::Extern) => inherited(visible),
        _ if function => inherited(visible),
        _ => Linkage::Alone,
    }
}

// That of the visible declaration where it has one, else external.
fn inherited(visible: Option<Linkage>) -> Linkage
    ensures { result ≡ inherited visible }
{
    match visible {
        Some(Linkage::Internal) => Linkage::Internal,
        _ => Linkage::External,
    }
}

/// What a declaration of a linked name does.
#[derive(Clone, Copy)]
pub struct Declaration {
    pub linkage: Linkage,
    /// Whether it defines a function.
    pub defines: bool,
    /// Whether it has an initialiser at file scope.
    pub initialised: bool,
}

/// Whether a declaration of a linked name repeats what may be done once, or changes the linkage (K10). `earlier` is what the
/// declarations before it did, and `library` whether the name is one of the library's.
pub fn is_again(earlier: Option<Declaration>, declaration: Declaration, library: bool) -> bool
    ensures { result ≡ is_again_of earlier declaration library }
{
    (library && declaration.defines) || repeats(earlier, declaration)
}

fn repeats(earlier: Option<Declaration>, declaration: Declaration) -> bool
    ensures { result ≡ repeats earlier declaration }
{
    match earlier {
        None => false,
        Some(before) => {
            !same_linkage(before.linkage, declaration.linkage)
                || (before.defines && declaration.defines)
                || (before.initialised && declaration.initialised)
        }
    }
}

fn same_linkage(left: Linkage, right: Linkage) -> bool
    ensures { result ≡ same_linkage left right }
{
    match (left, right) {
        (Linkage::Alone, Linkage::Alone) => true,
        (Linkage::Internal, Linkage::Internal) => true,
        (Linkage::External, Linkage::External) => true,
        _ => false,
    }
}

/// What the declarations of a linked name did, with one more.
pub fn with_declaration(earlier: Option<Declaration>, declaration: Declaration) -> Declaration
    ensures { result ≡ with_declaration_of earlier declaration }
{
    match earlier {
        None => declaration,
        Some(before) => Declaration {
            linkage: declaration.linkage,
            defines: before.defines || declaration.defines,
            initialised: before.initialised || declaration.initialised,
        },
    }
}

/// Whether a declared name may have an initialiser (K11): it is no type and no function, and in a block it has no linkage (6.7.9p5).
pub fn may_be_initialised(place: Place, typedef: bool, function: bool, linkage: Linkage) -> bool
    ensures { result ≡ may_be_initialised_of place typedef function linkage }
{
    match place {
        Place::Block | Place::Clause => {
            !typedef && !function && same_linkage(linkage, Linkage::Alone)
        }
        _ => !typedef && !function,
    }
}
