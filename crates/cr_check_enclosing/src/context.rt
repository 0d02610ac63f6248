ghost use Rattle.std.specs.Prelude.{◌≡◌, Some, None, IfOk, slice_get, slice_index_or};
ghost use Rattle.cr_check_enclosing.specs.Around.{AreAround, outermost, inside_if, inside as inside_lem, place_in as place_in_lem, below as below_lem};

use cr_rows::entry_at;
use cr_syntax::{Kind, Node};
use std::alloc::{AllocError, Global};

/// What specifiers in a node are for.
#[derive(Clone, Copy)]
pub enum Place {
    /// an external declaration (C11 6.7)
    File,
    /// a function definition (6.9.1)
    Definition,
    /// a declaration in a block (6.8.2)
    Block,
    /// the declaration of a `for` (6.8.5.3)
    Clause,
    /// a parameter (6.7.6.3)
    Parameter,
    /// a member (6.7.2.1)
    Member,
    /// a type name (6.7.7)
    Name,
}

/// What a node has from above. Nodes are named by their numbers.
#[derive(Clone, Copy)]
pub struct Around {
    /// The function definition around it.
    pub function: Option<u32>,
    /// The nearest iteration statement around it, which `continue` goes on with.
    pub iteration: Option<u32>,
    /// The nearest `switch` around it, which `case` and `default` belong to.
    pub switch: Option<u32>,
    /// The nearest of both, which `break` leaves.
    pub breakable: Option<u32>,
    /// The nearest compound statement around it.
    pub block: Option<u32>,
    /// What specifiers in it are for.
    pub place: Place,
}

/// What an external declaration has from above.
pub const OUTERMOST: Around = Around {
    function: None,
    iteration: None,
    switch: None,
    breakable: None,
    block: None,
    place: Place::File,
};

/// What each node has from above, by the node above each.
pub fn all_around(
    alloc: Global,
    nodes: &[Node],
    above: &[Option<u32>],
) -> Result<Vec<Around>, AllocError>
    ensures { IfOk result (λ a. AreAround nodes.now above.now a.items) }
{
    let mut around = vec![in alloc; OUTERMOST; nodes.len()]?;
    for part in (0..nodes.len()).rev() {
        around[part] = below(nodes, &around, part, entry_at(above, part, None));
    }
    Ok(around)
}

// What a node has from the one above it.
fn below(nodes: &[Node], around: &[Around], part: usize, above: Option<u32>) -> Around
    ensures { result ≡ below_lem nodes.now (λ p. slice_index_or around.now p outermost) part above }
{
    match above {
        Some(number) if part < number as usize => {
            inside_at(nodes, number, entry_at(around, number as usize, OUTERMOST))
        }
        _ => OUTERMOST,
    }
}

fn inside_at(nodes: &[Node], number: u32, around: Around) -> Around
    ensures { result ≡ inside_if (slice_get nodes.now number) number around }
{
    let at = number as usize;
    if at < nodes.len() {
        inside(nodes[at].kind, number, around)
    } else {
        OUTERMOST
    }
}

// What the parts of a node have.
#[tactic(auto, unfolding(crate::specs::Around::inside))]
fn inside(kind: Kind, number: u32, around: Around) -> Around
    ensures { result ≡ inside_lem kind number around }
{
    match kind {
        Kind::FunctionDefinition => Around {
            function: Some(number),
            place: Place::Definition,
            ..OUTERMOST
        },
        Kind::Compound => Around {
            block: Some(number),
            place: Place::Block,
            ..around
        },
        Kind::For => Around {
            place: Place::Clause,
            ..in_iteration(number, around)
        },
        Kind::While | Kind::Do => in_iteration(number, around),
        Kind::Switch => Around {
            switch: Some(number),
            breakable: Some(number),
            ..around
        },
        kind => Around {
            place: place_in(kind, around.place),
            ..around
        },
    }
}

fn in_iteration(number: u32, around: Around) -> Around
    ensures { result ≡ record around { iteration = Some number; breakable = Some number } }
{
    Around {
        iteration: Some(number),
        breakable: Some(number),
        ..around
    }
}

fn place_in(kind: Kind, place: Place) -> Place
    ensures { result ≡ place_in_lem kind place }
{
    match kind {
        Kind::StructContent | Kind::MemberDeclaration => Place::Member,
        Kind::FunctionDeclarator | Kind::Parameters => Place::Parameter,
        Kind::VariadicParameters | Kind::Parameter => Place::Parameter,
        Kind::TypeName | Kind::Cast | Kind::SizeofType => Place::Name,
        _ => place,
    }
}
