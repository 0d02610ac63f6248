// What says which type a name has, where it is read.
ghost use Rattle.std.specs.Prelude.{◌≡◌, slice_get};
ghost use Rattle.cr_check_surroundings.specs.Raised.{initialises, is_first, raised, raised_by, raised_of};

use cr_rows::entry_at;
use cr_syntax::{Kind, Node};

fn is_first(part: u32, parts: &[u32]) -> bool
    ensures { result ≡ is_first part parts.now }
{
    match parts {
        [first, ..] => *first == part,
        [] => false,
    }
}

fn initialises(node: &Node, declarer: u32) -> bool
    ensures { result ≡ initialises node.now.kind node.now.parts declarer }
{
    match node.kind {
        Kind::InitDeclarator => is_first(declarer, node.parts.as_slice()),
        _ => false,
    }
}

fn raised_by(nodes: &[Node], above: u32, declarer: u32, reader: u32) -> u32
    ensures { result ≡ raised_by (slice_get nodes.now above) above declarer reader }
{
    match nodes.get(above as usize) {
        Some(node) => if initialises(node, declarer) && above < reader {
            above
        } else {
            declarer
        },
        None => declarer,
    }
}

fn raised(nodes: &[Node], above: &[Option<u32>], declarer: u32, reader: u32) -> u32
    ensures { result ≡ raised nodes.now above.now declarer reader }
{
    match entry_at(above, declarer as usize, None) {
        Some(node) => raised_by(nodes, node, declarer, reader),
        None => declarer,
    }
}

/// The declarator, or the initialised declarator around it, if that ends before the node that reads of it.
pub(crate) fn raised_of(
    nodes: &[Node],
    above: &[Option<u32>],
    declarer: Option<u32>,
    reader: u32,
) -> Option<u32>
    ensures { result ≡ raised_of nodes.now above.now declarer reader }
{
    match declarer {
        Some(declarer) => Some(raised(nodes, above, declarer, reader)),
        None => None,
    }
}
