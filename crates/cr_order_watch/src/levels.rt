// All nodes that have begun and not ended.
ghost use Rattle.std.specs.Prelude.{◌≡◌, true, false, List, Some, IfSome, IfNone, length};
ghost use Rattle.cr_eval.specs.Table.{program_of};
ghost use Rattle.cr_meaning.specs.World.{Program};
ghost use Rattle.cr_meaning_loose.specs.Levels.{Level, AreAllFixed, bottom_of, closed};
ghost use Rattle.cr_meaning_loose.specs.Lists.{Lists, around};
ghost use Rattle.cr_meaning_loose.specs.Loose.{Judged};
ghost use Rattle.cr_order_watch.specs.Known.{AreOpen, HasPieces, IsCutBy, IsOpen, is_asked};

use crate::lists::cut_place;
use crate::opened::{Open, either};
use cr_eval::Table;
use cr_rows::Row;

/// Whether what begins now is within an operand without an order.
pub(crate) fn is_asked(nodes: &[Open]) -> bool
    ensures { (p : Program) (lists : Lists) (levels : List Level) → AreOpen p lists nodes.now levels → result ≡ is_asked p levels }
{
    match nodes.last() {
        Some(top) => either(top.asked, top.ended < top.operands),
        None => false,
    }
}

/// The node, where its operands see one another.
fn loose_one(top: &Open) -> Option<u32>
    ensures some { IfSome result (λ node. (node ≡ top.now.node) × (top.now.fixed ≡ false)) }
    ensures none { IfNone result (top.now.fixed ≡ true) }
{
    if top.fixed { None } else { Some(top.node) }
}

/// What is loose first of a node that is cut off, as another one within it is: a list around that one, where it is an operand, or else the node; or the
/// node, where its operands see one another.
fn cut_around(table: &Table, outer: &[Option<u32>], top: &Open, node: u32) -> Option<u32>
    ensures { (p : Program) (level : Level) (below : List Level) → program_of table.now ≡ p → IsOpen p top.now level below → HasPieces p (around outer.now) top.now level
        → IsCutBy p (around outer.now) top.now level (Some node) result }
{
    if top.ended < top.operands {
        Some(cut_place(table, outer, top, node))
    } else {
        loose_one(top)
    }
}

/// The same of any node that is cut off.
fn cut(table: &Table, outer: &[Option<u32>], top: Open, within: Option<u32>) -> Option<u32>
    ensures { (p : Program) (level : Level) (below : List Level) → program_of table.now ≡ p → IsOpen p top level below → HasPieces p (around outer.now) top level
        → IsCutBy p (around outer.now) top level within result }
{
    match within {
        Some(node) => cut_around(table, outer, &top, node),
        None => loose_one(&top),
    }
}

/// The first node whose operands see one another, of those that are cut off now.
pub(crate) fn first_cut(table: &Table, outer: &[Option<u32>], nodes: Row<Open>) -> Option<u32>
    ensures { (p : Program) (levels : List Level) → program_of table.now ≡ p → bottom_of levels ≡ length p.ops → AreAllFixed p (around outer.now) levels → AreOpen p (around outer.now) nodes levels
        → Judged p (around outer.now) (closed levels) result }
{
    let mut nodes = nodes;
    let mut within = None;
    while let Some(top) = nodes.pop() {
        let number = top.node;
        if let Some(node) = cut(table, outer, top, within) {
            return Some(node);
        }
        within = Some(number);
    }
    None
}
