ghost use Rattle.std.specs.Prelude.{◌≡◌, ◌&&◌, ◌||◌, ℕ, IfOk, OnOk, None, Some, Option, Bool, length, nat_lt, slice_index_or};
ghost use Rattle.std.specs.HashMap.{get};
ghost use Rattle.cr_check_enclosing.specs.Repeats.{AreRepeated, has_before, has_mark, is_below, is_mark, mark_in, place_of};

use cr_rows::entry_at;
use cr_syntax::{Node, first_token_at};
use std::alloc::{AllocError, Global};
use std::collections::HashMap;
use std::hash::Hash;

/// For each node whether one that stands before it in the text has the same mark, as the case constants of a `switch` after their
/// conversion (C11 6.8.4.2p3) or the labels of a function (6.8.1p3). Where a label is on a label, the outer one stands before, though
/// its node has the greater number. A node without a mark repeats nothing.
pub fn repeated<K: Hash + Eq + Copy + Drop>(
    alloc: Global,
    marks: &[Option<K>],
    nodes: &[Node],
) -> Result<Vec<bool>, AllocError>
    ensures { IfOk result (λ r. AreRepeated K.eq marks.now (place_of nodes.now) r.items) }
{
    let least = least_places(alloc, marks, nodes)?;
    let mut repeated = Vec::new(alloc);
    for at in 0..marks.len() {
        let mark = entry_at(marks, at, None);
        repeated.push(is_behind(&least, mark, first_token_at(nodes, at)))?;
    }
    Ok(repeated)
}

// For each mark the least token at which a node with it stands.
fn least_places<K: Hash + Eq + Copy + Drop>(
    alloc: Global,
    marks: &[Option<K>],
    nodes: &[Node],
) -> Result<HashMap<K, u32>, AllocError>
    ensures { IfOk result (λ least. (q : K) (token : ℕ) → is_below (get K.eq least q) token ≡ has_before K.eq (mark_in marks.now) (place_of nodes.now) (length marks.now) token q) }
{
    let mut least = HashMap::new(alloc);
    for at in 0..marks.len() {
        note(
            &mut least,
            entry_at(marks, at, None),
            first_token_at(nodes, at),
        )?;
    }
    Ok(least)
}

fn note<K: Hash + Eq + Copy + Drop>(
    least: &mut HashMap<K, u32>,
    mark: Option<K>,
    place: u32,
) -> Result<(), AllocError>
    ensures { OnOk result ((q : K) (token : ℕ) → is_below (get K.eq least.new q) token ≡ (is_below (get K.eq least.old q) token || (nat_lt place token && is_mark K.eq q mark))) }
{
    match mark {
        Some(mark) => {
            let place = lesser(least.get(&mark).copied(), place);
            least.insert(mark, place)?;
            Ok(())
        }
        None => Ok(()),
    }
}

fn lesser(before: Option<u32>, place: u32) -> u32
    ensures { (token : ℕ) → nat_lt result token ≡ (is_below before token || nat_lt place token) }
{
    match before {
        Some(before) if before < place => before,
        _ => place,
    }
}

// Whether the mark stands before a token.
fn is_behind<K: Hash + Eq + Copy + Drop>(
    least: &HashMap<K, u32>,
    mark: Option<K>,
    token: u32,
) -> bool
    ensures { result ≡ has_mark (λ q. is_below (get K.eq least.now q) token) mark }
{
    match mark {
        Some(mark) => match least.get(&mark) {
            Some(place) => *place < token,
            None => false,
        },
        None => false,
    }
}
