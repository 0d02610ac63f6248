ghost use Rattle.std.specs.Prelude.{◌≡◌, IsTrue};
ghost use Rattle.cr_check_types.specs.Relations.{AreRows};

use cr_check_types::Table;

/// Whether each number is a row of the table.
#[tactic(auto, using(crate::proofs::Listed::more))]
pub fn all_rows(table: &Table, rows: &[u32]) -> bool
    ensures { IsTrue result → AreRows table.now rows.now }
{
    for at in 0..rows.len() {
        if rows[at] as usize >= table.len() {
            return false;
        }
    }
    true
}
