//! What a reduction did, as texts: `read_reduction` reads its log, and `read_journal` what its journal has so far, while it runs too.
//! `report_text` makes a table of them, of what each pass and level was accepted for, the turns up to that and what it took off the size, and a
//! picture of the size against the turns, of two reductions side by side where another is given; `picture_text` makes that picture as SVG. The
//! table's columns are proved to sum up to the accepted variants, to the turns, and to the first size less the last. Stands on `cr_log`.
#![tactic(auto)]

mod cells;
mod drawing;
mod fault;
mod journal;
mod picture;
mod reduction;
mod scale;
mod shown;
mod table;
mod words;

pub use cells::Cell;
pub use drawing::picture_text;
pub use fault::ReportFault;
pub use reduction::{Reduction, read_journal, read_reduction};
pub use shown::Named;
pub use table::report_text;
pub use words::{Asked, asked_for};
