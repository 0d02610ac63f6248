//! The top call of the reducer: it reads the words of the command line, the file, and the law's ruling on it, asks the
//! test, reduces, and writes the results. Each status has its cause as a clause of `run`, and the headline is a clause
//! of it too. What comes of words is a value, and what is done with it is a run of a task (`cr_main_task`), whose promises
//! are carried over to the words here. Stands on `cr_main_task`, `cr_main_kept`, `cr_standing`,
//! `cr_main_words`, `cr_formula_bound`, `cr_lawful`, `pass_list` and `cr_gen`.
#![tactic(auto)]

mod asked;
mod by_formula;
mod engines;
mod given;
mod laws;
mod messages;
mod modes;
mod names;
mod source;
mod standing;
mod top;

pub use laws::a_name_has_one_own_name;
pub use modes::run_more;
pub use top::run;
