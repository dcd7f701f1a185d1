// What a question is: so many names of two sorts, and a table of statements with its limits.
// With it the test of one statement more, and the check of a table that is handed in.
#![tactic(auto)]

mod admissions;
mod checks;
mod questions;

pub use admissions::{NotAdmitted, admit, may_add};
pub use checks::{check, check_names, statement_count, terms};
pub use questions::{Question, Record};
