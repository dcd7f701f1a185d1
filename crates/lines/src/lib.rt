// A solver's lines, read back: which line is first out of place, that the solver says unsatisfiable, or the value of each variable.
#![tactic(auto)]

mod readings;
mod reads;
mod steps;
mod words;

pub use readings::{Reading, Stage};
pub use reads::read_lines;
