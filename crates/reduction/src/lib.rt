// The reduction: a question's rows, packed, from the start of a lent buffer.
#![tactic(auto)]

mod reducing;
mod rules;
mod writing;

pub use reducing::{reduce, write_rows};
