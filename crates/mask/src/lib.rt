// Rows that differ only in their term as one entry, and the smallest mask of a class of terms.
#![tactic(auto)]

mod bits;
mod blames;
mod entries;
mod lowest;
mod masks;
mod meetings;
mod notes;
mod trials;

pub use entries::{entry_of, row_in, terms_in, test_in};
pub use masks::smallest_mask;
