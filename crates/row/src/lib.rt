// A row as one number of 20 bits: packing and unpacking, its test by name, which rows have one test, and the check of rows that are handed in.
#![tactic(auto)]

mod checks;
mod comparisons;
mod parts;
mod tests;

pub use checks::check_rows;
pub use comparisons::same_test;
pub use parts::{RowParts, pack, unpack};
pub use tests::Test;
