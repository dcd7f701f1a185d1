// Numbers in bytes, high byte first, of any length up to eight.
#![tactic(auto)]

mod numbers;

pub use numbers::{number_in, put_number};
