// What a statement is: one of eleven kinds over names of two sorts, with its tag and its witness.
// With it what a statement means in an assignment, and the test that its names are declared.
#![tactic(auto)]

mod name_tests;
mod names;
mod statements;

pub use name_tests::name_test;
pub use names::{ElementName, SetName};
pub use statements::{Statement, witness_of};
