// The steps by which a question is built: names declared, one statement more, a run of statements less.
#![tactic(auto)]

mod builds;

pub use builds::{add, declare, drop_statements};
