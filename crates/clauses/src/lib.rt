// The clauses of a reduced table for an outside solver: which they are, and what they mean. Definitions in specs/, laws in proofs/.
// proofs/Satisfiable.antt has the main theorem: the clauses can be satisfied exactly if the question is possible. The only code is the numbers of the variables.
#![tactic(auto)]

mod variables;

pub use variables::{in_variable, pair_variable, spare_variable};
