// The answer to a question as a value, its writer and its reader.
#![tactic(auto)]

mod answers;
mod bodies;
mod checks;
mod reads;
mod writes;

pub use answers::Answer;
pub use reads::read_answer;
pub use writes::write_answer;
