// A question value to its answer, decided and written: what every call above does with a question.
#![tactic(auto)]

mod answers;
mod decisions;

pub use answers::answer_question;
pub use decisions::{decide, search_table};
