// Question files: bytes to a question or a refusal, field by field, and a question to bytes.
#![tactic(auto)]

mod bodies;
mod fields;
mod reads;
mod writes;

pub use fields::{Said, field_at};
pub use reads::read_question;
pub use writes::write_question;
