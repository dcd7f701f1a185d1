// A model as bytes beside a question: read, and judged. The judge is `judge`'s; here are only the bytes.
#![tactic(auto)]

mod files;
mod reads;

pub use files::judge_file;
pub use reads::read_model;
