// A solver's lines beside a question: the model that they say, judged, as an answer; or the solver's word that there is none.
#![tactic(auto)]

mod answers;
mod files;
mod models;
mod values;

pub use answers::solve;
pub use files::solve_file;
