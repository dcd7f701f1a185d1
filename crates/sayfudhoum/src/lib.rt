// The library: question bytes to a decision and to answer bytes, and the calls for C.
#![tactic(auto)]

mod exports;
mod files;
mod numbers;

pub use exports::{
    sayfudhoum_answer, sayfudhoum_clash, sayfudhoum_clauses, sayfudhoum_judge, sayfudhoum_solved,
    sayfudhoum_verdict,
};
pub use files::{answer_file, decide_file, respond};
