// What a call leaves: what was asked for, or a refusal with its number and place; so every call answers a Result.
// In specs/: what follows a check, what a writer leaves in a lent buffer, and what it means that a contract leaves one outcome.
#![tactic(auto)]

mod refusals;
mod verdicts;

pub use refusals::Refusal;
pub use verdicts::Verdict;
