// The judge: a question and any model, from whatever maker; yes, or the index of the first statement that fails.
// It keeps no list of any set: each statement is tested straight from the masks, one domain element after another.
#![tactic(auto)]

mod holding;
mod judging;
mod models;

pub use judging::{ALL_HOLD, judge, judge_lent, judge_model};
pub use models::Model;
