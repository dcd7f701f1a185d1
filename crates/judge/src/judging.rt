// The judgement: the refusals of the table, then of the model, then the statements in order.
ghost use Rattle.std.specs.Prelude.{◌≡◌, not, position, take};
ghost use Rattle.statement.specs.Meaning.{holds};
ghost use Rattle.judge.specs.Models.{assigned};
ghost use Rattle.judge.specs.Judgements.{model_judged, judged};

use crate::models::Model;
use outcome::Refusal;
use question::{Question, check};

// What a caller in C gets where every statement holds: the index of none.
pub const ALL_HOLD: usize = 64;

// The index of the first statement that fails, if one does.
fn first_failing(q: &Question, m: &Model) -> Option<usize>
    ensures { result ≡ position (λ r. not (holds (assigned m.now) r.statement)) (take q.now.count q.now.table) }
{
    q.table
        .iter()
        .take(q.count)
        .position(|entry| !m.does_hold(entry.statement))
}

// The judgement of a table as it stands and a model, both lent, so that neither is copied: 11 at place 0 for a bad model;
// else the index of the first statement that fails, or none if every statement holds.
#[tactic(auto, using(crate::proofs::FailingLaws::judged_as_found), unfolding(crate::specs::Judgements::model_judged))]
pub fn judge_lent(q: &Question, m: &Model) -> Result<Option<usize>, Refusal>
    ensures { result ≡ model_judged q.now m.now }
{
    if !m.is_model(q.elements, q.sets) {
        return Err(Refusal::new(Refusal::BAD_MODEL, 0));
    }
    Ok(first_failing(q, m))
}

// The same of values.
pub fn judge_model(q: Question, m: Model) -> Result<Option<usize>, Refusal>
    ensures { result ≡ model_judged q m }
{
    judge_lent(&q, &m)
}

// The refusals of the table, then the judgement of the model.
#[tactic(auto, unfolding(crate::specs::Judgements::judged))]
pub fn judge(q: Question, m: Model) -> Result<Option<usize>, Refusal>
    ensures { result ≡ judged q m }
{
    check(q)?;
    judge_model(q, m)
}
