// A question value to its answer: the table is checked, its rows are written, and the rows are searched.
ghost use Rattle.std.specs.Prelude.{◌≡◌};
ghost use Rattle.decision.specs.Decisions.{table_searched, shown, decided};

use answer::Answer;
use outcome::Refusal;
use question::{Question, check, terms};
use reduction::write_rows;
use search::{Found, search};

// What the search found, as an answer.
#[tactic(auto, unfolding(crate::specs::Decisions::shown))]
fn show(found: Option<Found>) -> Answer
    ensures { result ≡ shown found }
{
    match found {
        None => Answer::impossible(),
        Some(model) => {
            let arrangement = model.arrangement;
            let masks = model.masks;
            Answer {
                arrangement,
                masks,
                ..Answer::filler()
            }
        }
    }
}

// What the search says of the rows of a table as it stands: no check of the table comes first.
// Rows that aren't written belong to more than 12 terms, which the search refuses whatever the rows.
pub fn search_table(q: Question) -> Result<Option<Found>, Refusal>
    ensures { result ≡ table_searched q }
{
    let mut rows: [u32; Question::MAX_ROWS] = [0; Question::MAX_ROWS];
    let count = match write_rows(q, &mut rows) {
        Err(_) => 0,
        Ok(count) => count,
    };
    let n = terms(q);
    search(&rows[..count], n, q.sets)
}

// The answer to a question: its first model, or that it is impossible; or why the table is refused.
#[tactic(auto, using(crate::proofs::DecisionLaws::found_decided, crate::proofs::DecisionLaws::never_refused, crate::proofs::DecisionLaws::decided_refused), unfolding(crate::specs::Decisions::decided))]
pub fn decide(q: Question) -> Result<Answer, Refusal>
    ensures { result ≡ decided q }
{
    check(q)?;
    Ok(show(search_table(q)?))
}
