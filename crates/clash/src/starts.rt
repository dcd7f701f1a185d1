// The first decision of a question, and where the walk over its statements begins.
ghost use Rattle.std.specs.Prelude.{◌≡◌, Ok};
ghost use Rattle.question.specs.Limits.{max_statements};
ghost use Rattle.question.specs.Checks.{checked};
ghost use Rattle.clash.specs.Starts.{Begins};

use crate::walks::{Start, is_impossible};
use answer::Answer;
use building::drop_statements;
use decision::decide;
use outcome::Refusal;
use question::{Question, check};

// The answer to a question, and where the walk begins, if the question is impossible.
#[derive(Clone, Copy)]
pub struct Begun {
    pub answer: Answer,
    pub start: Start,
}

// Of a full table that is accepted, what remains without the first statement is decided first: if it is impossible, so is the whole, and that decision is saved;
// if not, the first statement is known to be needed where the whole is impossible.
fn begin_full(q: Question) -> Result<Begun, Refusal>
    requires { (checked q ≡ Ok tt) × (q.count ≡ max_statements) }
    ensures { Begins q result }
{
    let rest = drop_statements(q, 0, 1);
    if is_impossible(rest) {
        return Ok(Begun {
            answer: Answer::impossible(),
            start: Start {
                from: 1,
                bound: None,
                left: Question::MAX_STATEMENTS,
            },
        });
    }
    Ok(Begun {
        answer: decide(q)?,
        start: Start {
            from: 0,
            bound: Some(1),
            left: Question::MAX_STATEMENTS - 1,
        },
    })
}

// The refusals of the table, or the answer and where the walk begins. A walk of 64 statements has no decision to spare, unless the first one is saved.
pub(crate) fn begin(q: Question) -> Result<Begun, Refusal>
    ensures { Begins q result }
{
    if q.count == Question::MAX_STATEMENTS {
        check(q)?;
        return begin_full(q);
    }
    Ok(Begun {
        answer: decide(q)?,
        start: Start {
            from: 0,
            bound: None,
            left: Question::MAX_STATEMENTS,
        },
    })
}
