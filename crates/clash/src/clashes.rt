// The clashing part of a question: which of its statements can't all hold, where none of them can be spared.
ghost use Rattle.std.specs.Prelude.{◌≡◌};
ghost use Rattle.clash.specs.Clashes.{none_kept, clashed};

use crate::starts::{Begun, begin};
use crate::walks::{Kept, walk};
use answer::Answer;
use building::declare;
use outcome::{Refusal, Verdict};
use question::Question;

// The clashing part of a question that is decided, as a question; the old index of each statement in it; and the question's answer.
// A possible question has a part without statements. The indexes are a fixed array, for want of a heap: those past the part's are 0.
#[derive(Clone, Copy)]
pub struct ClashingPart {
    pub part: Question,
    pub indexes: [u8; Question::MAX_STATEMENTS],
    pub answer: Answer,
}

// No statement is kept.
fn keep_none(q: Question) -> Kept
    ensures { result ≡ none_kept q }
{
    Kept {
        part: declare(q.elements, q.sets),
        indexes: [0; Question::MAX_STATEMENTS],
    }
}

// The refusals of the table; else the clashing part, and the answer to the question itself.
pub fn clash(q: Question) -> Result<ClashingPart, Refusal>
    ensures { result ≡ clashed q }
{
    let Begun { answer, start } = begin(q)?;
    let kept = match answer.verdict {
        Verdict::Possible => keep_none(q),
        Verdict::Impossible => walk(q, start),
    };
    let Kept { part, indexes } = kept;
    Ok(ClashingPart {
        part,
        indexes,
        answer,
    })
}
