// The answer to a question value, written into a lent buffer.
ghost use Rattle.std.specs.Prelude.{◌≡◌, length};
ghost use Rattle.decision.specs.Answers.{question_answered, question_answered_over};

use crate::decisions::decide;
use answer::write_answer;
use outcome::Refusal;
use question::Question;

// The answer's file: the refusals of the table, then 10 if the buffer is shorter than this answer. A refused call leaves the buffer as it was.
pub fn answer_question(q: Question, buf: &mut [u8]) -> Result<usize, Refusal>
    ensures { (result ≡ question_answered q (length buf.old)) × (buf.new ≡ question_answered_over q buf.old) }
{
    write_answer(q, decide(q)?, buf)
}
