// A solver's lines beside a question file.
ghost use Rattle.std.specs.Prelude.{◌≡◌, length};
ghost use Rattle.solved.specs.Solved.{file_solved, file_solved_over};

use crate::answers::Asked;
use outcome::Refusal;
use question_file::read_question;

// The refusals of the file, then those of the lines and of the model, and 10 last. Where the call is refused, or says `None`, the buffer is as it was.
#[tactic(auto, using(question_file::proofs::RoundTrips::question_checked), unfolding(crate::specs::Solved::file_solved, crate::specs::Solved::file_solved_over))]
pub fn solve_file(
    question: &[u8],
    lines: &[u8],
    answer: &mut [u8],
) -> Result<Option<usize>, Refusal>
    ensures { (result ≡ file_solved question.now lines.now (length answer.old)) × (answer.new ≡ file_solved_over question.now lines.now answer.old) }
{
    let asked = Asked {
        question: read_question(question)?,
    };
    asked.solve_lines(lines, answer)
}
