// The judge over bytes: a question file, and a model beside it.
ghost use Rattle.std.specs.Prelude.{◌≡◌};
ghost use Rattle.model_file.specs.Judges.{file_judged};

use crate::reads::read_model;
use judge::judge_lent;
use outcome::Refusal;
use question_file::read_question;

// The refusals of the question file, then 11 at place 0 for bytes that are no model of its names; else the first statement that fails, or none if every statement holds.
// Both are lent to the judge, so that they lie on the stack once.
#[tactic(auto, unfolding(crate::specs::Judges::file_judged, crate::specs::Judges::bytes_judged))]
pub fn judge_file(question: &[u8], model: &[u8]) -> Result<Option<usize>, Refusal>
    ensures { result ≡ file_judged question.now model.now }
{
    let q = read_question(question)?;
    let m = read_model(model, q.elements)?;
    judge_lent(&q, &m)
}
