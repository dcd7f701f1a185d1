// What a solver's lines come to: the model that they say, judged and written, or the solver's word.
ghost use Rattle.std.specs.Prelude.{◌≡◌, length, Ok};
ghost use Rattle.question.specs.Checks.{checked};
ghost use Rattle.solved.specs.Said.{said_written, said_over, said_passed, said_judged, said_judged_over};
ghost use Rattle.solved.specs.Solved.{variables_of, model_of, model_solved, model_over, reading_solved, reading_over, lines_solved, lines_over, question_solved, question_solved_over};

use crate::models::SaidModel;
use crate::values::SaidValues;
use answer::{Answer, write_answer};
use clauses::spare_variable;
use judge::{Model, judge};
use lines::{Reading, Stage, read_lines};
use outcome::Refusal;
use question::{Question, check, terms};

// The model as an answer.
fn write_model(q: Question, m: SaidModel, buf: &mut [u8]) -> Result<Option<usize>, Refusal>
    ensures { (result ≡ said_written q m (length buf.old)) × (buf.new ≡ said_over q m buf.old) }
{
    Ok(Some(write_answer(q, Answer::from(m), buf)?))
}

// Does the judge pass the model.
fn passes(q: Question, m: SaidModel) -> bool
    ensures { result ≡ said_passed q m }
{
    judge(q, Model::from(m)) == Ok(None)
}

// The model judged first: where the judge fails it, 14.
fn judge_model(q: Question, m: SaidModel, buf: &mut [u8]) -> Result<Option<usize>, Refusal>
    ensures { (result ≡ said_judged q m (length buf.old)) × (buf.new ≡ said_judged_over q m buf.old) }
{
    if passes(q, m) {
        return write_model(q, m, buf);
    }
    Err(Refusal::new(Refusal::MODEL_FAILS, 0))
}

// A question whose table is accepted.
#[derive(Clone, Copy)]
pub(crate) struct Asked {
    pub(crate) question: Question,
    ghost sound: { checked question ≡ Ok tt },
}

impl Asked {
    // How many variables the clauses of the question have.
    fn variables(&self) -> u32
        ensures { result ≡ variables_of self.now.question }
    {
        spare_variable(terms(self.question) as u8, self.question.sets) as u32
    }

    // The model of the values.
    fn solve_values(&self, said: &Reading, buf: &mut [u8]) -> Result<Option<usize>, Refusal>
        ensures { (result ≡ model_solved self.now.question (model_of self.now.question said.now.values) (length buf.old)) × (buf.new ≡ model_over self.now.question (model_of self.now.question said.now.values) buf.old) }
    {
        let values = SaidValues {
            reading: said,
            terms: terms(self.question) as u8,
            sets: self.question.sets,
        };
        judge_model(self.question, values.model(), buf)
    }

    // What was read: the solver's word, or the model of its values.
    fn solve_reading(&self, said: &Reading, buf: &mut [u8]) -> Result<Option<usize>, Refusal>
        ensures { (result ≡ reading_solved self.now.question said.now (length buf.old)) × (buf.new ≡ reading_over self.now.question said.now buf.old) }
    {
        match said.stage {
            Stage::Valued => self.solve_values(said, buf),
            _ => Ok(None),
        }
    }

    // The lines: 13 first.
    #[tactic(auto, unfolding(crate::specs::Solved::lines_solved, crate::specs::Solved::lines_over))]
    pub(crate) fn solve_lines(&self, lines: &[u8], buf: &mut [u8]) -> Result<Option<usize>, Refusal>
        ensures { (result ≡ lines_solved self.now.question lines.now (length buf.old)) × (buf.new ≡ lines_over self.now.question lines.now buf.old) }
    {
        let reading = read_lines(lines, self.variables())?;
        self.solve_reading(&reading, buf)
    }
}

// A solver's lines beside a question: the refusals of the table, then 13 for lines not of the form, 14 for a model that the judge fails, and 10 last.
// A model that the judge passes is written as an answer; the solver's word that there is none is told, and nothing is written.
#[tactic(auto, unfolding(crate::specs::Solved::question_solved, crate::specs::Solved::question_solved_over))]
pub fn solve(q: Question, lines: &[u8], answer: &mut [u8]) -> Result<Option<usize>, Refusal>
    ensures { (result ≡ question_solved q lines.now (length answer.old)) × (answer.new ≡ question_solved_over q lines.now answer.old) }
{
    check(q)?;
    Asked { question: q }.solve_lines(lines, answer)
}
