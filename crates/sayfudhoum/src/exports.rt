// The calls for the generator's C build, which `sayfudhoum_c` exports. They pass only numbers and byte slices, and refuse by number.
ghost use Rattle.std.specs.Prelude.{◌≡◌, length};
ghost use Rattle.clash.specs.Files.{three, clash_over};
ghost use Rattle.dimacs.specs.Writes.{file_clauses_over};
ghost use Rattle.solved.specs.Solved.{file_solved_over};
ghost use Rattle.sayfudhoum.specs.Files.{answered_over};
ghost use Rattle.sayfudhoum.specs.Numbers.{answer_number, verdict_number, clash_number, clauses_number, solved_number, judge_number};

use crate::files::{answer_file, decide_file};
use crate::numbers::{
    clash_number, decision_number, judgement_number, solved_number, written_number,
};
use clash::clash_file;
use dimacs::clauses_file;
use model_file::judge_file;
use solved::solve_file;

// Question bytes to answer bytes: the count of the bytes written, or the refusal.
pub fn sayfudhoum_answer(question: &[u8], answer: &mut [u8]) -> u64
    ensures { (result ≡ answer_number question.now (length answer.old)) × (answer.new ≡ answered_over question.now answer.old) }
{
    let written = answer_file(question, answer);
    written_number(written)
}

// Question bytes to a verdict: 1 for possible, 0 for impossible, or the refusal.
pub fn sayfudhoum_verdict(question: &[u8]) -> u64
    ensures { result ≡ verdict_number question.now }
{
    decision_number(decide_file(question))
}

// Question bytes to the file of the clashing part, its indexes and the question's answer: the three counts of what was written, or the refusal.
pub fn sayfudhoum_clash(
    question: &[u8],
    part: &mut [u8],
    indexes: &mut [u8],
    answer: &mut [u8],
) -> u64
    ensures value { result ≡ clash_number question.now (three part.old indexes.old answer.old) }
    ensures buffers { three part.new indexes.new answer.new ≡ clash_over question.now (three part.old indexes.old answer.old) }
{
    let written = clash_file(question, part, indexes, answer);
    clash_number(written)
}

// Question bytes to the clauses of its reduced table, as DIMACS text: the count of the bytes written, or the refusal.
pub fn sayfudhoum_clauses(question: &[u8], clauses: &mut [u8]) -> u64
    ensures { (result ≡ clauses_number question.now (length clauses.old)) × (clauses.new ≡ file_clauses_over question.now clauses.old) }
{
    let written = clauses_file(question, clauses);
    written_number(written)
}

// Question bytes and a solver's lines to the answer that they say: the count of the bytes written, 0 for the solver's word that there is none, or the refusal.
pub fn sayfudhoum_solved(question: &[u8], lines: &[u8], answer: &mut [u8]) -> u64
    ensures { (result ≡ solved_number question.now lines.now (length answer.old)) × (answer.new ≡ file_solved_over question.now lines.now answer.old) }
{
    let solved = solve_file(question, lines, answer);
    solved_number(solved)
}

// Question bytes and the bytes of any model to the judgement: the index of the first statement that fails, 64 if all hold, or the refusal.
pub fn sayfudhoum_judge(question: &[u8], model: &[u8]) -> u64
    ensures { result ≡ judge_number question.now model.now }
{
    let judgement = judge_file(question, model);
    judgement_number(judgement)
}
