// From question bytes: the clashing part's file, its indexes and the question's answer, each in a lent buffer of its own.
ghost use Rattle.std.specs.Prelude.{◌≡◌, Ok};
ghost use Rattle.question.specs.Checks.{checked};
ghost use Rattle.question_file.specs.Bytes.{question_bytes};
ghost use Rattle.clash.specs.Clashes.{clashed};
ghost use Rattle.clash.specs.Files.{three, three_written, three_over, clash_bytes, clash_written, clash_over};

use crate::clashes::{ClashingPart, clash};
use answer::{Answer, write_answer};
use outcome::Refusal;
use question::Question;
use question_file::{read_question, write_question};

// How many bytes of the part, how many indexes and how many bytes of the answer were written.
#[derive(Clone, Copy, PartialEq, Eq)]
pub struct ClashCounts {
    pub part: usize,
    pub indexes: usize,
    pub answer: usize,
}

// The part's file, its indexes and the answer into their buffers, or 10. The lengths of two are compared first, and the writer of the part compares its own:
// so nothing is written before all are known to fit.
fn put_three(
    found: Question,
    old: &[u8],
    said: &[u8],
    part: &mut [u8],
    indexes: &mut [u8],
    answer: &mut [u8],
) -> Result<ClashCounts, Refusal>
    requires { checked found ≡ Ok tt }
    ensures value { result ≡ three_written (three (question_bytes found) old.now said.now) (three part.old indexes.old answer.old) }
    ensures buffers { three part.new indexes.new answer.new ≡ three_over (three (question_bytes found) old.now said.now) (three part.old indexes.old answer.old) }
{
    if indexes.len() < old.len() || answer.len() < said.len() {
        return Err(Refusal::new(Refusal::BUFFER_TOO_SHORT, 0));
    }
    let n = write_question(found, part)?;
    indexes[..old.len()].copy_from_slice(old);
    answer[..said.len()].copy_from_slice(said);
    Ok(ClashCounts {
        part: n,
        indexes: old.len(),
        answer: said.len(),
    })
}

// What was found, written. The answer is made in a buffer of its own first, so that its length is known.
fn write_clash(
    q: Question,
    found: ClashingPart,
    part: &mut [u8],
    indexes: &mut [u8],
    answer: &mut [u8],
) -> Result<ClashCounts, Refusal>
    requires { (checked q ≡ Ok tt) × (clashed q ≡ Ok found) }
    ensures value { result ≡ three_written (clash_bytes q) (three part.old indexes.old answer.old) }
    ensures buffers { three part.new indexes.new answer.new ≡ three_over (clash_bytes q) (three part.old indexes.old answer.old) }
{
    let mut said = [0u8; Answer::MAX_BYTES];
    let n = write_answer(q, found.answer, &mut said)?;
    let old = &found.indexes[..found.part.count];
    put_three(found.part, old, &said[..n], part, indexes, answer)
}

// The clash of a question file: the refusals of the file, then 10 if a buffer is shorter than what must be written into it. A refused call leaves all three as they were.
pub fn clash_file(
    bytes: &[u8],
    part: &mut [u8],
    indexes: &mut [u8],
    answer: &mut [u8],
) -> Result<ClashCounts, Refusal>
    ensures value { result ≡ clash_written bytes.now (three part.old indexes.old answer.old) }
    ensures buffers { three part.new indexes.new answer.new ≡ clash_over bytes.now (three part.old indexes.old answer.old) }
{
    let q = read_question(bytes)?;
    write_clash(q, clash(q)?, part, indexes, answer)
}
