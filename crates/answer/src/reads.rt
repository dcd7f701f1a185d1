// The reader of answer files: bytes beside a question to an answer, or a refusal with its number and place. It does not judge the answer.
ghost use Rattle.std.specs.Prelude.{◌≡◌, ◌≤◌};
ghost use Rattle.question.specs.Limits.{max_terms};
ghost use Rattle.answer.specs.Reads.{end_read, masks_read, numbers_read, verdict_read, file_read, read_answer};

use crate::answers::Answer;
use crate::checks::{Asked, all_below, count_classes};
use body::{MASK_BYTES, masks_in, numbers_in};
use field::{Due, File, Frame, byte_at, frame_at};
use outcome::Refusal;
use question::{Question, check};

// Field 7F at a place, and 9 at the first extra byte.
fn read_end(bytes: &[u8], at: usize, a: Answer) -> Result<Answer, Refusal>
    ensures { result ≡ end_read bytes.now at a }
{
    let frame = frame_at(bytes, at, File::Answer, Due::Only(0x7f), 0)?;
    let end = at + Frame::HEAD + frame.length;
    if end < bytes.len() {
        return Err(Refusal::new(Refusal::BYTES_AFTER_END, end));
    }
    Ok(a)
}

// Field 42 at a place, behind the class numbers: 11 for a mask with a bit at or above the number of sets.
fn read_masks(
    bytes: &[u8],
    at: usize,
    numbers: [u8; Question::MAX_TERMS],
    classes: usize,
    bound: u64,
) -> Result<Answer, Refusal>
    requires { classes ≤ max_terms }
    ensures { result ≡ masks_read bound bytes.now at numbers classes }
{
    let size = classes * MASK_BYTES;
    let frame = frame_at(bytes, at, File::Answer, Due::Only(0x42), size)?;
    let body = at + Frame::HEAD;
    let next = body + frame.length;
    let masks = masks_in(&bytes[body..next]);
    if !all_below(masks, classes, bound) {
        return Err(Refusal::new(Refusal::BAD_MODEL, at));
    }
    let answer = Answer {
        arrangement: numbers,
        masks,
        ..Answer::filler()
    };
    read_end(bytes, next, answer)
}

// Field 41 at a place, behind the verdict: 11 for a class number against the rule.
fn read_numbers(asked: Asked, bytes: &[u8], at: usize) -> Result<Answer, Refusal>
    ensures { result ≡ numbers_read asked.terms asked.bound bytes.now at }
{
    let frame = frame_at(bytes, at, File::Answer, Due::Only(0x41), asked.terms)?;
    let body = at + Frame::HEAD;
    let next = body + frame.length;
    let numbers = numbers_in(&bytes[body..next]);
    let Some(classes) = count_classes(numbers, asked.terms) else {
        return Err(Refusal::new(Refusal::BAD_MODEL, at));
    };
    read_masks(bytes, next, numbers, classes, asked.bound)
}

// By the verdict byte, before the field at a place: 11 if it is above 1.
fn read_verdict(asked: Asked, bytes: &[u8], verdict: u8, next: usize) -> Result<Answer, Refusal>
    ensures { result ≡ verdict_read asked.terms asked.bound bytes.now verdict next }
{
    match verdict {
        0 => read_end(bytes, next, Answer::impossible()),
        1 => read_numbers(asked, bytes, next),
        _ => Err(Refusal::new(Refusal::BAD_MODEL, 0)),
    }
}

// The answer of a file, field by field from its first byte on.
fn read_file(asked: Asked, bytes: &[u8]) -> Result<Answer, Refusal>
    ensures { result ≡ file_read asked.terms asked.bound bytes.now }
{
    let frame = frame_at(bytes, 0, File::Answer, Due::Only(0x40), 0)?;
    let verdict = byte_at(bytes, Frame::HEAD);
    read_verdict(asked, bytes, verdict, Frame::HEAD + frame.length)
}

// The answer of a file beside its question: the refusals of the table, then those of the file.
#[tactic(auto, using(question::proofs::AcceptedLaws::accepted), unfolding(crate::specs::Reads::read_answer))]
pub fn read_answer(q: Question, bytes: &[u8]) -> Result<Answer, Refusal>
    ensures { result ≡ read_answer q bytes.now }
{
    check(q)?;
    read_file(Asked::by(q), bytes)
}
