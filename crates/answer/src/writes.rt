// The writer of answer files: an answer beside its question into a lent buffer, field by field.
ghost use Rattle.std.specs.Prelude.{◌≡◌, ◌*◌, ◌≤◌, length, take};
ghost use Rattle.question.specs.Limits.{max_terms};
ghost use Rattle.outcome.specs.Writes.{over, fitted_over, fitted};
ghost use Rattle.answer.specs.Answers.{cut_to, said};
ghost use Rattle.answer.specs.Bytes.{numbers_bytes, masks_bytes, solution_bytes, model_bytes, file_of};
ghost use Rattle.answer.specs.Checks.{classes_in};
ghost use Rattle.answer.specs.Writes.{good_written, good_over, written, written_over};

use crate::answers::Answer;
use crate::bodies::mask_body;
use crate::checks::{Asked, check_answer};
use body::MASK_BYTES;
use field::{File, field_length, put_field};
use outcome::{Refusal, Verdict};
use question::{Question, check};

// Field 41 at the front of the lent part.
fn put_numbers(numbers: [u8; Question::MAX_TERMS], terms: usize, buf: &mut [u8]) -> usize
    requires { (terms ≤ max_terms) × (length (numbers_bytes (take terms numbers)) ≤ length buf.old) }
    ensures { (result ≡ length (numbers_bytes (take terms numbers))) × (buf.new ≡ over (numbers_bytes (take terms numbers)) buf.old) }
{
    put_field(0x41, &numbers[..terms], buf)
}

// Field 42 at the front of the lent part.
fn put_masks(masks: [u32; Question::MAX_TERMS], classes: usize, buf: &mut [u8]) -> usize
    requires { (classes ≤ max_terms) × (length (masks_bytes (take classes masks)) ≤ length buf.old) }
    ensures { (result ≡ length (masks_bytes (take classes masks))) × (buf.new ≡ over (masks_bytes (take classes masks)) buf.old) }
{
    let n = classes * MASK_BYTES;
    let body = mask_body(masks, classes);
    put_field(0x42, &body[..n], buf)
}

// An answer for so many terms, and how many classes it has.
#[derive(Clone, Copy)]
struct Counted {
    answer: Answer,
    terms: usize,
    classes: usize,
    ghost few_terms: { terms ≤ max_terms },
    ghost few_classes: { classes ≤ max_terms },
    ghost counted: { classes ≡ classes_in (said terms answer) },
}

impl Counted {
    // Field 41, and 42 behind it, at the front of the lent part.
    fn put_solution(self, buf: &mut [u8]) -> usize
        requires { length (solution_bytes (cut_to self.terms self.classes self.answer)) ≤ length buf.old }
        ensures { (result ≡ length (solution_bytes (cut_to self.terms self.classes self.answer))) × (buf.new ≡ over (solution_bytes (cut_to self.terms self.classes self.answer)) buf.old) }
    {
        let first = put_numbers(self.answer.arrangement, self.terms, buf);
        let second = put_masks(self.answer.masks, self.classes, &mut buf[first..]);
        first + second
    }

    // What stands between 40 and 7F, at the front of the lent part.
    fn put_model(self, buf: &mut [u8]) -> usize
        requires { length (model_bytes (said self.terms self.answer)) ≤ length buf.old }
        ensures { (result ≡ length (model_bytes (said self.terms self.answer))) × (buf.new ≡ over (model_bytes (said self.terms self.answer)) buf.old) }
    {
        match self.answer.verdict {
            Verdict::Impossible => 0,
            Verdict::Possible => self.put_solution(buf),
        }
    }

    // The whole file at the front of the buffer.
    fn put_file(self, buf: &mut [u8])
        requires { length (file_of (said self.terms self.answer)) ≤ length buf.old }
        ensures { buf.new ≡ over (file_of (said self.terms self.answer)) buf.old }
    {
        let body = [u8::from(self.answer.verdict)];
        let first = put_field(0x40, &body, buf);
        let middle = self.put_model(&mut buf[first..]);
        let at = first + middle;
        put_field(0x7f, b"", &mut buf[at..]);
    }

    // How many bytes the file has.
    fn file_length(self) -> usize
        ensures { result ≡ length (file_of (said self.terms self.answer)) }
    {
        let ends = field_length(File::Answer, 0x40, 0) + field_length(File::Answer, 0x7f, 0);
        match self.answer.verdict {
            Verdict::Impossible => ends,
            Verdict::Possible => {
                let numbers = field_length(File::Answer, 0x41, self.terms);
                let masks = field_length(File::Answer, 0x42, self.classes * MASK_BYTES);
                ends + numbers + masks
            }
        }
    }

    // The file: 10 if the buffer is shorter than it.
    fn write_fitting(self, buf: &mut [u8]) -> Result<usize, Refusal>
        ensures { (result ≡ fitted (file_of (said self.terms self.answer)) (length buf.old)) × (buf.new ≡ fitted_over (file_of (said self.terms self.answer)) buf.old) }
    {
        let length = self.file_length();
        if buf.len() < length {
            return Err(Refusal::new(Refusal::BUFFER_TOO_SHORT, 0));
        }
        self.put_file(buf);
        Ok(length)
    }
}

// The file of an answer: 11, then 10.
fn write_good(asked: Asked, a: Answer, buf: &mut [u8]) -> Result<usize, Refusal>
    ensures { (result ≡ good_written asked.bound (said asked.terms a) (length buf.old)) × (buf.new ≡ good_over asked.bound (said asked.terms a) buf.old) }
{
    match check_answer(asked, a) {
        None => Err(Refusal::new(Refusal::BAD_MODEL, 0)),
        Some(classes) => Counted {
            answer: a,
            terms: asked.terms,
            classes,
        }
        .write_fitting(buf),
    }
}

// The file of an answer beside its question: the refusals of the table, then 11, then 10; a refusal leaves the buffer as it was.
pub fn write_answer(q: Question, a: Answer, buf: &mut [u8]) -> Result<usize, Refusal>
    ensures { (result ≡ written q a (length buf.old)) × (buf.new ≡ written_over q a buf.old) }
{
    check(q)?;
    write_good(Asked::by(q), a, buf)
}
