// From question bytes: the decision, the answer's bytes in a lent buffer, and what the program writes.
ghost use Rattle.std.specs.Prelude.{◌≡◌, length};
ghost use Rattle.outcome.specs.Writes.{fitted_over, fitted};
ghost use Rattle.sayfudhoum.specs.Files.{file_decided, answered, answered_over, report_bytes, responded, responded_over};

use answer::Answer;
use decision::{answer_question, decide};
use field::{File, field_length, put_field};
use outcome::Refusal;
use question_file::read_question;

// The decision of a question file: the refusals of the file, else the answer to its question.
#[tactic(auto, using(question_file::proofs::RoundTrips::question_checked), unfolding(crate::specs::Files::file_decided, decision::specs::Decisions::decided))]
pub fn decide_file(bytes: &[u8]) -> Result<Answer, Refusal>
    ensures { result ≡ file_decided bytes.now }
{
    decide(read_question(bytes)?)
}

// The answer to a question file, written into a lent buffer: the refusals of the file, then 10. A refused call leaves the buffer as it was.
#[tactic(auto, using(question_file::proofs::RoundTrips::question_checked), unfolding(crate::specs::Files::answered, crate::specs::Files::answered_over, decision::specs::Answers::question_answered, decision::specs::Answers::question_answered_over))]
pub fn answer_file(bytes: &[u8], buf: &mut [u8]) -> Result<usize, Refusal>
    ensures { (result ≡ answered bytes.now (length buf.old)) × (buf.new ≡ answered_over bytes.now buf.old) }
{
    answer_question(read_question(bytes)?, buf)
}

// A refusal as field 44, and 7F behind it; 10 if the buffer is shorter.
fn report(refusal: Refusal, buf: &mut [u8]) -> Result<usize, Refusal>
    ensures { (result ≡ fitted (report_bytes refusal) (length buf.old)) × (buf.new ≡ fitted_over (report_bytes refusal) buf.old) }
{
    let length = field_length(File::Report, 0x44, 0) + field_length(File::Report, 0x7f, 0);
    if buf.len() < length {
        return Err(Refusal::new(Refusal::BUFFER_TOO_SHORT, 0));
    }
    let high = (refusal.place / 256 % 256) as u8;
    let low = (refusal.place % 256) as u8;
    let body = [refusal.number, high, low];
    let first = put_field(0x44, &body, buf);
    put_field(0x7f, b"", &mut buf[first..]);
    Ok(length)
}

// What the program writes to a question file: the answer, or a report of the file's refusal. 10 if the buffer is shorter than that.
pub fn respond(bytes: &[u8], buf: &mut [u8]) -> Result<usize, Refusal>
    ensures { (result ≡ responded bytes.now (length buf.old)) × (buf.new ≡ responded_over bytes.now buf.old) }
{
    match read_question(bytes) {
        Err(refusal) => report(refusal, buf),
        Ok(question) => answer_question(question, buf),
    }
}
