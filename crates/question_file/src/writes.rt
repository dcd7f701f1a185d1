// The writer of question files: a question table into a lent buffer, field by field.
ghost use Rattle.std.specs.Prelude.{◌≡◌, ◌+◌, ◌≤◌, length, Ok};
ghost use Rattle.question.specs.Limits.{max_statements};
ghost use Rattle.question.specs.Questions.{statements};
ghost use Rattle.question.specs.Checks.{checked};
ghost use Rattle.outcome.specs.Writes.{over, fitted_over, fitted};
ghost use Rattle.question_file.specs.Bytes.{statement_bytes, statements_bytes, question_bytes};
ghost use Rattle.question_file.specs.Writes.{written, written_over};

use crate::bodies::{body_length, name_bytes};
use field::{File, field_length, put_field};
use outcome::Refusal;
use question::{Question, check};
use statement::Statement;

// How many bytes the file of a question has.
fn file_length(q: Question) -> usize
    requires { q.count ≤ max_statements }
    ensures { result ≡ length (question_bytes q) }
{
    let mut total = field_length(File::Question, 0x01, 0) + field_length(File::Question, 0x7f, 0);
    for entry in &q.table[..q.count] {
        total += field_length(File::Question, entry.statement.tag(), 0);
    }
    total
}

// The field of a statement at the front of the lent part; its length is that of the table of tags, which each writer asks.
fn put_statement(s: Statement, buf: &mut [u8]) -> usize
    requires { length (statement_bytes s) ≤ length buf.old }
    ensures { (result ≡ length (statement_bytes s)) × (buf.new ≡ over (statement_bytes s) buf.old) }
{
    let n = body_length(s);
    let names = name_bytes(s);
    put_field(s.tag(), &names[..n], buf)
}

// The fields of the statements at the front of the lent part, each from where the last one ended.
fn put_statements(q: Question, buf: &mut [u8]) -> usize
    requires { (q.count ≤ max_statements) × (length (statements_bytes (statements q)) ≤ length buf.old) }
    ensures { (result ≡ length (statements_bytes (statements q))) × (buf.new ≡ over (statements_bytes (statements q)) buf.old) }
{
    let mut at = 0;
    for entry in &q.table[..q.count] {
        at += put_statement(entry.statement, &mut buf[at..]);
    }
    at
}

// The whole file at the front of the buffer.
fn put_question(q: Question, buf: &mut [u8])
    requires { (q.count ≤ max_statements) × (length (question_bytes q) ≤ length buf.old) }
    ensures { buf.new ≡ over (question_bytes q) buf.old }
{
    let names = [q.elements, q.sets];
    let first = put_field(0x01, &names, buf);
    let middle = put_statements(q, &mut buf[first..]);
    let at = first + middle;
    put_field(0x7f, b"", &mut buf[at..]);
}

// The file of an accepted question: 10 if the buffer is shorter than it.
fn write_accepted(q: Question, buf: &mut [u8]) -> Result<usize, Refusal>
    requires { checked q ≡ Ok tt }
    ensures { (result ≡ fitted (question_bytes q) (length buf.old)) × (buf.new ≡ fitted_over (question_bytes q) buf.old) }
{
    let length = file_length(q);
    if buf.len() < length {
        let refusal = Refusal::new(Refusal::BUFFER_TOO_SHORT, 0);
        return Err(refusal);
    }
    put_question(q, buf);
    Ok(length)
}

// The file of a question: the refusals of its table, then 10; a refusal leaves the buffer as it was.
#[tactic(auto, unfolding(crate::specs::Writes::written, crate::specs::Writes::written_over))]
pub fn write_question(q: Question, buf: &mut [u8]) -> Result<usize, Refusal>
    ensures { (result ≡ written q (length buf.old)) × (buf.new ≡ written_over q buf.old) }
{
    check(q)?;
    write_accepted(q, buf)
}
