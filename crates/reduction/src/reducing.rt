// A question's rows into a lent buffer: the refusals of the table, then 10; else the rows in order, and their number.
// The rows of a table that is checked already are written without the check.
ghost use Rattle.std.specs.Prelude.{◌≡◌, ◌≤◌, length};
ghost use Rattle.outcome.specs.Writes.{over};
ghost use Rattle.question.specs.Limits.{max_terms};
ghost use Rattle.question.specs.Questions.{terms_of};
ghost use Rattle.reduction.specs.Reducing.{packed_rows, rows_written, rows_written_over, reduced, reduced_over};

use crate::rules::rule_of;
use crate::writing::{put_rule, row_count};
use outcome::Refusal;
use question::{Question, check, statement_count, terms};
use statement::witness_of;

// How many rows the table gives.
fn count_rows(q: Question, terms: usize) -> usize
    requires { (terms ≡ terms_of q) × (terms ≤ max_terms) }
    ensures { result ≡ length (packed_rows q) }
{
    let mut total = 0;
    for i in 0..statement_count(q) {
        total += row_count(rule_of(q.table[i].statement), terms);
    }
    total
}

// The rows of one statement behind those of the one before, each into the rest of the buffer.
fn put_rows(q: Question, terms: usize, rows: &mut [u32])
    requires { (terms ≡ terms_of q) × (terms ≤ max_terms) × (length (packed_rows q) ≤ length rows.old) }
    ensures { rows.new ≡ over (packed_rows q) rows.old }
{
    let stated = statement_count(q);
    let mut witness = q.elements as usize;
    let mut at = 0;
    for i in 0..stated {
        let s = q.table[i].statement;
        at += put_rule(rule_of(s), terms, witness, &mut rows[at..]);
        witness += witness_of(s);
    }
}

// The rows of a table as it stands, packed, from the start of the buffer: 5 for more than 12 terms, as of rows that are handed in, then 10. Of each name the bits of a place's width count.
pub fn write_rows(q: Question, rows: &mut [u32]) -> Result<usize, Refusal>
    ensures { (result ≡ rows_written q (length rows.old)) × (rows.new ≡ rows_written_over q rows.old) }
{
    let n = terms(q);
    if Question::MAX_TERMS < n {
        return Err(Refusal::new(Refusal::TOO_MANY_NAMES, 0));
    }
    let count = count_rows(q, n);
    if rows.len() < count {
        return Err(Refusal::new(Refusal::BUFFER_TOO_SHORT, 0));
    }
    put_rows(q, n, rows);
    Ok(count)
}

// The rows of a question, packed, from the start of the buffer; their number is given back, and the rest of the buffer is untouched.
pub fn reduce(q: Question, rows: &mut [u32]) -> Result<usize, Refusal>
    ensures { (result ≡ reduced q (length rows.old)) × (rows.new ≡ reduced_over q rows.old) }
{
    check(q)?;
    write_rows(q, rows)
}
