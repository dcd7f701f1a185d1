// The text of a question's clauses in a lent buffer. How long it is has to be known before the first byte is written,
// so the walk goes over the clauses twice: the first time into a buffer of one byte that nobody reads.
ghost use Rattle.std.specs.Prelude.{◌≡◌, map, ◌≤◌, length};
ghost use Rattle.outcome.specs.Writes.{fitted, fitted_over};
ghost use Rattle.row.specs.Rows.{row_of};
ghost use Rattle.clauses.specs.Texts.{longest_clauses, table_text};
ghost use Rattle.dimacs.specs.Writes.{clauses_written, clauses_written_over};

use crate::shapes::Shape;
use crate::writers::Writer;
use clauses::spare_variable;
use outcome::Refusal;
use question::{Question, terms};
use reduction::reduce;

// The clauses of a table of rows: 10, or the text.
fn write_table(shape: Shape, rows: &[u32], buf: &mut [u8]) -> Result<usize, Refusal>
    requires { length (table_text shape.terms shape.sets (map row_of rows.now)) ≤ longest_clauses }
    ensures value { result ≡ fitted (table_text shape.terms shape.sets (map row_of rows.now)) (length buf.old) }
    ensures buf_after { buf.new ≡ fitted_over (table_text shape.terms shape.sets (map row_of rows.now)) buf.old }
{
    let variables = spare_variable(shape.terms, shape.sets);
    let mut unread = [0u8; 1];
    let mut counted = Writer::new(&mut unread);
    counted.put_table(shape, rows);
    let clauses = counted.clauses as usize;
    counted.put_head(variables, clauses);
    let length = counted.at as usize;
    if buf.len() < length {
        return Err(Refusal::new(Refusal::BUFFER_TOO_SHORT, 0));
    }
    let mut writer = Writer::new(buf);
    writer.put_head(variables, clauses);
    writer.put_table(shape, rows);
    Ok(length)
}

// The clauses of a question: the refusals of the table, then 10. A refused call leaves the buffer as it was.
pub fn write_clauses(q: Question, buf: &mut [u8]) -> Result<usize, Refusal>
    ensures { (result ≡ clauses_written q (length buf.old)) × (buf.new ≡ clauses_written_over q buf.old) }
{
    let mut rows = [0u32; Question::MAX_ROWS];
    let count = reduce(q, &mut rows)?;
    let shape = Shape {
        terms: terms(q) as u8,
        sets: q.sets,
    };
    write_table(shape, &rows[..count], buf)
}
