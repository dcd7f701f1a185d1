// What a field of a question file says by itself, whatever stands before it.
ghost use Rattle.std.specs.Prelude.{◌≡◌, ◌+◌, ◌≤◌, length, drop};
ghost use Rattle.question_file.specs.Fields.{due_at, said_by, said};

use crate::bodies::statement_of;
use field::{Due, File, byte_at, frame_at};
use outcome::Refusal;
use statement::Statement;

#[derive(Clone, Copy)]
pub enum Said {
    // E and S, and where the next field begins.
    Names(u8, u8, usize),
    // A statement, and where the next field begins.
    Stated(Statement, usize),
    // The field is 7F: the place behind it.
    Ended(usize),
}

// 01 stands first, and nowhere else.
fn due_at(at: usize) -> Due
    ensures { result ≡ due_at at }
{
    if at == 0 {
        Due::Only(0x01)
    } else {
        Due::AllBut(0x01)
    }
}

// A field whose frame is sound, by its tag.
#[tactic(auto, unfolding(crate::specs::Fields::said_by))]
fn say(bytes: &[u8], at: usize, tag: u8, n: usize) -> Result<Said, Refusal>
    requires { at + (3 + n) ≤ length bytes.now }
    ensures { result ≡ said_by tag (drop 3 (drop at bytes.now)) at (at + (3 + n)) }
{
    let next = at + (3 + n);
    let a = byte_at(bytes, at + 3);
    let b = byte_at(bytes, at + 4);
    let c = byte_at(bytes, at + 5);
    match tag {
        0x01 => Ok(Said::Names(a, b, next)),
        0x7f => Ok(Said::Ended(next)),
        _ => match statement_of(tag, a, b, c) {
            Some(s) => Ok(Said::Stated(s, next)),
            None => Err(Refusal::new(Refusal::TAG_UNKNOWN, at)),
        },
    }
}

// The field that begins at a place: the refusals of its frame, else what it says.
pub fn field_at(bytes: &[u8], at: usize) -> Result<Said, Refusal>
    ensures { result ≡ said at (drop at bytes.now) }
{
    let frame = frame_at(bytes, at, File::Question, due_at(at), 0)?;
    say(bytes, at, frame.tag, frame.length)
}
