// What a line does to what was read before it. The reading is lent from step to step, since its table is not to be copied for each line.
ghost use Rattle.std.specs.Prelude.{◌≡◌};
ghost use Rattle.text.specs.Pieces.{space, pieces};
ghost use Rattle.lines.specs.Steps.{is_comment, value_line, first_line, said_step, line_step};

use crate::readings::{Reading, Stage};
use crate::words::{SPACE, word_steps};

// The first byte of a line that is passed over.
const COMMENT: u8 = 0x63;

// What the first line says: that the clauses can be satisfied, or can't.
const SATISFIABLE: &[u8] = b"s SATISFIABLE";

const UNSATISFIABLE: &[u8] = b"s UNSATISFIABLE";

// The first line says whether the clauses can be satisfied.
fn first_line(r: &mut Reading, line: &[u8])
    ensures { r.new ≡ first_line r.old line.now }
{
    if line == SATISFIABLE {
        r.stage = Stage::Values;
        return;
    }
    if line == UNSATISFIABLE {
        r.stage = Stage::Refuted;
        return;
    }
    r.stage = Stage::Fault;
}

// A `v` line has at least one number, with one space before each.
fn value_line(r: &mut Reading, line: &[u8], most: u32)
    ensures { r.new ≡ value_line most r.old (pieces space line.now) }
{
    match line {
        [b'v', SPACE, words @ ..] => word_steps(r, words, most),
        _ => r.stage = Stage::Fault,
    }
}

// A line that is no comment, by what was read before.
fn said_step(r: &mut Reading, line: &[u8], most: u32)
    ensures { r.new ≡ said_step most r.old line.now }
{
    match r.stage {
        Stage::Start => first_line(r, line),
        Stage::Values => value_line(r, line, most),
        _ => r.stage = Stage::Fault,
    }
}

fn is_comment(line: &[u8]) -> bool
    ensures { result ≡ is_comment line.now }
{
    line.first() == Some(&COMMENT)
}

// Any line.
pub(crate) fn line_step(r: &mut Reading, line: &[u8], most: u32)
    ensures { r.new ≡ line_step most r.old line.now }
{
    if is_comment(line) {
        return;
    }
    said_step(r, line, most);
}
