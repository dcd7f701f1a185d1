// The reader of a solver's lines: a walk over lines, each of which ends with 0A.
ghost use Rattle.std.specs.Prelude.{◌≡◌};
ghost use Rattle.lines.specs.Reads.{bad_at, ended, lines_read};

use crate::readings::{Reading, Stage};
use crate::steps::line_step;
use outcome::Refusal;

// The end of a line.
const LINE_END: u8 = 0x0a;

// 13 at a place.
fn bad_at(at: usize) -> Result<Reading, Refusal>
    ensures { result ≡ bad_at at }
{
    Err(Refusal::new(Refusal::BAD_LINES, at))
}

// The end of the data: all that is due has stood.
fn ended(at: usize, r: Reading) -> Result<Reading, Refusal>
    ensures { result ≡ ended at r }
{
    match r.stage {
        Stage::Valued | Stage::Refuted => Ok(r),
        _ => bad_at(at),
    }
}

// What a solver's lines say, where the variables are 1 to `most`: 13 at the first line that can't stand, or at the end if
// something is still due there.
pub fn read_lines(lines: &[u8], most: u32) -> Result<Reading, Refusal>
    ensures { result ≡ lines_read most lines.now }
{
    let mut at = 0;
    let mut r = Reading::start();
    for line in lines.split_inclusive(|b| *b == LINE_END) {
        let Some(text) = line.strip_suffix(&[LINE_END]) else {
            return bad_at(at);
        };
        line_step(&mut r, text, most);
        if r.stage == Stage::Fault {
            return bad_at(at);
        }
        at += line.len();
    }
    ended(at, r)
}
