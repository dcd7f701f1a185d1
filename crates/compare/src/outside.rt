// Larger questions with the verdict of an outside solver, cvc5, to which the library is held. Standard input has one a line, as
// tools/cvc5_verdicts.py writes them: P (possible) or I (impossible), a space, and the question file in hexadecimal.
ghost use Rattle.std.specs.Prelude.{◌≡◌, ◌<◌, ◌≤◌, length};

use crate::comparing::Tally;
use question::Question;
use question_file::read_question;

// What the input has behind a line, and how many bytes the line says.
#[derive(Clone, Copy)]
struct Decoded<'a> {
    rest: &'a [u8],
    total: usize,
}

// The value of a digit, or 0 for anything else.
fn digit(b: u8) -> u8
    ensures { result < 16 }
{
    match b {
        b'0'..=b'9' => b - b'0',
        b'A'..=b'F' => b - b'A' + 10,
        _ => 0,
    }
}

// The bytes that the rest of a line says, into a lent buffer.
fn decode<'a>(line: &'a [u8], bytes: &mut [u8]) -> Decoded<'a>
    ensures { (length result.rest.now ≤ length line.now) × (result.total ≤ length bytes.old) × (length bytes.new ≡ length bytes.old) }
{
    let mut total = 0;
    let mut left = line;
    loop {
        match left {
            [b'\n', rest @ ..] => return Decoded { rest, total },
            [high, low, rest @ ..] if total < bytes.len() => {
                bytes[total] = digit(*high) * 16 + digit(*low);
                total += 1;
                left = rest;
            }
            [_, rest @ ..] => return Decoded { rest, total },
            [] => return Decoded { rest: &[], total },
        }
    }
}

// The library held to one verdict on the question file in these bytes.
fn verdict(counted: &mut Tally, letter: u8, file: &[u8]) {
    let possible = letter == b'P';
    match read_question(file) {
        Ok(question) => {
            counted.hold(question, possible);
            counted.count(possible);
        }
        Err(_) => counted.differ(Question::empty()),
    }
}

pub(crate) fn verdicts(input: &[u8]) -> Tally {
    let mut counted = Tally::default();
    let mut left = input;
    while let [letter, _, line @ ..] = left {
        let mut bytes = io::buffer();
        let decoded = decode(line, &mut bytes);
        verdict(&mut counted, *letter, &bytes[..decoded.total]);
        left = decoded.rest;
    }
    counted
}
