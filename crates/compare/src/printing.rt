// What is printed: counts, and the first question on which the two solvers differ.
use crate::comparing::Tally;
use outcome::Refusal;
use question::Question;
use question_file::write_question;

const STDOUT_FILENO: i32 = 1;

pub(crate) fn text(words: &[u8]) {
    io::write_all(STDOUT_FILENO, words);
}

fn bytes(file: &[u8]) {
    for b in file {
        text(b" ");
        io::print_hex(STDOUT_FILENO, u64::from(*b), 2);
    }
}

// The question as a question file, in hexadecimal.
pub(crate) fn difference(q: Question) {
    text(b"the two differ on");
    let mut file = io::buffer();
    match write_question(q, &mut file) {
        Ok(count) => {
            if let Some(written) = file.get(..count) {
                bytes(written);
            }
        }
        Err(_) => text(b" a question that is refused"),
    }
    text(b"\n");
}

fn number(words: &[u8], n: u64) {
    text(words);
    io::print_decimal(STDOUT_FILENO, n);
}

pub(crate) fn tally(t: Tally) {
    number(b"questions ", t.questions);
    number(b", possible ", t.possible);
    number(b", impossible ", t.impossible);
    if t.patterns != 0 {
        number(b", patterns compared ", t.patterns);
    }
    number(b", models judged ", t.models);
    number(b", read back ", t.read);
    number(b", judged as bytes ", t.judged);
    number(b", turned and holding ", t.holding);
    number(b", turned and failing ", t.failing);
    number(b", turned and bad ", t.bad);
    if t.clashing != 0 {
        number(b", clashing statements ", t.clashing);
    }
    number(b", differences ", t.differences);
    text(b"\n");
}
