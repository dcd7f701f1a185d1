// What a case asks for, by its letter.
ghost use Rattle.std.specs.Prelude.{◌≤◌};

use crate::groups::{decode, second_group};
use crate::models::{answer, fill_rows, model, model_of};
use crate::outcomes;
use crate::tables::{byte_at, table};
use answer::{Answer, read_answer, write_answer};
use clash::{clash, clash_file};
use dimacs::{clauses_file, write_clauses};
use judge::judge;
use outcome::Refusal;
use question::{Question, check};
use question_file::{read_question, write_question};
use reduction::reduce;
use sayfudhoum::{answer_file, respond, sayfudhoum_judge, sayfudhoum_verdict};
use search::{Found, search};
use solved::{solve, solve_file};

// T: the check of a table.
fn check_table(bytes: &[u8]) {
    outcomes::check(check(table(bytes)));
}

// J: a table and a model, judged.
fn judge_model(bytes: &[u8], points: &[u8], memberships: &[u8]) {
    outcomes::judgement(judge(table(bytes), model(points, memberships)));
}

// G: a question file and the bytes of a model, judged.
fn judge_bytes(bytes: &[u8], model: &[u8]) {
    outcomes::judged(sayfudhoum_judge(bytes, model));
}

fn write_into(q: Question, file: &mut [u8]) {
    let written = write_question(q, file);
    outcomes::written(written, file);
}

// F: a file read, and its question written again.
fn read_file(bytes: &[u8]) {
    match read_question(bytes) {
        Ok(question) => write_into(question, &mut io::buffer()),
        Err(r) => outcomes::refusal(r),
    }
}

// W: a table written.
fn write_table(bytes: &[u8], group: &[u8]) {
    write_into(table(bytes), &mut io::buffer()[..room(group, 0)]);
}

// An answer beside its question, written.
fn write_answer_to(q: Question, a: Answer) {
    let mut file = io::buffer();
    let written = write_answer(q, a, &mut file);
    outcomes::written(written, &file);
}

// A: a table, and the file of an answer to it: the answer, written again.
fn read_answer_file(bytes: &[u8], file: &[u8]) {
    let q = table(bytes);
    match read_answer(q, file) {
        Ok(answer) => write_answer_to(q, answer),
        Err(r) => outcomes::refusal(r),
    }
}

// B: a table, a verdict and class numbers, and masks: an answer written.
fn write_value(bytes: &[u8], numbers: &[u8], memberships: &[u8]) {
    write_answer_to(table(bytes), answer(numbers, memberships));
}

// Q: a question file answered, with room for so many bytes.
fn answer_question_file(bytes: &[u8], group: &[u8]) {
    let mut file = io::buffer();
    let file = &mut file[..room(group, 0)];
    let written = answer_file(bytes, file);
    outcomes::written(written, file);
}

// P: what the program writes to a question file, and the verdict's number.
fn respond_to(bytes: &[u8]) {
    let mut file = io::buffer();
    let written = respond(bytes, &mut file);
    outcomes::written(written, &file);
    outcomes::text(b", verdict ");
    outcomes::hexadecimal(sayfudhoum_verdict(bytes));
}

// Room for 768 rows or bytes, or for as many as byte k of the group says.
fn room(group: &[u8], k: usize) -> usize
    ensures { result ≤ 768 }
{
    group.get(k).map_or(768, |b| usize::from(*b))
}

// R: the rows of a table.
fn reduce_table(bytes: &[u8], group: &[u8]) {
    let mut rows = [0; 768];
    let rows = &mut rows[..room(group, 0)];
    match reduce(table(bytes), rows) {
        Ok(count) => {
            if let Some(written) = rows.get(..count) {
                outcomes::rows(written);
            }
        }
        Err(r) => outcomes::refusal(r),
    }
}

// S: T and S, and rows of four bytes each, searched.
fn search_rows(limits: &[u8], bytes: &[u8]) {
    let mut rows = [0; 1024];
    let n = fill_rows(bytes, &mut rows);
    let terms = usize::from(byte_at(limits, 0));
    let sets = byte_at(limits, 1);
    outcomes::search_answer(search(&rows[..n], terms, sets), terms);
}

// The model that the search found, if it found one, judged.
fn judge_found(q: Question, answer: Result<Option<Found>, Refusal>) {
    if let Ok(Some(found)) = answer {
        outcomes::text(b", judged ");
        outcomes::judgement(judge(q, model_of(found)));
    }
}

// D: a table decided, and the model judged.
fn decide(bytes: &[u8]) {
    let q = table(bytes);
    let terms = question::terms(q);
    let mut rows = [0; 768];
    match reduce(q, &mut rows) {
        Ok(count) => {
            if let Some(written) = rows.get(..count) {
                let answer = search(written, terms, q.sets);
                outcomes::search_answer(answer, terms);
                judge_found(q, answer);
            }
        }
        Err(r) => outcomes::refusal(r),
    }
}

// K: the clash of a table, and the indexes that it keeps.
fn clash_table(bytes: &[u8]) {
    match clash(table(bytes)) {
        Ok(found) => {
            outcomes::check(Ok(()));
            outcomes::front(b", indexes", &found.indexes, found.part.count);
        }
        Err(r) => {
            outcomes::check(Err(r));
            outcomes::front(b", indexes", b"", 0);
        }
    }
}

// C: the clash of a question file, with room for so many bytes of the part, indexes and bytes of the answer.
fn clash_question_file(bytes: &[u8], group: &[u8]) {
    let mut part = outcomes::lent();
    let mut indexes = outcomes::lent();
    let mut answer = outcomes::lent();
    let part = &mut part[..room(group, 0)];
    let indexes = &mut indexes[..room(group, 1)];
    let answer = &mut answer[..room(group, 2)];
    let written = clash_file(bytes, part, indexes, answer);
    outcomes::clash(written, part, indexes, answer);
}

// N: the clauses of a question file, with room for so many bytes.
fn file_clauses(bytes: &[u8], group: &[u8]) {
    let mut buf = outcomes::lent();
    let buf = &mut buf[..room(group, 0)];
    let written = clauses_file(bytes, buf);
    outcomes::clauses(written, buf);
}

// M: the clauses of a table, with room for so many bytes.
fn table_clauses(bytes: &[u8], group: &[u8]) {
    let mut buf = outcomes::lent();
    let buf = &mut buf[..room(group, 0)];
    let written = write_clauses(table(bytes), buf);
    outcomes::clauses(written, buf);
}

// H: how many bytes the clauses of a table have, and their sum.
fn long_clauses(bytes: &[u8]) {
    let mut buf = io::large_buffer();
    let written = write_clauses(table(bytes), &mut buf);
    outcomes::long(written, &buf);
}

// L: a solver's lines beside a question file, with room for so many bytes of the answer.
fn file_solved(bytes: &[u8], lines: &[u8], group: &[u8]) {
    let mut buf = outcomes::lent();
    let buf = &mut buf[..room(group, 0)];
    let solved = solve_file(bytes, lines, buf);
    outcomes::solved(solved, buf);
}

// V: a solver's lines beside a table, with room for so many bytes of the answer.
fn table_solved(bytes: &[u8], lines: &[u8], group: &[u8]) {
    let mut buf = outcomes::lent();
    let buf = &mut buf[..room(group, 0)];
    let solved = solve(table(bytes), lines, buf);
    outcomes::solved(solved, buf);
}

// A letter is a byte of the input, so the kinds of cases are told apart by it.
fn run_case(letter: u8, first: &[u8], second: &[u8], third: &[u8]) {
    match letter {
        b'F' => read_file(first),
        b'W' => write_table(first, second),
        b'T' => check_table(first),
        b'J' => judge_model(first, second, third),
        b'G' => judge_bytes(first, second),
        b'R' => reduce_table(first, second),
        b'S' => search_rows(first, second),
        b'D' => decide(first),
        b'A' => read_answer_file(first, second),
        b'B' => write_value(first, second, third),
        b'Q' => answer_question_file(first, second),
        b'P' => respond_to(first),
        b'C' => clash_question_file(first, second),
        b'K' => clash_table(first),
        b'N' => file_clauses(first, second),
        b'M' => table_clauses(first, second),
        b'H' => long_clauses(first),
        b'L' => file_solved(first, second, third),
        b'V' => table_solved(first, second, third),
        _ => outcomes::text(b"no such case"),
    }
}

pub(crate) fn run_line(line: &[u8]) {
    match line {
        [] => {}
        [b'#', ..] => outcomes::text(line),
        [letter, rest @ ..] => {
            let mut bytes = io::buffer();
            let first = decode(rest, 0, &mut bytes);
            let second = second_group(*letter, first.rest, first.total, &mut bytes);
            let third = decode(second.rest, second.total, &mut bytes);
            run_case(
                *letter,
                &bytes[..first.total],
                &bytes[first.total..second.total],
                &bytes[second.total..third.total],
            );
        }
    }
    outcomes::text(b"\n");
}
