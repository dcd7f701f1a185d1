// How an outcome is printed.
ghost use Rattle.std.specs.Prelude.{◌≡◌, length};

use clash::ClashCounts;
use outcome::Refusal;
use search::Found;

const STDOUT_FILENO: i32 = 1;

pub(crate) fn text(words: &[u8]) {
    io::write_all(STDOUT_FILENO, words);
}

pub(crate) fn number(n: usize) {
    io::print_decimal(STDOUT_FILENO, n as u64);
}

pub(crate) fn refusal(r: Refusal) {
    text(b"refused ");
    number(r.number as usize);
    text(b" at ");
    number(r.place);
}

pub(crate) fn check(c: Result<(), Refusal>) {
    match c {
        Ok(()) => text(b"accepted"),
        Err(r) => refusal(r),
    }
}

pub(crate) fn judgement(j: Result<Option<usize>, Refusal>) {
    match j {
        Ok(None) => text(b"yes"),
        Ok(Some(i)) => {
            text(b"no ");
            number(i);
        }
        Err(r) => refusal(r),
    }
}

// The number of a judgement, taken apart: a refusal in the lowest byte and its place above it; else an index, or 64 if all hold.
pub(crate) fn judged(n: u64) {
    match (n % 256, n / 256) {
        (0, 64) => text(b"yes"),
        (0, i) => {
            text(b"no ");
            number(i as usize);
        }
        (refused, place) => refusal(Refusal::new(refused as u8, place as usize)),
    }
}

// Some numbers in so many hexadecimal digits each.
fn hexadecimals<T: Copy + Into<u64>>(numbers: &[T], digits: usize) {
    for n in numbers {
        text(b" ");
        io::print_hex(STDOUT_FILENO, (*n).into(), digits);
    }
}

pub(crate) fn rows(rows: &[u32]) {
    number(rows.len());
    hexadecimals(rows, 6);
}

pub(crate) fn bytes(file: &[u8]) {
    hexadecimals(file, 2);
}

// The bytes that a writer put into a buffer.
pub(crate) fn written(w: Result<usize, Refusal>, file: &[u8]) {
    match w {
        Ok(count) => {
            if let Some(written) = file.get(..count) {
                text(b"file");
                bytes(written);
            }
        }
        Err(r) => refusal(r),
    }
}

// What a lent buffer has before a call, so that it can be seen where the call has left it as it was.
const LENT: u8 = 0xEE;

pub(crate) fn lent() -> [u8; 768]
    ensures { 768 ≡ length result }
{
    [LENT; 768]
}

// Is a lent buffer as it was from some place on.
fn is_left(buf: &[u8], from: usize) -> bool {
    buf.iter().skip(from).all(|b| *b == LENT)
}

fn untouched(is: bool) {
    if is {
        text(b" untouched");
    } else {
        text(b" touched");
    }
}

// So many bytes of a buffer.
pub(crate) fn front(words: &[u8], buf: &[u8], count: usize) {
    text(words);
    if let Some(front) = buf.get(..count) {
        bytes(front);
    }
}

// The three counts of a clash, and what was put into the buffers.
pub(crate) fn clash(w: Result<ClashCounts, Refusal>, part: &[u8], indexes: &[u8], answer: &[u8]) {
    match w {
        Ok(
            ClashCounts {
                part: p,
                indexes: i,
                answer: a,
            },
        ) => {
            text(b"counts ");
            number(p);
            text(b" ");
            number(i);
            text(b" ");
            number(a);
            front(b", part", part, p);
            front(b", indexes", indexes, i);
            front(b", answer", answer, a);
            text(b", the rest");
            untouched(is_left(part, p) && is_left(indexes, i) && is_left(answer, a));
        }
        Err(r) => {
            refusal(r);
            text(b", buffers");
            untouched(is_left(part, 0) && is_left(indexes, 0) && is_left(answer, 0));
        }
    }
}

// A refusal beside a lent buffer.
fn refused(r: Refusal, buf: &[u8]) {
    refusal(r);
    text(b", buffer");
    untouched(is_left(buf, 0));
}

// Lines of text, with | for the end of each.
fn lines(words: &[u8]) {
    for b in words {
        text(&[if *b == b'\n' { b'|' } else { *b }]);
    }
}

// The text of clauses in a lent buffer.
pub(crate) fn clauses(w: Result<usize, Refusal>, buf: &[u8]) {
    match w {
        Ok(count) => {
            number(count);
            text(b" bytes ");
            if let Some(front) = buf.get(..count) {
                lines(front);
            }
            text(b", the rest");
            untouched(is_left(buf, count));
        }
        Err(r) => refused(r, buf),
    }
}

// The sum of the sums of bytes from the first on, so that their order counts.
fn sum(words: &[u8]) -> u64 {
    let mut first = 0u64;
    let mut second = 0u64;
    for b in words {
        first = first.wrapping_add(u64::from(*b));
        second = second.wrapping_add(first);
    }
    second
}

// A long text of clauses: how many bytes it has, and their sum.
pub(crate) fn long(w: Result<usize, Refusal>, buf: &[u8]) {
    match w {
        Ok(count) => {
            number(count);
            if let Some(front) = buf.get(..count) {
                text(b" bytes, sum ");
                io::print_decimal(STDOUT_FILENO, sum(front));
            }
        }
        Err(r) => refusal(r),
    }
}

// What a solver's lines came to, and what was put into the buffer.
pub(crate) fn solved(s: Result<Option<usize>, Refusal>, buf: &[u8]) {
    match s {
        Ok(Some(count)) => {
            front(b"answer", buf, count);
            text(b", the rest");
            untouched(is_left(buf, count));
        }
        Ok(None) => {
            text(b"said unsatisfiable, buffer");
            untouched(is_left(buf, 0));
        }
        Err(r) => refused(r, buf),
    }
}

pub(crate) fn hexadecimal(n: u64) {
    io::print_hex(STDOUT_FILENO, n, 6);
}

// The first ones of some numbers.
fn decimals<T: Copy + Into<u64>>(numbers: &[T], count: usize) {
    for n in numbers.iter().take(count) {
        text(b" ");
        io::print_decimal(STDOUT_FILENO, (*n).into());
    }
}

// The verdict of a search, and the model beside it.
pub(crate) fn search_answer(answer: Result<Option<Found>, Refusal>, terms: usize) {
    match answer {
        Ok(Some(found)) => {
            text(b"possible");
            decimals(&found.arrangement, terms);
            text(b" /");
            decimals(&found.masks, found.classes);
        }
        Ok(None) => text(b"impossible"),
        Err(r) => refusal(r),
    }
}
