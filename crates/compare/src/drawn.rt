// Questions drawn at random from a seed: at most three element names, four set names and ten statements, two of them x ≠ y.
use crate::comparing::Tally;
use question::{Question, Record};
use statement::{ElementName, SetName, Statement, witness_of};

const QUESTIONS: u64 = 20000;

const SEED: u64 = 0x5EED;

// Marsaglia's xorshift generator.
#[derive(Drop)]
struct Generator {
    state: u64,
}

impl Generator {
    // The next number.
    fn next(&mut self) -> u64 {
        let a = self.state ^ (self.state << 13);
        let b = a ^ (a >> 7);
        self.state = b ^ (b << 17);
        self.state
    }

    // A question. All ten records are drawn; the count says how many of them are stated.
    fn draw(&mut self) -> Question {
        let mut q = shape(self.next());
        let mut differences: usize = 0;
        for i in 0..10 {
            let s = limited(statement(self.next(), q.elements, q.sets), differences);
            differences = differences.wrapping_add(witness_of(s));
            q.table[i] = Record { statement: s };
        }
        q
    }
}

// Byte k of a number.
fn byte(r: u64, k: u64) -> u8 {
    ((r >> (8 * (k % 8))) % 256) as u8
}

// A number below n, from a byte.
fn below(b: u8, n: u8) -> u8 {
    if n == 0 { 0 } else { b % n }
}

// A statement from a number: without element names only of the kinds that need none.
fn statement(r: u64, elements: u8, sets: u8) -> Statement {
    let a = ElementName(below(byte(r, 2), elements));
    let b = ElementName(below(byte(r, 3), elements));
    let x = SetName(below(byte(r, 4), sets));
    let y = SetName(below(byte(r, 5), sets));
    let z = SetName(below(byte(r, 6), sets));
    let kinds = if elements == 0 { 6 } else { 11 };
    match below(byte(r, 1), kinds) {
        0 => Statement::SetsEqual(x, y),
        1 => Statement::SetsDiffer(x, y),
        2 => Statement::Empty(x),
        3 => Statement::Union(x, y, z),
        4 => Statement::Intersection(x, y, z),
        5 => Statement::Difference(x, y, z),
        6 => Statement::ElementsEqual(a, b),
        7 => Statement::ElementsDiffer(a, b),
        8 => Statement::In(a, x),
        9 => Statement::NotIn(a, x),
        _ => Statement::Single(x, a),
    }
}

// The third x ≠ y and later ones are x = y, so that domains stay small.
fn limited(s: Statement, differences: usize) -> Statement {
    match s {
        Statement::SetsDiffer(x, y) if 2 <= differences => Statement::SetsEqual(x, y),
        _ => s,
    }
}

// The names and the count of a question, from a number.
fn shape(r: u64) -> Question {
    let mut q = Question::empty();
    q.elements = byte(r, 1) % 4;
    q.sets = 1 + byte(r, 2) % 4;
    q.count = (byte(r, 3) % 11) as usize;
    q
}

pub(crate) fn drawn_questions() -> Tally {
    let mut counted = Tally::default();
    let mut generator = Generator { state: SEED };
    for _ in 0..QUESTIONS {
        counted.compare(generator.draw());
    }
    counted
}
