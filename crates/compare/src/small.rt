// Every question of a small shape: at most two element names and two set names with at most two statements, two of each with three.
use crate::comparing::Tally;
use outcome::Refusal;
use question::{Question, Record, check};
use statement::{ElementName, SetName, Statement};

// The statements over two names of each sort.
const STATEMENTS: u64 = 54;

// The name that the lowest bit says.
fn bit(k: u64) -> u8 {
    (k % 2) as u8
}

// Statement k of these: eight kinds with two names or one, then three with three.
fn statement(k: u64) -> Statement {
    let a = ElementName(bit(k));
    let b = ElementName(bit(k / 2));
    let x = SetName(bit(k));
    let y = SetName(bit(k / 2));
    let z = SetName(bit(k / 4));
    match k {
        0..=3 => Statement::ElementsEqual(a, b),
        4..=7 => Statement::ElementsDiffer(a, b),
        8..=11 => Statement::In(a, y),
        12..=15 => Statement::NotIn(a, y),
        16..=19 => Statement::SetsEqual(x, y),
        20..=23 => Statement::SetsDiffer(x, y),
        24..=27 => Statement::Single(x, b),
        28..=35 => Statement::Union(x, y, z),
        36..=43 => Statement::Intersection(x, y, z),
        44..=51 => Statement::Difference(x, y, z),
        _ => Statement::Empty(x),
    }
}

fn record(k: u64) -> Record {
    Record {
        statement: statement(k % STATEMENTS),
    }
}

// List number k of so many statements.
fn question(elements: u8, sets: u8, count: usize, k: u64) -> Question {
    let mut q = Question::empty();
    q.elements = elements;
    q.sets = sets;
    q.count = count;
    q.table[0] = record(k);
    q.table[1] = record(k / STATEMENTS);
    q.table[2] = record(k / STATEMENTS / STATEMENTS);
    q
}

// How many lists of so many statements there are.
fn lists(count: usize) -> u64 {
    match count {
        0 => 1,
        1 => STATEMENTS,
        2 => STATEMENTS * STATEMENTS,
        _ => STATEMENTS * STATEMENTS * STATEMENTS,
    }
}

// Is list number k one to be tried: its names are declared, and of two lists of three that differ in the order of the first two it is one.
fn is_tried(q: Question, k: u64) -> bool {
    match check(q) {
        Ok(()) => q.count < 3 || k % STATEMENTS <= k / STATEMENTS % STATEMENTS,
        Err(_) => false,
    }
}

fn all_lists(counted: &mut Tally, elements: u8, sets: u8, count: usize) {
    for k in 0..lists(count) {
        let q = question(elements, sets, count, k);
        if is_tried(q, k) {
            counted.compare(q);
        }
    }
}

// At most two statements, over every number of names, and three statements over two names of each sort.
pub(crate) fn every_question() -> Tally {
    let mut counted = Tally::default();
    for elements in 0..3 {
        for sets in 0..3 {
            for count in 0..3 {
                all_lists(&mut counted, elements, sets, count);
            }
        }
    }
    all_lists(&mut counted, 2, 2, 3);
    counted
}
