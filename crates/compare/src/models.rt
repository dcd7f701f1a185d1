// The model that an answer shows, tested: by the library's judge, and as an assignment by the second solver's own test.
use crate::assignments::Assignment;
use answer::Answer;
use judge::{Model, judge};
use question::{Question, terms};

// How many classes the class numbers of so many terms have.
fn classes(arrangement: &[u8], terms: usize) -> usize {
    arrangement
        .iter()
        .take(terms)
        .map(|c| usize::from(*c) + 1)
        .max()
        .unwrap_or(0)
}

// A name's element is its class.
pub(crate) fn model_of(q: Question, answer: Answer) -> Model {
    let Answer {
        arrangement,
        masks,
        ..
    } = answer;
    Model {
        size: classes(&arrangement, terms(q)),
        elements: arrangement,
        masks,
    }
}

// The part of the set name x: the domain elements whose mask has bit x.
fn part(masks: [u32; 12], size: usize, x: usize) -> u16 {
    let mut part: u16 = 0;
    for d in 0..size.min(12) {
        if (masks[d] >> (x % 32)) % 2 == 1 {
            part |= 1 << d;
        }
    }
    part
}

// The parts of so many set names.
fn parts(masks: [u32; 12], size: usize, sets: u8) -> [u16; 16] {
    let mut parts = [0u16; 16];
    for x in 0..usize::from(sets).min(16) {
        parts[x] = part(masks, size, x);
    }
    parts
}

fn is_judged(q: Question, m: Model) -> bool {
    judge(q, m) == Ok(None)
}

// The model as an assignment. Each name's element is in the domain: it is a class.
pub(crate) fn assignment(q: Question, m: Model) -> Assignment {
    let Model {
        size,
        elements,
        masks,
    } = m;
    Assignment {
        elements,
        parts: parts(masks, size, q.sets),
    }
}

// Does every statement hold in the model as an assignment.
fn is_met(q: Question, m: Model) -> bool {
    assignment(q, m).first_failing(&q) == 64
}

// Is what the answer shows a model of the question, by both tests.
pub(crate) fn is_right(q: Question, answer: Answer) -> bool {
    let m = model_of(q, answer);
    is_judged(q, m) && is_met(q, m)
}

// Is what the answer shows a model of the question, by the second solver's test alone.
pub(crate) fn meets(q: Question, answer: Answer) -> bool {
    is_met(q, model_of(q, answer))
}
