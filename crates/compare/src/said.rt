// A model as a solver's lines: its values are written in document 02's order, as they are or with one of them turned,
// and what the library makes of the lines is held to a second reading of the values.
use crate::models::meets;
use crate::pens::Pen;
use answer::{Answer, write_answer};
use outcome::{Refusal, Verdict};
use question::{Question, terms};
use solved::solve;

// The value that is turned.
#[derive(Clone, Copy, PartialEq)]
enum Turn {
    // That of a pair of terms.
    Same(usize, usize),
    // That of a term and a set.
    In(usize, usize),
    Spare,
    Nothing,
}

// How many classes stand, the class numbers of the terms so far, and the masks of the classes.
#[derive(Clone, Copy)]
struct Placed {
    used: u8,
    numbers: [u8; 12],
    masks: [u32; 12],
}

fn class_of(a: &Answer, c: usize) -> u8 {
    a.arrangement.get(c).copied().unwrap_or(0)
}

fn mask_of(a: &Answer, c: usize) -> u32 {
    let class = usize::from(class_of(a, c));
    a.masks.get(class).copied().unwrap_or(0)
}

// The value of the terms c and d, turned or not.
fn is_same(a: &Answer, t: Turn, c: usize, d: usize) -> bool {
    (class_of(a, c) == class_of(a, d)) != (t == Turn::Same(c, d))
}

// The value of the term c and the set x, turned or not.
fn is_in(a: &Answer, t: Turn, c: usize, x: usize) -> bool {
    ((mask_of(a, c) >> (x % 32)) % 2 == 1) != (t == Turn::In(c, x))
}

// A variable, with a minus where it is false.
fn say(truth: bool, variable: usize, pen: &mut Pen<'_>) {
    let mut digits = [0u8; 20];
    let n = io::decimal(variable as u64, &mut digits);
    pen.put(b' ');
    if !truth {
        pen.put(b'-');
    }
    pen.put_all(&digits[..n]);
}

// The lines, and how many bytes they have.
fn write_lines(q: Question, a: &Answer, t: Turn, buf: &mut [u8]) -> usize {
    let mut pen = Pen::new(buf);
    let mut variable: usize = 1;
    pen.put_all(b"s SATISFIABLE\nv");
    for c in 0..terms(q) {
        for d in c + 1..terms(q) {
            say(is_same(a, t, c, d), variable, &mut pen);
            variable = variable.wrapping_add(1);
        }
    }
    for c in 0..terms(q) {
        for x in 0..usize::from(q.sets) {
            say(is_in(a, t, c, x), variable, &mut pen);
            variable = variable.wrapping_add(1);
        }
    }
    say(t == Turn::Spare, variable, &mut pen);
    pen.put_all(b" 0\n");
    pen.at
}

// The mask that is said of the term c.
fn mask_said(a: &Answer, t: Turn, c: usize, sets: u8) -> u32 {
    let mut mask: u32 = 0;
    for x in 0..usize::from(sets).min(16) {
        if is_in(a, t, c, x) {
            mask |= 1 << x;
        }
    }
    mask
}

impl Placed {
    // The class of the term d behind those before it: that of the lowest earlier term that it is said to be the same as, or a new one.
    fn class_said(&self, a: &Answer, t: Turn, d: usize) -> u8 {
        let joined = (0..d).find(|c| is_same(a, t, *c, d));
        joined
            .and_then(|c| self.numbers.get(c).copied())
            .unwrap_or(self.used)
    }

    // One term more.
    fn place(&mut self, a: &Answer, t: Turn, sets: u8, d: usize) {
        let class = self.class_said(a, t, d);
        if let Some(number) = self.numbers.get_mut(d) {
            *number = class;
        }
        if class == self.used && class < 12 {
            self.masks[usize::from(class)] = mask_said(a, t, d, sets);
            self.used += 1;
        }
    }
}

// The model that the values say.
fn model_said(q: Question, a: &Answer, t: Turn) -> Answer {
    let mut placed = Placed {
        used: 0,
        numbers: [0; 12],
        masks: [0; 12],
    };
    for d in 0..terms(q) {
        placed.place(a, t, q.sets, d);
    }
    let Placed { numbers, masks, .. } = placed;
    Answer {
        verdict: Verdict::Possible,
        arrangement: numbers,
        masks,
    }
}

// Are these so many bytes the file of an answer.
fn is_file(q: Question, a: Answer, file: &[u8], n: usize) -> bool {
    let mut expected = io::buffer();
    match write_answer(q, a, &mut expected) {
        Ok(count) => match (expected.get(..count), file.get(..n)) {
            (Some(due), Some(got)) => due == got,
            _ => false,
        },
        Err(_) => false,
    }
}

fn is_answered(q: Question, a: Answer, s: Result<Option<usize>, Refusal>, file: &[u8]) -> bool {
    match s {
        Ok(Some(n)) => is_file(q, a, file, n),
        _ => false,
    }
}

// Is it said that the judge fails the model.
fn is_failed(s: Result<Option<usize>, Refusal>) -> bool {
    match s {
        Err(r) => r.number == 14 && r.place == 0,
        _ => false,
    }
}

// Is this model read where the values say it: it is answered if it meets the statements, and else gets 14.
fn is_read(q: Question, a: &Answer, t: Turn, model: Answer) -> bool {
    let mut lines = io::buffer();
    let mut file = io::buffer();
    let n = write_lines(q, a, t, &mut lines);
    let Some(said) = lines.get(..n) else {
        return false;
    };
    let s = solve(q, said, &mut file);
    if meets(q, model) {
        is_answered(q, model, s, &file)
    } else {
        is_failed(s)
    }
}

// A number below n, or 0.
pub(crate) fn below(r: u64, n: usize) -> usize {
    if n == 0 { 0 } else { (r % n as u64) as usize }
}

// One of the values, by a number. A pair of a term and itself has none, so that nothing is turned.
fn chosen(q: Question, r: u64) -> Turn {
    let later = below(r / 8, terms(q));
    match r % 8 {
        0..=2 => Turn::Same(below(r / 96, later), later),
        3..=6 => Turn::In(later, below(r / 96, usize::from(q.sets))),
        _ => Turn::Spare,
    }
}

// Is a model read back from its own values, and what its values say with one of them turned.
pub(crate) fn is_right(q: Question, a: Answer, r: u64) -> bool {
    let t = chosen(q, r);
    is_read(q, &a, Turn::Nothing, a) && is_read(q, &a, t, model_said(q, &a, t))
}
