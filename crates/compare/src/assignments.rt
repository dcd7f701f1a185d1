// What statements mean, straight from document 01: an assignment, and the test whether a statement holds in it.
ghost use Rattle.std.specs.Prelude.{◌≤◌, length};

use question::{Question, Record};
use statement::{ElementName, SetName, Statement};

// The domain element of each element name, with as much room as an arrangement has, and the part of each set name: bit d
// says that domain element d is in it.
#[derive(Clone, Copy)]
pub struct Assignment {
    pub elements: [u8; 12],
    pub parts: [u16; 16],
}

// The part that has the domain element d alone.
fn alone(d: u8) -> u16 {
    if d < 16 { 1u16 << d } else { 0 }
}

// The records of the statements of a question.
pub(crate) fn statements(q: &Question) -> &[Record]
    ensures { length result.now ≤ 64 }
{
    &q.table[..q.count.min(64)]
}

impl Assignment {
    fn element(&self, a: ElementName) -> u8 {
        self.elements.get(usize::from(a.0)).copied().unwrap_or(0)
    }

    fn part(&self, x: SetName) -> u16 {
        self.parts.get(usize::from(x.0)).copied().unwrap_or(0)
    }

    fn is_in(&self, a: ElementName, x: SetName) -> bool {
        self.part(x) & alone(self.element(a)) != 0
    }

    pub(crate) fn holds(&self, s: Statement) -> bool {
        match s {
            Statement::ElementsEqual(a, b) => self.element(a) == self.element(b),
            Statement::ElementsDiffer(a, b) => self.element(a) != self.element(b),
            Statement::In(a, x) => self.is_in(a, x),
            Statement::NotIn(a, x) => !self.is_in(a, x),
            Statement::SetsEqual(x, y) => self.part(x) == self.part(y),
            Statement::SetsDiffer(x, y) => self.part(x) != self.part(y),
            Statement::Empty(x) => self.part(x) == 0,
            Statement::Single(x, a) => self.part(x) == alone(self.element(a)),
            Statement::Union(x, y, z) => self.part(x) == self.part(y) | self.part(z),
            Statement::Intersection(x, y, z) => self.part(x) == self.part(y) & self.part(z),
            Statement::Difference(x, y, z) => self.part(x) == self.part(y) & !self.part(z),
        }
    }

    // The assignment with another part for the set name x.
    pub(crate) fn with_part(self, x: usize, p: u16) -> Assignment {
        let mut with = self;
        if let Some(part) = with.parts.get_mut(x) {
            *part = p;
        }
        with
    }

    // Does each statement hold whose set names all have their part already.
    pub(crate) fn hold_so_far(&self, q: &Question, known: u16) -> bool {
        statements(q).iter().all(|r| sets_of(r.statement) & !known != 0 || self.holds(r.statement))
    }

    // The index of the first statement that fails, or 64.
    pub(crate) fn first_failing(&self, q: &Question) -> usize
        ensures { result ≤ 64 }
    {
        statements(q)
            .iter()
            .position(|r| !self.holds(r.statement))
            .unwrap_or(64)
    }
}

// The set names of a statement: bit x for set name x.
pub(crate) fn sets_of(s: Statement) -> u16 {
    match s {
        Statement::ElementsEqual(_, _) | Statement::ElementsDiffer(_, _) => 0,
        Statement::In(_, x)
        | Statement::NotIn(_, x)
        | Statement::Empty(x)
        | Statement::Single(x, _) => alone(x.0),
        Statement::SetsEqual(x, y) | Statement::SetsDiffer(x, y) => alone(x.0) | alone(y.0),
        Statement::Union(x, y, z)
        | Statement::Intersection(x, y, z)
        | Statement::Difference(x, y, z) => alone(x.0) | alone(y.0) | alone(z.0),
    }
}
