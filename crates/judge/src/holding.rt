// Does a statement hold in a model: what it says of named elements is looked up, what it says of sets is tested element by element.
// No statement takes more than one look at each domain element, and no set is listed: all that is kept from one element to the next is its number.
ghost use Rattle.std.specs.Prelude.{◌≡◌};
ghost use Rattle.statement.specs.Meaning.{everywhere, holds};
ghost use Rattle.judge.specs.Models.{assigned};
ghost use Rattle.judge.specs.Elements.{at_element};

use crate::models::{Model, has};
use statement::Statement;

impl Model {
    // What a statement about sets asks of one domain element: its mask is looked up once, and has all that is asked.
    fn at_element(&self, s: Statement, d: usize) -> bool
        ensures { result ≡ at_element (assigned self.now) s d }
    {
        let sets = self.mask(d);
        match s {
            Statement::SetsEqual(x, y) | Statement::SetsDiffer(x, y) => has(sets, x)
                == has(sets, y),
            Statement::Empty(x) => !has(sets, x),
            Statement::Single(x, a) => has(sets, x) == (d == self.element(a)),
            Statement::Union(x, y, z) => has(sets, x) == (has(sets, y) | has(sets, z)),
            Statement::Intersection(x, y, z) => has(sets, x) == (has(sets, y) & has(sets, z)),
            Statement::Difference(x, y, z) => has(sets, x) == (has(sets, y) & !has(sets, z)),
            Statement::ElementsEqual(_, _)
            | Statement::ElementsDiffer(_, _)
            | Statement::In(_, _)
            | Statement::NotIn(_, _) => true,
        }
    }

    // The same at each domain element in turn: one look at each, and none behind the first that doesn't meet it.
    fn at_each_element(&self, s: Statement) -> bool
        ensures { result ≡ everywhere self.now.size (at_element (assigned self.now) s) }
    {
        (0..self.size).all(|d| self.at_element(s, d))
    }

    // Does a statement hold in the model: a look at the elements that it names, or one walk over the domain.
    pub(crate) fn does_hold(&self, s: Statement) -> bool
        ensures { result ≡ holds (assigned self.now) s }
    {
        match s {
            Statement::ElementsEqual(a, b) => self.element(a) == self.element(b),
            Statement::ElementsDiffer(a, b) => self.element(a) != self.element(b),
            Statement::In(a, x) => has(self.mask(self.element(a)), x),
            Statement::NotIn(a, x) => !has(self.mask(self.element(a)), x),
            Statement::SetsDiffer(_, _) => !self.at_each_element(s),
            Statement::SetsEqual(_, _)
            | Statement::Empty(_)
            | Statement::Single(_, _)
            | Statement::Union(_, _, _)
            | Statement::Intersection(_, _, _)
            | Statement::Difference(_, _, _) => self.at_each_element(s),
        }
    }
}
