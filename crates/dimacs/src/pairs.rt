// The clauses of each pair of terms and each set: terms that are the same are in the same sets.
ghost use Rattle.std.specs.Prelude.{◌≡◌, ◌<◌};
ghost use Rattle.clauses.specs.Clauses.{pair_clauses, pairs_of, pairs_from, pairs};
ghost use Rattle.dimacs.specs.Walks.{wrote, Room};

use crate::shapes::Shape;
use crate::writers::Writer;
use clauses::{in_variable, pair_variable};

impl Writer<'_> {
    // The pair c, d and the set x.
    fn put_pair(&mut self, shape: Shape, c: u8, d: u8, x: u8)
        requires { Room self.old (pair_clauses shape.terms shape.sets c d x) }
        ensures { self.new ≡ wrote self.old (pair_clauses shape.terms shape.sets c d x) }
    {
        let cd = pair_variable(shape.terms, c, d);
        let p = in_variable(shape.terms, shape.sets, c, x);
        let q = in_variable(shape.terms, shape.sets, d, x);
        self.put_agreeing(cd, p, q);
    }

    // The pair c, d and each set.
    fn put_pairs_of(&mut self, shape: Shape, c: u8, d: u8)
        requires { Room self.old (pairs_of shape.terms shape.sets c d) }
        ensures { self.new ≡ wrote self.old (pairs_of shape.terms shape.sets c d) }
    {
        for x in 0..shape.sets {
            self.put_pair(shape, c, d, x);
        }
    }

    // With the first term c.
    fn put_pairs_from(&mut self, shape: Shape, c: u8)
        requires { (c < shape.terms) × Room self.old (pairs_from shape.terms shape.sets c) }
        ensures { self.new ≡ wrote self.old (pairs_from shape.terms shape.sets c) }
    {
        for d in c + 1..shape.terms {
            self.put_pairs_of(shape, c, d);
        }
    }

    // All of them.
    pub(crate) fn put_pairs(&mut self, shape: Shape)
        requires { Room self.old (pairs shape.terms shape.sets) }
        ensures { self.new ≡ wrote self.old (pairs shape.terms shape.sets) }
    {
        for c in 0..shape.terms {
            self.put_pairs_from(shape, c);
        }
    }
}
