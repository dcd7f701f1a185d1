// The clauses of each triple of terms: being the same passes on.
ghost use Rattle.std.specs.Prelude.{◌≡◌, ◌<◌};
ghost use Rattle.clauses.specs.Clauses.{triple_clauses, triples_of, triples_from, triples};
ghost use Rattle.dimacs.specs.Walks.{wrote, Room};

use crate::shapes::Shape;
use crate::writers::Writer;
use clauses::pair_variable;

impl Writer<'_> {
    // The triple b, c, d.
    fn put_triple(&mut self, shape: Shape, b: u8, c: u8, d: u8)
        requires { Room self.old (triple_clauses shape.terms shape.sets b c d) }
        ensures { self.new ≡ wrote self.old (triple_clauses shape.terms shape.sets b c d) }
    {
        let bc = pair_variable(shape.terms, b, c);
        let cd = pair_variable(shape.terms, c, d);
        let bd = pair_variable(shape.terms, b, d);
        self.put_joining(bc, cd, bd);
    }

    // With the first two terms b, c.
    fn put_triples_of(&mut self, shape: Shape, b: u8, c: u8)
        requires { (c < shape.terms) × Room self.old (triples_of shape.terms shape.sets b c) }
        ensures { self.new ≡ wrote self.old (triples_of shape.terms shape.sets b c) }
    {
        for d in c + 1..shape.terms {
            self.put_triple(shape, b, c, d);
        }
    }

    // With the first term b.
    fn put_triples_from(&mut self, shape: Shape, b: u8)
        requires { (b < shape.terms) × Room self.old (triples_from shape.terms shape.sets b) }
        ensures { self.new ≡ wrote self.old (triples_from shape.terms shape.sets b) }
    {
        for c in b + 1..shape.terms {
            self.put_triples_of(shape, b, c);
        }
    }

    // All of them.
    pub(crate) fn put_triples(&mut self, shape: Shape)
        requires { Room self.old (triples shape.terms shape.sets) }
        ensures { self.new ≡ wrote self.old (triples shape.terms shape.sets) }
    {
        for b in 0..shape.terms {
            self.put_triples_from(shape, b);
        }
    }
}
