// The clauses of each row: what it says of its term.
ghost use Rattle.std.specs.Prelude.{◌≡◌, map};
ghost use Rattle.theory.specs.Sets.{IsSame, IsNotSame, ExactlyIfSame};
ghost use Rattle.row.specs.Rows.{row_of_parts, row_of};
ghost use Rattle.clauses.specs.Variables.{same_variable};
ghost use Rattle.clauses.specs.Clauses.{for_each, never, test_clauses, row_clauses};
ghost use Rattle.dimacs.specs.Walks.{wrote, Room};

use crate::literals::{is, is_not};
use crate::shapes::Shape;
use crate::writers::Writer;
use clauses::{in_variable, pair_variable, spare_variable};
use row::{RowParts, Test, unpack};

// The one variable of a pair, in either order.
fn same_variable(terms: u8, c: u8, d: u8) -> usize
    ensures { result ≡ same_variable terms 0 c d }
{
    if c < d {
        return pair_variable(terms, c, d);
    }
    pair_variable(terms, d, c)
}

impl Writer<'_> {
    // Kind 0: a row that says that a term is itself gives no clause.
    fn put_same(&mut self, shape: Shape, c: u8, d: u8)
        requires { Room self.old (test_clauses shape.terms shape.sets c (IsSame d)) }
        ensures { self.new ≡ wrote self.old (test_clauses shape.terms shape.sets c (IsSame d)) }
    {
        if c != d {
            self.put_clause(&[is(same_variable(shape.terms, c, d))]);
        }
    }

    // The spare variable, then its denial: they can't both hold.
    fn put_spare(&mut self, shape: Shape)
        requires { Room self.old (never shape.terms shape.sets) }
        ensures { self.new ≡ wrote self.old (never shape.terms shape.sets) }
    {
        let spare = spare_variable(shape.terms, shape.sets);
        self.put_clause(&[is(spare)]);
        self.put_clause(&[is_not(spare)]);
    }

    // Kind 1: one that says that a term isn't itself gives the spare variable and its denial.
    fn put_not_same(&mut self, shape: Shape, c: u8, d: u8)
        requires { Room self.old (test_clauses shape.terms shape.sets c (IsNotSame d)) }
        ensures { self.new ≡ wrote self.old (test_clauses shape.terms shape.sets c (IsNotSame d)) }
    {
        if c == d {
            self.put_spare(shape);
        } else {
            self.put_clause(&[is_not(same_variable(shape.terms, c, d))]);
        }
    }

    // Kind 6: p is the variable of c in x, which stands alone if c is a.
    fn put_single(&mut self, shape: Shape, c: u8, x: u8, a: u8)
        requires { Room self.old (test_clauses shape.terms shape.sets c (ExactlyIfSame x a)) }
        ensures { self.new ≡ wrote self.old (test_clauses shape.terms shape.sets c (ExactlyIfSame x a)) }
    {
        let p = in_variable(shape.terms, shape.sets, c, x);
        if c == a {
            self.put_clause(&[is(p)]);
        } else {
            self.put_exactly_if(p, same_variable(shape.terms, c, a));
        }
    }

    // The clauses of a row, by its test.
    fn put_row(&mut self, shape: Shape, parts: RowParts)
        requires { Room self.old (row_clauses shape.terms shape.sets (row_of_parts parts)) }
        ensures { self.new ≡ wrote self.old (row_clauses shape.terms shape.sets (row_of_parts parts)) }
    {
        let c = parts.term;
        let member = |x: u8| in_variable(shape.terms, shape.sets, c, x);
        match parts.test() {
            Test::IsSame(d) => self.put_same(shape, c, d),
            Test::IsNotSame(d) => self.put_not_same(shape, c, d),
            Test::IsIn(x) => self.put_clause(&[is(member(x))]),
            Test::IsNotIn(x) => self.put_clause(&[is_not(member(x))]),
            Test::ExactlyIfIn(x, y) => self.put_exactly_if(member(x), member(y)),
            Test::ExactlyIfNotIn(x, y) => self.put_exactly_if_not(member(x), member(y)),
            Test::ExactlyIfSame(x, a) => self.put_single(shape, c, x, a),
            Test::ExactlyIfOr(x, y, z) => self.put_or(member(x), member(y), member(z)),
            Test::ExactlyIfAnd(x, y, z) => self.put_and(member(x), member(y), member(z)),
            Test::ExactlyIfAndNot(x, y, z) => self.put_and_not(member(x), member(y), member(z)),
        }
    }

    // The clauses of some rows, in order.
    pub(crate) fn put_rows(&mut self, shape: Shape, rows: &[u32])
        requires { Room self.old (for_each (map row_of rows.now) (row_clauses shape.terms shape.sets)) }
        ensures { self.new ≡ wrote self.old (for_each (map row_of rows.now) (row_clauses shape.terms shape.sets)) }
    {
        for row in rows {
            self.put_row(shape, unpack(*row));
        }
    }
}
