// The clauses of one condition on variables, in document 02's order.
ghost use Rattle.std.specs.Prelude.{◌≡◌};
ghost use Rattle.clauses.specs.Clauses.{exactly_if, exactly_if_not, exactly_if_or, exactly_if_and, exactly_if_and_not, joining, agreeing};
ghost use Rattle.dimacs.specs.Walks.{wrote, Room};

use crate::literals::{is, is_not};
use crate::writers::Writer;

impl Writer<'_> {
    // p exactly if q.
    pub(crate) fn put_exactly_if(&mut self, p: usize, q: usize)
        requires { Room self.old (exactly_if p q) }
        ensures { self.new ≡ wrote self.old (exactly_if p q) }
    {
        self.put_clause(&[is_not(p), is(q)]);
        self.put_clause(&[is(p), is_not(q)]);
    }

    // p exactly if not q.
    pub(crate) fn put_exactly_if_not(&mut self, p: usize, q: usize)
        requires { Room self.old (exactly_if_not p q) }
        ensures { self.new ≡ wrote self.old (exactly_if_not p q) }
    {
        self.put_clause(&[is(p), is(q)]);
        self.put_clause(&[is_not(p), is_not(q)]);
    }

    // p exactly if q or r.
    pub(crate) fn put_or(&mut self, p: usize, q: usize, r: usize)
        requires { Room self.old (exactly_if_or p q r) }
        ensures { self.new ≡ wrote self.old (exactly_if_or p q r) }
    {
        self.put_clause(&[is_not(p), is(q), is(r)]);
        self.put_clause(&[is(p), is_not(q)]);
        self.put_clause(&[is(p), is_not(r)]);
    }

    // p exactly if q and r.
    pub(crate) fn put_and(&mut self, p: usize, q: usize, r: usize)
        requires { Room self.old (exactly_if_and p q r) }
        ensures { self.new ≡ wrote self.old (exactly_if_and p q r) }
    {
        self.put_clause(&[is_not(p), is(q)]);
        self.put_clause(&[is_not(p), is(r)]);
        self.put_clause(&[is(p), is_not(q), is_not(r)]);
    }

    // p exactly if q and not r.
    pub(crate) fn put_and_not(&mut self, p: usize, q: usize, r: usize)
        requires { Room self.old (exactly_if_and_not p q r) }
        ensures { self.new ≡ wrote self.old (exactly_if_and_not p q r) }
    {
        self.put_clause(&[is_not(p), is(q)]);
        self.put_clause(&[is_not(p), is_not(r)]);
        self.put_clause(&[is(p), is_not(q), is(r)]);
    }

    // Of three pairs of three terms, two make the third.
    pub(crate) fn put_joining(&mut self, bc: usize, cd: usize, bd: usize)
        requires { Room self.old (joining bc cd bd) }
        ensures { self.new ≡ wrote self.old (joining bc cd bd) }
    {
        self.put_clause(&[is_not(bc), is_not(cd), is(bd)]);
        self.put_clause(&[is_not(bc), is_not(bd), is(cd)]);
        self.put_clause(&[is_not(bd), is_not(cd), is(bc)]);
    }

    // Terms that are the same are in the same sets.
    pub(crate) fn put_agreeing(&mut self, cd: usize, p: usize, q: usize)
        requires { Room self.old (agreeing cd p q) }
        ensures { self.new ≡ wrote self.old (agreeing cd p q) }
    {
        self.put_clause(&[is_not(cd), is_not(p), is(q)]);
        self.put_clause(&[is_not(cd), is_not(q), is(p)]);
    }
}
