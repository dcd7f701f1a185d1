// The clauses of a table of rows: the triples, the pairs, then the rows.
ghost use Rattle.std.specs.Prelude.{◌≡◌, map};
ghost use Rattle.row.specs.Rows.{row_of};
ghost use Rattle.clauses.specs.Clauses.{table_clauses};
ghost use Rattle.dimacs.specs.Walks.{wrote, Room};

use crate::shapes::Shape;
use crate::writers::Writer;

impl Writer<'_> {
    // The clauses of all three parts.
    pub(crate) fn put_table(&mut self, shape: Shape, rows: &[u32])
        requires { Room self.old (table_clauses shape.terms shape.sets (map row_of rows.now)) }
        ensures { self.new ≡ wrote self.old (table_clauses shape.terms shape.sets (map row_of rows.now)) }
    {
        self.put_triples(shape);
        self.put_pairs(shape);
        self.put_rows(shape, rows);
    }
}
