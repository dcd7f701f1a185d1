// The first line of the text: `p cnf`, how many variables, how many clauses.
ghost use Rattle.std.specs.Prelude.{◌≡◌};
ghost use Rattle.clauses.specs.Texts.{first_line};
ghost use Rattle.dimacs.specs.Walks.{number_text, put, Fitting};

use crate::writers::Writer;
use text::put_decimal;

impl Writer<'_> {
    // A number and the byte behind it.
    fn put_number(&mut self, n: usize, end: u8)
        requires { Fitting self.old (number_text n end) }
        ensures { self.new ≡ put self.old (number_text n end) }
    {
        self.at += put_decimal(n, self.at, self.buf) as u32;
        self.put_byte(end);
    }

    // The whole line.
    pub(crate) fn put_head(&mut self, variables: usize, clauses: usize)
        requires { Fitting self.old (first_line variables clauses) }
        ensures { self.new ≡ put self.old (first_line variables clauses) }
    {
        self.put_text(b"p cnf ");
        self.put_number(variables, b' ');
        self.put_number(clauses, b'\n');
    }
}
