// One clause, literal by literal: each with a space behind it, then the 0 and the end of the line.
ghost use Rattle.std.specs.Prelude.{◌≡◌, [], ◌∷◌};
ghost use Rattle.text.specs.Literals.{is as is_literal, is_not};
ghost use Rattle.dimacs.specs.Walks.{word_text, put, Fitting, wrote, Room};

use crate::writers::Writer;
use text::{Literal, put_literal};

// The variable, and its denial.
pub(crate) fn is(variable: usize) -> Literal
    ensures { result ≡ is_literal variable }
{
    Literal {
        denied: false,
        variable,
    }
}

pub(crate) fn is_not(variable: usize) -> Literal
    ensures { result ≡ is_not variable }
{
    Literal {
        denied: true,
        variable,
    }
}

impl Writer<'_> {
    // A literal and a space.
    fn put_word(&mut self, l: Literal)
        requires { Fitting self.old (word_text l) }
        ensures { self.new ≡ put self.old (word_text l) }
    {
        self.at += put_literal(l, self.at, self.buf) as u32;
        self.put_byte(b' ');
    }

    // A clause of these literals.
    pub(crate) fn put_clause(&mut self, literals: &[Literal])
        requires { Room self.old (literals.now ∷ []) }
        ensures { self.new ≡ wrote self.old (literals.now ∷ []) }
    {
        for l in literals {
            self.put_word(*l);
        }
        self.put_text(b"0\n");
        self.clauses += 1;
    }
}
