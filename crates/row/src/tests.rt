// What a row asks of its term, and the parts that say it: here alone stand the numbers of the kinds, but for a table of weights in search, which is read by them.
ghost use Rattle.std.specs.Prelude.{◌≡◌};
ghost use Rattle.theory.specs.Rules.{row};
ghost use Rattle.row.specs.Rows.{row_of_parts, parts_of_row};
ghost use Rattle.row.specs.Tests.{said};

use crate::parts::RowParts;

// What a row asks of its term c: d and a are terms, x, y and z are sets.
#[derive(Clone, Copy)]
pub enum Test {
    // c is the same as d; c is not.
    IsSame(u8),
    IsNotSame(u8),
    // c in x; c not in x.
    IsIn(u8),
    IsNotIn(u8),
    // c in x exactly if c in y; if c not in y; if c is the same as a.
    ExactlyIfIn(u8, u8),
    ExactlyIfNotIn(u8, u8),
    ExactlyIfSame(u8, u8),
    // c in x exactly if c in y or z; if in y and z; if in y and not in z.
    ExactlyIfOr(u8, u8, u8),
    ExactlyIfAnd(u8, u8, u8),
    ExactlyIfAndNot(u8, u8, u8),
}

impl RowParts {
    // How many kinds there are.
    pub(crate) const KINDS: u8 = 10;

    // The parts of the row for a term with a test.
    pub fn new(term: u8, test: Test) -> RowParts
        ensures { result ≡ parts_of_row (row term (said test)) }
    {
        let (kind, first, second, third) = match test {
            Test::IsSame(d) => (0, d, 0, 0),
            Test::IsNotSame(d) => (1, d, 0, 0),
            Test::IsIn(x) => (2, x, 0, 0),
            Test::IsNotIn(x) => (3, x, 0, 0),
            Test::ExactlyIfIn(x, y) => (4, x, y, 0),
            Test::ExactlyIfNotIn(x, y) => (5, x, y, 0),
            Test::ExactlyIfSame(x, a) => (6, x, a, 0),
            Test::ExactlyIfOr(x, y, z) => (7, x, y, z),
            Test::ExactlyIfAnd(x, y, z) => (8, x, y, z),
            Test::ExactlyIfAndNot(x, y, z) => (9, x, y, z),
        };
        RowParts {
            kind,
            term,
            first,
            second,
            third,
        }
    }

    // The test that the parts say. Places that the kind doesn't use count for nothing, and a number above 9 reads as kind 0.
    pub fn test(self) -> Test
        ensures { said result ≡ (row_of_parts self).test }
    {
        let (x, y, z) = (self.first, self.second, self.third);
        match self.kind {
            1 => Test::IsNotSame(x),
            2 => Test::IsIn(x),
            3 => Test::IsNotIn(x),
            4 => Test::ExactlyIfIn(x, y),
            5 => Test::ExactlyIfNotIn(x, y),
            6 => Test::ExactlyIfSame(x, y),
            7 => Test::ExactlyIfOr(x, y, z),
            8 => Test::ExactlyIfAnd(x, y, z),
            9 => Test::ExactlyIfAndNot(x, y, z),
            _ => Test::IsSame(x),
        }
    }
}
