// Which rows have one test.
ghost use Rattle.std.specs.Prelude.{◌≡◌};
ghost use Rattle.row.specs.Comparisons.{same_test};

use crate::parts::RowParts;

// Do two rows have one test: all their bits but those of the term.
pub fn same_test(a: u32, b: u32) -> bool
    ensures { result ≡ same_test a b }
{
    let above = a >> RowParts::KIND_AT == b >> RowParts::KIND_AT;
    let below = a % (1 << RowParts::TERM_AT) == b % (1 << RowParts::TERM_AT);
    above & below
}
