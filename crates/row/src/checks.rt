// The check of rows handed to the search: 5 and 7 at place 0, then 12 at the first bad row.
ghost use Rattle.std.specs.Prelude.{◌≡◌, ◌<◌};
ghost use Rattle.row.specs.Checks.{places_good, row_good, rows_checked_from, rows_checked};

use crate::parts::{RowParts, unpack};
use crate::tests::Test;
use outcome::Refusal;
use question::Question;

// Do the places of a row name declared terms and sets, and do the unused ones hold 0. There is no kind above 9.
fn places_good(p: RowParts, terms: usize, sets: u8) -> bool
    ensures { result ≡ places_good terms sets p }
{
    if RowParts::KINDS <= p.kind {
        return false;
    }
    match p.test() {
        Test::IsSame(d) | Test::IsNotSame(d) => ((d as usize) < terms)
            & (p.second == 0)
            & (p.third == 0),
        Test::IsIn(x) | Test::IsNotIn(x) => (x < sets) & (p.second == 0) & (p.third == 0),
        Test::ExactlyIfIn(x, y) | Test::ExactlyIfNotIn(x, y) => (x < sets)
            & (y < sets)
            & (p.third == 0),
        Test::ExactlyIfSame(x, a) => (x < sets) & ((a as usize) < terms) & (p.third == 0),
        Test::ExactlyIfOr(x, y, z) | Test::ExactlyIfAnd(x, y, z) | Test::ExactlyIfAndNot(x, y, z) =>
            (x < sets) & (y < sets) & (z < sets),
    }
}

// Is the number a row over so many terms and sets.
fn row_good(row: u32, terms: usize, sets: u8) -> bool
    ensures { result ≡ row_good terms sets row }
{
    let p = unpack(row);
    row < RowParts::BOUND && (p.term as usize) < terms && places_good(p, terms, sets)
}

// The first bad row.
fn check_each(rows: &[u32], terms: usize, sets: u8) -> Result<(), Refusal>
    ensures { result ≡ rows_checked_from terms sets 0 rows.now }
{
    for (i, row) in rows.iter().enumerate() {
        if !row_good(*row, terms, sets) {
            return Err(Refusal::new(Refusal::BAD_ROW, i));
        }
    }
    Ok(())
}

// Rows handed in, over so many terms and sets: 5, then 7, at place 0; then 12 at the first bad row.
pub fn check_rows(rows: &[u32], terms: usize, sets: u8) -> Result<(), Refusal>
    ensures { result ≡ rows_checked terms sets rows.now }
{
    if Question::MAX_TERMS < terms {
        return Err(Refusal::new(Refusal::TOO_MANY_NAMES, 0));
    }
    if Question::MAX_SETS < sets {
        return Err(Refusal::new(Refusal::TOO_MANY_NAMES, 0));
    }
    if Question::MAX_ROWS < rows.len() {
        return Err(Refusal::new(Refusal::TOO_MANY_STATEMENTS, 0));
    }
    check_each(rows, terms, sets)
}
