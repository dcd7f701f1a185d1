// An entry as one number: rows that have one test and differ only in their term. It is made here and read here.
ghost use Rattle.std.specs.Prelude.{◌≡◌};
ghost use Rattle.row.specs.Tests.{said, HasRoom};
ghost use Rattle.mask.specs.Entries.{entry_of, row_in, test_in, terms_in};

use crate::lowest::lowest_set;
use row::{RowParts, Test, unpack};

// How many bits an entry has for the number of a row, and for the set of the terms: one for each that a row has room for.
const ROW_BITS: u32 = 32;

const TERMS_BITS: u32 = RowParts::TERM_ROOM as u32;

// The first numbers that have more bits.
const ROW_BOUND: u64 = 1 << ROW_BITS;

const TERMS_BOUND: u64 = 1 << TERMS_BITS;

// The entry of the row's test for a set of terms. Above what it says stands its place in the order: the lowest set that the test names.
pub fn entry_of(row: u32, terms: u32) -> u64
    ensures { result ≡ entry_of row terms }
{
    let place = lowest_set(unpack(row).test()) as u64;
    let says = (terms as u64) % TERMS_BOUND;
    (place * TERMS_BOUND + says) * ROW_BOUND + (row as u64)
}

// The number of one of the rows, which says the test.
pub fn row_in(entry: u64) -> u32
    ensures { result ≡ row_in entry }
{
    (entry % ROW_BOUND) as u32
}

// The test.
pub fn test_in(entry: u64) -> Test
    ensures value { said result ≡ test_in entry }
    ensures room { HasRoom (said result) }
{
    unpack(row_in(entry)).test()
}

// The set of the terms.
pub fn terms_in(entry: u64) -> u32
    ensures { result ≡ terms_in entry }
{
    ((entry >> ROW_BITS) % TERMS_BOUND) as u32
}
