// The asked terms: those that rows of another term ask for.
ghost use Rattle.std.specs.Prelude.{◌||◌, ℕ, ◌<◌, T, eqb};
ghost use Rattle.question.specs.Masks.{bit};
ghost use Rattle.mask.specs.Entries.{test_in, terms_in, rows_of_entries};
ghost use Rattle.cut.specs.Asked.{asks, asked_known, all_asked_known};

use crate::groups::term_alone;
use mask::{terms_in, test_in};
use row::Test;

// A group with d, if there is another term than d among those that ask for it.
fn asked_besides(terms: u32, d: u8) -> u32
    requires { d < 32 }
    ensures { (c : ℕ) → T (bit terms c) → T (eqb d c || bit result d) }
{
    let own = term_alone(d as usize);
    if terms == own { 0 } else { own }
}

// A group with the term that the rows of the entry ask for, if they ask for one.
fn term_asked(entry: u64) -> u32
    ensures { (c : ℕ) → T (bit (terms_in entry) c) → T (asked_known asks (bit result) c (test_in entry)) }
{
    match test_in(entry) {
        Test::IsSame(d) | Test::ExactlyIfSame(_, d) => asked_besides(terms_in(entry), d),
        Test::IsNotSame(_)
        | Test::IsIn(_)
        | Test::IsNotIn(_)
        | Test::ExactlyIfIn(_, _)
        | Test::ExactlyIfNotIn(_, _)
        | Test::ExactlyIfOr(_, _, _)
        | Test::ExactlyIfAnd(_, _, _)
        | Test::ExactlyIfAndNot(_, _, _) => 0,
    }
}

// A group with those of all rows.
pub(crate) fn terms_asked(entries: &[u64]) -> u32
    ensures { T (all_asked_known asks (bit result) (rows_of_entries entries.now)) }
{
    let mut asked = 0;
    for entry in entries {
        asked |= term_asked(*entry);
    }
    asked
}
