// Does a mask meet the rows of an entry.
ghost use Rattle.std.specs.Prelude.{◌≡◌};
ghost use Rattle.question.specs.Masks.{bit as has_bit};
ghost use Rattle.theory.specs.Sets.{fits};
ghost use Rattle.row.specs.Tests.{said, HasRoom};
ghost use Rattle.mask.specs.Meetings.{is_asked, meets_entry};

use crate::bits::bit;
use crate::entries::{terms_in, test_in};
use row::Test;

// Does a class with the mask m pass the test.
fn passes(test: Test, class: u32, m: u32) -> bool
    requires { HasRoom (said test) }
    ensures { result ≡ fits m (has_bit class) (said test) }
{
    match test {
        Test::IsSame(d) => bit(class, d),
        Test::IsNotSame(d) => !bit(class, d),
        Test::IsIn(x) => bit(m, x),
        Test::IsNotIn(x) => !bit(m, x),
        Test::ExactlyIfIn(x, y) => bit(m, x) == bit(m, y),
        Test::ExactlyIfNotIn(x, y) => bit(m, x) == !bit(m, y),
        Test::ExactlyIfSame(x, a) => bit(m, x) == bit(class, a),
        Test::ExactlyIfOr(x, y, z) => bit(m, x) == bit(m, y) | bit(m, z),
        Test::ExactlyIfAnd(x, y, z) => bit(m, x) == bit(m, y) & bit(m, z),
        Test::ExactlyIfAndNot(x, y, z) => bit(m, x) == bit(m, y) & !bit(m, z),
    }
}

// Has the entry a row for a term of the class.
pub(crate) fn is_asked(entry: u64, class: u32) -> bool
    ensures { result ≡ is_asked class entry }
{
    terms_in(entry) & class != 0
}

// Does the mask m of a class meet the rows of the entry. If none of their terms is in the class, they are passed over; else one test is that of all.
pub(crate) fn meets(entry: u64, class: u32, m: u32) -> bool
    ensures { result ≡ meets_entry class m entry }
{
    if !is_asked(entry, class) {
        return true;
    }
    passes(test_in(entry), class, m)
}
