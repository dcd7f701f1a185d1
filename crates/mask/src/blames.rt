// Which bits of a mask are to blame, where it fails a test.
ghost use Rattle.std.specs.Prelude.{◌≡◌};
ghost use Rattle.row.specs.Tests.{said, HasRoom};
ghost use Rattle.mask.specs.Blames.{two_or_three, blamed};

use crate::bits::{bit, only};
use row::Test;

// Of the bits of three sets the first two, or the first and the last, or all.
fn two_or_three(all: bool, second: bool, x: u32, y: u32, z: u32) -> u32
    ensures { result ≡ two_or_three all second x y z }
{
    if all {
        x | y | z
    } else if second {
        x | y
    } else {
        x | z
    }
}

// The bits of m that already decide that it fails the test, if it does.
#[tactic(auto, unfolding(crate::specs::Blames::blamed))]
pub(crate) fn blame(test: Test, m: u32) -> u32
    requires { HasRoom (said test) }
    ensures { result ≡ blamed m (said test) }
{
    match test {
        Test::IsSame(_) | Test::IsNotSame(_) => 0,
        Test::IsIn(x) | Test::IsNotIn(x) | Test::ExactlyIfSame(x, _) => only(x),
        Test::ExactlyIfIn(x, y) | Test::ExactlyIfNotIn(x, y) => only(x) | only(y),
        Test::ExactlyIfOr(x, y, z) => two_or_three(bit(m, x), bit(m, y), only(x), only(y), only(z)),
        Test::ExactlyIfAnd(x, y, z) | Test::ExactlyIfAndNot(x, y, z) => two_or_three(
            !bit(m, x),
            !bit(m, y),
            only(x),
            only(y),
            only(z),
        ),
    }
}
