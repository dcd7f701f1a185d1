// The lowest set that a test names.
ghost use Rattle.std.specs.Prelude.{◌≡◌};
ghost use Rattle.row.specs.Tests.{said};
ghost use Rattle.mask.specs.Lowest.{lowest_set};

use question::Question;
use row::Test;

// The lowest set that the test names, or as many as there can be where it names none.
#[tactic(auto, unfolding(crate::specs::Lowest::lowest_set))]
pub(crate) fn lowest_set(test: Test) -> u8
    ensures { result ≡ lowest_set (said test) }
{
    match test {
        Test::IsSame(_) | Test::IsNotSame(_) => Question::MAX_SETS,
        Test::IsIn(x) | Test::IsNotIn(x) | Test::ExactlyIfSame(x, _) => x,
        Test::ExactlyIfIn(x, y) | Test::ExactlyIfNotIn(x, y) => x.min(y),
        Test::ExactlyIfOr(x, y, z) | Test::ExactlyIfAnd(x, y, z) | Test::ExactlyIfAndNot(x, y, z) =>
            x.min(y.min(z)),
    }
}
