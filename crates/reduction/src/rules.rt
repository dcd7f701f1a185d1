// The rule of a statement: of which terms it asks which test.
ghost use Rattle.std.specs.Prelude.{◌≡◌};
ghost use Rattle.theory.specs.Reduction.{rule};
ghost use Rattle.reduction.specs.Rules.{said_rule};

use row::Test;
use statement::Statement;

// A test of one term, of each term, or of the statement's own witness.
#[derive(Clone, Copy)]
pub(crate) enum Rule {
    OneTerm(u8, Test),
    EachTerm(Test),
    OwnWitness(Test),
}

pub(crate) fn rule_of(s: Statement) -> Rule
    ensures { said_rule result ≡ rule s }
{
    match s {
        Statement::ElementsEqual(a, b) => Rule::OneTerm(a.0, Test::IsSame(b.0)),
        Statement::ElementsDiffer(a, b) => Rule::OneTerm(a.0, Test::IsNotSame(b.0)),
        Statement::In(a, x) => Rule::OneTerm(a.0, Test::IsIn(x.0)),
        Statement::NotIn(a, x) => Rule::OneTerm(a.0, Test::IsNotIn(x.0)),
        Statement::SetsEqual(x, y) => Rule::EachTerm(Test::ExactlyIfIn(x.0, y.0)),
        Statement::SetsDiffer(x, y) => Rule::OwnWitness(Test::ExactlyIfNotIn(x.0, y.0)),
        Statement::Empty(x) => Rule::EachTerm(Test::IsNotIn(x.0)),
        Statement::Single(x, a) => Rule::EachTerm(Test::ExactlyIfSame(x.0, a.0)),
        Statement::Union(x, y, z) => Rule::EachTerm(Test::ExactlyIfOr(x.0, y.0, z.0)),
        Statement::Intersection(x, y, z) => Rule::EachTerm(Test::ExactlyIfAnd(x.0, y.0, z.0)),
        Statement::Difference(x, y, z) => Rule::EachTerm(Test::ExactlyIfAndNot(x.0, y.0, z.0)),
    }
}
