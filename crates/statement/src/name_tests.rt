// The test of a statement's names: each is declared if it is below the number of names of its sort.
ghost use Rattle.std.specs.Prelude.{◌≡◌};
ghost use Rattle.statement.specs.NameTests.{leftmost, name_test};

use crate::statements::Statement;

// The position of the leftmost test that fails, where one does.
fn leftmost(tests: &[bool]) -> Result<(), usize>
    ensures { result ≡ leftmost 0 tests.now }
{
    match tests.iter().position(|declared| !*declared) {
        Some(at) => Err(at),
        None => Ok(()),
    }
}

// Are the names of a statement declared, where there are so many of each sort; if not, where in the body the leftmost stands.
pub fn name_test(s: Statement, elements: u8, sets: u8) -> Result<(), usize>
    ensures { result ≡ name_test elements sets s }
{
    match s {
        Statement::ElementsEqual(a, b) | Statement::ElementsDiffer(a, b) => {
            leftmost(&[a.0 < elements, b.0 < elements])
        }
        Statement::In(a, x) | Statement::NotIn(a, x) => leftmost(&[a.0 < elements, x.0 < sets]),
        Statement::SetsEqual(x, y) | Statement::SetsDiffer(x, y) => {
            leftmost(&[x.0 < sets, y.0 < sets])
        }
        Statement::Empty(x) => leftmost(&[x.0 < sets]),
        Statement::Single(x, a) => leftmost(&[x.0 < sets, a.0 < elements]),
        Statement::Union(x, y, z)
        | Statement::Intersection(x, y, z)
        | Statement::Difference(x, y, z) => leftmost(&[x.0 < sets, y.0 < sets, z.0 < sets]),
    }
}
