// The check of a question that is handed in as a table, and the numbers of its statements and of its terms.
ghost use Rattle.std.specs.Prelude.{◌≡◌, ◌≤◌, length};
ghost use Rattle.question.specs.Limits.{max_statements};
ghost use Rattle.question.specs.Questions.{statements, terms_of};
ghost use Rattle.question.specs.Checks.{names_checked_at, statements_checked, checked};

use crate::admissions::admit;
use crate::questions::Question;
use outcome::Refusal;
use statement::witness_of;

// Statement by statement: 6, then 8, at its index.
fn check_statements(q: Question) -> Result<(), Refusal>
    requires { q.count ≤ max_statements }
    ensures { result ≡ statements_checked q.elements q.sets 0 q.elements (statements q) }
{
    let mut terms = q.elements as usize;
    for (i, entry) in q.table[..q.count].iter().enumerate() {
        let s = entry.statement;
        if let Err(reason) = admit(s, q.elements, q.sets, terms) {
            return Err(reason.at(i));
        }
        terms += witness_of(s);
    }
    Ok(())
}

// The numbers of names: 5 at a place.
pub fn check_names(elements: u8, sets: u8, place: usize) -> Result<(), Refusal>
    ensures { result ≡ names_checked_at place elements sets }
{
    if Question::MAX_ELEMENTS < elements || Question::MAX_SETS < sets {
        return Err(Refusal::new(Refusal::TOO_MANY_NAMES, place));
    }
    Ok(())
}

// The check of a table handed in: 5, then 7, at place 0; then statement by statement.
#[tactic(auto, unfolding(crate::specs::Checks::checked))]
pub fn check(q: Question) -> Result<(), Refusal>
    ensures { result ≡ checked q }
{
    check_names(q.elements, q.sets, 0)?;
    if Question::MAX_STATEMENTS < q.count {
        return Err(Refusal::new(Refusal::TOO_MANY_STATEMENTS, 0));
    }
    check_statements(q)
}

// How many statements the table has: a count past its records counts those alone.
pub fn statement_count(q: Question) -> usize
    ensures { (result ≡ length (statements q)) × (result ≤ max_statements) }
{
    q.count.min(Question::MAX_STATEMENTS)
}

// T, the number of terms: the element names, and a witness for each statement x ≠ y before the count.
pub fn terms(q: Question) -> usize
    ensures { result ≡ terms_of q }
{
    let mut total = q.elements as usize;
    for entry in &q.table[..statement_count(q)] {
        total += witness_of(entry.statement);
    }
    total
}
