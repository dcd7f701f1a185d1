// Building a question: names declared, one statement more, and a run of statements dropped.
ghost use Rattle.std.specs.Prelude.{◌≡◌, true, false, ◌⊎◌, ◌+◌, ◌≤◌, ◌<◌};
ghost use Rattle.question.specs.Builds.{declaring, dropped};
ghost use Rattle.building.specs.Additions.{addition_checked, added_to};

use outcome::Refusal;
use question::{Question, Record, admit, statement_count, terms};
use statement::Statement;

// A question with names and no statements.
#[tactic(auto, unfolding(question::specs::Builds::unused_table))]
pub fn declare(elements: u8, sets: u8) -> Question
    ensures { result ≡ declaring elements sets }
{
    Question {
        elements,
        sets,
        ..Question::empty()
    }
}

// One statement more: 7 at place 0, then 6 and 8 at the index that it would get; a refused call leaves the question as it was.
#[tactic(auto, unfolding(crate::specs::Additions::added_to))]
pub fn add(q: &mut Question, s: Statement) -> Result<(), Refusal>
    ensures answer { result ≡ addition_checked q.old s }
    ensures question { q.new ≡ added_to q.old s }
{
    let count = q.count;
    if Question::MAX_STATEMENTS <= count {
        return Err(Refusal::new(Refusal::TOO_MANY_STATEMENTS, 0));
    }
    if let Err(reason) = admit(s, q.elements, q.sets, terms(*q)) {
        return Err(reason.at(count));
    }
    q.table[count] = Record { statement: s };
    q.count = count + 1;
    Ok(())
}

// Does the index j stand outside the run of n indexes from i on.
fn outside(j: usize, i: usize, n: usize) -> bool
    ensures out { result ≡ true → (j < i) ⊎ (i + n ≤ j) }
    ensures within { result ≡ false → (i ≤ j) × (j < i + n) }
{
    j < i || n <= j - i
}

// The question without n statements from the index i on; the statements behind them move up.
pub fn drop_statements(q: Question, i: usize, n: usize) -> Question
    ensures { result ≡ dropped q i n }
{
    let mut rest = declare(q.elements, q.sets);
    for (j, entry) in q.table[..statement_count(q)].iter().enumerate() {
        if outside(j, i, n) {
            rest.table[rest.count] = *entry;
            rest.count += 1;
        }
    }
    rest
}
