// Patterns of equal element names: every way in which up to three names can be equal, and the statements that say so.
ghost use Rattle.std.specs.Prelude.{◌≤◌};

use question::{Question, Record};
use statement::{ElementName, Statement};

// How many patterns so many names have.
pub(crate) fn patterns(elements: u8) -> usize {
    match elements {
        0 => 1,
        1 => 1,
        2 => 2,
        _ => 5,
    }
}

// The domain elements of three names.
fn placed(a: u8, b: u8, c: u8) -> [u8; 12] {
    [a, b, c, 0, 0, 0, 0, 0, 0, 0, 0, 0]
}

// A pattern as a domain element for each name: two names are equal exactly if theirs is the same. Two names have the first two.
pub(crate) fn pattern(p: usize) -> [u8; 12] {
    match p {
        0 => placed(0, 0, 0),
        1 => placed(0, 1, 0),
        2 => placed(0, 0, 1),
        3 => placed(0, 1, 1),
        _ => placed(0, 1, 2),
    }
}

// How many domain elements so many names stand for.
pub(crate) fn different(elements: u8, p: usize) -> u8
    ensures { result ≤ 3 }
{
    if elements == 0 {
        return 0;
    }
    match p {
        0 => 1,
        4 => 3,
        _ => 2,
    }
}

// The question with one more statement.
fn with(q: Question, s: Statement) -> Question {
    let mut more = q;
    let count = q.count;
    if count < 64 {
        more.table[count] = Record { statement: s };
        more.count = count + 1;
    }
    more
}

// The question with a pattern stated, pair by pair of declared names.
pub(crate) fn stated(q: Question, p: usize) -> Question {
    let at = pattern(p);
    let mut more = q;
    for (a, b) in [(0u8, 1u8), (0, 2), (1, 2)] {
        if b < q.elements {
            let s = if at[usize::from(a)] == at[usize::from(b)] {
                Statement::ElementsEqual(ElementName(a), ElementName(b))
            } else {
                Statement::ElementsDiffer(ElementName(a), ElementName(b))
            };
            more = with(more, s);
        }
    }
    more
}
