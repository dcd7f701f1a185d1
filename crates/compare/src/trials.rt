// A second solver: assignments are tried over domains of growing size, name by name. It knows nothing of rows, terms,
// witnesses and arrangements, and shares only the question's type with the library. It takes questions with at most
// three element names and four set names.
//
// How large a domain has to be: let an assignment make every statement hold. Keep the domain elements that have a name,
// and for each statement x ≠ y one element in which x and y differ; take the others out of the domain and out of every
// part. Every statement still holds, since each other kind says of the parts only what is the same at each element.
// So with k different named elements and w statements x ≠ y, sizes up to k + w are enough; one more is tried.
ghost use Rattle.std.specs.Prelude.{◌≤◌};

use crate::assignments::{Assignment, statements};
use crate::orders::order_of;
use crate::patterns::{different, pattern};
use question::Question;
use statement::Statement;

// Is there a part for each set name from `place` on, in the order given, so that every statement holds. The set names
// in `known` have theirs, and `whole` is the domain as a part.
fn sets_exist(
    q: &Question,
    order: [u8; 4],
    whole: u16,
    v: Assignment,
    known: u16,
    place: usize,
) -> bool {
    if !v.hold_so_far(q, known) {
        return false;
    }
    if 4 <= place {
        return true;
    }
    let x = order[place];
    let known = known | 1u16 << (x % 16);
    for p in 0..=whole {
        if sets_exist(
            q,
            order,
            whole,
            v.with_part(usize::from(x), p),
            known,
            place + 1,
        ) {
            return true;
        }
    }
    false
}

// How many statements x ≠ y there are.
fn differences(q: &Question) -> u8
    ensures { result ≤ 64 }
{
    statements(q)
        .iter()
        .filter(|r| matches!(r.statement, Statement::SetsDiffer(_, _)))
        .count() as u8
}

// Is there an assignment of a pattern in which every statement holds. Which domain elements the names stand for makes no
// difference, so one placing is tried.
pub(crate) fn exists(q: Question, p: usize) -> bool {
    let order = order_of(&q);
    let v = Assignment {
        elements: pattern(p),
        parts: [0; 16],
    };
    let least = different(q.elements, p);
    let most = least + differences(&q) + 1;
    for size in least..=most.min(15) {
        if sets_exist(&q, order, (1u16 << size) - 1, v, 0, 0) {
            return true;
        }
    }
    false
}
