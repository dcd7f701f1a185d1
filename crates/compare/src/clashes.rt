// What clashes, by the second solver: the same walk over the statements of an impossible question, step by step and each with a
// decision of its own, and the meaning of a clashing part.
use crate::patterns::patterns;
use crate::trials::exists;
use question::Question;

// Can the statements hold with some pattern of equal names.
fn is_possible(q: Question) -> bool {
    (0..patterns(q.elements)).any(|p| exists(q, p))
}

// The question without statement k.
fn without(q: Question, k: usize) -> Question {
    let mut less = q;
    if k < q.count {
        less.count = q.count - 1;
        for i in k..63 {
            less.table[i] = q.table[i + 1];
        }
    }
    less
}

// Are the statements that the walk keeps at these indexes, so many of them.
fn are_kept(q: Question, indexes: &[u8; 64], total: usize) -> bool {
    let mut left = q;
    let mut kept: usize = 0;
    for i in 0..q.count.min(64) {
        let rest = without(left, kept);
        if is_possible(rest) {
            if usize::from(indexes[kept]) != i {
                return false;
            }
            kept += 1;
        } else {
            left = rest;
        }
    }
    kept == total
}

// Can't the statements hold, and can they without any one of them.
fn is_clash(part: Question) -> bool {
    !is_possible(part) && (0..part.count.min(64)).all(|k| is_possible(without(part, k)))
}

// Is this the clashing part of a question, over the same names; that of a possible question is without statements.
pub(crate) fn is_right(q: Question, possible: bool, part: Question, indexes: &[u8; 64]) -> bool {
    if part.elements != q.elements || part.sets != q.sets {
        return false;
    }
    if possible {
        return part.count == 0;
    }
    are_kept(q, indexes, part.count) && is_clash(part)
}
