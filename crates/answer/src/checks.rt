// The test of an answer: class numbers by the rule, and no mask with a bit at or above the number of sets.
ghost use Rattle.std.specs.Prelude.{◌≡◌, ◌^◌, ◌≤◌, take};
ghost use Rattle.question.specs.Limits.{max_sets, max_terms};
ghost use Rattle.question.specs.Questions.{terms_of};
ghost use Rattle.question.specs.Checks.{IsAccepted};
ghost use Rattle.theory.specs.Answers.{mask_bound};
ghost use Rattle.answer.specs.Answers.{said};
ghost use Rattle.answer.specs.Checks.{class_count, all_below, answer_check};

use crate::answers::Answer;
use outcome::Verdict;
use question::{Question, terms};

// What an accepted question asks of an answer: class numbers for so many terms, and masks below the bound.
#[derive(Clone, Copy)]
pub(crate) struct Asked {
    pub terms: usize,
    pub bound: u64,
    ghost few_terms: { terms ≤ max_terms },
}

impl Asked {
    // The question has to be accepted: then it has few terms, and few sets.
    pub(crate) fn by(q: Question) -> Asked
        requires { IsAccepted q }
        ensures terms { result.terms ≡ terms_of q }
        ensures bound { result.bound ≡ mask_bound q }
    {
        Asked {
            terms: terms(q),
            bound: mask_bound(q.sets),
        }
    }
}

// Masks are below 2 to the number of sets.
fn mask_bound(sets: u8) -> u64
    requires { sets ≤ max_sets }
    ensures { result ≡ 2 ^ sets }
{
    1 << sets
}

// The classes of the first class numbers: each is at most one more than the largest before it; none, if one is against that rule.
pub(crate) fn count_classes(numbers: [u8; Question::MAX_TERMS], terms: usize) -> Option<usize>
    requires { terms ≤ max_terms }
    ensures { result ≡ class_count (take terms numbers) }
{
    let mut used = 0;
    for number in &numbers[..terms] {
        let class = usize::from(*number);
        if used < class {
            return None;
        }
        used = used.max(class + 1);
    }
    Some(used)
}

// Are the masks of the first classes below the bound.
pub(crate) fn all_below(masks: [u32; Question::MAX_TERMS], classes: usize, bound: u64) -> bool
    requires { classes ≤ max_terms }
    ensures { result ≡ all_below bound (take classes masks) }
{
    masks[..classes].iter().all(|m| u64::from(*m) < bound)
}

// How many classes an answer has, if it may be written: of an impossible one only the verdict is looked at.
pub(crate) fn check_answer(asked: Asked, a: Answer) -> Option<usize>
    ensures { result ≡ answer_check asked.bound (said asked.terms a) }
{
    match a.verdict {
        Verdict::Impossible => Some(0),
        Verdict::Possible => {
            let classes = count_classes(a.arrangement, asked.terms)?;
            all_below(a.masks, classes, asked.bound).then_some(classes)
        }
    }
}
