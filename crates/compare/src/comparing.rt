// One question put to both solvers, and what is counted.
use crate::models::{is_right, model_of};
use crate::patterns::{patterns, stated};
use crate::trials::exists;
use crate::{clashes, judged, printing, said};
use answer::Answer;
use clash::clash;
use decision::decide;
use judge::Model;
use outcome::{Refusal, Verdict};
use question::Question;

#[derive(Clone, Copy, Default)]
pub struct Tally {
    pub questions: u64,
    pub possible: u64,
    pub impossible: u64,
    // Questions with a pattern, put to both.
    pub patterns: u64,
    // Models of the library, judged.
    pub models: u64,
    // Of these, read back from a solver's lines.
    pub read: u64,
    // And judged as bytes. With a bit of a mask turned all statements still hold, or one fails, or the bit is for no set.
    pub judged: u64,
    pub holding: u64,
    pub failing: u64,
    pub bad: u64,
    // Statements in the clashing parts.
    pub clashing: u64,
    pub differences: u64,
}

fn one_more(n: &mut u64) {
    *n = n.wrapping_add(1);
}

fn is_possible(answer: Answer) -> bool {
    matches!(answer.verdict, Verdict::Possible)
}

impl Tally {
    // A difference is counted, and the first one is printed.
    pub(crate) fn differ(&mut self, q: Question) {
        if self.differences == 0 {
            printing::difference(q);
        }
        one_more(&mut self.differences);
    }

    // One more question, possible or not.
    pub(crate) fn count(&mut self, possible: bool) {
        one_more(&mut self.questions);
        if possible {
            one_more(&mut self.possible);
        } else {
            one_more(&mut self.impossible);
        }
    }

    // One more model in which a bit was turned, by the number that it got.
    fn count_turned(&mut self, number: u64) {
        match number {
            judged::BAD_MODEL => one_more(&mut self.bad),
            judged::ALL_HOLD => one_more(&mut self.holding),
            _ => one_more(&mut self.failing),
        }
    }

    // A model with a bit turned that a number chooses, judged as bytes; an empty domain has none.
    fn hold_turned(&mut self, q: Question, m: Model, r: u64) {
        if m.size == 0 {
            return;
        }
        let bit = judged::chosen(q, m, r);
        let turned = judged::turned(m, bit);
        let due = judged::due(q, turned, bit);
        if judged::gets(q, turned, due) {
            self.count_turned(due);
        } else {
            self.differ(q);
        }
    }

    // A model in which all statements hold, judged as bytes.
    fn hold_bytes(&mut self, q: Question, m: Model, r: u64) {
        if judged::gets(q, m, judged::ALL_HOLD) {
            one_more(&mut self.judged);
            self.hold_turned(q, m, r);
        } else {
            self.differ(q);
        }
    }

    // A model of the library, tested: by both tests, by what is read from a solver's lines that say it, and as bytes.
    fn hold_model(&mut self, q: Question, answer: Answer, possible: bool) {
        let r = self.models;
        one_more(&mut self.models);
        if said::is_right(q, answer, r) {
            one_more(&mut self.read);
            if possible && is_right(q, answer) {
                self.hold_bytes(q, model_of(q, answer), r);
                return;
            }
        }
        self.differ(q);
    }

    // The library's decision, held to whether the question is possible; where it shows a model, that is tested.
    pub(crate) fn hold(&mut self, q: Question, possible: bool) {
        match decide(q) {
            Err(_) => self.differ(q),
            Ok(answer) => {
                if is_possible(answer) {
                    self.hold_model(q, answer, possible);
                } else if possible {
                    self.differ(q);
                }
            }
        }
    }

    // The library's clashing part, held to the second solver.
    fn hold_clash(&mut self, q: Question, possible: bool) {
        let Ok(found) = clash(q) else {
            self.differ(q);
            return;
        };
        self.clashing = self.clashing.wrapping_add(found.part.count as u64);
        if !clashes::is_right(q, possible, found.part, &found.indexes) {
            self.differ(q);
        }
    }

    // Both solvers on the question with each pattern of its element names stated; if there are several, the question itself
    // is possible exactly if it is with one of them. Last, what clashes.
    pub(crate) fn compare(&mut self, q: Question) {
        let all = patterns(q.elements);
        let mut possible = false;
        for p in 0..all {
            let found = exists(q, p);
            self.hold(stated(q, p), found);
            one_more(&mut self.patterns);
            possible |= found;
        }
        if all != 1 {
            self.hold(q, possible);
        }
        self.hold_clash(q, possible);
        self.count(possible);
    }
}
