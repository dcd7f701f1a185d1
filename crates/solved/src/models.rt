// The model that values say: each term joins the class of the lowest earlier term whose pair variable is true, else it starts a class, whose mask is its own.
ghost use Rattle.std.specs.Prelude.{◌≡◌, suc, ◌≤◌, ◌<◌};
ghost use Rattle.question.specs.Limits.{max_terms};
ghost use Rattle.clauses.specs.Models.{mask_said, joined_to, placed_up_to, model_said};
ghost use Rattle.solved.specs.Said.{class_by, said_truth, said_as, shown_as, answer_as};

use crate::values::SaidValues;
use answer::Answer;
use clauses::{in_variable, pair_variable};
use judge::Model;
use outcome::Verdict;
use question::Question;

// How many classes there are, the class number of each term, and the mask of each class. Entries past the counts are 0.
#[derive(Clone, Copy)]
pub struct SaidModel {
    pub classes: u8,
    pub arrangement: [u8; Question::MAX_TERMS],
    pub masks: [u32; Question::MAX_TERMS],
}

impl SaidValues<'_> {
    // Is the variable v said to be true; what lies past the table is not.
    fn is_true(&self, v: usize) -> bool
        ensures { result ≡ said_truth self.now v }
    {
        self.reading.value(v) == Some(true)
    }

    // The mask of the term c: a bit for each set that it is said to be in.
    fn mask(&self, c: u8) -> u32
        ensures { result ≡ mask_said self.now.terms self.now.sets (said_truth self.now) c }
    {
        let mut mask = 0;
        for x in 0..self.sets {
            if self.is_true(in_variable(self.terms, self.sets, c, x)) {
                mask |= 1 << x;
            }
        }
        mask
    }

    // The model of all terms.
    pub(crate) fn model(&self) -> SaidModel
        ensures { result ≡ said_as (model_said self.now.terms self.now.sets (said_truth self.now)) }
    {
        let mut m = SaidModel {
            classes: 0,
            arrangement: [0; Question::MAX_TERMS],
            masks: [0; Question::MAX_TERMS],
        };
        for d in 0..self.terms {
            m.place(self, d);
        }
        m
    }
}

impl SaidModel {
    // The class of the next term d: that of the lowest earlier one whose pair variable is true, or a new one.
    fn class(&self, said: &SaidValues, d: u8) -> u8
        requires { d ≤ max_terms }
        ensures { result ≡ class_by self.now.arrangement self.now.classes (joined_to said.now.terms 0 (said_truth said.now) d) }
    {
        match (0..d).find(|c| said.is_true(pair_variable(said.terms, *c, d))) {
            Some(c) => self.arrangement[c as usize],
            None => self.classes,
        }
    }

    // One term more.
    fn place(&mut self, said: &SaidValues, d: u8)
        requires { (d < max_terms) × (self.old ≡ said_as (placed_up_to said.now.terms said.now.sets (said_truth said.now) d)) }
        ensures { self.new ≡ said_as (placed_up_to said.now.terms said.now.sets (said_truth said.now) (suc d)) }
    {
        let used = self.classes;
        let class = self.class(said, d);
        self.arrangement[d as usize] = class;
        if class == used {
            self.masks[used as usize] = said.mask(d);
            self.classes += 1;
        }
    }
}

// As a model for the judge: the element of a term is its class, and the element names come before the witnesses.
impl From<SaidModel> for Model {
    ghost from_gives = { λ m r. r ≡ shown_as m };

    fn from(m: SaidModel) -> Model {
        let SaidModel {
            classes,
            arrangement: elements,
            masks,
        } = m;
        Model {
            size: classes as usize,
            elements,
            masks,
        }
    }
}

// As an answer, which always says possible.
impl From<SaidModel> for Answer {
    ghost from_gives = { λ m r. r ≡ answer_as m };

    fn from(m: SaidModel) -> Answer {
        let SaidModel {
            arrangement,
            masks,
            ..
        } = m;
        Answer {
            verdict: Verdict::Possible,
            arrangement,
            masks,
        }
    }
}
