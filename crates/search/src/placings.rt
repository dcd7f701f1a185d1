// The arrangement is built one term at a time: a recursion over the terms still to be placed, each call trying the class numbers allowed.
ghost use Rattle.std.specs.Prelude.{◌≡◌, ◌+◌, ◌≤◌, ◌<◌, [], set, take};
ghost use Rattle.outcome.specs.Padded.{padded};
ghost use Rattle.question.specs.Limits.{max_terms};
ghost use Rattle.theory.specs.Arrangements.{classes};
ghost use Rattle.search.specs.Answers.{shown};
ghost use Rattle.search.specs.Groups.{GroupsOf};
ghost use Rattle.search.specs.Placings.{Placing, found};

use crate::answers::Found;
use crate::finders::Finder;
use crate::groups::{Groups, groups_of};
use crate::models::model;
use question::Question;

// The beginning of an arrangement: the class numbers of the first terms, 0 past them, and the groups of the terms of each class.
#[derive(Clone, Copy)]
pub(crate) struct Placed {
    pub(crate) arrangement: [u8; Question::MAX_TERMS],
    pub(crate) terms: usize,
    pub(crate) groups: Groups,
    ghost placing: { Placing arrangement terms groups.count },
    ghost groups_of: { GroupsOf arrangement terms groups.terms },
}

impl Placed {
    // No term is placed.
    pub(crate) fn none() -> Placed
        ensures arrangement { result.arrangement ≡ padded max_terms [] }
        ensures terms { result.terms ≡ 0 }
    {
        Placed {
            arrangement: [0; Question::MAX_TERMS],
            terms: 0,
            groups: Groups::none(),
        }
    }

    // So many terms are placed, each in its class.
    pub(crate) fn all(arrangement: [u8; Question::MAX_TERMS], terms: usize) -> Placed
        requires { Placing arrangement terms (classes (take terms arrangement)) }
        ensures arrangement { result.arrangement ≡ arrangement }
        ensures terms { result.terms ≡ terms }
    {
        Placed {
            arrangement,
            terms,
            groups: groups_of(arrangement, terms),
        }
    }

    // The next term is placed too, in the class c or a new one.
    fn with(self, c: u8) -> Placed
        requires { (self.terms < max_terms) × (c ≤ self.groups.count) }
        ensures arrangement { result.arrangement ≡ set self.arrangement self.terms c }
        ensures terms { result.terms ≡ self.terms + 1 }
    {
        let mut arrangement = self.arrangement;
        arrangement[self.terms] = c;
        Placed {
            arrangement,
            terms: self.terms + 1,
            groups: self.groups.with_term(c, self.terms),
        }
    }
}

impl Finder<'_> {
    // The first model of an arrangement that begins so.
    pub(crate) fn place(&mut self, placed: Placed) -> Option<Found>
        requires { placed.terms ≤ self.old.terms }
        ensures value { result ≡ shown (found self.old placed.arrangement placed.terms) }
        ensures unchanged { self.new ≡ self.old }
    {
        if !self.all_fit(placed.groups, placed.terms, placed.terms) {
            return None;
        }
        if placed.terms == self.terms {
            return model(self.entries, placed, self.sets);
        }
        for c in 0..=placed.groups.count {
            let found = self.place(placed.with(c));
            if found.is_some() {
                return found;
            }
        }
        None
    }
}
