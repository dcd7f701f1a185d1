// What finds the first model: what stays the same in a search, and what is noted of groups of terms on the way.
use question::Question;
use std::marker::Model;

// How many groups of terms there are: the memo has a byte for each.
pub(crate) const GROUPS: usize = 1 << Question::MAX_TERMS;

#[derive(Drop)]
pub(crate) struct Finder<'a> {
    pub(crate) entries: &'a [u64],
    pub(crate) terms: usize,
    pub(crate) sets: u8,
    // The group of the asked terms.
    pub(crate) asked: u32,
    // Of each group whether it has a mask: 0 where that isn't known, 1 no, 2 yes.
    pub(crate) memo: [u8; GROUPS],
}

// Contracts see the task alone, which no step changes. What the memo notes of it is right.
impl<'a> Model for Finder<'a> {
    ghost use Rattle.search.specs.Tasks.{Task, IsSound};

    ghost Value = { Task };

    ghost view = { λ f. record { entries = f.entries.now; terms = f.terms; sets = f.sets; asked = f.asked } };

    ghost invariant = { λ f. IsSound (record { entries = f.entries.now; terms = f.terms; sets = f.sets; asked = f.asked }) f.memo };
}
