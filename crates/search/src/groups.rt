// Groups of terms, each a number whose bits are its terms, as `mask` takes it: one term's, and those that stand for classes.
ghost use Rattle.std.specs.Prelude.{◌≡◌, ℕ, ◌+◌, ◌^◌, ◌≤◌, ◌<◌, max, [], get_or, take, set};
ghost use Rattle.outcome.specs.Padded.{padded};
ghost use Rattle.question.specs.Limits.{max_terms};
ghost use Rattle.question.specs.Masks.{bit};
ghost use Rattle.theory.specs.Arrangements.{classes};
ghost use Rattle.search.specs.Groups.{AreGroups, with_term, GroupsOf};

use question::Question;

// Groups that stand for classes: the terms of each, and how many groups there are. A fixed array, for want of a heap.
#[derive(Clone, Copy)]
pub(crate) struct Groups {
    pub(crate) terms: [u32; Question::MAX_TERMS],
    pub(crate) count: u8,
    ghost few: { count ≤ max_terms },
    ghost are_groups: { AreGroups terms },
}

// Is the term in the group.
pub(crate) fn has_term(group: u32, term: usize) -> bool
    requires { term < 32 }
    ensures { result ≡ bit group term }
{
    (group >> (term as u32)) % 2 == 1
}

// The group of one term.
pub(crate) fn term_alone(term: usize) -> u32
    requires { term < 32 }
    ensures { result ≡ 2 ^ term }
{
    1 << (term as u32)
}

impl Groups {
    // Room for twelve, and none yet.
    pub(crate) fn none() -> Groups
        ensures terms { result.terms ≡ padded max_terms [] }
        ensures count { result.count ≡ 0 }
    {
        Groups {
            terms: [0; Question::MAX_TERMS],
            count: 0,
        }
    }

    // With a term in the group k, one of these or the next.
    pub(crate) fn with_term(mut self, k: u8, term: usize) -> Groups
        requires { (k < max_terms) × (term < max_terms) }
        ensures terms { result.terms ≡ with_term self.terms k term }
        ensures count { result.count ≡ max self.count (k + 1) }
    {
        self.terms[k as usize] |= term_alone(term);
        self.count = self.count.max(k + 1);
        self
    }

    // With a new one, of one term.
    pub(crate) fn with_group(mut self, term: usize) -> Groups
        requires { (self.count < max_terms) × (term < max_terms) }
        ensures terms { result.terms ≡ set self.terms self.count (2 ^ term) }
        ensures count { result.count ≡ self.count + 1 }
    {
        self.terms[self.count as usize] = term_alone(term);
        self.count += 1;
        self
    }
}

// The groups of the classes of a whole arrangement.
pub(crate) fn groups_of(arrangement: [u8; Question::MAX_TERMS], terms: usize) -> Groups
    requires { (terms ≤ max_terms) × ((t : ℕ) → t < terms → get_or arrangement t 0 < max_terms) }
    ensures groups_of { GroupsOf arrangement terms result.terms }
    ensures count { result.count ≡ classes (take terms arrangement) }
{
    let mut groups = Groups::none();
    for t in 0..terms {
        groups = groups.with_term(arrangement[t], t);
    }
    groups
}
