// Terms still to be placed, put into groups that stand for classes or into new ones, as far as groups of terms have masks: first the asked ones, each in every group and in a new one.
ghost use Rattle.std.specs.Prelude.{◌≡◌, false, ◌≤◌, ◌<◌};
ghost use Rattle.search.specs.Groups.{group_count};
ghost use Rattle.search.specs.Fittings.{NoPart, NothingFits};

use crate::finders::Finder;
use crate::groups::{Groups, has_term, term_alone};

impl Finder<'_> {
    // Has the group a mask, as it is or with some of the asked terms from `term` on.
    fn part_fits(&mut self, group: u32, term: usize) -> bool
        requires group_lt_group_count { group < group_count }
        requires term_le_terms { term ≤ self.old.terms }
        ensures no_part { result ≡ false → NoPart self.old term group }
        ensures unchanged { self.new ≡ self.old }
    {
        if term == self.terms {
            return self.has_mask(group);
        }
        if self.part_fits(group, term + 1) {
            return true;
        }
        has_term(self.asked, term) && self.part_fits(group | term_alone(term), term + 1)
    }

    // The asked terms from `term` on go into groups, and then the rest of those from `placed` on.
    pub(crate) fn all_fit(&mut self, groups: Groups, placed: usize, term: usize) -> bool
        requires { (groups.count ≤ term) × (term ≤ self.old.terms) × (placed ≤ self.old.terms) }
        ensures nothing_fits { result ≡ false → NothingFits self.old term groups.terms groups.count }
        ensures unchanged { self.new ≡ self.old }
    {
        if term == self.terms {
            return self.settled_fits(groups, placed);
        }
        if !has_term(self.asked, term) {
            return self.all_fit(groups, placed, term + 1);
        }
        let own = term_alone(term);
        for k in 0..groups.count {
            let group = groups.terms[k as usize] | own;
            if self.part_fits(group, term + 1)
                && self.all_fit(groups.with_term(k, term), placed, term + 1)
            {
                return true;
            }
        }
        self.part_fits(own, term + 1) && self.all_fit(groups.with_group(term), placed, term + 1)
    }
}
