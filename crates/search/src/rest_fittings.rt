// The rest of the terms, once the asked ones are in groups: each alone where it has a mask alone, for then it is in nobody's way, else in one of the groups.
ghost use Rattle.std.specs.Prelude.{◌≡◌, true, false, ◌≤◌, ◌<◌};
ghost use Rattle.search.specs.Groups.{group_count};
ghost use Rattle.search.specs.Fittings.{NoPart, NothingFits};

use crate::finders::Finder;
use crate::groups::{Groups, term_alone};

impl Finder<'_> {
    // Has each of the groups a mask.
    fn each_has_mask(&mut self, groups: Groups) -> bool
        ensures nothing_fits { result ≡ false → NothingFits self.old self.old.terms groups.terms groups.count }
        ensures unchanged { self.new ≡ self.old }
    {
        for k in 0..groups.count {
            if !self.has_mask(groups.terms[k as usize]) {
                return false;
            }
        }
        true
    }

    // Has a term to go into a group: it is not in one already, as asked terms are, and has no mask alone.
    fn needs_a_group(&mut self, own: u32) -> bool
        requires { own < group_count }
        ensures no_part { result ≡ true → NoPart self.old self.old.terms own }
        ensures unchanged { self.new ≡ self.old }
    {
        self.asked & own == 0 && !self.has_mask(own)
    }

    // The terms from `term` on, but for the asked ones, which are in groups.
    fn rest_fits(&mut self, groups: Groups, term: usize) -> bool
        requires { term ≤ self.old.terms }
        ensures nothing_fits { result ≡ false → NothingFits self.old self.old.terms groups.terms groups.count }
        ensures unchanged { self.new ≡ self.old }
    {
        if term == self.terms {
            return true;
        }
        let own = term_alone(term);
        if !self.needs_a_group(own) {
            return self.rest_fits(groups, term + 1);
        }
        for k in 0..groups.count {
            let group = groups.terms[k as usize] | own;
            if self.has_mask(group) && self.rest_fits(groups.with_term(k, term), term + 1) {
                return true;
            }
        }
        false
    }

    // All asked terms are in groups: has each group a mask, and do the rest of the terms from `placed` on fit.
    pub(crate) fn settled_fits(&mut self, groups: Groups, placed: usize) -> bool
        requires { placed ≤ self.old.terms }
        ensures nothing_fits { result ≡ false → NothingFits self.old self.old.terms groups.terms groups.count }
        ensures unchanged { self.new ≡ self.old }
    {
        self.each_has_mask(groups) && self.rest_fits(groups, placed)
    }
}
