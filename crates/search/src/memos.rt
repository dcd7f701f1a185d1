// Has a group of terms a mask: asked of the memo first, and noted there.
ghost use Rattle.std.specs.Prelude.{◌≡◌, false, ◌≤◌, ◌<◌};
ghost use Rattle.question.specs.Limits.{max_sets};
ghost use Rattle.search.specs.Groups.{group_count};
ghost use Rattle.search.specs.Memos.{mask_of_group, is_there, Memo};
ghost use Rattle.search.specs.Fittings.{NoPart};

use crate::finders::Finder;
use mask::smallest_mask;

// The memo has a byte for each group.
fn noted_mask(entries: &[u64], memo: &mut [u8], group: u32, sets: u8) -> bool
    requires sets_le_max_sets { sets ≤ max_sets }
    requires memo { Memo entries.now sets memo.old }
    requires group_lt_group_count { group < group_count }
    ensures value { result ≡ is_there (mask_of_group entries.now sets group) }
    ensures memo_after { Memo entries.now sets memo.new }
{
    let at = group as usize;
    let note = memo[at];
    if note != 0 {
        return note == 2;
    }
    let found = smallest_mask(entries, group, sets).is_some();
    memo[at] = if found { 2 } else { 1 };
    found
}

impl Finder<'_> {
    // Has the group a mask. If not, it is a part of no class.
    pub(crate) fn has_mask(&mut self, group: u32) -> bool
        requires { group < group_count }
        ensures value { result ≡ is_there (mask_of_group self.old.entries self.old.sets group) }
        ensures no_part { result ≡ false → NoPart self.old self.old.terms group }
        ensures unchanged { self.new ≡ self.old }
    {
        noted_mask(self.entries, &mut self.memo, group, self.sets)
    }
}
