// Notes of the entries that a walk has passed: for each bit of a mask the first that asks this bit or one below. So the walk of the next mask need not start at the first entry.
ghost use Rattle.std.specs.Prelude.{◌≡◌, ◌^◌, ◌≤◌, ◌<◌, length, get_or};
ghost use Rattle.mask.specs.Notes.{note_bound, Notes, Noted, NotesBefore};

use crate::entries::test_in;
use crate::lowest::lowest_set;
use crate::meetings::is_asked;

#[derive(Drop)]
pub(crate) struct EntryNotes {
    // For each bit the index of that entry, or a larger number where there is none.
    first: [u16; 32],
    // How many entries are noted.
    count: usize,
}

impl EntryNotes {
    // No entry is noted.
    pub(crate) const NONE: EntryNotes = EntryNotes {
        first: [u16::MAX; 32],
        count: 0,
    };

    // The entry i asks bits from `low` on: it is noted for each of them for which no earlier one is. An index that does not fit a note comes after all that is noted.
    fn note(&mut self, low: u8, i: usize, bits: u8)
        requires { (bits ≤ 32) × Notes bits self.old.first }
        ensures first { Noted bits low i self.old.first self.new.first }
        ensures count { self.new.count ≡ self.old.count }
    {
        for q in low..bits {
            let at = q as usize;
            if self.first[at] as usize <= i {
                return;
            }
            self.first[at] = i as u16;
        }
    }

    // The entries before `to` are noted, if they are not yet.
    pub(crate) fn note_up_to(&mut self, entries: &[u64], class: u32, bits: u8, to: usize)
        requires { (bits ≤ 32) × (to ≤ length entries.now) × NotesBefore bits class entries.now self.old.first self.old.count }
        ensures { (to ≤ self.new.count) × NotesBefore bits class entries.now self.new.first self.new.count }
    {
        for i in self.count..to {
            if is_asked(entries[i], class) {
                self.note(lowest_set(test_in(entries[i])), i, bits);
            }
        }
        self.count = self.count.max(to);
    }

    // Where the walk goes on after bit q was raised and those below it cleared: at the entry i, or before it at the first that asks one of these bits.
    pub(crate) fn back_to(&self, q: u8, i: usize) -> usize
        requires { (q < 32) × (get_or self.now.first q 0 < note_bound) }
        ensures { (result ≤ i) × (result ≤ get_or self.now.first q 0) }
    {
        i.min(self.first[q as usize] as usize)
    }
}
