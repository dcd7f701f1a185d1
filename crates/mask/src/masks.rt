// The smallest mask of a class of terms: a loop over the masks worth a trial, each put to the entries that it may fail.
ghost use Rattle.std.specs.Prelude.{◌≡◌, ◌^◌, min};
ghost use Rattle.mask.specs.Least.{least_mask};
ghost use Rattle.mask.specs.Entries.{rows_of_entries};
ghost use Rattle.mask.specs.Masks.{smallest_of};

use crate::bits::raise;
use crate::blames::blame;
use crate::entries::test_in;
use crate::meetings::meets;
use crate::notes::EntryNotes;
use crate::trials::next_mask;

// The smallest mask of the class (a set of terms) that meets every row of the entries; a mask has at most 32 bits.
// Masks are tried upward. The first entry that a mask fails says which bits are to blame, and masks that would fail for the same reason are left out. The next mask is put to the entries from the first on that asks a bit which has changed; for that, entries are noted once a mask has failed.
pub fn smallest_mask(entries: &[u64], class: u32, sets: u8) -> Option<u32>
    ensures { result ≡ smallest_of (least_mask (2 ^ min sets 32) (rows_of_entries entries.now) class) }
{
    let bits = sets.min(32);
    let mut m: u32 = 0;
    let mut why = [0u32; 32];
    let mut notes = EntryNotes::NONE;
    let mut i: usize = 0;
    // The smallest that fits is the one taken, and the trial is left: the walk over the entries goes on from where the last one stopped.
    'masks: loop {
        let decided = 'entries: loop {
            if i >= entries.len() {
                break 'masks Some(m);
            }
            let entry = entries[i];
            if !meets(entry, class, m) {
                break 'entries blame(test_in(entry), m);
            }
            i += 1;
        };
        let q = next_mask(m, &mut why, decided, bits)?;
        m = raise(m, q);
        notes.note_up_to(entries, class, bits, i);
        i = notes.back_to(q, i);
    }
}
