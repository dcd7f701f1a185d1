// The next mask worth a trial, from the bits that decide that the last one is of no use and the reasons kept so far.
ghost use Rattle.std.specs.Prelude.{◌^◌, ◌<◌, ◌≤◌};
ghost use Rattle.mask.specs.Trials.{TrialIs};

use crate::bits::bit;

// The bit at which m is raised to the next mask worth a trial, if a mask is left.
// The bits of m that decide, lowest first: one that m has gives way to its reason, and the first that m lacks is set, for the reason of those above it.
pub(crate) fn next_mask(m: u32, why: &mut [u32; 32], decided: u32, sets: u8) -> Option<u8>
    requires { (sets ≤ 32) × (m < 2 ^ sets) }
    ensures { TrialIs sets m decided why.old why.new result }
{
    let mut c = decided;
    for q in 0..sets {
        if bit(c, q) {
            let at = q as usize;
            if !bit(m, q) {
                why[at] = c;
                return Some(q);
            }
            c |= why[at];
        }
    }
    None
}
