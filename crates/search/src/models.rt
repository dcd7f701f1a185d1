// The model of an arrangement: all terms are placed, and each class takes its smallest mask.
ghost use Rattle.std.specs.Prelude.{◌≡◌, ◌^◌, ◌≤◌, T, take};
ghost use Rattle.question.specs.Limits.{max_sets};
ghost use Rattle.theory.specs.Solutions.{all_rows};
ghost use Rattle.theory.specs.FirstModels.{model_of};
ghost use Rattle.theory.specs.Sets.{fits, row_declared};
ghost use Rattle.mask.specs.Entries.{rows_of_entries};
ghost use Rattle.search.specs.Answers.{shown};

use crate::answers::Found;
use crate::placings::Placed;
use mask::smallest_mask;
use question::Question;

// The arrangement with those masks, or none where a class has none.
pub(crate) fn model(entries: &[u64], placed: Placed, sets: u8) -> Option<Found>
    requires sets_le_max_sets { sets ≤ max_sets }
    requires declared { T (all_rows (row_declared placed.terms sets) (rows_of_entries entries.now)) }
    ensures { result ≡ shown (model_of fits (2 ^ sets) (rows_of_entries entries.now) (take placed.terms placed.arrangement)) }
{
    let classes = placed.groups.count as usize;
    let mut masks: [u32; Question::MAX_TERMS] = [0; Question::MAX_TERMS];
    for k in 0..classes {
        let m = smallest_mask(entries, placed.groups.terms[k], sets)?;
        masks[k] = m;
    }
    let arrangement = placed.arrangement;
    let found = Found {
        classes,
        arrangement,
        masks,
    };
    Some(found)
}
