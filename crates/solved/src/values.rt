// The values that a reading says of the variables of so many terms and sets. What they say is in models.rt, whose contracts name definitions over this struct.
ghost use Rattle.std.specs.Prelude.{◌≤◌};
ghost use Rattle.question.specs.Limits.{max_sets, max_terms};

use lines::Reading;

#[derive(Clone, Copy)]
pub(crate) struct SaidValues<'a> {
    pub(crate) reading: &'a Reading,
    pub(crate) terms: u8,
    pub(crate) sets: u8,

    // The terms and the sets fit their arrays.
    ghost few_terms: { terms ≤ max_terms },
    ghost few_sets: { sets ≤ max_sets },
}
