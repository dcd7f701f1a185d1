// What the search finds: the first model, as the answer shows it.
use question::Question;

// How many classes there are, the class number of each term, and the mask of each class. Entries past the counts are 0: the arrays are fixed, for want of a heap.
#[derive(Clone, Copy, PartialEq, Eq)]
pub struct Found {
    pub classes: usize,
    pub arrangement: [u8; Question::MAX_TERMS],
    pub masks: [u32; Question::MAX_TERMS],
}
