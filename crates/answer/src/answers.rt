// The answer to a question: a verdict, the class number of each term, and the mask of each class.
// Class numbers past the terms and masks past the classes are ignored; of an impossible answer only the verdict is looked at.
// The arrays are fixed, for want of a heap.
ghost use Rattle.std.specs.Prelude.{◌≡◌};
ghost use Rattle.answer.specs.Answers.{filler, impossible_answer};

use body::MASK_BYTES;
use field::Frame;
use outcome::Verdict;
use question::Question;

#[derive(Clone, Copy)]
pub struct Answer {
    pub verdict: Verdict,
    pub arrangement: [u8; Question::MAX_TERMS],
    pub masks: [u32; Question::MAX_TERMS],
}

impl Answer {
    // The bytes of the longest answer: four heads, the verdict, a class number for each term and a mask for each class.
    pub const MAX_BYTES: usize = 4 * Frame::HEAD
        + 1
        + Question::MAX_TERMS
        + Question::MAX_TERMS * MASK_BYTES;

    // What a model that was found or read is filled into: it says possible, so that nobody is told "impossible" by it. (Beside a refusal no value stands.)
    pub fn filler() -> Answer
        ensures { result ≡ filler }
    {
        let numbers = [0u8; Question::MAX_TERMS];
        Answer {
            verdict: Verdict::Possible,
            arrangement: numbers,
            masks: [0; Question::MAX_TERMS],
        }
    }

    // The question is impossible; all else is 0.
    pub fn impossible() -> Answer
        ensures { result ≡ impossible_answer }
    {
        Answer {
            verdict: Verdict::Impossible,
            arrangement: [0; Question::MAX_TERMS],
            masks: [0; Question::MAX_TERMS],
        }
    }
}
