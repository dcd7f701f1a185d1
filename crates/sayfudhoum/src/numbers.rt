// The number that a call for C gives back: the lowest byte is the refusal number, or 0; the rest is the place, the count of bytes, the three counts of a clash, the verdict, or the index of a statement.
// A place in a solver's lines, which may be of any length, is told by its lowest 56 bits: no memory is longer.
ghost use Rattle.std.specs.Prelude.{◌≡◌, ◌≤◌};
ghost use Rattle.outcome.specs.Verdicts.{verdict_byte};
ghost use Rattle.sayfudhoum.specs.Numbers.{max_place, IsSmall, IsShort, IsFew, IsBrief, IsIndexed, refusal_number, written_number, decision_number, clashed_number, placed_number, as_number, judgement_number};

use answer::Answer;
use clash::ClashCounts;
use judge::ALL_HOLD;
use outcome::{Refusal, Verdict};

fn refusal_number(refusal: Refusal) -> u64
    requires { refusal.place ≤ max_place }
    ensures { result ≡ refusal_number refusal }
{
    refusal.place as u64 * 256 + refusal.number as u64
}

pub(crate) fn decision_number(decision: Result<Answer, Refusal>) -> u64
    requires { IsSmall decision }
    ensures { result ≡ decision_number decision }
{
    match decision {
        Ok(answer) => u8::from(answer.verdict) as u64 * 256,
        Err(refusal) => refusal_number(refusal),
    }
}

pub(crate) fn written_number(written: Result<usize, Refusal>) -> u64
    requires { IsShort written }
    ensures { result ≡ written_number written }
{
    match written {
        Ok(count) => count as u64 * 256,
        Err(refusal) => refusal_number(refusal),
    }
}

// Where the number of indexes begins in the rest of a clash's number, and where the count of the answer's bytes does.
const INDEXES: u64 = 1 << 16;

const ANSWER: u64 = 1 << 24;

pub(crate) fn clash_number(written: Result<ClashCounts, Refusal>) -> u64
    requires { IsFew written }
    ensures { result ≡ clashed_number written }
{
    match written {
        Ok(
            ClashCounts {
                part,
                indexes,
                answer,
            },
        ) => (part as u64 + indexes as u64 * INDEXES + answer as u64 * ANSWER) * 256,
        Err(refusal) => refusal_number(refusal),
    }
}

// The bits of the rest of a number.
const REST: u64 = 1 << 56;

// A refusal at any place.
fn placed_number(refusal: Refusal) -> u64
    ensures { result ≡ placed_number refusal }
{
    refusal.place as u64 % REST * 256 + refusal.number as u64
}

pub(crate) fn solved_number(solved: Result<Option<usize>, Refusal>) -> u64
    requires { IsBrief solved }
    ensures { result ≡ as_number solved }
{
    match solved {
        Ok(Some(count)) => count as u64 * 256,
        Ok(None) => 0,
        Err(refusal) => placed_number(refusal),
    }
}

pub(crate) fn judgement_number(judgement: Result<Option<usize>, Refusal>) -> u64
    requires { IsIndexed judgement }
    ensures { result ≡ judgement_number judgement }
{
    match judgement {
        Ok(None) => ALL_HOLD as u64 * 256,
        Ok(Some(index)) => index as u64 * 256,
        Err(refusal) => refusal_number(refusal),
    }
}
