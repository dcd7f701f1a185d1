// The verdict on a question, and its number in an answer's file and for C.
ghost use Rattle.std.specs.Prelude.{◌≡◌};
ghost use Rattle.outcome.specs.Verdicts.{verdict_byte};

#[derive(Clone, Copy, PartialEq, Eq)]
pub enum Verdict {
    Possible,
    Impossible,
}

impl From<Verdict> for u8 {
    ghost from_gives = { λ verdict byte. byte ≡ verdict_byte verdict };

    fn from(verdict: Verdict) -> u8 {
        match verdict {
            Verdict::Possible => 1,
            Verdict::Impossible => 0,
        }
    }
}
