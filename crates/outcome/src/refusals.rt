// A refusal: its number in documents 01 and 02, and the place that the number speaks of.
ghost use Rattle.std.specs.Prelude.{◌≡◌};
ghost use Rattle.outcome.specs.Refusals.{refusal};

// The number is a byte and no enum: `new` promises a refusal of any number, and a call for C gives it as a byte.
#[derive(Clone, Copy, PartialEq, Eq)]
pub struct Refusal {
    pub number: u8,
    pub place: usize,
}

impl Refusal {
    pub const DATA_ENDS: u8 = 1;

    pub const TAG_UNKNOWN: u8 = 2;

    pub const TAG_OUT_OF_PLACE: u8 = 3;

    pub const WRONG_LENGTH: u8 = 4;

    pub const TOO_MANY_NAMES: u8 = 5;

    pub const NAME_NOT_DECLARED: u8 = 6;

    pub const TOO_MANY_STATEMENTS: u8 = 7;

    pub const TOO_MANY_TERMS: u8 = 8;

    pub const BYTES_AFTER_END: u8 = 9;

    pub const BUFFER_TOO_SHORT: u8 = 10;

    pub const BAD_MODEL: u8 = 11;

    pub const BAD_ROW: u8 = 12;

    pub const BAD_LINES: u8 = 13;

    pub const MODEL_FAILS: u8 = 14;

    pub fn new(number: u8, place: usize) -> Refusal
        ensures { result ≡ refusal number place }
    {
        Refusal {
            number: number,
            place: place,
        }
    }
}
