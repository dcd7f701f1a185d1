// Plain text in bytes: numbers in decimal, literals, and the pieces between separators, of which lines and words are made.
// Each is written and read by itself; the laws say that what is written reads back.
#![tactic(auto)]

mod bytes;
mod decimals;
mod literals;
mod pieces;

pub use bytes::put_byte;
pub use decimals::put_decimal;
pub use literals::{Literal, literal_in, put_literal};
pub use pieces::piece_length;
