// Literals: the number of a variable, with a minus in front where it is denied.
ghost use Rattle.std.specs.Prelude.{◌≡◌, eqb, length};
ghost use Rattle.text.specs.Laid.{laid};
ghost use Rattle.text.specs.Literals.{minus, literal_text, denial, word_read};

use crate::bytes::put_byte;
use crate::decimals::{decimal_in, put_digits};

// The byte of a minus.
const MINUS: u8 = 0x2d;

#[derive(Clone, Copy)]
pub struct Literal {
    pub denied: bool,
    pub variable: usize,
}

// The text of a literal in a lent buffer from a place on, as far as there is room; how many bytes it has is given back.
pub fn put_literal(l: Literal, at: u32, buf: &mut [u8]) -> usize
    ensures { (result ≡ length (literal_text l)) × (buf.new ≡ laid at (literal_text l) buf.old) }
{
    let start = at as usize;
    if l.denied {
        put_byte(MINUS, start, buf);
        return 1 + put_digits(l.variable, start + 1, buf);
    }
    put_digits(l.variable, start, buf)
}

// The denial of the variable with a number; there is no -0.
fn denial(variable: usize) -> Option<Literal>
    ensures { result ≡ denial (Some variable) }
{
    if variable == 0 {
        return None;
    }
    Some(Literal {
        denied: true,
        variable,
    })
}

// Is a byte the one sign.
fn is_minus(byte: u8) -> bool
    ensures { result ≡ eqb byte minus }
{
    byte == MINUS
}

// What a word says, where variables go up to `most`.
pub fn literal_in(word: &[u8], most: u32) -> Option<Literal>
    ensures { result ≡ word_read most word.now }
{
    match word {
        [first, digits @ ..] if is_minus(*first) => denial(decimal_in(digits, most)?),
        _ => Some(Literal {
            denied: false,
            variable: decimal_in(word, most)?,
        }),
    }
}
