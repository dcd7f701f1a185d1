// Numbers in decimal: the digits written into a lent buffer from a place on, and read from some bytes.
ghost use Rattle.std.specs.Prelude.{◌≡◌, ◌^◌, ◌≤◌, length};
ghost use Rattle.text.specs.Laid.{laid};
ghost use Rattle.text.specs.Decimals.{decimal, digits_from, up_to, number_up_to};

use crate::bytes::put_byte;

// The byte of the digit 0.
const ZERO: u8 = 0x30;

// The digits of a number, from a place on.
pub(crate) fn put_digits(n: usize, at: usize, buf: &mut [u8]) -> usize
    requires { at ≤ 2 ^ 32 }
    ensures { (result ≡ length (decimal n)) × (buf.new ≡ laid at (decimal n) buf.old) }
{
    if n < 10 {
        put_byte(ZERO + n as u8, at, buf);
        return 1;
    }
    let tens = put_digits(n / 10, at, buf);
    put_byte(ZERO + (n % 10) as u8, at + tens, buf);
    tens + 1
}

// The digits of a number in a lent buffer from a place on, as far as there is room; how many digits it has is given back.
pub fn put_decimal(n: usize, at: u32, buf: &mut [u8]) -> usize
    ensures { (result ≡ length (decimal n)) × (buf.new ≡ laid at (decimal n) buf.old) }
{
    put_digits(n, at as usize, buf)
}

// The number that some digits say, zeros in front or not, if it is at most `most`. The walk leaves as soon as the number
// is above: the digits that follow only make it larger, and a byte that is no digit refuses too.
fn digits_in(bytes: &[u8], most: u32) -> Option<usize>
    ensures { result ≡ up_to most (digits_from 0 bytes.now) }
{
    let greatest = most as usize;
    let mut n: usize = 0;
    for &b in bytes {
        if !b.is_ascii_digit() {
            return None;
        }
        n = n * 10 + usize::from(b - ZERO);
        if greatest < n {
            return None;
        }
    }
    Some(n)
}

// The number that some bytes say in decimal, if it is at most `most`; 0 stands in front of no other digit.
pub(crate) fn decimal_in(bytes: &[u8], most: u32) -> Option<usize>
    ensures { result ≡ number_up_to most bytes.now }
{
    match bytes {
        [] => None,
        [ZERO, _, ..] => None,
        _ => digits_in(bytes, most),
    }
}
