// A case as it stands on its line: a letter, then bytes in hexadecimal, in up to three groups with / between.
// A solver's lines are the second group as text, with | for the end of each.
ghost use Rattle.std.specs.Prelude.{◌≡◌, ◌<◌, ◌≤◌, length, IfSome};

// What the line has behind a group, and where the bytes of the group end.
#[derive(Clone, Copy)]
pub(crate) struct Decoded<'a> {
    pub rest: &'a [u8],
    pub total: usize,
}

// The value of a digit. A small letter is none, so this isn't `to_digit`.
fn digit(b: u8) -> Option<u8>
    ensures { IfSome result (λ d. d < 16) }
{
    match b {
        b'0'..=b'9' => Some(b - b'0'),
        b'A'..=b'F' => Some(b - b'A' + 10),
        _ => None,
    }
}

// The byte that two digits say, or 0 where they aren't two.
fn byte(high: u8, low: u8) -> u8 {
    match (digit(high), digit(low)) {
        (Some(h), Some(l)) => h * 16 + l,
        _ => 0,
    }
}

// The bytes of the group that the line begins with, into a lent buffer from `at` on; what doesn't fit is left out.
pub(crate) fn decode<'a>(line: &'a [u8], at: usize, bytes: &mut [u8]) -> Decoded<'a>
    requires { at ≤ length bytes.old }
    ensures { (at ≤ result.total) × (result.total ≤ length bytes.old) × (length bytes.new ≡ length bytes.old) }
{
    let mut total = at;
    let mut left = line;
    loop {
        match left {
            [b'/', rest @ ..] => return Decoded { rest, total },
            [b' ', rest @ ..] => left = rest,
            [high, low, rest @ ..] if total < bytes.len() => {
                bytes[total] = byte(*high, *low);
                total += 1;
                left = rest;
            }
            _ => return Decoded { rest: &[], total },
        }
    }
}

// The byte that a byte of text stands for.
fn meant(b: u8) -> u8 {
    if b == b'|' { b'\n' } else { b }
}

// The bytes of a group of text, as `decode` has those of one in hexadecimal.
fn spell<'a>(line: &'a [u8], at: usize, bytes: &mut [u8]) -> Decoded<'a>
    requires { at ≤ length bytes.old }
    ensures { (at ≤ result.total) × (result.total ≤ length bytes.old) × (length bytes.new ≡ length bytes.old) }
{
    let mut total = at;
    let mut left = line;
    loop {
        match left {
            [b'/', rest @ ..] => return Decoded { rest, total },
            [b, rest @ ..] if total < bytes.len() => {
                bytes[total] = meant(*b);
                total += 1;
                left = rest;
            }
            _ => return Decoded { rest: &[], total },
        }
    }
}

// The second group of a case: text beside the letters that have a solver's lines there.
pub(crate) fn second_group<'a>(
    letter: u8,
    line: &'a [u8],
    at: usize,
    bytes: &mut [u8],
) -> Decoded<'a>
    requires { at ≤ length bytes.old }
    ensures { (at ≤ result.total) × (result.total ≤ length bytes.old) × (length bytes.new ≡ length bytes.old) }
{
    match letter {
        b'L' | b'V' => spell(line, at, bytes),
        _ => decode(line, at, bytes),
    }
}
