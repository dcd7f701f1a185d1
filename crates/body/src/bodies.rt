// The numbers of a body and its masks, each as an array for twelve terms: what lies past the array is ignored, and what is missing is 0.
ghost use Rattle.std.specs.Prelude.{◌≡◌, ◌+◌, ◌≤◌, length, take, drop};
ghost use Rattle.number.specs.Numbers.{number_in};
ghost use Rattle.body.specs.Bodies.{mask_bytes, numbers_of, masks_of};

use number::number_in;
use question::Question;

pub const MASK_BYTES: usize = 2;

// The numbers of a body, one byte each.
pub fn numbers_in(body: &[u8]) -> [u8; Question::MAX_TERMS]
    ensures { result ≡ numbers_of body.now }
{
    let count = body.len().min(Question::MAX_TERMS);
    let mut numbers = [0u8; Question::MAX_TERMS];
    numbers[..count].copy_from_slice(&body[..count]);
    numbers
}

// The mask at a place.
fn mask_at(body: &[u8], at: usize) -> u32
    requires { at + mask_bytes ≤ length body.now }
    ensures { result ≡ number_in (take mask_bytes (drop at body.now)) }
{
    number_in(&body[at..at + MASK_BYTES]) as u32
}

// The masks of a body.
pub fn masks_in(body: &[u8]) -> [u32; Question::MAX_TERMS]
    ensures { result ≡ masks_of body.now }
{
    let count = (body.len() / MASK_BYTES).min(Question::MAX_TERMS);
    let mut masks = [0u32; Question::MAX_TERMS];
    for k in 0..count {
        masks[k] = mask_at(body, k * MASK_BYTES);
    }
    masks
}
