// Models and rows as they may be handed in, four bytes a mask or row, high byte first.
ghost use Rattle.std.specs.Prelude.{◌≡◌, ◌≤◌, length};

use crate::tables::byte_at;
use answer::Answer;
use judge::Model;
use outcome::Verdict;
use search::Found;

// The number that four bytes say; those that are missing are 0.
fn word(four: &[u8]) -> u32 {
    u32::from_be_bytes([
        byte_at(four, 0),
        byte_at(four, 1),
        byte_at(four, 2),
        byte_at(four, 3),
    ])
}

// The numbers behind the first byte: the elements of names, or the class numbers of terms.
fn numbers(bytes: &[u8]) -> [u8; 12] {
    std::array::from_fn(|i| byte_at(bytes, i + 1))
}

// The masks behind one another, four bytes each.
fn masks(memberships: &[u8]) -> [u32; 12] {
    let mut masks = [0u32; 12];
    for (mask, four) in masks.iter_mut().zip(memberships.chunks(4)) {
        *mask = word(four);
    }
    masks
}

// n and the elements, then the masks.
pub(crate) fn model(points: &[u8], memberships: &[u8]) -> Model {
    Model {
        size: byte_at(points, 0) as usize,
        elements: numbers(points),
        masks: masks(memberships),
    }
}

fn verdict(byte: u8) -> Verdict {
    match byte {
        0 => Verdict::Impossible,
        _ => Verdict::Possible,
    }
}

// A verdict and the class numbers, then the masks.
pub(crate) fn answer(classes: &[u8], memberships: &[u8]) -> Answer {
    Answer {
        verdict: verdict(byte_at(classes, 0)),
        arrangement: numbers(classes),
        masks: masks(memberships),
    }
}

// The model that the search found: a name's element is its class.
pub(crate) fn model_of(found: Found) -> Model {
    let Found {
        classes,
        arrangement,
        masks,
    } = found;
    Model {
        size: classes,
        elements: arrangement,
        masks,
    }
}

// The rows that some bytes say, and how many they are; what doesn't fit is left out.
pub(crate) fn fill_rows(bytes: &[u8], rows: &mut [u32]) -> usize
    ensures { (result ≤ length rows.old) × (length rows.new ≡ length rows.old) }
{
    for (row, four) in rows.iter_mut().zip(bytes.chunks_exact(4)) {
        *row = word(four);
    }
    rows.len().min(bytes.len() / 4)
}
