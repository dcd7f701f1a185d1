// A model as bytes, as it is or with one bit of a mask turned: the number that the library gives for it beside the question's
// file is held to the second solver's test of the same assignment.
use crate::models::assignment;
use crate::pens::Pen;
use crate::said::below;
use judge::Model;
use outcome::Refusal;
use question::Question;
use question_file::write_question;
use sayfudhoum::sayfudhoum_judge;

// The number where all statements hold, and that of a bad model.
pub(crate) const ALL_HOLD: u64 = 64 * 256;

pub(crate) const BAD_MODEL: u64 = 11;

// The bit that is turned: in the mask of which domain element, and for which set.
#[derive(Clone, Copy)]
pub struct Bit {
    pub element: usize,
    pub set: usize,
}

// How many bits of a mask are turned by turns: one for each set, and the first that is for none, if two bytes have it.
fn bits(sets: u8) -> usize {
    if sets < 16 { sets as usize + 1 } else { 16 }
}

// One of the bits, by a number.
pub(crate) fn chosen(q: Question, m: Model, r: u64) -> Bit {
    Bit {
        element: below(r, m.size),
        set: below(r / 12, bits(q.sets)),
    }
}

pub(crate) fn turned(m: Model, b: Bit) -> Model {
    let mut turned = m;
    if let Some(mask) = turned.masks.get_mut(b.element) {
        *mask ^= 1 << (b.set % 32);
    }
    turned
}

// The number that is due to a model in which this bit was turned, by the second solver's test.
pub(crate) fn due(q: Question, m: Model, b: Bit) -> u64 {
    if q.sets as usize <= b.set {
        return BAD_MODEL;
    }
    assignment(q, m).first_failing(&q) as u64 * 256
}

// A model as bytes: n, the elements of the names, the masks, each in two bytes, the high one first. How many there are.
fn write_model(q: Question, m: Model, buf: &mut [u8]) -> usize {
    let mut pen = Pen::new(buf);
    pen.put((m.size % 256) as u8);
    for element in m.elements.iter().take(usize::from(q.elements)) {
        pen.put(*element);
    }
    for mask in m.masks.iter().take(m.size) {
        pen.put_all(&((*mask % 65536) as u16).to_be_bytes());
    }
    pen.at
}

// Does the library give this number for the first bytes of both buffers, so many of each.
fn bytes_get(file: &[u8], count: usize, model: &[u8], n: usize, number: u64) -> bool {
    match (file.get(..count), model.get(..n)) {
        (Some(file), Some(model)) => sayfudhoum_judge(file, model) == number,
        _ => false,
    }
}

// Does a model get this number beside the question's file.
pub(crate) fn gets(q: Question, m: Model, number: u64) -> bool {
    let mut file = io::buffer();
    let mut model = io::buffer();
    let n = write_model(q, m, &mut model);
    match write_question(q, &mut file) {
        Ok(count) => bytes_get(&file, count, &model, n, number),
        Err(_) => false,
    }
}
