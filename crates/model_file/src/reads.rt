// The reader of models: n in one byte, a byte for the element of each name, then n masks. It does not test the values; the judge does.
ghost use Rattle.std.specs.Prelude.{◌≡◌, ◌+◌, ◌≤◌, eqb, length};
ghost use Rattle.model_file.specs.Bytes.{model_length};
ghost use Rattle.model_file.specs.Reads.{size_in, has_its_length, model_in, model_read};

use body::{MASK_BYTES, masks_in, numbers_in};
use field::byte_at;
use judge::Model;
use outcome::Refusal;

// Have the bytes the length of their n; no bytes have none.
fn has_its_length(bytes: &[u8], elements: u8) -> bool
    ensures { result ≡ has_its_length elements bytes.now }
{
    let n = usize::from(byte_at(bytes, 0));
    let length = 1 + usize::from(elements) + n * MASK_BYTES;
    bytes.len() == length
}

// The model of bytes that have the length of their n.
fn model_in(bytes: &[u8], elements: u8) -> Model
    requires { 1 + elements ≤ length bytes.now }
    ensures { result ≡ model_in elements bytes.now }
{
    let end = 1 + usize::from(elements);
    Model {
        size: usize::from(byte_at(bytes, 0)),
        elements: numbers_in(&bytes[1..end]),
        masks: masks_in(&bytes[end..]),
    }
}

// The model of some bytes for so many element names: 11 at place 0 if they haven't the length of their n.
pub fn read_model(bytes: &[u8], elements: u8) -> Result<Model, Refusal>
    ensures { result ≡ model_read elements bytes.now }
{
    if !has_its_length(bytes, elements) {
        return Err(Refusal::new(Refusal::BAD_MODEL, 0));
    }
    Ok(model_in(bytes, elements))
}
