// The length of a field, and writing it. Each writer receives the rest of the lent buffer and writes at its front.
ghost use Rattle.std.specs.Prelude.{◌≡◌, [], ◌∷◌, ◌/◌, ◌%◌, ◌≤◌, length};
ghost use Rattle.outcome.specs.Writes.{over};
ghost use Rattle.field.specs.Writes.{longest_body, with_head, field_length, field_count, field_over};

use crate::tags::{BodyLength, File, length_of};

const LONGEST_BODY: usize = 65535;

// How many bytes a field with such a body has; none, where two bytes can't say its length.
fn with_head(n: usize) -> usize
    ensures { result ≡ with_head n }
{
    if LONGEST_BODY < n {
        return 0;
    }
    3 + n
}

// How many bytes a file's field with this tag has, where a length that depends is `size`; none, where the file has no such field.
pub fn field_length(file: File, tag: u8, size: usize) -> usize
    ensures { result ≡ field_length file tag size }
{
    match length_of(file, tag) {
        None => 0,
        Some(BodyLength::Fixed(n)) => with_head(n),
        Some(BodyLength::Depends) => with_head(size),
    }
}

// The head at the front of the lent part: the high byte of the length comes first.
fn put_head(tag: u8, n: usize, buf: &mut [u8])
    requires { (n ≤ longest_body) × (3 ≤ length buf.old) }
    ensures { buf.new ≡ over (tag ∷ n / 256 ∷ n % 256 ∷ []) buf.old }
{
    let high = (n / 256) as u8;
    let low = (n % 256) as u8;
    buf[0] = tag;
    buf[1] = high;
    buf[2] = low;
}

// A field at the front of the lent part, and how many bytes were written; where it does not fit that is 0, a count like any other.
pub fn put_field(tag: u8, body: &[u8], buf: &mut [u8]) -> usize
    ensures { (result ≡ field_count body.now (length buf.old)) × (buf.new ≡ field_over tag body.now buf.old) }
{
    let n = body.len();
    if LONGEST_BODY < n {
        return 0;
    }
    if buf.len() < 3 + n {
        return 0;
    }
    put_head(tag, n, buf);
    buf[3..3 + n].copy_from_slice(body);
    3 + n
}
