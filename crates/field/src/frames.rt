// The frame of a field in any kind of file: its head, its tag, its place among the others, its length, and that all of it is there.
ghost use Rattle.std.specs.Prelude.{◌≡◌, drop};
ghost use Rattle.field.specs.Frames.{is_in_place, framed, frame_of};

use crate::heads::head_at;
use crate::tags::{File, length_of};
use outcome::Refusal;

// Which of the tags that a file knows may stand at a place.
#[derive(Clone, Copy)]
pub enum Due {
    Only(u8),
    AllBut(u8),
}

// The tag of a field that is sound, and the length of its body.
#[derive(Clone, Copy)]
pub struct Frame {
    pub tag: u8,
    pub length: usize,
}

impl Frame {
    // The body begins so many bytes behind the first.
    pub const HEAD: usize = 3;
}

impl Due {
    // May a tag stand there.
    fn allows(self, tag: u8) -> bool
        ensures { result ≡ is_in_place self tag }
    {
        match self {
            Due::Only(due) => tag == due,
            Due::AllBut(other) => tag != other,
        }
    }
}

// After the head, in document 01's order: 2, 3, 4, then 1 if fewer bytes are left than the body has.
fn check_head(
    file: File,
    due: Due,
    size: usize,
    at: usize,
    tag: u8,
    length: usize,
    left: usize,
) -> Result<Frame, Refusal>
    ensures { result ≡ framed file due size at tag length left }
{
    let Some(listed) = length_of(file, tag) else {
        return Err(Refusal::new(Refusal::TAG_UNKNOWN, at));
    };
    if !due.allows(tag) {
        return Err(Refusal::new(Refusal::TAG_OUT_OF_PLACE, at));
    }
    if !listed.is_allowed(size, length) {
        return Err(Refusal::new(Refusal::WRONG_LENGTH, at));
    }
    if left < length {
        return Err(Refusal::new(Refusal::DATA_ENDS, at));
    }
    Ok(Frame { tag, length })
}

// The frame of the field that begins at a place; `size` is its length where that depends on the question and the classes.
pub fn frame_at(
    bytes: &[u8],
    at: usize,
    file: File,
    due: Due,
    size: usize,
) -> Result<Frame, Refusal>
    ensures { result ≡ frame_of file due size at (drop at bytes.now) }
{
    let Some((tag, length)) = head_at(bytes, at) else {
        return Err(Refusal::new(Refusal::DATA_ENDS, at));
    };
    let left = bytes.len() - at - Frame::HEAD;
    check_head(file, due, size, at, tag, length, left)
}
