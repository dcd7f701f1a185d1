// The body of field 42 as it is written: the masks of the classes, two bytes each.
ghost use Rattle.std.specs.Prelude.{◌≡◌, ◌*◌, ◌≤◌, take};
ghost use Rattle.question.specs.Limits.{max_terms};
ghost use Rattle.body.specs.Bodies.{mask_bytes, masks_body};

use body::MASK_BYTES;
use number::put_number;
use question::Question;

// The body of field 42 where each term is a class of its own.
const LONGEST_BODY: usize = Question::MAX_TERMS * MASK_BYTES;

// The masks of so many classes as a body; the bytes past them don't matter.
pub(crate) fn mask_body(masks: [u32; Question::MAX_TERMS], classes: usize) -> [u8; LONGEST_BODY]
    requires { classes ≤ max_terms }
    ensures { take (classes * mask_bytes) result ≡ masks_body mask_bytes (take classes masks) }
{
    let mut body = [0u8; LONGEST_BODY];
    for k in 0..classes {
        let at = k * MASK_BYTES;
        put_number(u64::from(masks[k]), &mut body[at..at + MASK_BYTES]);
    }
    body
}
