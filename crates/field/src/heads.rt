// The head of a field, and single bytes, read from data of any length.
ghost use Rattle.std.specs.Prelude.{◌≡◌, get_or, drop};
ghost use Rattle.field.specs.Heads.{head_of};

// The head of the field that begins at a place: its tag and length, if three bytes are there.
pub(crate) fn head_at(bytes: &[u8], at: usize) -> Option<(u8, usize)>
    ensures { result ≡ head_of (drop at bytes.now) }
{
    match bytes.get(at..)? {
        [tag, high, low, ..] => Some((*tag, usize::from(*high) * 256 + usize::from(*low))),
        _ => None,
    }
}

// The byte at a place, and 0 past the end.
pub fn byte_at(bytes: &[u8], at: usize) -> u8
    ensures { result ≡ get_or bytes.now at 0 }
{
    bytes.get(at).copied().unwrap_or(0)
}
