// The pieces of some bytes between separators.
ghost use Rattle.std.specs.Prelude.{◌≡◌, length};
ghost use Rattle.text.specs.Pieces.{until};

// How many bytes stand before the first separator; all of them if there is none.
pub fn piece_length(bytes: &[u8], separator: u8) -> usize
    ensures { result ≡ length (until separator bytes.now) }
{
    match bytes.iter().position(|b| *b == separator) {
        Some(at) => at,
        None => bytes.len(),
    }
}
