// Single bytes, written into a lent buffer.
ghost use Rattle.std.specs.Prelude.{◌≡◌, set};

// A byte at a place of a lent buffer, if it is so long.
pub fn put_byte(byte: u8, at: usize, buf: &mut [u8])
    ensures { buf.new ≡ set buf.old at byte }
{
    // No `buf.get_mut(at)`: its contract leaves nothing known of the bytes beside the place.
    if at < buf.len() {
        buf[at] = byte;
    }
}
