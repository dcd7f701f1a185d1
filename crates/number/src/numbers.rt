// Numbers in some bytes, high byte first: read from data, and written into a lent part.
ghost use Rattle.std.specs.Prelude.{◌≡◌, length, take};
ghost use Rattle.number.specs.Numbers.{most_bytes, bytes_of, number_in};

const MOST_BYTES: usize = 8;

// The number in the first eight bytes, or in fewer if that is all.
pub fn number_in(bytes: &[u8]) -> u64
    ensures { result ≡ number_in (take most_bytes bytes.now) }
{
    let mut n: u64 = 0;
    let first = &bytes[..bytes.len().min(MOST_BYTES)];
    for byte in first {
        n = n * 256 + u64::from(*byte);
    }
    n
}

// A number in as many bytes as the lent part has; what more bytes would say is lost.
pub fn put_number(n: u64, buf: &mut [u8])
    ensures { buf.new ≡ bytes_of (length buf.old) n }
{
    let mut rest = n;
    for i in (0..buf.len()).rev() {
        buf[i] = (rest % 256) as u8;
        rest /= 256;
    }
}
