// Bytes put into a lent buffer, one behind the other. What doesn't fit is left out.

#[derive(Drop)]
pub(crate) struct Pen<'a> {
    buf: &'a mut [u8],
    // Where the next byte goes.
    pub at: usize,
}

impl<'a> Pen<'a> {
    // At the front of a buffer.
    pub(crate) fn new(buf: &'a mut [u8]) -> Pen<'a> {
        Pen { buf, at: 0 }
    }

    // One byte more.
    pub(crate) fn put(&mut self, b: u8) {
        if self.at < self.buf.len() {
            self.buf[self.at] = b;
            self.at += 1;
        }
    }

    // Some bytes more.
    pub(crate) fn put_all(&mut self, words: &[u8]) {
        for b in words {
            self.put(*b);
        }
    }
}
