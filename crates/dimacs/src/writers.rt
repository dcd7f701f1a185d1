// A lent buffer with the text of clauses in it, as far as it has come. Bytes past the buffer's end are lost.
ghost use Rattle.std.specs.Prelude.{◌≡◌, [], ◌∷◌};
ghost use Rattle.dimacs.specs.Walks.{put, Fitting};

#[derive(Drop)]
pub(crate) struct Writer<'a> {
    pub buf: &'a mut [u8],
    // Where the next byte goes.
    pub at: u32,
    // How many clauses stand.
    pub clauses: u32,
}

impl<'a> Writer<'a> {
    // At the front of a buffer.
    pub(crate) fn new(buf: &'a mut [u8]) -> Writer<'a>
        ensures { result ≡ record { buf = buf.entry; at = 0; clauses = 0 } }
    {
        Writer {
            buf,
            at: 0,
            clauses: 0,
        }
    }

    // One byte more.
    pub(crate) fn put_byte(&mut self, byte: u8)
        requires { Fitting self.old (byte ∷ []) }
        ensures { self.new ≡ put self.old (byte ∷ []) }
    {
        text::put_byte(byte, self.at as usize, self.buf);
        self.at += 1;
    }

    // Some bytes more, one behind the other.
    pub(crate) fn put_text(&mut self, bytes: &[u8])
        requires { Fitting self.old bytes.now }
        ensures { self.new ≡ put self.old bytes.now }
    {
        for byte in bytes {
            self.put_byte(*byte);
        }
    }
}
