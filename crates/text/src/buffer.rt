// A text that is being made in an output that is lent: bytes are put at its end.
ghost use Rattle.std.specs.Prelude.{◌≡◌, ◌+◌, ◌≤◌, [], ◌∷◌, length};
ghost use Rattle.text.specs.Private.{Puts};

// Stays a length beside the output: what stands in it is told as that many bytes, and the rest of it is left as it was.
#[derive(Drop)]
pub(crate) struct Buffer<'a> {
    bytes: &'a mut [u8],
    len: usize,
}

impl<'a> Buffer<'a> {
    pub(crate) fn new(bytes: &'a mut [u8]) -> Buffer<'a>
        ensures same { result.bytes.ghost_name ≡ bytes.entry.ghost_name }
        ensures bytes { result.bytes.now ≡ bytes.old }
        ensures len { result.len ≡ 0 }
    {
        Buffer { bytes, len: 0 }
    }

    pub(crate) fn len(&self) -> usize
        ensures { result ≡ self.now.len }
    {
        self.len
    }

    // Stays a byte at a time, from a place that is read once, here and below: `copy_from_slice` would test for each word
    // whether the two overlap, and after a byte at a place of the struct both of its fields would be read again.
    pub(crate) fn put(&mut self, s: &[u8])
        requires { self.old.len + length s.now ≤ length self.old.bytes.now }
        ensures { Puts self.old self.new s.now }
    {
        let at = self.len;
        let bytes = &mut *self.bytes;
        for (i, b) in s.iter().enumerate() {
            bytes[at + i] = *b;
        }
        self.len = at + s.len();
    }

    pub(crate) fn put_two(&mut self, a: u8, b: u8)
        requires { self.old.len + 2 ≤ length self.old.bytes.now }
        ensures { Puts self.old self.new (a ∷ b ∷ []) }
    {
        let at = self.len;
        let bytes = &mut *self.bytes;
        bytes[at] = a;
        bytes[at + 1] = b;
        self.len = at + 2;
    }

    pub(crate) fn put_four(&mut self, a: u8, b: u8, c: u8, d: u8)
        requires { self.old.len + 4 ≤ length self.old.bytes.now }
        ensures { Puts self.old self.new (a ∷ b ∷ c ∷ d ∷ []) }
    {
        let at = self.len;
        let bytes = &mut *self.bytes;
        bytes[at] = a;
        bytes[at + 1] = b;
        bytes[at + 2] = c;
        bytes[at + 3] = d;
        self.len = at + 4;
    }
}
