ghost use Rattle.std.specs.Prelude.{◌≡◌, ◌+◌, ◌^◌, ◌<◌, ◌≤◌, length, drop};

// What is left of a text, and the place of its first byte.
#[derive(Clone, Copy)]
pub struct Rest<'a> {
    pub bytes: &'a [u8],
    pub place: usize,
    ghost inside: { place + length bytes.now < 2 ^ 64 },
}

impl<'a> Rest<'a> {
    // The place at which the text ends.
    pub(crate) fn end(self) -> usize
        ensures { result ≡ self.entry.place + length self.entry.bytes.now }
    {
        self.place + self.bytes.len()
    }

    // What is left after so many bytes more.
    pub(crate) fn after(self, n: usize) -> Rest<'a>
        requires { n ≤ length self.bytes.now }
        ensures bytes { result.bytes.now ≡ drop n self.entry.bytes.now }
        ensures place { result.place ≡ self.entry.place + n }
    {
        Rest {
            bytes: &self.bytes[n..],
            place: self.place + n,
        }
    }
}
