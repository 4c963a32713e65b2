// The place and the length of a text among the bytes of all texts.
ghost use Rattle.std.specs.Prelude.{◌≡◌, ◌≤◌, length};
ghost use Rattle.symbol.specs.Layout.{text_in, end_of};

/// The place and the length of a text.
#[derive(Clone, Copy)]
pub(crate) struct Entry {
    pub(crate) place: usize,
    pub(crate) length: usize,
}

impl Entry {
    // The text among the bytes.
    pub(crate) fn text_in(self, bytes: &[u8]) -> &[u8]
        requires { end_of self ≤ length bytes.now }
        ensures { result.now ≡ text_in bytes.now self }
    {
        &bytes[self.place..self.place + self.length]
    }
}
