ghost use Rattle.std.specs.Prelude.{◌≡◌, ◌+◌, ◌^◌, ◌<◌, ◌≤◌, length, take, drop};

/// Some words of the scheme, with the place of the first.
#[derive(Clone, Copy)]
pub struct Part<'a> {
    pub place: usize,
    pub words: &'a [u32],
    ghost fits: { place + length words.now < 2 ^ 64 },
}

impl<'a> Part<'a> {
    /// The first `size` words, and those after them.
    pub(crate) fn split_at(self, size: usize) -> (Part<'a>, Part<'a>)
        requires { size ≤ length self.words.now }
        ensures first { (result.0.place ≡ self.entry.place) × (result.0.words.now ≡ take size self.entry.words.now) }
        ensures rest { (result.1.place ≡ self.entry.place + size) × (result.1.words.now ≡ drop size self.entry.words.now) }
    {
        let (first, rest) = self.words.split_at(size);
        (
            Part {
                place: self.place,
                words: first,
            },
            Part {
                place: self.place + size,
                words: rest,
            },
        )
    }
}
