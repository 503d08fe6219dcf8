//! An output on its way: bytes are stored one after another.

// The bytes that are lent, and the place of the next one. Memory that is lent for writing is no value to compare or to print.
#[derive(Drop)]
pub struct Output<'a> {
    pub bytes: &'a mut [u8],
    pub at: usize,
}

impl<'a> Output<'a> {
    ghost use Rattle.std.specs.Prelude.{[], ◌∷◌};
    ghost use Rattle.leaves.specs.Outputs.{HasRoom, Wrote};

    // Stores a byte.
    pub fn put_byte(&mut self, b: u8)
        requires { HasRoom self.old (b ∷ []) }
        ensures { Wrote self.old (b ∷ []) self.new }
    {
        self.bytes[self.at] = b;
        self.at += 1;
    }
}
