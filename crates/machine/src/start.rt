//! Where an item begins.
ghost use Rattle.std.specs.Prelude.{◌≡◌, ◌+◌, ◌≤◌, ◌<◌, length};
ghost use Rattle.format.specs.Bound.{message_bound};

use format::Offset;

// A message within its bound, and the place of an item's first byte in it.
#[derive(Clone, Copy, Debug, PartialEq, Eq)]
pub struct Start<'a> {
    pub message: &'a [u8],
    pub at: Offset,
    ghost inside: { at.0 < length message.now },
    ghost bounded: { length message.now ≤ message_bound },
}

impl<'a> Start<'a> {
    // The place after the item's first byte.
    pub fn after(self) -> Offset
        ensures { result.0 ≡ self.entry.at.0 + 1 }
    {
        Offset(self.at.0 + 1)
    }

    // The slice's end.
    pub fn end(self) -> Offset
        ensures { result.0 ≡ length self.entry.message.now }
    {
        Offset(self.message.len())
    }
}
