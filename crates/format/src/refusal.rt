//! The refusals (01, 'Refusal numbers'), and where in a message one stands.
ghost use Rattle.std.specs.Prelude.{◌≡◌};
ghost use Rattle.format.specs.Number.{number_of};

use crate::Offset;
use std::fmt;

// Each with its number: the first is 1, and each is one more than the one before.
#[derive(Clone, Copy, Debug, PartialEq, Eq)]
pub enum Refusal {
    // A message slice over its bound.
    OverBound = 1,
    // A table too short to begin.
    ShortTable,
    // The slice ends inside an item or before `$`.
    Cut,
    // A byte not allowed there.
    Stray,
    // An integer out of range.
    OutOfRange,
    // A pop or tag with too few values above the mark.
    TooFew,
    // `~` without an integer, `&` without a list.
    WrongKind,
    // A negative count.
    Negative,
    // An empty register pushed.
    EmptyRegister,
    // `}` with no mark, `$` with one.
    Unbalanced,
    // `$` with a depth other than 1.
    DepthNotOne,
    // No room in rows, stack, marks.
    NoRows,
    NoStack,
    NoMarks,
    // A plain text longer than the output.
    TooLong,
    // Unsound rows.
    Unsound,
    // `}` with a depth under the mark.
    UnderMark,
    // Not a sensor block: no tag with a known name directly over a binary.
    NoBlock,
    // A block's length that is no multiple of its words' width.
    Uneven,
    // No such word.
    NoWord,
}

impl From<Refusal> for u32 {
    ghost from_gives = { λ refusal number. number ≡ number_of refusal };

    fn from(refusal: Refusal) -> u32 {
        refusal as u32
    }
}

// The refusal of a message, at a place.
#[derive(Clone, Copy, Debug, PartialEq, Eq)]
pub struct Refused {
    pub refusal: Refusal,
    pub place: Offset,
}

impl fmt::Display for Refused {
    fn fmt<W: fmt::Write>(&self, f: &mut fmt::Formatter<W>) -> fmt::Result {
        write!(f, "refused {} at {}", u32::from(self.refusal), self.place.0)
    }
}
