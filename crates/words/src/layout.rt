//! How sensor words lie in their bytes (01, 'Sensor words').
ghost use Rattle.std.specs.Prelude.{◌*◌, ◌<◌};

// Byte order: most significant byte first, or last.
#[derive(Clone, Copy, Debug, PartialEq, Eq)]
pub(crate) enum Order {
    Big,
    Little,
}

// The width in bytes, the sign and the byte order of words. A word has a byte or more, and fewer bits than an answer.
#[derive(Clone, Copy, Debug, PartialEq, Eq)]
pub(crate) struct Layout {
    pub width: usize,
    pub signed: bool,
    pub order: Order,
    ghost wide: { 0 < width },
    ghost narrow: { 8 * width < 64 },
}
