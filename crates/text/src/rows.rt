//! The rows of a sound table, and its root.
ghost use Rattle.std.specs.Prelude.{◌≤◌, ◌<◌, T};
ghost use Rattle.format.specs.Rows.{rows_of, row_room};
ghost use Rattle.format.specs.Sound.{sound_rows};

use format::Row;

// A table whose first `used` rows are sound, the root among them, and the message that they are sound against. `comparison::Side` is a type
// of its own: it comes of `sound_table`, and has no root.
#[derive(Clone, Copy, Debug, PartialEq, Eq)]
pub(crate) struct SoundRows<'a> {
    pub message: &'a [u8],
    pub rows: &'a [u32],
    pub used: usize,
    pub root: Row,
    ghost fits: { used ≤ row_room rows.now },
    ghost among: { root.0 < used },
    ghost sound: { T (sound_rows message.now (rows_of used rows.now)) },
}
