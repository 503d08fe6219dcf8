//! Whether a plain text has room, found without writing it.
ghost use Rattle.std.specs.Prelude.{◌≡◌, ◌≤◌, leb, length};
ghost use Rattle.measure.specs.Lengths.{Measured};
ghost use Rattle.text.specs.Rows.{rows_used, root_text};

use crate::count;
use crate::rows::SoundRows;
use measure::length;

// Whether the plain text of a sound table's root has room. The stack has a word for each row used, which holds the length of the row's text. A text
// of 4 GiB or more is counted where there is such room.
pub(crate) fn fits(table: SoundRows, stack: &mut [u32], room: usize) -> bool
    requires stack_words { table.used ≤ length stack.old }
    requires measured { Measured table.message.now (rows_used table) stack.old table.used }
    ensures { result ≡ leb (length (root_text table.entry)) room }
{
    let n = stack[table.root.0 as usize];
    if n < length::LONGEST {
        // `$`
        return (n as usize) + 1 <= room;
    }
    if room <= length::LONGEST as usize {
        return false;
    }
    count::fits(table, stack, room)
}
