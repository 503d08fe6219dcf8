//! A plain text stored at the head of the output.
ghost use Rattle.std.specs.Prelude.{◌≡◌, ◌++◌, ◌≤◌, length, drop};
ghost use Rattle.text.specs.Rows.{root_text};

use crate::rows::SoundRows;
use crate::walk::Walk;
use format::byte;
use leaves::output::Output;

// Stores the plain text of a sound table's root, and answers how many bytes it has. The stack has a word for each row used.
// That stays a clause, here and of both `fits`. A struct of table and stack, lent to all three, needs another in its place, that the same words are lent; and
// the check does not cover `write_rows` where it makes such a struct of the `SoundRows` that it has just made.
pub(crate) fn store_text(table: SoundRows, stack: &mut [u32], output: &mut [u8]) -> usize
    requires stack_words { table.used ≤ length stack.old }
    requires room { length (root_text table) ≤ length output.old }
    ensures output_after { output.new ≡ root_text table.entry ++ drop result output.old }
    ensures value { result ≡ length (root_text table.entry) }
{
    let mut walk = Walk {
        table,
        stack,
        depth: 0,
    };
    let mut place = Output {
        bytes: output,
        at: 0,
    };
    walk.put_all(&mut place);
    let at = place.at;
    output[at] = byte::DOLLAR;
    at + 1
}
