//! The bytes of a plain text counted row by row, in any order.
//! The message is what the rows are sound against; its bytes are not looked at.
ghost use Rattle.std.specs.Prelude.{◌≡◌, ◌++◌, ◌+◌, ◌≤◌, leb, length};
ghost use Rattle.table.specs.Words.{row_of};
ghost use Rattle.measure.specs.Lengths.{named};
ghost use Rattle.text.specs.Rows.{root_text};
ghost use Rattle.text.specs.Stack.{on_stack, room_on};

use crate::rows::SoundRows;
use crate::stack::Stack;
use format::Row;
use format::kind::Kind;
use measure::length;
use table::RowWords;

// Puts the rows that a row names on the stack.
#[tactic(auto, unfolding(measure::specs::Lengths::named))]
fn push_named(stack: &mut Stack, words: RowWords)
    requires { length (on_stack stack.old) + length (named (row_of words)) ≤ room_on stack.old }
    ensures same_words { stack.new.words.ghost_name ≡ stack.old.words.ghost_name }
    ensures same_room { room_on stack.new ≡ room_on stack.old }
    ensures pushed { on_stack stack.new ≡ named (row_of words) ++ on_stack stack.old }
{
    match Kind::try_from(words.kind) {
        Ok(Kind::Cons | Kind::Field) => {
            stack.push(words.second);
            stack.push(words.first);
        }
        Ok(Kind::Tag) => stack.push(words.third),
        _ => {}
    }
}

// Whether the plain text of a sound table's root has room. The stack, which has a word for each row used, holds the rows that are still to be counted. The
// count stops as soon as it has passed the room.
pub(crate) fn fits(table: SoundRows, stack: &mut [u32], room: usize) -> bool
    requires { table.used ≤ length stack.old }
    ensures { result ≡ leb (length (root_text table.entry)) room }
{
    let mut rest = Stack {
        words: stack,
        depth: 0,
    };
    rest.push(table.root.0);
    let mut left = room;
    while let Some(row) = rest.pop() {
        let words = table::load_row(table.rows, Row(row));
        let n = length::own_length(words) as usize;
        if left < n {
            return false;
        }
        left -= n;
        push_named(&mut rest, words);
    }
    // `$`
    0 < left
}
