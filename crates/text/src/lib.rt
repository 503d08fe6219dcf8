//! The writer: the plain text of a row table's root, in lent memory alone.
#![tactic(auto)]

ghost use Rattle.std.specs.Prelude.{◌≡◌, ◌&&◌, List, ℕ, ◌≤◌, T, length};
ghost use Rattle.format.specs.Answer.{zeroed, write_answer};
ghost use Rattle.format.specs.Bound.{message_bound};
ghost use Rattle.format.specs.Rows.{rows_of};
ghost use Rattle.format.specs.Sound.{count_fits, root_among};
ghost use Rattle.text.specs.Answers.{written_as, write_rows};

use format::refusal::Refusal;
use format::{Row, bound};
use rows::SoundRows;
use table::Table;

mod count;
mod room;
mod rows;
mod stack;
mod store;
mod walk;

// Writes the plain text of the root where the rows are sound and it has room. The stack has a word for each row used.
fn write_rows(
    message: &[u8],
    rows: &[u32],
    root: Row,
    stack: &mut [u32],
    output: &mut [u8],
) -> Result<usize, Refusal>
    requires { T (count_fits rows.now (length stack.old) && root_among (length stack.old) root.0) }
    ensures { (scratch : List ℕ) → written_as result (zeroed scratch) output.new
        ≡ write_rows message.now (rows_of (length stack.old) rows.now) root.0 scratch output.old }
{
    if !measure::judge(message, rows, stack) {
        return Err(Refusal::Unsound);
    }
    let sound = SoundRows {
        message,
        rows,
        used: stack.len(),
        root,
    };
    if !room::fits(sound, stack, output.len()) {
        return Err(Refusal::TooLong);
    }
    Ok(store::store_text(sound, stack, output))
}

// Writes where the table is sound. The scratch, which has a word for each row used, is left as the walk leaves it.
fn write_table(table: Table, scratch: &mut [u32], output: &mut [u8]) -> Result<usize, Refusal>
    requires { (length table.message.now ≤ message_bound) × (table.used ≤ length scratch.old) }
    ensures { written_as result (zeroed scratch.old) output.new ≡ write_answer table.entry.message.now table.entry.rows.now table.entry.used table.entry.root.0 scratch.old output.old }
{
    if !sound::count_fits(table.rows, table.used) {
        return Err(Refusal::Unsound);
    }
    if !sound::root_among(table.used, table.root) {
        return Err(Refusal::Unsound);
    }
    let n = table.used as usize;
    write_rows(
        table.message,
        table.rows,
        table.root,
        &mut scratch[..n],
        output,
    )
}

// Writes the plain text of a table's root at the head of the output, and answers how many bytes it has. The scratch is working memory, a word for each row
// used.
// A refusal changes no output byte; after all but 1 and 2 the scratch is zero.
pub fn write(table: Table, scratch: &mut [u32], output: &mut [u8]) -> Result<usize, Refusal>
    ensures { written_as result scratch.new output.new ≡ write_answer table.entry.message.now table.entry.rows.now table.entry.used table.entry.root.0 scratch.old output.old }
{
    if bound::MESSAGE_BYTES < table.message.len() {
        return Err(Refusal::OverBound);
    }
    if scratch.len() < table.used as usize {
        return Err(Refusal::ShortTable);
    }
    let answer = write_table(table, scratch, output);
    table::clear(scratch);
    answer
}
