//! The demands, as contracts of functions. Each calls the library and promises what the demand says, from the library's own
//! promises: crates/demands/specs has the statements.
#![tactic(auto)]

ghost use Rattle.std.specs.Prelude.{◌≡◌, T, length, Err};
ghost use Rattle.format.specs.Number.{number_of};
ghost use Rattle.format.specs.Answer.{decode_answer, write_answer, compare_answer, tables};
ghost use Rattle.format.specs.declared.refusal.Refused.{Refused};
ghost use Rattle.decoder.specs.Answers.{decoded_as};
ghost use Rattle.text.specs.Answers.{written_as};
ghost use Rattle.comparison.specs.Answers.{compared_as};
ghost use Rattle.demands.specs.declared.TripRefused.TheVariants.{NotRead};
ghost use Rattle.demands.specs.Demand1.{DecodeTouches, WriteTouches, CompareTouches};
ghost use Rattle.demands.specs.Demand2.{DecodeMeans, machine_says, trip_as, trip_says, trip_leaves, buffers, is_limit, reading_as, word_says};
ghost use Rattle.demands.specs.Demand3.{comparison_as, comparison_says, comparison_leaves, comparison_buffers};

use decoder::Accepted;
use demands::{NotCompared, TripRefused, WordRefused};
use format::refusal::{Refusal, Refused};
use table::Table;

// Decodes a message: what it leaves behind (demand 1), and the term that it means (demand 2).
pub fn decode(
    message: &[u8],
    rows: &mut [u32],
    stack: &mut [u32],
    marks: &mut [u32],
    registers: &mut [u32],
) -> Result<Accepted, Refused>
    ensures answer { decoded_as result (tables rows.new stack.new marks.new registers.new) ≡ decode_answer message.now (tables rows.old stack.old marks.old registers.old) }
    ensures decode_touches { DecodeTouches (tables rows.old stack.old marks.old registers.old) result (tables rows.new stack.new marks.new registers.new) }
    ensures decode_means { DecodeMeans message.now (tables rows.old stack.old marks.old registers.old) result (tables rows.new stack.new marks.new registers.new) }
{
    decoder::decode(message, rows, stack, marks, registers)
}

// Writes the plain text of a table's root: what it leaves behind (demand 1).
pub fn write(table: Table, scratch: &mut [u32], output: &mut [u8]) -> Result<usize, Refusal>
    ensures answer { written_as result scratch.new output.new ≡ write_answer table.entry.message.now table.entry.rows.now table.entry.used table.entry.root.0 scratch.old output.old }
    ensures write_touches { WriteTouches scratch.old output.old result scratch.new output.new }
{
    text::write(table, scratch, output)
}

// Writes the plain text of a table's root into the output, and decodes what was written into other tables: the same term comes back, from exactly
// the bytes written, or a limit is refused (demand 2).
pub fn round_trip(
    table: Table,
    scratch: &mut [u32],
    output: &mut [u8],
    back: &mut [u32],
    stack: &mut [u32],
    marks: &mut [u32],
    registers: &mut [u32],
) -> Result<Accepted, TripRefused>
    ensures answer { trip_as output.new result (tables back.new stack.new marks.new registers.new) ≡ trip_says table.entry.message.now table.entry.rows.now table.entry.used table.entry.root.0 scratch.old output.old (tables back.old stack.old marks.old registers.old) }
    ensures buffers_after { buffers scratch.new output.new (tables back.new stack.new marks.new registers.new) ≡ trip_leaves table.entry.message.now table.entry.rows.now table.entry.used table.entry.root.0 scratch.old output.old (tables back.old stack.old marks.old registers.old) }
    ensures limits_only { (e : Refused) → result ≡ Err (NotRead e) → T (is_limit (number_of e.refusal)) }
{
    let n = text::write(table, scratch, output)?;
    Ok(decoder::decode(&output[..n], back, stack, marks, registers)?)
}

// The table of an accepted message.
fn decoded<'a>(message: &'a [u8], rows: &'a [u32], read: Accepted) -> Table<'a>
    ensures { (result.message.now ≡ message.now) × (result.rows.now ≡ rows.now) × (result.used ≡ read.used) × (result.root ≡ read.root) }
{
    Table {
        message,
        rows,
        used: read.used,
        root: read.root,
    }
}

// Decodes a message whose term is a sensor block, and reads word k of it in the order that its tag names (demand 2).
pub fn message_word(
    message: &[u8],
    rows: &mut [u32],
    stack: &mut [u32],
    marks: &mut [u32],
    registers: &mut [u32],
    k: u64,
) -> Result<i64, WordRefused>
    ensures value { reading_as result ≡ word_says (machine_says message.now (tables rows.old stack.old marks.old registers.old)) k }
    ensures tables_after { tables rows.new stack.new marks.new registers.new ≡ (decode_answer message.now (tables rows.old stack.old marks.old registers.old)).tables }
{
    let read = decoder::decode(message, rows, stack, marks, registers)?;
    words::read_word(decoded(message, rows, read), k).map_err(WordRefused::NoWord)
}

// Compares the plain texts of two tables' roots: what it leaves behind (demand 1).
pub fn compare(a: Table, b: Table, scratch: &mut [u32]) -> Result<bool, Refusal>
    ensures answer { compared_as result scratch.new ≡ compare_answer a.entry.message.now a.entry.rows.now a.entry.used a.entry.root.0 b.entry.message.now b.entry.rows.now b.entry.used b.entry.root.0 scratch.old }
    ensures compare_touches { CompareTouches scratch.old result scratch.new }
{
    comparison::compare(a, b, scratch)
}

// Decodes two messages, each into rows of its own, with the same working memory, and compares their full plain texts on the rows (demand 3).
pub fn compare_messages(
    message_a: &[u8],
    rows_a: &mut [u32],
    message_b: &[u8],
    rows_b: &mut [u32],
    stack: &mut [u32],
    marks: &mut [u32],
    registers: &mut [u32],
    scratch: &mut [u32],
) -> Result<bool, NotCompared>
    ensures value { comparison_as result ≡ comparison_says (machine_says message_a.now (tables rows_a.old stack.old marks.old registers.old)) (machine_says message_b.now (tables rows_b.old stack.old marks.old registers.old)) (length scratch.old) }
    ensures buffers_after { comparison_buffers rows_a.new (tables rows_b.new stack.new marks.new registers.new) scratch.new ≡ comparison_leaves message_a.now rows_a.old message_b.now (tables rows_b.old stack.old marks.old registers.old) scratch.old }
{
    let a = decoder::decode(message_a, rows_a, stack, marks, registers).map_err(
        NotCompared::First,
    )?;
    let b = decoder::decode(message_b, rows_b, stack, marks, registers).map_err(
        NotCompared::Second,
    )?;
    comparison::compare(
        decoded(message_a, rows_a, a),
        decoded(message_b, rows_b, b),
        scratch,
    )
    .or(Err(NotCompared::ShortScratch))
}
