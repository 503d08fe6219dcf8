//! Sensor words: word k of a sensor block (01's word block), in the byte order that its tag names.
#![tactic(auto)]

ghost use Rattle.std.specs.Prelude.{◌≡◌, ◌+◌, ◌≤◌, length};
ghost use Rattle.format.specs.Answer.{word_answer};
ghost use Rattle.format.specs.Rows.{binary_kind, tag_kind, span_of};
ghost use Rattle.format.specs.Term.{binary};
ghost use Rattle.format.specs.Word.{formats, format_in, word_in, word_named};
ghost use Rattle.table.specs.Words.{row_of};
ghost use Rattle.words.specs.Answers.{word_as};
ghost use Rattle.words.specs.Known.{format_of, word_of_rows};

use crate::layout::Layout;
use format::kind::Kind;
use format::refusal::Refusal;
use format::{Row, bound};
use table::{RowWords, Table};

mod formats;
mod join;
mod layout;

// Word k of a block.
fn word_in(block: &[u8], layout: Layout, k: u64) -> Result<i64, Refusal>
    ensures { word_as result ≡ word_in (format_of layout) block.now k }
{
    let width = layout.width;
    let order = layout.order;
    if block.len() % width != 0 {
        return Err(Refusal::Uneven);
    }
    if ((block.len() / width) as u64) <= k {
        return Err(Refusal::NoWord);
    }
    let at = (k as usize) * width;
    let bits = join::join(&block[at..at + width], order);
    Ok(join::number(bits, layout))
}

// Word k of a binary under a tag, by the tag's name and the binary's bytes.
fn word_named(name: &[u8], block: &[u8], k: u64) -> Result<i64, Refusal>
    ensures { word_as result ≡ word_named (format_in formats name.now) (binary block.now) k }
{
    let Some(layout) = formats::find(name) else {
        return Err(Refusal::NoBlock);
    };
    word_in(block, layout, k)
}

// Word k of a row and the row that it wraps, which have to be a tag and a binary.
fn word_of_rows(message: &[u8], tag: RowWords, block: RowWords, k: u64) -> Result<i64, Refusal>
    requires { tag.kind ≡ tag_kind → (tag.first + tag.second ≤ length message.now) × (block.kind ≡ binary_kind → block.first + block.second ≤ length message.now) }
    ensures { word_as result ≡ word_of_rows message.now (row_of tag) (row_of block) k }
{
    // by number, since each row is asked for one kind: a match with two arms is no plainer
    if tag.kind != Kind::Tag as u32 {
        return Err(Refusal::NoBlock);
    }
    if block.kind != Kind::Binary as u32 {
        return Err(Refusal::NoBlock);
    }
    word_named(table::span(message, tag), table::span(message, block), k)
}

// Reads word k, from 0, of the sensor block at a table's root. Nothing is lent for writing.
pub fn read_word(table: Table, k: u64) -> Result<i64, Refusal>
    ensures { word_as result ≡ word_answer table.entry.message.now table.entry.rows.now table.entry.used table.entry.root.0 k }
{
    if bound::MESSAGE_BYTES < table.message.len() {
        return Err(Refusal::OverBound);
    }
    if !sound::sound_table(table) {
        return Err(Refusal::Unsound);
    }
    let tag = table::read_row(table.rows, table.root);
    let block = table::load_row(table.rows, Row(tag.third));
    word_of_rows(table.message, tag, block, k)
}
