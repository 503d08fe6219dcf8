//! The row table and the other tables of words: a row stored and read, the rows of a tuple, a table cleared.
#![tactic(auto)]

ghost use Rattle.std.specs.Prelude.{◌≡◌, [], ◌∷◌, ◌+◌, ◌*◌, ◌-◌, ◌≤◌, ◌<◌, length};
ghost use Rattle.std.proofs.lemmas.List.Edits.{sets};
ghost use Rattle.format.specs.Answer.{zeroed};
ghost use Rattle.format.specs.Rows.{is_list_kind, row_words, words_of, row_room, span_of};
ghost use Rattle.table.specs.Words.{row_of, row_in, stored_rows, between, field_rows, tuple_rows, cleared_from};

use format::kind::Kind;
use format::{Depth, ROW_WORDS, Row, bound};

// The words of a row: its kind and the other three. The kind is a word, since a table that is not judged may hold any number there.
#[derive(Clone, Copy, Debug, Default, PartialEq, Eq)]
pub struct RowWords {
    pub kind: u32,
    pub first: u32,
    pub second: u32,
    pub third: u32,
}

// A row table lent for reading: the message that its spans lie in, its words (a slice, as C lends them), how many rows are used, and the root. Nothing is
// known of it.
#[derive(Clone, Copy, Debug, PartialEq, Eq)]
pub struct Table<'a> {
    pub message: &'a [u8],
    pub rows: &'a [u32],
    pub used: u32,
    pub root: Row,
}

// How many values a word has.
pub const WORD_VALUES: u64 = 4294967296;

// The sign bit of an integer's high half.
pub const SIGN_BIT: u32 = 2147483648;

// How many rows a table has room for.
#[tactic(auto, unfolding(format::specs::Rows::row_room))]
pub fn row_room(rows: &[u32]) -> usize
    ensures { result ≡ row_room rows.now }
{
    (rows.len() / ROW_WORDS).min(bound::ROWS)
}

// Stores a row's words from `at` on.
fn put(rows: &mut [u32], at: usize, words: RowWords)
    requires { at + row_words ≤ length rows.old }
    ensures { rows.new ≡ sets rows.old at (words_of (row_of words ∷ [])) }
{
    rows[at] = words.kind;
    rows[at + 1] = words.first;
    rows[at + 2] = words.second;
    rows[at + 3] = words.third;
}

// Stores row n, which the table has room for.
#[tactic(auto, unfolding(format::specs::Rows::row_room))]
pub fn store_row(rows: &mut [u32], n: Row, words: RowWords)
    requires { n.0 < row_room rows.old }
    ensures { rows.new ≡ stored_rows rows.old n.0 (row_of words ∷ []) }
{
    put(rows, (n.0 as usize) * ROW_WORDS, words);
}

// Reads row n, which the table has room for.
#[tactic(auto, unfolding(format::specs::Rows::row_room))]
pub fn read_row(rows: &[u32], n: Row) -> RowWords
    requires { n.0 < row_room rows.now }
    ensures { row_of result ≡ row_in rows.now n.0 }
{
    let at = (n.0 as usize) * ROW_WORDS;
    RowWords {
        kind: rows[at],
        first: rows[at + 1],
        second: rows[at + 2],
        third: rows[at + 3],
    }
}

// Reads row n. One past the table's room reads as zeros: for a number that may be no row's, as the third word of a row that is no tag, and for `Machine::row`
// and the count of a text, which are faster with the test.
pub fn load_row(rows: &[u32], n: Row) -> RowWords
    ensures { row_of result ≡ row_in rows.now n.0 }
{
    if row_room(rows) <= n.0 as usize {
        return RowWords::default();
    }
    read_row(rows, n)
}

// Whether a row of this kind is a list. By numbers: a match on the kind takes up to 6 % more instructions to decode, and 2 more for each row that is judged.
#[tactic(auto, unfolding(format::specs::Rows::is_list_kind))]
pub fn is_list(kind: u32) -> bool
    ensures { result ≡ is_list_kind kind }
{
    kind == Kind::Nil as u32 || kind == Kind::Cons as u32
}

// The bytes of a row's span.
pub fn span(message: &[u8], row: RowWords) -> &[u8]
    requires { row.first + row.second ≤ length message.now }
    ensures { result.now ≡ span_of message.now row.first row.second }
{
    let start = row.first as usize;
    &message[start..start + row.second as usize]
}

// Stores the fields of a tuple from the last to the first, after its end, row `end`.
fn put_fields(rows: &mut [u32], stack: &[u32], base: Depth, depth: Depth, end: Row)
    requires { (base.0 ≤ depth.0) × (depth.0 ≤ length stack.now) × (end.0 + 1 + (depth.0 - base.0) ≤ row_room rows.old) }
    ensures { rows.new ≡ sets rows.old ((end.0 + 1) * row_words) (words_of (field_rows end.0 (between stack.now base.0 depth.0))) }
{
    let mut rest = end.0;
    for &field in stack[base.0..depth.0].iter().rev() {
        let n = rest + 1;
        put(
            rows,
            (n as usize) * ROW_WORDS,
            RowWords {
                kind: Kind::Field as u32,
                first: field,
                second: rest,
                third: 0,
            },
        );
        rest = n;
    }
}

// Stores the rows of a tuple of the stack's values above `base` and up to `depth`, for all of which the table has room: its end as row `next`, then its fields.
#[tactic(auto, unfolding(format::specs::Rows::row_room))]
pub fn store_tuple(rows: &mut [u32], stack: &[u32], base: Depth, depth: Depth, next: Row)
    requires { (base.0 ≤ depth.0) × (depth.0 ≤ length stack.now) × (next.0 + 1 + (depth.0 - base.0) ≤ row_room rows.old) }
    ensures { rows.new ≡ stored_rows rows.old next.0 (tuple_rows next.0 (between stack.now base.0 depth.0)) }
{
    put(
        rows,
        (next.0 as usize) * ROW_WORDS,
        RowWords {
            kind: Kind::End as u32,
            ..RowWords::default()
        },
    );
    put_fields(rows, stack, base, depth, next);
}

// Fills a table with zeros.
pub fn clear(words: &mut [u32])
    ensures { words.new ≡ zeroed words.old }
{
    clear_from(words, 0);
}

// Fills a table with zeros from word `from` on.
pub fn clear_from(words: &mut [u32], from: usize)
    ensures { words.new ≡ cleared_from from words.old }
{
    if from < words.len() {
        words[from..].fill(0);
    }
}
