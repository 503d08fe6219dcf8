//! The soundness check (01, 'Plain text', refusal 16): what reading a table back relies on, judged before it is read.
#![tactic(auto)]

ghost use Rattle.std.specs.Prelude.{true, false, ◌&&◌, [], ◌∷◌, ◌≡◌, ◌≤◌, ◌<◌, eqb, ltb};
ghost use Rattle.format.specs.Rows.{cons_kind, field_kind, is_list_kind, is_tuple_kind, rows_of, row_room};
ghost use Rattle.format.specs.Sound.{spelled, in_slice, spelled_in, count_fits, root_among, sound_rest, sound_rows, sound_table};
ghost use Rattle.sound.specs.Parts.{sound_words, quote_of, sound_text};
ghost use Rattle.table.specs.Words.{row_of, row_in};

use format::kind::Kind;
use format::{Row, byte};
use table::{RowWords, Table, read_row, row_room};

// Whether a span lies inside the slice. Its end is counted in 64 bits, where no sum of two words wraps.
#[tactic(auto, unfolding(format::specs::Sound::in_slice))]
fn in_slice(message: &[u8], start: u32, n: u32) -> bool
    ensures { result ≡ in_slice message.now start n }
{
    (start as usize) + (n as usize) <= message.len()
}

// Whether a byte may stand after a backslash.
#[tactic(auto, unfolding(format::specs::Sound::spelled))]
fn may_follow(b: u8, quote: u8) -> bool
    ensures { result ≡ spelled quote true (b ∷ []) }
{
    b == byte::BACKSLASH || b == quote
}

// Whether bytes may stand between two quotes: no bad escape, and no quote that would close them.
fn is_spelled(text: &[u8], quote: u8) -> bool
    ensures { result ≡ spelled quote false text.now }
{
    // a turn passes a run and the byte after a backslash, so that no `for` gives its places
    let mut i = 0;
    while i < text.len() {
        let p = scan::plain_end_by_blocks(text, i, quote);
        if text.len() <= p {
            return true;
        }
        if text[p] == quote {
            return false;
        }
        let next = p + 1;
        if text.len() <= next || !may_follow(text[next], quote) {
            return false;
        }
        i = next + 1;
    }
    true
}

// Whether a span lies inside the slice and may stand between two quotes.
#[tactic(auto, unfolding(format::specs::Sound::spelled_in, format::specs::Sound::in_slice))]
fn spelled_in(message: &[u8], quote: u8, start: u32, n: u32) -> bool
    ensures { result ≡ spelled_in message.now quote start n }
{
    let from = start as usize;
    in_slice(message, start, n) && is_spelled(&message[from..from + n as usize], quote)
}

// Whether an atom, a string or a binary is sound by its words: its spare word is zero, and its span lies inside the slice.
fn sound_span(message: &[u8], words: RowWords) -> bool
    ensures { result ≡ (eqb words.third 0 && in_slice message.now words.first words.second) }
{
    words.third == 0 && in_slice(message, words.first, words.second)
}

// Whether an empty list or a tuple's end is sound: its words are all spare.
fn sound_end(words: RowWords) -> bool
    ensures { result ≡ (eqb words.first 0 && eqb words.second 0 && eqb words.third 0) }
{
    words.first == 0 && words.second == 0 && words.third == 0
}

// Whether row n, a list cell or a tuple's field, is sound by its own words: its spare word is zero, and it refers to two earlier rows.
fn sound_cell(n: Row, words: RowWords) -> bool
    ensures { result ≡ (eqb words.third 0 && ltb words.first n.0 && ltb words.second n.0) }
{
    words.third == 0 && words.first < n.0 && words.second < n.0
}

// Whether row n is sound by its words: its kind is known, its spare words are zero, its span lies in the slice, and it refers to earlier rows only.
#[tactic(auto, unfolding(crate::specs::Parts::sound_words))]
pub fn sound_words(message: &[u8], n: Row, words: RowWords) -> bool
    ensures { result ≡ sound_words message.now n.0 (row_of words) }
{
    // an arm for each kind: with or-patterns a text of tuples takes 8 % more instructions to write
    match Kind::try_from(words.kind) {
        Ok(Kind::Integer) => words.third == 0,
        Ok(Kind::Atom) => sound_span(message, words),
        Ok(Kind::String) => sound_span(message, words),
        Ok(Kind::Binary) => sound_span(message, words),
        Ok(Kind::Nil) => sound_end(words),
        Ok(Kind::Cons) => sound_cell(n, words),
        Ok(Kind::End) => sound_end(words),
        Ok(Kind::Field) => sound_cell(n, words),
        Ok(Kind::Tag) => words.third < n.0 && in_slice(message, words.first, words.second),
        Err(_) => false,
    }
}

// The quote of the texts of a kind; 0, as in its definition, for a kind that has none. A binary has none, since its bytes are not judged; the writer's
// `quote_of` in `leaves` has `~` for it, and none for tags: each has a definition of its own.
#[tactic(auto, unfolding(crate::specs::Parts::quote_of))]
fn quote_of(k: u32) -> u8
    ensures { result ≡ quote_of k }
{
    match Kind::try_from(k) {
        Ok(Kind::Atom) => byte::ATOM_QUOTE,
        Ok(Kind::String) => byte::STRING_QUOTE,
        Ok(Kind::Tag) => byte::TAG_QUOTE,
        _ => 0,
    }
}

// Whether a row is sound by its text: that of an atom, a string or a tag lies inside the slice, as it may be spelled there. Asked apart from its words, since a
// function for both would be too large for the compiler to put into the loops over rows.
#[tactic(auto, unfolding(crate::specs::Parts::sound_text))]
pub fn sound_text(message: &[u8], words: RowWords) -> bool
    ensures { result ≡ sound_text message.now (row_of words) }
{
    let quote = quote_of(words.kind);
    quote == 0 || spelled_in(message, quote, words.first, words.second)
}

// Whether a row of this kind is a tuple, or the rest of one. By numbers, as `table::is_list`.
#[tactic(auto, unfolding(format::specs::Rows::is_tuple_kind))]
fn is_tuple(k: u32) -> bool
    ensures { result ≡ is_tuple_kind k }
{
    k == Kind::End as u32 || k == Kind::Field as u32
}

// Whether a row of one kind may have a rest of the other: a list cell a list, a tuple's field a tuple. No other row has a rest, so
// that any will do.
#[tactic(auto, unfolding(format::specs::Sound::sound_rest))]
pub fn sound_rest(kind: u32, rest: u32) -> bool
    ensures { result ≡ sound_rest kind rest }
{
    match Kind::try_from(kind) {
        Ok(Kind::Cons) => table::is_list(rest),
        Ok(Kind::Field) => is_tuple(rest),
        _ => true,
    }
}

// Whether a row may have the rest that it refers to. The rest is read only of a list cell or a tuple's field: its row is then there.
#[tactic(auto, unfolding(format::specs::Sound::sound_rest))]
pub fn rest_fits(rows: &[u32], words: RowWords) -> bool
    requires { (words.kind ≡ cons_kind → words.second < row_room rows.now) × (words.kind ≡ field_kind → words.second < row_room rows.now) }
    ensures { result ≡ sound_rest words.kind (row_in rows.now words.second).kind }
{
    let k = words.kind;
    match Kind::try_from(k) {
        Ok(Kind::Cons | Kind::Field) => sound_rest(k, read_row(rows, Row(words.second)).kind),
        _ => true,
    }
}

// Whether a table has room for the rows claimed.
#[tactic(auto, unfolding(format::specs::Sound::count_fits))]
pub fn count_fits(rows: &[u32], used: u32) -> bool
    ensures { result ≡ count_fits rows.now used }
{
    (used as usize) <= row_room(rows)
}

// Whether the root is among the rows claimed.
#[tactic(auto, unfolding(format::specs::Sound::root_among))]
pub fn root_among(used: u32, root: Row) -> bool
    ensures { result ≡ root_among used root.0 }
{
    root.0 < used
}

// Whether every row is sound by its own words and by its rest, which is then known to be an earlier row. `measure::judge` asks the same and measures in one
// pass.
fn sound_rows(message: &[u8], rows: &[u32], used: u32) -> bool
    requires { used ≤ row_room rows.now }
    ensures { result ≡ sound_rows message.now (rows_of used rows.now) }
{
    for i in 0..used {
        let words = read_row(rows, Row(i));
        // three tests: joined by `||` they cost an instruction a row
        if !sound_words(message, Row(i), words) {
            return false;
        }
        if !sound_text(message, words) {
            return false;
        }
        if !rest_fits(rows, words) {
            return false;
        }
    }
    true
}

// Whether a table is sound; refusal 16 is given exactly where it is not.
#[tactic(auto, unfolding(format::specs::Sound::sound_table, format::specs::Sound::count_fits))]
pub fn sound_table(table: Table) -> bool
    ensures { result ≡ sound_table table.entry.message.now table.entry.rows.now table.entry.used table.entry.root.0 }
{
    // each slice is lent anew, so that the compiler can pass it in registers
    count_fits(&table.rows[..], table.used)
        && root_among(table.used, table.root)
        && sound_rows(&table.message[..], &table.rows[..], table.used)
}
