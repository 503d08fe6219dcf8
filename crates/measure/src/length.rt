//! The length of a row's text, from the lengths of the texts of earlier rows.
ghost use Rattle.std.specs.Prelude.{◌≡◌, ◌+◌, ◌*◌, ◌^◌, ◌<◌, length};
ghost use Rattle.format.specs.Bits.{from_bits};
ghost use Rattle.format.specs.Term as T;
ghost use Rattle.table.specs.Words.{row_of};
ghost use Rattle.measure.specs.Lengths.{text_length, named, below, own_length, row_length, capped, length_in};

use format::kind::Kind;
use leaves::{decimal, leaf};
use table::RowWords;

// The largest length that a word holds: it stands for itself and for all above.
pub const LONGEST: u32 = 4294967295;

// A length in a word.
#[tactic(auto, unfolding(crate::specs::Lengths::capped))]
pub(crate) fn cap(n: u64) -> u32
    ensures { result ≡ capped n }
{
    n.min(LONGEST as u64) as u32
}

// The length of an integer, by the halves of its two's complement: its digits, a minus where it is negative, one blank.
fn integer_length(high: u32, low: u32) -> u64
    ensures { result ≡ text_length (T.int (from_bits 64 (high * 2 ^ 32 + low))) }
{
    let z = leaf::from_halves(high, low);
    let digits = decimal::digit_count(z.magnitude) as u64;
    if z.negative { digits + 2 } else { digits + 1 }
}

// The length of what is a row's own of its text, without the rows that it names. A cell's rest has the `#` or the braces.
#[tactic(auto, unfolding(crate::specs::Lengths::own_length, format::specs::Rows::integer_of_row))]
pub fn own_length(words: RowWords) -> u64
    ensures { result ≡ own_length (row_of words) }
{
    let n = words.second as u64;
    match Kind::try_from(words.kind) {
        Ok(Kind::Integer) => integer_length(words.first, words.second),
        Ok(Kind::Atom | Kind::String) => n + 2,
        Ok(Kind::Binary) => (decimal::digit_count(n) as u64) + (n + 2),
        Ok(Kind::Nil | Kind::Cons) => 1,
        Ok(Kind::End) => 2,
        Ok(Kind::Field) => 0,
        // a tag; a sound table has no unknown kind
        Ok(Kind::Tag) | Err(_) => n + 2,
    }
}

// The length that a row's word holds.
fn length_at(lengths: &[u32], row: u32) -> u64
    requires { row < length lengths.now }
    ensures value { result ≡ length_in lengths.now row }
    ensures upper_bound { result < 2 ^ 32 }
{
    lengths[row as usize] as u64
}

// The length of a row's text. No sum wraps, since each part is a word's.
#[tactic(auto, unfolding(crate::specs::Lengths::row_length, crate::specs::Lengths::named, crate::specs::Lengths::total, crate::specs::Lengths::own_length))]
pub(crate) fn row_length(lengths: &[u32], words: RowWords) -> u64
    requires { below (length lengths.now) (named (row_of words)) }
    ensures { result ≡ row_length (length_in lengths.now) (row_of words) }
{
    match Kind::try_from(words.kind) {
        Ok(Kind::Cons) => length_at(lengths, words.first) + length_at(lengths, words.second) + 1,
        Ok(Kind::Field) => length_at(lengths, words.first) + length_at(lengths, words.second),
        Ok(Kind::Tag) => length_at(lengths, words.third) + ((words.second as u64) + 2),
        _ => own_length(words),
    }
}
