//! The rows judged, and the lengths of their texts measured, without writing them.
#![tactic(auto)]

ghost use Rattle.std.specs.Prelude.{[], ◌≡◌, ◌≤◌, T, length};
ghost use Rattle.format.specs.Rows.{rows_of, row_room};
ghost use Rattle.format.specs.Sound.{sound_rows};
ghost use Rattle.measure.specs.Lengths.{Measured, lengths_after};

use format::Row;

pub mod length;

// Whether the rows are sound, from row 0 up. The word of each row gets the length of its text, up to the first that is not sound. One pass for both: a row that is judged is at hand to be measured.
pub fn judge(message: &[u8], rows: &[u32], lengths: &mut [u32]) -> bool
    requires { length lengths.old ≤ row_room rows.now }
    ensures value { result ≡ sound_rows message.now (rows_of (length lengths.old) rows.now) }
    ensures measured { T (sound_rows message.now (rows_of (length lengths.old) rows.now)) → Measured message.now (rows_of (length lengths.old) rows.now) lengths.new (length lengths.old) }
    ensures lengths_after { lengths.new ≡ lengths_after message.now [] (rows_of (length lengths.old) rows.now) lengths.old }
{
    for i in 0..lengths.len() {
        let n = Row(i as u32);
        let words = table::read_row(rows, n);
        // three tests: joined by `||` they cost an instruction a row
        if !sound::sound_words(message, n, words) {
            return false;
        }
        if !sound::sound_text(message, words) {
            return false;
        }
        if !sound::rest_fits(rows, words) {
            return false;
        }
        let bytes = length::row_length(lengths, words);
        lengths[i] = length::cap(bytes);
    }
    true
}
