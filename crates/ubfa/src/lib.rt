//! The C interface of include/ubfa.h: exported functions on numbers and lent slices. Each hands on to the library's function, which refuses bad lengths, and
//! answers the paper's numbers and values.
#![tactic(auto)]

ghost use Rattle.std.specs.Prelude.{◌≡◌, List, ℕ, ◌≤◌};
ghost use Rattle.format.specs.Answer.{Tables, decode_answer, write_answer, compare_answer, word_answer, tables};
ghost use Rattle.format.specs.Bound.{message_bound};
ghost use Rattle.decoder.specs.Answers.{decoded_as};
ghost use Rattle.text.specs.Answers.{written_as};
ghost use Rattle.comparison.specs.Answers.{compared_as};
ghost use Rattle.words.specs.Answers.{word_as};
ghost use Rattle.ubfa.specs.Answers.{decoded_struct, written_struct, compared_struct, word_struct};

use decoder::Accepted;
use format::Row;
use format::refusal::{Refusal, Refused};
use table::Table;

// 0, bytes consumed, root row and rows used; or a refusal's number, its place, 0 and 0.
#[repr(C)]
#[derive(Clone, Copy, Debug, PartialEq, Eq)]
pub struct UbfaDecoded {
    pub number: u32,
    pub place: u32,
    pub root: u32,
    pub rows: u32,
}

// 0 and the bytes written; or a refusal's number and 0.
#[repr(C)]
#[derive(Clone, Copy, Debug, PartialEq, Eq)]
pub struct UbfaWritten {
    pub number: u32,
    pub bytes: u64,
}

// 0 and 1 for equal, 0 and 0 for different; or a refusal's number and 0.
#[repr(C)]
#[derive(Clone, Copy, Debug, PartialEq, Eq)]
pub struct UbfaCompared {
    pub number: u32,
    pub equal: u32,
}

// 0 and the word; or a refusal's number and 0.
#[repr(C)]
#[derive(Clone, Copy, Debug, PartialEq, Eq)]
pub struct UbfaWord {
    pub number: u32,
    pub value: i64,
}

// The numbers of what `decode` answers. A place is at most the message bound, so it fits a word: `From` could not ask for that.
fn decoded_numbers(answer: Result<Accepted, Refused>) -> UbfaDecoded
    requires { (t : Tables) → (decoded_as answer t).place ≤ message_bound }
    ensures { (t : Tables) → decoded_struct result t ≡ decoded_as answer t }
{
    match answer {
        Ok(accepted) => UbfaDecoded {
            number: 0,
            place: accepted.consumed as u32,
            root: accepted.root.0,
            rows: accepted.used,
        },
        Err(refused) => UbfaDecoded {
            number: refused.refusal.into(),
            place: refused.place.0 as u32,
            root: 0,
            rows: 0,
        },
    }
}

// The numbers of what `write` answers.
impl From<Result<usize, Refusal>> for UbfaWritten {
    ghost from_gives = { λ answer numbers. (scratch output : List ℕ) → written_struct numbers scratch output ≡ written_as answer scratch output };

    fn from(answer: Result<usize, Refusal>) -> UbfaWritten {
        match answer {
            Ok(n) => UbfaWritten {
                number: 0,
                bytes: n as u64,
            },
            Err(refusal) => UbfaWritten {
                number: refusal.into(),
                bytes: 0,
            },
        }
    }
}

// The numbers of what `compare` answers.
impl From<Result<bool, Refusal>> for UbfaCompared {
    ghost from_gives = { λ answer numbers. (scratch : List ℕ) → compared_struct numbers scratch ≡ compared_as answer scratch };

    fn from(answer: Result<bool, Refusal>) -> UbfaCompared {
        match answer {
            Ok(same) => UbfaCompared {
                number: 0,
                equal: u32::from(same),
            },
            Err(refusal) => UbfaCompared {
                number: refusal.into(),
                equal: 0,
            },
        }
    }
}

// The numbers of what `read_word` answers.
impl From<Result<i64, Refusal>> for UbfaWord {
    ghost from_gives = { λ answer numbers. word_struct numbers ≡ word_as answer };

    fn from(answer: Result<i64, Refusal>) -> UbfaWord {
        match answer {
            Ok(value) => UbfaWord { number: 0, value },
            Err(refusal) => UbfaWord {
                number: refusal.into(),
                value: 0,
            },
        }
    }
}

// A table as it is lent.
fn table_of<'a>(message: &'a [u8], rows: &'a [u32], used: u32, root: u32) -> Table<'a>
    ensures { (result.message.now ≡ message.now) × (result.rows.now ≡ rows.now) × (result.used ≡ used) × (result.root.0 ≡ root) }
{
    Table {
        message,
        rows,
        used,
        root: Row(root),
    }
}

// Decodes a message into `rows`; the other tables are working memory.
#[unsafe(no_mangle)]
pub extern "C" fn ubfa_decode(
    message: &[u8],
    rows: &mut [u32],
    stack: &mut [u32],
    marks: &mut [u32],
    registers: &mut [u32],
) -> UbfaDecoded
    ensures { decoded_struct result (tables rows.new stack.new marks.new registers.new) ≡ decode_answer message.now (tables rows.old stack.old marks.old registers.old) }
{
    decoded_numbers(decoder::decode(message, rows, stack, marks, registers))
}

// Writes the plain text of row `root` at the head of the output; the scratch is working memory.
#[unsafe(no_mangle)]
pub extern "C" fn ubfa_write(
    message: &[u8],
    rows: &[u32],
    used: u32,
    root: u32,
    scratch: &mut [u32],
    output: &mut [u8],
) -> UbfaWritten
    ensures { written_struct result scratch.new output.new ≡ write_answer message.now rows.now used root scratch.old output.old }
{
    text::write(table_of(message, rows, used, root), scratch, output).into()
}

// Says whether the plain texts of two rows are the same bytes; the scratch is working memory.
#[unsafe(no_mangle)]
pub extern "C" fn ubfa_compare(
    message_a: &[u8],
    rows_a: &[u32],
    used_a: u32,
    root_a: u32,
    message_b: &[u8],
    rows_b: &[u32],
    used_b: u32,
    root_b: u32,
    scratch: &mut [u32],
) -> UbfaCompared
    ensures { compared_struct result scratch.new ≡ compare_answer message_a.now rows_a.now used_a root_a message_b.now rows_b.now used_b root_b scratch.old }
{
    comparison::compare(
        table_of(message_a, rows_a, used_a, root_a),
        table_of(message_b, rows_b, used_b, root_b),
        scratch,
    )
    .into()
}

// Reads word k of the sensor block at a row.
#[unsafe(no_mangle)]
pub extern "C" fn ubfa_read_word(
    message: &[u8],
    rows: &[u32],
    used: u32,
    row: u32,
    k: u64,
) -> UbfaWord
    ensures { word_struct result ≡ word_answer message.now rows.now used row k }
{
    words::read_word(table_of(message, rows, used, row), k).into()
}
