//! The text of a leaf, which is a row that names no other: its bytes stored part by part.
ghost use Rattle.std.specs.Prelude.{◌≡◌, false, [], ◌+◌, ◌*◌, ◌^◌};
ghost use Rattle.format.specs.Bits.{from_bits};
ghost use Rattle.format.specs.Term as T;
ghost use Rattle.format.specs.Text.{between, text_on};
ghost use Rattle.format.specs.Kinds.{kind_number};
ghost use Rattle.table.specs.Words.{row_of};
ghost use Rattle.leaves.specs.Leaves.{integer_bytes, quote_of, count_bytes, bytes_of, empty_tuple, is_leaf_kind, leaf_bytes, Inside};
ghost use Rattle.leaves.specs.Outputs.{HasRoom, Wrote};

use crate::output::Output;
use crate::{decimal, span};
use format::byte;
use format::kind::Kind;
use table::{RowWords, SIGN_BIT, WORD_VALUES};

// The sign and the magnitude of an integer.
#[derive(Clone, Copy, Debug, PartialEq, Eq)]
pub struct Signed {
    pub negative: bool,
    pub magnitude: u64,
}

// An integer by the halves of its two's complement. No `From`: the two words are no value of a type.
pub fn from_halves(high: u32, low: u32) -> Signed
    ensures { integer_bytes result.negative result.magnitude ≡ text_on (T.int (from_bits 64 (high * 2 ^ 32 + low))) [] }
{
    let bits = (high as u64) * WORD_VALUES + (low as u64);
    if high < SIGN_BIT {
        return Signed {
            negative: false,
            magnitude: bits,
        };
    }
    Signed {
        negative: true,
        magnitude: 18446744073709551615 - bits + 1,
    }
}

// Stores a magnitude and its blank.
fn put_magnitude(output: &mut Output, n: u64)
    requires { HasRoom output.old (integer_bytes false n) }
    ensures { Wrote output.old (integer_bytes false n) output.new }
{
    decimal::put_decimal(output, n);
    output.put_byte(byte::BLANK);
}

// Stores an integer and its blank. To join the two calls takes up to 2.2 % more instructions to write lists.
fn put_integer(output: &mut Output, negative: bool, n: u64)
    requires { HasRoom output.old (integer_bytes negative n) }
    ensures { Wrote output.old (integer_bytes negative n) output.new }
{
    if negative {
        output.put_byte(byte::MINUS);
        put_magnitude(output, n);
        return;
    }
    put_magnitude(output, n);
}

// Stores a span between two of a quote.
pub fn put_quoted(bytes: &[u8], output: &mut Output, quote: u8)
    requires { HasRoom output.old (between quote bytes.now []) }
    ensures { Wrote output.old (between quote bytes.now []) output.new }
{
    output.put_byte(quote);
    span::put_span(bytes, output);
    output.put_byte(quote);
}

// What stands before and after the bytes of an atom, a string or a binary. That of `sound` has none for a binary, and one for a tag.
#[tactic(auto, unfolding(crate::specs::Leaves::quote_of))]
fn quote_of(k: Kind) -> u8
    ensures { result ≡ quote_of (kind_number k) }
{
    match k {
        Kind::Atom => byte::ATOM_QUOTE,
        Kind::String => byte::STRING_QUOTE,
        // a binary; the other kinds have no such bytes
        _ => byte::TILDE,
    }
}

// Stores the count of n bytes, where they are a binary's.
#[tactic(auto, unfolding(crate::specs::Leaves::count_bytes))]
fn put_count(output: &mut Output, k: Kind, n: usize)
    requires { HasRoom output.old (count_bytes (kind_number k) n) }
    ensures { Wrote output.old (count_bytes (kind_number k) n) output.new }
{
    if k == Kind::Binary {
        decimal::put_decimal(output, n as u64);
    }
}

// Stores an atom, a string or a binary: one copy of the code for all three.
fn put_bytes(bytes: &[u8], output: &mut Output, k: Kind)
    requires { HasRoom output.old (bytes_of (kind_number k) bytes.now) }
    ensures { Wrote output.old (bytes_of (kind_number k) bytes.now) output.new }
{
    put_count(output, k, bytes.len());
    put_quoted(bytes, output, quote_of(k));
}

// Whether a row of this kind is a leaf.
#[tactic(auto, unfolding(crate::specs::Leaves::is_leaf_kind))]
pub fn is_leaf(k: u32) -> bool
    ensures { result ≡ is_leaf_kind k }
{
    // by numbers, as `is_leaf_kind` has it: 0, which is no kind's number, is a leaf's too
    k <= Kind::Nil as u32 || k == Kind::End as u32
}

// Stores the integer of a row.
fn put_halves(output: &mut Output, high: u32, low: u32)
    requires { HasRoom output.old (text_on (T.int (from_bits 64 (high * 2 ^ 32 + low))) []) }
    ensures { Wrote output.old (text_on (T.int (from_bits 64 (high * 2 ^ 32 + low))) []) output.new }
{
    let z = from_halves(high, low);
    put_integer(output, z.negative, z.magnitude);
}

// Stores the empty tuple.
fn put_braces(output: &mut Output)
    requires { HasRoom output.old empty_tuple }
    ensures { Wrote output.old empty_tuple output.new }
{
    output.put_byte(byte::LEFT_BRACE);
    output.put_byte(byte::RIGHT_BRACE);
}

// Stores a leaf's text. Put into each of the walk's three calls: without, lists take up to 17 % more instructions.
#[inline(always)]
#[tactic(auto, using(crate::proofs::Leaves::as_bytes), unfolding(crate::specs::Leaves::leaf_bytes, crate::specs::Leaves::is_span_kind, crate::specs::Leaves::Inside, format::specs::Rows::integer_of_row))]
pub fn put(message: &[u8], output: &mut Output, words: RowWords)
    requires inside { Inside message.now (row_of words) }
    requires room { HasRoom output.old (leaf_bytes message.now (row_of words)) }
    ensures { Wrote output.old (leaf_bytes message.now (row_of words)) output.new }
{
    match Kind::try_from(words.kind) {
        Ok(Kind::Integer) => put_halves(output, words.first, words.second),
        Ok(k @ (Kind::Atom | Kind::String | Kind::Binary)) => {
            put_bytes(table::span(message, words), output, k);
        },
        Ok(Kind::Nil) => output.put_byte(byte::HASH),
        // a tuple's end; a row of no other kind is a leaf
        _ => put_braces(output),
    }
}
