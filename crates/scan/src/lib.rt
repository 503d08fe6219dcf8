//! Runs of plain bytes in quoted text: neither the quote nor a backslash (01, 'Bytes and items').
//! A block is looked through to its end and not up to its first mark, so that the compiler can look at many bytes at once.
//!
//! The bytes are one slice with a place in it, and nothing is asked of either: past the end the answer is the place itself. A slice that begins at the place,
//! whose first plain bytes are counted, takes 1.4 to 5 % more instructions to decode short texts and tags, and 4 % more to write atoms of 38 bytes.
#![tactic(auto)]

ghost use Rattle.std.specs.Prelude.{◌≡◌, ◌≤◌, length};
ghost use Rattle.scan.specs.Plain.{mark_count, plain_end};

use format::byte;

// Bytes of a block. With 16, 32 or 64 the compiler makes another loop of the decoder, where short integers take 2 to 3 % more instructions.
const BLOCK: usize = 48;

// Bytes looked at one by one before blocks are.
const SHORT: usize = 16;

// 1 for a byte that ends a run, 0 for a plain one.
fn mark(b: u8, quote: u8) -> u8
    ensures { result ≡ mark_count quote b }
{
    u8::from(b == quote || b == byte::BACKSLASH)
}

// The marks of a block's bytes, joined: 0 where each is plain.
fn marks_in_block(block: &[u8], quote: u8) -> u8
    ensures { result ≡ 0 → plain_end quote block.now 0 ≡ length block.now }
{
    // by `|`: a sum could wrap, and takes longer; decoding strings of 398 bytes takes 6 % more instructions with `bool`, and 37 % more with `any`
    let mut marks = 0;
    for &b in block {
        marks |= mark(b, quote);
    }
    marks
}

// Past the blocks that are all plain: a block with a mark follows, or less than a block.
fn plain_blocks(bytes: &[u8], from: usize, quote: u8) -> usize
    ensures { (from ≤ result) × (plain_end quote bytes.now result ≡ plain_end quote bytes.now from) }
{
    if bytes.len() <= from {
        return from;
    }
    // no `chunks_exact`: with it the compiler makes other loops around this one, where short integers take 2.3 % more instructions to decode
    let mut i = from;
    while BLOCK <= bytes.len() - i {
        if marks_in_block(&bytes[i..i + BLOCK], quote) != 0 {
            return i;
        }
        i += BLOCK;
    }
    i
}

// The answer of `plain_end`, looked for byte by byte.
fn plain_until(bytes: &[u8], from: usize, quote: u8) -> usize
    ensures { result ≡ plain_end quote bytes.now from }
{
    // no `for`: past the end the answer is `from`, and with it binaries with a tag take 2.2 % more instructions to decode; with `mark`, short texts 3.6 % more
    let mut i = from;
    while i < bytes.len() {
        let b = bytes[i];
        if b == quote || b == byte::BACKSLASH {
            return i;
        }
        i += 1;
    }
    i
}

// The first place from `from` on at which the quote or a backslash stands, or the end. It looks at blocks from the first byte on.
pub fn plain_end_by_blocks(bytes: &[u8], from: usize, quote: u8) -> usize
    ensures { result ≡ plain_end quote bytes.now from }
{
    plain_until(bytes, plain_blocks(bytes, from, quote), quote)
}

// The same for texts of which most are short: it looks at some bytes one by one before it looks at blocks. Two functions, for speed: DECISIONS.md, 'Code that
// is shared'.
pub fn plain_end(bytes: &[u8], from: usize, quote: u8) -> usize
    ensures { result ≡ plain_end quote bytes.now from }
{
    if bytes.len() <= from || bytes.len() - from <= SHORT {
        return plain_until(bytes, from, quote);
    }
    let soon = from + SHORT;
    let i = plain_until(&bytes[..soon], from, quote);
    if i < soon {
        return i;
    }
    plain_end_by_blocks(bytes, soon, quote)
}
