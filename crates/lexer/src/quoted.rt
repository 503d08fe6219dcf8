//! Quoted text: the bytes of an atom, a string, a tag or a comment after its opening quote.
ghost use Rattle.std.specs.Prelude.{false, ◌≡◌, ◌≤◌, drop};
ghost use Rattle.lexer.specs.Quoted.{quoted_from};

use format::{Offset, byte};

// Bytes of a name that are looked at first.
const NEAR: usize = 16;

// Closed text: how many bytes were read before its closing quote, with the place after it.
#[derive(Clone, Copy, Debug, PartialEq, Eq)]
pub struct Quoted {
    pub count: usize,
    pub end: Offset,
}

// Why none was found: a byte is not allowed there, or the slice ended, and whether a backslash is the last byte read.
#[derive(Clone, Copy, Debug, PartialEq, Eq)]
pub enum Unclosed {
    Stray(Offset),
    Ended(bool),
}

// Reads on from `from` to the closing quote; `escaped` says that the byte before is a backslash that escapes the next.
pub fn read_quoted(
    message: &[u8],
    from: Offset,
    quote: u8,
    escaped: bool,
) -> Result<Quoted, Unclosed>
    ensures { result ≡ quoted_from quote escaped from.0 (drop from.0 message.now) }
{
    let start = from.0;
    let mut i = start;
    let mut open = escaped;
    // a turn passes a run, or the byte after a backslash, so that no `for` gives its places
    while i < message.len() {
        if open {
            let b = message[i];
            if b != byte::BACKSLASH && b != quote {
                return Err(Unclosed::Stray(Offset(i)));
            }
            open = false;
            i += 1;
        } else {
            let p = scan::plain_end(message, i, quote);
            if message.len() <= p {
                return Err(Unclosed::Ended(false));
            }
            let next = p + 1;
            if message[p] == quote {
                let (count, end) = (p - start, Offset(next));
                return Ok(Quoted { count, end });
            }
            open = true;
            i = next;
        }
    }
    Err(Unclosed::Ended(open))
}

// The end of the first bytes of a name, before n.
fn near(start: usize, n: usize) -> usize
    requires { start ≤ n }
    ensures { (start ≤ result) × (result ≤ n) }
{
    if n - start < NEAR {
        return n;
    }
    start + NEAR
}

// The same as `read_quoted` from the opening quote on, for text that mostly is a short name: it is small enough for the compiler to put it into the caller's
// loop, and leaves to `read_quoted` what the first bytes do not tell (DECISIONS.md, 'Names in the loop').
pub fn read_name(message: &[u8], from: Offset, quote: u8) -> Result<Quoted, Unclosed>
    ensures { result ≡ quoted_from quote false from.0 (drop from.0 message.now) }
{
    let start = from.0;
    if start < message.len() {
        let end = near(start, message.len());
        let p = scan::plain_end_by_blocks(&message[..end], start, quote);
        if p < end && message[p] == quote {
            let (count, end) = (p - start, Offset(p + 1));
            return Ok(Quoted { count, end });
        }
    }
    read_quoted(message, from, quote, false)
}
