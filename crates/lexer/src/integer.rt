//! An integer: its sign and its digits.
ghost use Rattle.std.specs.Prelude.{◌≡◌, ◌+◌, ◌*◌, ◌≤◌, ◌<◌, min, false, drop};
ghost use Rattle.lexer.specs.Integer.{magnitude_cap, integer_from};
ghost use Rattle.lexer.specs.Digits.{small, digits_from, signed_from};
ghost use Rattle.lexer.specs.declared.integer.Begun.TheVariants as Begun;

use format::{Offset, byte, class};

// An integer of which the first bytes are read: a minus, or digits. Of digits, whether a minus stands before them, and their value,
// which need not be exact past the largest magnitude.
#[derive(Clone, Copy, Debug, PartialEq, Eq)]
pub enum Begun {
    Minus,
    Digits(bool, u64),
}

// An integer: the 64 bits of its two's complement, with the place after it.
#[derive(Clone, Copy, Debug, PartialEq, Eq)]
pub struct Integer {
    pub bits: u64,
    pub end: Offset,
}

// Why there is none: it is out of range, a byte is not allowed there, or the slice ended, with what is begun.
#[derive(Clone, Copy, Debug, PartialEq, Eq)]
pub enum NoInteger {
    OutOfRange,
    Stray(Offset),
    Ended(Begun),
}

// A run of digits: its value, with the place after it.
#[derive(Clone, Copy, Debug, PartialEq, Eq)]
struct Digits {
    value: u64,
    end: Offset,
}

// The largest magnitude, of the least integer, and one more, which stands for all above it.
const LARGEST: u64 = 9223372036854775808;

const CAP: u64 = 9223372036854775809;

// The largest value that a digit can follow within the cap.
const LARGEST_SHIFTED: u64 = 922337203685477580;

// A value so small that it is not near the cap with a digit more.
const SMALL: u64 = 2000000000;

// A value, at most the cap.
fn capped(v: u64) -> u64
    ensures { result ≡ min v magnitude_cap }
{
    if v > CAP { CAP } else { v }
}

// The value with a digit more, at most the cap.
fn shifted(v: u64, digit: u64) -> u64
    requires { digit < 10 }
    ensures { result ≡ min (v * 10 + digit) magnitude_cap }
{
    if v > LARGEST_SHIFTED {
        CAP
    } else {
        v * 10 + digit
    }
}

// Digits from `from` on, after digits worth `v`; or what they are worth at the slice's end.
fn read_digits(message: &[u8], from: Offset, v: u64) -> Result<Digits, u64>
    ensures { result ≡ digits_from v from.0 (drop from.0 message.now) }
{
    let mut value = capped(v);
    for i in from.0..message.len() {
        let b = message[i];
        if !class::is_digit(b) {
            let end = Offset(i);
            return Ok(Digits { value, end });
        }
        value = shifted(value, (b - byte::ZERO) as u64);
    }
    Err(value)
}

// The integer that digits come to.
fn signed(digits: Result<Digits, u64>, negative: bool) -> Result<Integer, NoInteger>
    ensures { result ≡ signed_from negative digits }
{
    match digits {
        Err(v) => Err(NoInteger::Ended(Begun::Digits(negative, v))),
        Ok(Digits { value: v, end }) => {
            if negative {
                if v > LARGEST {
                    return Err(NoInteger::OutOfRange);
                }
                if v == 0 {
                    return Ok(Integer { bits: 0, end });
                }
                let bits = (18446744073709551615 - v) + 1;
                return Ok(Integer { bits, end });
            }
            if v >= LARGEST {
                return Err(NoInteger::OutOfRange);
            }
            Ok(Integer { bits: v, end })
        }
    }
}

// Reads digits on from `from`, however many, after a sign and digits worth `v`.
fn read_long(message: &[u8], from: Offset, negative: bool, v: u64) -> Result<Integer, NoInteger>
    ensures { result ≡ integer_from (Begun.Digits negative v) from.0 (drop from.0 message.now) }
{
    signed(read_digits(message, from, v), negative)
}

// Reads digits on from `from`, with no sign before them. While their value is small, no digit can bring it out of range.
// A `while`, since a `for` over the places took 12 instructions in a hundred more on messages of short integers.
fn read_short(message: &[u8], from: Offset, v: u64) -> Result<Integer, NoInteger>
    requires { v ≤ small }
    ensures { result ≡ integer_from (Begun.Digits false v) from.0 (drop from.0 message.now) }
{
    let mut i = from.0;
    let mut value = v;
    while i < message.len() {
        let b = message[i];
        let next = i + 1;
        if !class::is_digit(b) {
            let end = Offset(i);
            return Ok(Integer { bits: value, end });
        }
        value = value * 10 + ((b - byte::ZERO) as u64);
        i = next;
        if SMALL < value {
            return read_long(message, Offset(i), false, value);
        }
    }
    Err(NoInteger::Ended(Begun::Digits(false, value)))
}

// Reads on from `from`, after digits that have no sign before them.
fn read_natural(message: &[u8], from: Offset, v: u64) -> Result<Integer, NoInteger>
    ensures { result ≡ integer_from (Begun.Digits false v) from.0 (drop from.0 message.now) }
{
    if SMALL < v {
        return read_long(message, from, false, v);
    }
    read_short(message, from, v)
}

// Reads on from `from`; after a minus a digit has to come.
pub fn read_integer(message: &[u8], from: Offset, begun: Begun) -> Result<Integer, NoInteger>
    ensures { result ≡ integer_from begun from.0 (drop from.0 message.now) }
{
    match begun {
        Begun::Digits(negative, v) => {
            if negative {
                return read_long(message, from, true, v);
            }
            read_natural(message, from, v)
        }
        Begun::Minus => {
            let i = from.0;
            if message.len() <= i {
                return Err(NoInteger::Ended(Begun::Minus));
            }
            let b = message[i];
            if !class::is_digit(b) {
                return Err(NoInteger::Stray(from));
            }
            read_long(message, Offset(i + 1), true, (b - byte::ZERO) as u64)
        }
    }
}
