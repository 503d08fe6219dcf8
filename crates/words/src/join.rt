//! Bytes joined to a word, in either order.
ghost use Rattle.std.specs.Prelude.{◌≡◌, ◌*◌, ◌^◌, ◌≤◌, ◌<◌, cond, pos, length};
ghost use Rattle.format.specs.Bits.{from_bits};
ghost use Rattle.format.specs.Word.{joined};
ghost use Rattle.words.specs.Known.{order_of};

use crate::layout::{Layout, Order};

// Bits of a byte.
pub(crate) const BYTE_BITS: usize = 8;

// Bytes joined in an order.
pub(crate) fn join(bytes: &[u8], order: Order) -> u64
    requires { 8 * length bytes.now ≤ 64 }
    ensures { result ≡ joined (order_of order) bytes.now }
{
    match order {
        Order::Big => bytes
            .iter()
            .fold(0, |high, b| high << BYTE_BITS | u64::from(*b)),
        Order::Little => bytes
            .iter()
            .rev()
            .fold(0, |high, b| high << BYTE_BITS | u64::from(*b)),
    }
}

// The number that the bits of a word are: two's complement where it is signed.
pub(crate) fn number(bits: u64, layout: Layout) -> i64
    requires { bits < 2 ^ (8 * layout.width) }
    ensures { result ≡ cond layout.signed (from_bits (8 * layout.width) bits) (pos bits) }
{
    if !layout.signed {
        return bits as i64;
    }
    let values = 1u64 << (BYTE_BITS * layout.width);
    if bits < values / 2 {
        return bits as i64;
    }
    (bits as i64) - (values as i64)
}
