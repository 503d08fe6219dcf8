//! The ten known names, and what each of them says of its words (01, 'Sensor words').
ghost use Rattle.std.specs.Prelude.{◌≡◌, ◌≢◌, ◌*◌, ◌<◌, MatchOption, length};
ghost use Rattle.format.specs.Word.{formats, format_in};
ghost use Rattle.words.specs.Known.{name_number, said, found};

use crate::join::{BYTE_BITS, join};
use crate::layout::{Layout, Order};

// A known name, and what it says of its words. The name is a number: a byte 1 and the name's bytes, joined as those of a big-endian word.
#[derive(Clone, Copy, Debug, PartialEq, Eq)]
struct Format {
    name: u64,
    layout: Layout,
}

// How many bytes known names have: those of 8 bits, and the others.
const SHORT: usize = 2;

const LONG: usize = 5;

const FORMATS: [Format; 10] = [
    Format {
        name: 0x17538, // u8
        layout: Layout {
            width: 1,
            signed: false,
            order: Order::Big,
        },
    },
    Format {
        name: 0x16938, // i8
        layout: Layout {
            width: 1,
            signed: true,
            order: Order::Big,
        },
    },
    Format {
        name: 0x17531366265, // u16be
        layout: Layout {
            width: 2,
            signed: false,
            order: Order::Big,
        },
    },
    Format {
        name: 0x17531366c65, // u16le
        layout: Layout {
            width: 2,
            signed: false,
            order: Order::Little,
        },
    },
    Format {
        name: 0x16931366265, // i16be
        layout: Layout {
            width: 2,
            signed: true,
            order: Order::Big,
        },
    },
    Format {
        name: 0x16931366c65, // i16le
        layout: Layout {
            width: 2,
            signed: true,
            order: Order::Little,
        },
    },
    Format {
        name: 0x17533326265, // u32be
        layout: Layout {
            width: 4,
            signed: false,
            order: Order::Big,
        },
    },
    Format {
        name: 0x17533326c65, // u32le
        layout: Layout {
            width: 4,
            signed: false,
            order: Order::Little,
        },
    },
    Format {
        name: 0x16933326265, // i32be
        layout: Layout {
            width: 4,
            signed: true,
            order: Order::Big,
        },
    },
    Format {
        name: 0x16933326c65, // i32le
        layout: Layout {
            width: 4,
            signed: true,
            order: Order::Little,
        },
    },
];

// A name as a number.
fn number_of(name: &[u8]) -> u64
    requires { 8 * length name.now < 64 }
    ensures { result ≡ name_number name.now }
{
    1 << (BYTE_BITS * name.len()) | join(name, Order::Big)
}

// A name as a number, where it is as long as known names are. The compiler knows in each arm how many the bytes are, and joins them with no test between two.
fn number_by_length(name: &[u8]) -> Option<u64>
    ensures { MatchOption result ((length name.now ≢ LONG) × (length name.now ≢ SHORT)) (λ number. number ≡ name_number name.now) }
{
    match name.len() {
        LONG => Some(number_of(&name[..LONG])),
        SHORT => Some(number_of(&name[..SHORT])),
        _ => None,
    }
}

// What a name says of its words.
pub(crate) fn find(name: &[u8]) -> Option<Layout>
    ensures { said result ≡ found (format_in formats name.now) }
{
    let number = number_by_length(name)?;
    // by value, so that the compiler knows each entry: `FORMATS.iter().find(..)` writes the table out at every call (307 instructions a word for 230)
    for format in FORMATS {
        if format.name == number {
            return Some(format.layout);
        }
    }
    None
}
