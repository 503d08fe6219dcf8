//! Integers.
ghost use Rattle.std.specs.Prelude.{◌≡◌, ◌≤◌};
ghost use Rattle.machine.specs.Held.{rest_of, turned, takes};
ghost use Rattle.literals.specs.Readers.{no_integer_as, begun_item, begun_by};

use format::kind::Kind;
use format::refusal::{Refusal, Refused};
use format::{Offset, byte};
use lexer::integer;
use lexer::integer::{Begun, Integer, NoInteger};
use machine::start::Start;
use machine::state::{Answer, Machine};
use table::RowWords;

// The refusal where no integer is read at `at`; `ended` is the slice's end.
fn no_integer(why: NoInteger, at: Offset, ended: Offset) -> Refused
    ensures { result ≡ no_integer_as why at ended }
{
    let (place, refusal) = match why {
        NoInteger::OutOfRange => (at, Refusal::OutOfRange),
        NoInteger::Stray(p) => (p, Refusal::Stray),
        NoInteger::Ended(_) => (ended, Refusal::Cut),
    };
    Refused { refusal, place }
}

// What the first byte of an integer, a minus or a digit, begins.
fn begun_by(b: u8) -> Begun
    requires { (b ≡ 45 → ⊥) → 48 ≤ b }
    ensures { result ≡ begun_by b }
{
    if b == byte::MINUS {
        return Begun::Minus;
    }
    Begun::Digits(false, (b - byte::ZERO) as u64)
}

// An integer, whose first byte is b.
pub fn integer_item(machine: &mut Machine, start: Start, b: u8) -> Answer
    requires { (b ≡ 45 → ⊥) → 48 ≤ b }
    ensures { turned result machine.new ≡ takes machine.old start.entry.at.0 (rest_of start.entry) (begun_item (begun_by b) (rest_of start.entry)) }
{
    let read = integer::read_integer(start.message, start.after(), begun_by(b));
    let Integer { bits, end } = match read {
        Ok(integer) => integer,
        Err(why) => return Err(no_integer(why, start.at, start.end())),
    };
    machine.push_value(
        start.at,
        0,
        end,
        RowWords {
            kind: Kind::Integer as u32,
            first: (bits / table::WORD_VALUES) as u32,
            second: (bits % table::WORD_VALUES) as u32,
            third: 0,
        },
    )
}
