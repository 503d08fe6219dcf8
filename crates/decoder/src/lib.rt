//! The decoder: from a message's bytes to a row table, in lent memory alone.
#![tactic(auto)]

ghost use Rattle.std.specs.Prelude.{◌≡◌};
ghost use Rattle.format.specs.Answer.{decode_answer, tables};
ghost use Rattle.decoder.specs.Answers.{decoded_as};

use format::refusal::{Refusal, Refused};
use format::{Offset, Row, bound};

mod run;
mod settle;

// Of an accepted message: bytes consumed, root row and rows used.
#[derive(Clone, Copy, Debug, PartialEq, Eq)]
pub struct Accepted {
    pub consumed: usize,
    pub root: Row,
    pub used: u32,
}

// Decodes a message into `rows`. The other tables are working memory: the stack, the marks (01's noted depths), the registers. Each is lent by itself, as C
// has them.
pub fn decode(
    message: &[u8],
    rows: &mut [u32],
    stack: &mut [u32],
    marks: &mut [u32],
    registers: &mut [u32],
) -> Result<Accepted, Refused>
    ensures { decoded_as result (tables rows.new stack.new marks.new registers.new) ≡ decode_answer message.now (tables rows.old stack.old marks.old registers.old) }
{
    if bound::MESSAGE_BYTES < message.len() {
        return Err(Refused {
            refusal: Refusal::OverBound,
            place: Offset(0),
        });
    }
    if registers.len() < bound::REGISTER_WORDS {
        return Err(Refused {
            refusal: Refusal::ShortTable,
            place: Offset(0),
        });
    }
    table::clear(registers);
    let answer = run::run(message, rows, stack, marks, registers);
    settle::settle(rows, stack, marks, registers, answer);
    answer
}
