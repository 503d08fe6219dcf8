//! The tables after a run.
ghost use Rattle.std.specs.Prelude.{◌≡◌};
ghost use Rattle.format.specs.Answer.{tables};
ghost use Rattle.decoder.specs.Run.{settled};

use crate::Accepted;
use format::ROW_WORDS;
use format::refusal::Refused;

// Clears the working memory, and the row table past the rows used: on a refusal, all of it.
pub(crate) fn settle(
    rows: &mut [u32],
    stack: &mut [u32],
    marks: &mut [u32],
    registers: &mut [u32],
    answer: Result<Accepted, Refused>,
)
    ensures { tables rows.new stack.new marks.new registers.new ≡ settled answer (tables rows.old stack.old marks.old registers.old) }
{
    table::clear(stack);
    table::clear(marks);
    table::clear(registers);
    match answer {
        Err(_) => {
            table::clear(rows);
        }
        Ok(accepted) => {
            table::clear_from(rows, (accepted.used as usize) * ROW_WORDS);
        }
    }
}
