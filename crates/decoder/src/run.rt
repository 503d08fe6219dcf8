//! The run: items from left to right.
ghost use Rattle.std.specs.Prelude.{◌≡◌, ◌≤◌, length};
ghost use Rattle.format.specs.Answer.{limits_of, zeroed, tables};
ghost use Rattle.format.specs.Bound.{message_bound, register_words};
ghost use Rattle.format.specs.Machine as M;
ghost use Rattle.format.specs.Rows.{row_values};
ghost use Rattle.decoder.specs.Run.{left_as, left_by};

use crate::Accepted;
use format::refusal::{Refusal, Refused};
use format::{Depth, Offset, Row, class};
use machine::start::Start;
use machine::state::Machine;
use std::ops::ControlFlow;

// Items from left to right until the message ends or is refused. Not put into its caller, which uses the tables after the run: their lengths would then lie in
// registers through the loop, and lists and short integers take up to 8 % more instructions.
// The message's bound stays a clause, as in `text::write_table` and `comparison::compare_tables`: a type for it would be made and taken apart in one call.
#[inline(never)]
pub(crate) fn run(
    message: &[u8],
    rows: &mut [u32],
    stack: &mut [u32],
    marks: &mut [u32],
    registers: &mut [u32],
) -> Result<Accepted, Refused>
    requires bounds { (length message.now ≤ message_bound) × (register_words ≤ length registers.old) }
    requires registers_empty { registers.old ≡ zeroed registers.old }
    ensures { left_as result rows.new ≡ left_by rows.old (M.run row_values (limits_of (tables rows.old stack.old marks.old registers.old)) message.now) }
{
    let classes = class::classes();
    let mut machine = Machine {
        rows,
        stack,
        marks,
        registers,
        next: Row(0),
        depth: Depth(0),
        noted: 0,
    };
    let mut at = Offset(0);
    while let Some(&b) = message.get(at.0) {
        let next = step::step(&classes, &mut machine, Start { message, at }, b)?;
        match next {
            ControlFlow::Continue(end) => {
                at = end;
            }
            ControlFlow::Break(root) => {
                let accepted = Accepted {
                    consumed: at.0 + 1,
                    root,
                    used: machine.next.0,
                };
                return Ok(accepted);
            }
        }
    }
    Err(Refused {
        refusal: Refusal::Cut,
        place: Offset(message.len()),
    })
}
