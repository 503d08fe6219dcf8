//! `$`: the end of a message.
ghost use Rattle.std.specs.Prelude.{List, ◌≡◌, ℕ};
ghost use Rattle.format.specs.Lex.{end_item};
ghost use Rattle.machine.specs.Held.{turned, takes};

use format::refusal::Refusal;
use machine::start::Start;
use machine::state::{Answer, Machine, refused_at};
use std::ops::ControlFlow;

// `$`: the one value, with no mark noted.
pub fn end_item(machine: &Machine, start: Start) -> Answer
    ensures { (rest : List ℕ) → turned result machine.now ≡ takes machine.now start.entry.at.0 rest end_item }
{
    if machine.noted != 0 {
        return Err(refused_at(start.at, Refusal::Unbalanced));
    }
    if machine.depth.0 != 1 {
        return Err(refused_at(start.at, Refusal::DepthNotOne));
    }
    Ok(ControlFlow::Break(machine.top(machine.depth)))
}
