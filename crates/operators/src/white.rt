//! White space.
ghost use Rattle.std.specs.Prelude.{List, ◌≡◌, ℕ};
ghost use Rattle.format.specs.Lex.{white_item};
ghost use Rattle.machine.specs.declared.state.Machine.{Machine as Lent};
ghost use Rattle.machine.specs.Held.{turned, takes};

use machine::start::Start;
use machine::state::Answer;
use std::ops::ControlFlow;

// White space: nothing but the place changes.
pub fn white_item(start: Start) -> Answer
    ensures { (m : Lent) (rest : List ℕ) → turned result m ≡ takes m start.entry.at.0 rest white_item }
{
    Ok(ControlFlow::Continue(start.after()))
}
