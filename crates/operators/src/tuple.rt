//! `{` and `}`: the marks, and tuples.
ghost use Rattle.std.specs.Prelude.{◌≡◌, List, ℕ};
ghost use Rattle.format.specs.Lex.{open_item, close_item};
ghost use Rattle.machine.specs.Held.{turned, takes};

use format::refusal::Refusal;
use format::{Depth, Row};
use machine::start::Start;
use machine::state::{Answer, Machine, refused_at};
use std::ops::ControlFlow;

// `{`: notes the depth.
pub fn open_item(machine: &mut Machine, start: Start) -> Answer
    ensures { (rest : List ℕ) → turned result machine.new ≡ takes machine.old start.entry.at.0 rest open_item }
{
    let i = machine.noted as usize;
    if machine.mark_room() <= i {
        return Err(refused_at(start.at, Refusal::NoMarks));
    }
    machine.marks[i] = machine.depth.0 as u32;
    machine.noted += 1;
    Ok(ControlFlow::Continue(start.after()))
}

// `}`: a tuple of all values above the mark.
pub fn close_item(machine: &mut Machine, start: Start) -> Answer
    ensures { (rest : List ℕ) → turned result machine.new ≡ takes machine.old start.entry.at.0 rest close_item }
{
    if machine.noted == 0 {
        return Err(refused_at(start.at, Refusal::Unbalanced));
    }
    let base = machine.base();
    let depth = machine.depth;
    if depth.0 < base.0 {
        return Err(refused_at(start.at, Refusal::UnderMark));
    }
    let fields = depth.0 - base.0;
    let next = machine.next;
    if machine.row_room() <= (next.0 as usize) + fields {
        return Err(refused_at(start.at, Refusal::NoRows));
    }
    if machine.stack_room() <= base.0 {
        return Err(refused_at(start.at, Refusal::NoStack));
    }
    let last = next.0 + (fields as u32);
    let stack = &mut *machine.stack;
    table::store_tuple(machine.rows, stack, base, depth, next);
    stack[base.0] = last;
    machine.next = Row(last + 1);
    machine.depth = Depth(base.0 + 1);
    machine.noted -= 1;
    Ok(ControlFlow::Continue(start.after()))
}
