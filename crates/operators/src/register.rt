//! `>` and a register byte: what the registers hold.
ghost use Rattle.std.specs.Prelude.{◌≡◌, List, ℕ};
ghost use Rattle.format.specs.Lex.{push_item, store};
ghost use Rattle.machine.specs.Held.{rest_of, turned, takes};

use format::Depth;
use format::refusal::Refusal;
use lexer::register;
use lexer::register::{NoRegister, Register};
use machine::start::Start;
use machine::state::{Answer, Machine, refused_at};
use std::ops::ControlFlow;

// `>` and a register: pops into it.
pub fn store_item(machine: &mut Machine, start: Start) -> Answer
    ensures { turned result machine.new ≡ takes machine.old start.entry.at.0 (rest_of start.entry) (store (rest_of start.entry)) }
{
    let Register { name, end } = match register::read_register(start.message, start.after()) {
        Ok(register) => register,
        Err(NoRegister::Stray(p)) => return Err(refused_at(p, Refusal::Stray)),
        Err(NoRegister::Ended) => return Err(refused_at(start.end(), Refusal::Cut)),
    };
    machine.need_values(start.at, 1)?;
    let v = machine.top(machine.depth);
    machine.registers[name as usize] = v.0 + 1;
    machine.depth = Depth(machine.depth.0 - 1);
    Ok(ControlFlow::Continue(end))
}

// A register's byte: pushes what it holds.
pub fn push_item(machine: &mut Machine, start: Start, b: u8) -> Answer
    ensures { (rest : List ℕ) → turned result machine.new ≡ takes machine.old start.entry.at.0 rest (push_item b) }
{
    let held = machine.registers[b as usize];
    if held == 0 {
        return Err(refused_at(start.at, Refusal::EmptyRegister));
    }
    let i = machine.depth.0;
    if machine.stack_room() <= i {
        return Err(refused_at(start.at, Refusal::NoStack));
    }
    machine.stack[i] = held - 1;
    machine.depth = Depth(i + 1);
    Ok(ControlFlow::Continue(start.after()))
}
