//! `~`: a count, so many bytes, and `~`.
ghost use Rattle.std.specs.Prelude.{◌≡◌, ◌-◌, pos};
ghost use Rattle.std.proofs.Math.Option.{some};
ghost use Rattle.format.specs.Lex.{tilde_item};
ghost use Rattle.format.specs.Machine.{take_binary};
ghost use Rattle.format.specs.Rows.{row_values, row_integer};
ghost use Rattle.table.specs.Words.{row_of, last_first};
ghost use Rattle.machine.specs.Held.{machine_of, held, stands, rest_of, turned, stepped, takes};
ghost use Rattle.literals.specs.Readers.{count_as};

use format::kind::Kind;
use format::refusal::Refusal;
use format::{Offset, byte};
use machine::start::Start;
use machine::state::{Answer, Machine, refused_at};
use table::RowWords;

// The count that a row is; or why it is none: no integer, or a negative one.
fn count_of(words: RowWords) -> Result<u64, Refusal>
    ensures { result ≡ count_as (row_integer (row_of words)) }
{
    // one kind is asked for, here and elsewhere by its number: a match with two arms is no plainer
    if words.kind != Kind::Integer as u32 {
        return Err(Refusal::WrongKind);
    }
    if table::SIGN_BIT <= words.first {
        return Err(Refusal::Negative);
    }
    Ok((words.first as u64) * table::WORD_VALUES + (words.second as u64))
}

// The bytes of a binary after its first `~`: so many, and a `~` after them.
fn binary_bytes(machine: &mut Machine, start: Start, count: u64) -> Answer
    ensures { turned result machine.new ≡ stepped machine.old start.entry.at.0 (take_binary row_values start.entry.at.0 (rest_of start.entry)
        (machine_of (held machine.old) (stands machine.old start.entry.at.0)) (last_first machine.old.stack.now (machine.old.depth.0 - 1)) (some (pos count))) }
{
    let first = start.after().0;
    if (start.message.len() - first) as u64 <= count {
        return Err(refused_at(start.end(), Refusal::Cut));
    }
    let end = first + (count as usize);
    if start.message[end] != byte::TILDE {
        return Err(refused_at(Offset(end), Refusal::Stray));
    }
    machine.push_value(
        start.at,
        1,
        Offset(end + 1),
        RowWords {
            kind: Kind::Binary as u32,
            first: first as u32,
            second: count as u32,
            third: 0,
        },
    )
}

// `~`: pops a count, takes so many bytes, and wants `~` after them.
pub fn binary_item(machine: &mut Machine, start: Start) -> Answer
    ensures { turned result machine.new ≡ takes machine.old start.entry.at.0 (rest_of start.entry) tilde_item }
{
    machine.need_values(start.at, 1)?;
    let v = machine.top(machine.depth);
    match count_of(machine.row(v)) {
        Ok(count) => binary_bytes(machine, start, count),
        Err(refusal) => Err(refused_at(start.at, refusal)),
    }
}
