//! `#` and `&`: the empty list, and an item before a list.
ghost use Rattle.std.specs.Prelude.{◌≡◌, List, ℕ};
ghost use Rattle.format.specs.Lex.{hash_item, ampersand_item};
ghost use Rattle.machine.specs.Held.{turned, takes};

use format::Depth;
use format::kind::Kind;
use format::refusal::Refusal;
use machine::start::Start;
use machine::state::{Answer, Machine, refused_at};
use table::RowWords;

// `#`: the empty list.
pub fn nil_item(machine: &mut Machine, start: Start) -> Answer
    ensures { (rest : List ℕ) → turned result machine.new ≡ takes machine.old start.entry.at.0 rest hash_item }
{
    machine.push_value(
        start.at,
        0,
        start.after(),
        RowWords {
            kind: Kind::Nil as u32,
            first: 0,
            second: 0,
            third: 0,
        },
    )
}

// `&`: the item on top goes before the list under it.
pub fn cons_item(machine: &mut Machine, start: Start) -> Answer
    ensures { (rest : List ℕ) → turned result machine.new ≡ takes machine.old start.entry.at.0 rest ampersand_item }
{
    machine.need_values(start.at, 2)?;
    let depth = machine.depth.0;
    let list = machine.top(Depth(depth - 1));
    if !table::is_list(machine.row(list).kind) {
        return Err(refused_at(start.at, Refusal::WrongKind));
    }
    // loaded alone: a load of both words at once would wait for the two stores that made them
    let item = machine.top(Depth(depth));
    machine.push_value(
        start.at,
        2,
        start.after(),
        RowWords {
            kind: Kind::Cons as u32,
            first: item.0,
            second: list.0,
            third: 0,
        },
    )
}
