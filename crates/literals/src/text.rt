//! Quoted text: atoms, strings, comments and tags.
ghost use Rattle.std.specs.Prelude.{◌≡◌, ℕ, false, length, drop, OnErr};
ghost use Rattle.lexer.specs.Quoted.{quoted_from};
ghost use Rattle.format.specs.Kinds.{kind_number};
ghost use Rattle.format.specs.Lex.{Item, quoted};
ghost use Rattle.machine.specs.declared.state.Machine.{Machine as Lent};
ghost use Rattle.machine.specs.Held.{Spans, lender, rest_of, turned, takes};
ghost use Rattle.literals.specs.Readers.{unclosed_as, closed_as, tag_text, comment_text};

use format::kind::Kind;
use format::refusal::{Refusal, Refused};
use format::{Offset, byte};
use lexer::quoted;
use lexer::quoted::{Quoted, Unclosed};
use machine::start::Start;
use machine::state::{Answer, Machine};
use std::ops::ControlFlow;
use table::RowWords;

// The refusal of quoted text that was not closed; `ended` is the slice's end.
fn unclosed(why: Unclosed, ended: Offset) -> Refused
    ensures { result ≡ unclosed_as why ended }
{
    let (place, refusal) = match why {
        Unclosed::Stray(p) => (p, Refusal::Stray),
        Unclosed::Ended(_) => (ended, Refusal::Cut),
    };
    Refused { refusal, place }
}

// Text up to its closing quote, or the refusal of text that is not closed.
fn closed_text(message: &[u8], from: Offset, quote: u8) -> Result<Quoted, Refused>
    ensures { result ≡ closed_as (quoted_from quote false from.0 (drop from.0 message.now)) (record { 0 = length message.now }) }
{
    quoted::read_quoted(message, from, quote, false).map_err(|why| unclosed(
        why,
        Offset(message.len()),
    ))
}

// An atom or a string.
pub fn quoted_item(machine: &mut Machine, start: Start, kind: Kind, quote: u8) -> Answer
    ensures turn { (item : ℕ → Item) → Spans (kind_number kind) item
        → turned result machine.new ≡ takes machine.old start.entry.at.0 (rest_of start.entry) (quoted quote item (rest_of start.entry)) }
    ensures lent { lender machine.new ≡ lender machine.old }
    ensures kept { (machine.new.marks.now ≡ machine.old.marks.now) × (machine.new.registers.now ≡ machine.old.registers.now) }
    ensures err { OnErr result (machine.new ≡ machine.old) }
{
    let first = start.after();
    let Quoted { count, end } = closed_text(start.message, first, quote)?;
    machine.push_value(
        start.at,
        0,
        end,
        RowWords {
            kind: kind as u32,
            first: first.0 as u32,
            second: count as u32,
            third: 0,
        },
    )
}

// A comment.
pub fn comment_item(start: Start) -> Answer
    ensures { (m : Lent) → turned result m ≡ takes m start.entry.at.0 (rest_of start.entry) (comment_text (rest_of start.entry)) }
{
    let Quoted { end, .. } = closed_text(start.message, start.after(), byte::COMMENT_QUOTE)?;
    Ok(ControlFlow::Continue(end))
}

// A tag over the top value.
pub fn tag_item(machine: &mut Machine, start: Start) -> Answer
    ensures { turned result machine.new ≡ takes machine.old start.entry.at.0 (rest_of start.entry) (tag_text (rest_of start.entry)) }
{
    let first = start.after();
    // a function for these lines, with `?`, took 10 instructions more a tag
    let read = quoted::read_name(start.message, first, byte::TAG_QUOTE);
    let Quoted { count, end } = match read {
        Ok(quoted) => quoted,
        Err(why) => return Err(unclosed(why, start.end())),
    };
    machine.need_values(start.at, 1)?;
    let inner = machine.top(machine.depth);
    machine.push_value(
        start.at,
        1,
        end,
        RowWords {
            kind: Kind::Tag as u32,
            first: first.0 as u32,
            second: count as u32,
            third: inner.0,
        },
    )
}
