//! The machine's step: the item that its first byte begins, told by the class of that byte.
#![tactic(auto)]

ghost use Rattle.std.specs.Prelude.{◌≡◌, get_or};
ghost use Rattle.format.specs.Byte.{class_of};
ghost use Rattle.format.specs.Classes.{class_as};
ghost use Rattle.format.specs.Lex.{lex};
ghost use Rattle.machine.specs.Held.{rest_of, turned, takes};

use format::byte;
use format::class::Class;
use format::kind::Kind;
use format::refusal::Refusal;
use literals::{binary, number, text};
use machine::start::Start;
use machine::state::{Answer, Machine, refused_at};
use operators::{end, list, register, tuple, white};

// One item, whose first byte is b. `classes` is the class table.
pub fn step(classes: &[Class; 256], machine: &mut Machine, start: Start, b: u8) -> Answer
    requires { class_as (get_or classes.now b Class.White) ≡ class_of b }
    ensures { turned result machine.new ≡ takes machine.old start.entry.at.0 (rest_of start.entry) (lex b (rest_of start.entry)) }
{
    // a match, since the classes are closed and not all arms take the machine: closures in a table would be no plainer
    match classes[b as usize] {
        Class::White => white::white_item(start),
        Class::Digit | Class::Minus => number::integer_item(machine, start, b),
        Class::AtomQuote => text::quoted_item(machine, start, Kind::Atom, byte::ATOM_QUOTE),
        Class::StringQuote => text::quoted_item(machine, start, Kind::String, byte::STRING_QUOTE),
        Class::CommentQuote => text::comment_item(start),
        Class::TagQuote => text::tag_item(machine, start),
        Class::LeftBrace => tuple::open_item(machine, start),
        Class::RightBrace => tuple::close_item(machine, start),
        Class::Tilde => binary::binary_item(machine, start),
        Class::Hash => list::nil_item(machine, start),
        Class::Ampersand => list::cons_item(machine, start),
        Class::Dollar => end::end_item(machine, start),
        Class::Greater => register::store_item(machine, start),
        Class::Register => register::push_item(machine, start, b),
        Class::Comma => Err(refused_at(start.at, Refusal::Stray)),
    }
}
