//! Where the machine stands in the tables that are lent to it: rows, values and marks in use, and what is known of them.
ghost use Rattle.std.specs.Prelude.{ℕ, ◌≡◌, ◌+◌, ◌-◌, ◌^◌, ◌≤◌, ◌<◌, min, length, get_or, MatchResult};
ghost use Rattle.format.specs.Bound.{stack_bound, mark_bound, register_words};
ghost use Rattle.format.specs.Machine.{base};
ghost use Rattle.format.specs.Rows.{row_room};
ghost use Rattle.table.specs.Words.{last_first, row_of, row_in};

use format::refusal::{Refusal, Refused};
use format::{Depth, Offset, Row, bound};
use std::ops::ControlFlow;
use table::RowWords;

// What an item does: the machine goes on after the item, or the message ends with its root row; or the item is refused. The step answers what its item does.
pub type Answer = Result<ControlFlow<Row, Offset>, Refused>;

// The refusal of an item at a place.
pub fn refused_at(place: Offset, refusal: Refusal) -> Refused
    ensures { result ≡ record { refusal = refusal; place = place } }
{
    Refused { refusal, place }
}

// The machine in the tables lent to it: the row that is made next, the stack's depth, and how many marks are noted. No table is used over its room, and the
// stack and the registers name rows that are made; a register's word is 0, or one more than a row.
// Stack and marks are no structs in this one: the check does not know what such a struct has stored into lent memory. It holds
// lent memory that it may write, which is no value to compare or to print.
#[derive(Drop)]
pub struct Machine<'a> {
    pub rows: &'a mut [u32],
    pub stack: &'a mut [u32],
    pub marks: &'a mut [u32],
    pub registers: &'a mut [u32],
    pub next: Row,
    pub depth: Depth,
    pub noted: u32,
    ghost used: { next.0 ≤ row_room rows.now },
    ghost deep: { depth.0 ≤ min (length stack.now) stack_bound },
    ghost marked: { noted ≤ min (length marks.now) mark_bound },
    ghost every_byte: { register_words ≤ length registers.now },
    ghost values: { (i : ℕ) → i < depth.0 → get_or stack.now i 0 < next.0 },
    ghost stored: { (x : ℕ) → get_or registers.now x 0 ≤ next.0 },
}

impl<'a> Machine<'a> {
    // How many rows the row table has room for.
    pub fn row_room(&self) -> usize
        ensures { result ≡ row_room self.now.rows.now }
    {
        table::row_room(self.rows)
    }

    // How many values the stack has room for.
    pub fn stack_room(&self) -> usize
        ensures { result ≡ min (length self.now.stack.now) stack_bound }
    {
        self.stack.len().min(bound::STACK)
    }

    // How many marks there is room for.
    pub fn mark_room(&self) -> usize
        ensures { result ≡ min (length self.now.marks.now) mark_bound }
    {
        self.marks.len().min(bound::MARKS)
    }

    // The value on top where the stack is so deep.
    pub fn top(&self, depth: Depth) -> Row
        requires { (0 < depth.0) × (depth.0 ≤ length self.now.stack.now) }
        ensures { result.0 ≡ get_or self.now.stack.now (depth.0 - 1) 0 }
    {
        Row(self.stack[depth.0 - 1])
    }

    // Row v. Its room is tested, though all that the stack names are made: without the test a list of short integers took a tenth longer to decode.
    pub fn row(&self, v: Row) -> RowWords
        ensures { row_of result ≡ row_in self.now.rows.now v.0 }
    {
        table::load_row(self.rows, v)
    }

    // The depth above which every pop must lie: the mark noted last, or 0.
    pub fn base(&self) -> Depth
        ensures value { result.0 ≡ base (last_first self.now.marks.now self.now.noted) }
        ensures bound { result.0 < 2 ^ 32 }
    {
        if self.noted == 0 {
            return Depth(0);
        }
        Depth(self.marks[(self.noted - 1) as usize] as usize)
    }

    // Wants so many values above the base, of an item at a place.
    pub fn need_values(&self, place: Offset, count: usize) -> Result<(), Refused>
        requires { count < 2 ^ 32 }
        ensures { MatchResult result (λ _. base (last_first self.now.marks.now self.now.noted) + count ≤ self.now.depth.0)
            (λ r. (self.now.depth.0 < base (last_first self.now.marks.now self.now.noted) + count) × (r ≡ record { refusal = Refusal.TooFew; place = place })) }
    {
        if self.depth.0 < self.base().0 + count {
            return Err(refused_at(place, Refusal::TooFew));
        }
        Ok(())
    }
}
