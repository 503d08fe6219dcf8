//! A new value: one row more, and its number on the stack.
ghost use Rattle.std.specs.Prelude.{◌≡◌, ℕ, suc, ◌+◌, OnErr};
ghost use Rattle.table.specs.Words.{row_of};
ghost use Rattle.machine.specs.Held.{lender, turned, makes};

use crate::state::{Answer, Machine, refused_at};
use format::refusal::Refusal;
use format::{Depth, Offset, Row};
use std::ops::ControlFlow;
use table::RowWords;

impl<'a> Machine<'a> {
    // Makes a row, and puts its number on the stack, from which so many values go. The item begins at `place` and ends at `end`.
    pub fn push_value(
        &mut self,
        place: Offset,
        popped: usize,
        end: Offset,
        words: RowWords,
    ) -> Answer
        ensures turn { (k : ℕ) → end.0 ≡ suc place.0 + k → turned result self.new ≡ makes self.old place.0 popped k (row_of words) }
        ensures lent { lender self.new ≡ lender self.old }
        ensures kept { (self.new.marks.now ≡ self.old.marks.now) × (self.new.registers.now ≡ self.old.registers.now) }
        ensures err { OnErr result (self.new ≡ self.old) }
    {
        let next = self.next;
        let i = self.depth.0.saturating_sub(popped);
        if self.row_room() <= next.0 as usize {
            return Err(refused_at(place, Refusal::NoRows));
        }
        if self.stack_room() <= i {
            return Err(refused_at(place, Refusal::NoStack));
        }
        table::store_row(self.rows, next, words);
        self.stack[i] = next.0;
        self.next = Row(next.0 + 1);
        self.depth = Depth(i + 1);
        Ok(ControlFlow::Continue(end))
    }
}
