//! The walk over the rows: the text of a leaf is stored where the leaf is met, and what is still to come of the rows around it lies on the stack, in frames.
ghost use Rattle.std.specs.Prelude.{◌≡◌, ◌≤◌, length};
ghost use Rattle.table.specs.Words.{row_of};
ghost use Rattle.leaves.specs.Outputs.{HasRoom, Wrote};
ghost use Rattle.text.specs.Walk.{open_bytes, first_named};

use crate::rows::SoundRows;
use format::kind::Kind;
use format::{Row, bound, byte};
use leaves::leaf;
use leaves::output::Output;
use table::RowWords;

// Added to the number of a list cell, in its frame, once its item is begun. Rows used are below the bound. A frame has no flag beside it, since the scratch
// has one word for each row.
const ITEM_BEGUN: u32 = bound::ROWS as u32;

// The walk on its way: the sound table, a stack with a word for each row used, and how many frames lie on it. The output goes beside it, as a parameter, and
// its stack is no `Stack`: the check does not know what a struct in a struct has stored into memory that is lent to it. It is compared and printed no more
// than `Machine`.
// What is still to come, and that there is room for it, stay clauses: as ghost fields they would have to hold again in the midst of a frame.
#[derive(Drop)]
pub(crate) struct Walk<'a> {
    pub table: SoundRows<'a>,
    pub stack: &'a mut [u32],
    pub depth: usize,
    ghost stack_words: { table.used ≤ length stack.now },
}

// Stores what stands before the first of the rows that a row names: `{` where that is a tuple's field. Answers that first row.
#[tactic(auto, unfolding(crate::specs::Walk::open_bytes, crate::specs::Walk::first_named))]
fn begin(output: &mut Output, words: RowWords) -> Row
    requires { HasRoom output.old (open_bytes (row_of words)) }
    ensures wrote { Wrote output.old (open_bytes (row_of words)) output.new }
    ensures first { result.0 ≡ first_named (row_of words) }
{
    match Kind::try_from(words.kind) {
        Ok(Kind::Field) => {
            output.put_byte(byte::LEFT_BRACE);
            Row(words.first)
        }
        Ok(Kind::Cons) => Row(words.second),
        // a tag; a row of no other kind names one
        _ => Row(words.third),
    }
}

impl<'a> Walk<'a> {
    ghost use Rattle.std.specs.Prelude.{◌∷◌, ◌+◌, ◌<◌, T, None};
    ghost use Rattle.format.specs.Rows.{is_tuple_kind, cons_kind};
    ghost use Rattle.table.specs.Words.{row_in};
    ghost use Rattle.text.specs.Rows.{root_text};
    ghost use Rattle.text.specs.Walk.{frame_row, pending, coming, coming_fields, Above, Falling};
    ghost use Rattle.text.specs.Way.{frames, GoneOn};

    // Stores the first leaf in row `row`, and what stands before it. The rows around the leaf become frames.
    fn put_first(&mut self, row: Row, output: &mut Output)
        requires above { Above self.old.table row.0 (frames self.old) }
        requires room { HasRoom output.old (coming self.old.table row.0 (frames self.old)) }
        ensures rises { output.old.at < output.new.at }
        ensures gone_on { GoneOn self.old output.old (coming self.old.table row.0 (frames self.old)) self.new output.new None }
    {
        let table = self.table;
        let mut n = row;
        let mut words = table::read_row(table.rows, n);
        while !leaf::is_leaf(words.kind) {
            self.stack[self.depth] = n.0;
            self.depth += 1;
            n = begin(output, words);
            words = table::read_row(table.rows, n);
        }
        leaf::put(table.message, output, words);
    }

    // Stores the fields of a tuple from row `rest` on, and `}`; or those before one that is no leaf, which comes next, above the tuple's frame.
    fn put_fields(&mut self, rest: Row, output: &mut Output) -> Option<Row>
        requires tuple { T (is_tuple_kind (row_in self.old.table.rows.now rest.0).kind) }
        requires above { Above self.old.table rest.0 (frames self.old) }
        requires room { HasRoom output.old (coming_fields self.old.table rest.0 (frames self.old)) }
        ensures done { result ≡ None → self.new.depth ≡ self.old.depth }
        ensures gone_on { GoneOn self.old output.old (coming_fields self.old.table rest.0 (frames self.old)) self.new output.new result }
    {
        let table = self.table;
        let mut n = rest;
        let mut words = table::read_row(table.rows, n);
        // by number, since one kind is asked for: a `while let` on a kind is no plainer
        while words.kind == Kind::Field as u32 {
            let first = Row(words.first);
            let field = table::read_row(table.rows, first);
            if !leaf::is_leaf(field.kind) {
                self.stack[self.depth] = n.0;
                self.depth += 1;
                return Some(first);
            }
            leaf::put(table.message, output, field);
            n = Row(words.second);
            words = table::read_row(table.rows, n);
        }
        output.put_byte(byte::RIGHT_BRACE);
        None
    }

    // Stores the item of a list cell, of which this was the frame, and `&`; or nothing yet where the item is no leaf, and comes next, above the cell's frame.
    fn put_item(&mut self, frame: u32, item: Row, output: &mut Output) -> Option<Row>
        requires falling { Falling self.old.table (frame ∷ frames self.old) }
        requires room { HasRoom output.old (pending self.old.table (frame ∷ frames self.old)) }
        requires cell { ((row_in self.old.table.rows.now (frame_row frame)).kind ≡ cons_kind)
            × ((row_in self.old.table.rows.now (frame_row frame)).first ≡ item.0) }
        ensures done { result ≡ None → self.new.depth ≡ self.old.depth }
        ensures gone_on { GoneOn self.old output.old (pending self.old.table (frame ∷ frames self.old)) self.new output.new result }
    {
        let table = self.table;
        if ITEM_BEGUN <= frame {
            output.put_byte(byte::AMPERSAND);
            return None;
        }
        let words = table::read_row(table.rows, item);
        if leaf::is_leaf(words.kind) {
            leaf::put(table.message, output, words);
            output.put_byte(byte::AMPERSAND);
            return None;
        }
        self.stack[self.depth] = frame + ITEM_BEGUN;
        self.depth += 1;
        Some(item)
    }

    // Takes the frame on top, and stores what is still to come of it, up to a row that is no leaf, which comes next.
    fn put_frame(&mut self, output: &mut Output) -> Option<Row>
        requires some { 0 < self.old.depth }
        requires falling { Falling self.old.table (frames self.old) }
        requires room { HasRoom output.old (pending self.old.table (frames self.old)) }
        ensures done { result ≡ None → self.new.depth + 1 ≡ self.old.depth }
        ensures gone_on { GoneOn self.old output.old (pending self.old.table (frames self.old)) self.new output.new result }
    {
        let table = self.table;
        self.depth -= 1;
        let frame = self.stack[self.depth];
        let words = table::read_row(table.rows, Row(frame % ITEM_BEGUN));
        match Kind::try_from(words.kind) {
            Ok(Kind::Field) => self.put_fields(Row(words.second), output),
            Ok(Kind::Tag) => {
                leaf::put_quoted(table::span(table.message, words), output, byte::TAG_QUOTE);
                None
            }
            Ok(Kind::Cons) => self.put_item(frame, Row(words.first), output),
            // a row of no other kind has a frame
            _ => unreachable!(),
        }
    }

    // Stores what is still to come of the frames, up to a row that is no leaf, which comes next.
    fn put_rest(&mut self, output: &mut Output) -> Option<Row>
        requires falling { Falling self.old.table (frames self.old) }
        requires room { HasRoom output.old (pending self.old.table (frames self.old)) }
        ensures whole { result ≡ None → self.new.depth ≡ 0 }
        ensures gone_on { GoneOn self.old output.old (pending self.old.table (frames self.old)) self.new output.new result }
    {
        while 0 < self.depth {
            let next = self.put_frame(output);
            if next.is_some() {
                return next;
            }
        }
        None
    }

    // Stores the text of the root, but for `$`, where no frame lies on the stack yet. Its loop is not in `store_text`, which lends the output: after a loop
    // there the check would not know what the output holds.
    pub(crate) fn put_all(&mut self, output: &mut Output)
        requires begins { self.old.depth ≡ 0 }
        requires room { HasRoom output.old (root_text self.old.table) }
        ensures whole { self.new.depth ≡ 0 }
        ensures gone_on { GoneOn self.old output.old (root_text self.old.table) self.new output.new None }
    {
        let mut next = Some(self.table.root);
        while let Some(row) = next {
            self.put_first(row, output);
            next = self.put_rest(output);
        }
    }
}
