//! The comparison: whether the plain texts of two row tables' roots are the same bytes, on the shared rows, in lent memory alone.
#![tactic(auto)]

ghost use Rattle.std.specs.Prelude.{◌≡◌, ◌+◌, ◌≤◌, ◌<◌, length};
ghost use Rattle.format.specs.Answer.{zeroed, compare_answer};
ghost use Rattle.format.specs.Bound.{message_bound};
ghost use Rattle.comparison.specs.Answers.{compared_as};
ghost use Rattle.comparison.specs.Classes.{term_in, same_term};
ghost use Rattle.comparison.specs.Sides.{side_of};

use crate::side::Side;
use format::refusal::Refusal;
use format::{Row, bound};
use table::Table;

mod classes;
mod same;
mod search;
mod side;

// The number of a row over both sides: the first side's rows come first, the second side's after them.
#[derive(Clone, Copy, Debug, PartialEq, Eq)]
pub(crate) struct JointRow(pub u32);

// How many rows are used on both sides together, in 64 bits, where no sum of two counts wraps.
fn rows_of_both(used_a: u32, used_b: u32) -> usize
    ensures { result ≡ used_a + used_b }
{
    (used_a as usize) + (used_b as usize)
}

// Whether two rows of sound tables have the same class. `joint` has a word for each row of both sides, and is left with their classes.
// Both sides and the classes stay three parameters, here and below, with the fact that these are as many as the rows: a value of the three would be made
// here and lent to two.
fn same_roots(a: Side, root_a: Row, b: Side, root_b: Row, joint: &mut [u32]) -> bool
    requires among { (root_a.0 < a.used) × (root_b.0 < b.used) }
    requires room { a.used + b.used ≡ length joint.old }
    ensures { result ≡ same_term (term_in (side_of a.entry) root_a.0) (term_in (side_of b.entry) root_b.0) }
{
    classes::number_classes(a, b, joint);
    same::same_class(joint, 0, root_a, a.used, root_b)
}

// Compares two tables where they are sound. The scratch, which has a word for each row used on both sides, is left as the numbering leaves it.
fn compare_tables(a: Table, b: Table, scratch: &mut [u32]) -> Result<bool, Refusal>
    requires { (length a.message.now ≤ message_bound) × (length b.message.now ≤ message_bound) × (a.used + b.used ≤ length scratch.old) }
    ensures { compared_as result (zeroed scratch.old) ≡ compare_answer a.entry.message.now a.entry.rows.now a.entry.used a.entry.root.0 b.entry.message.now b.entry.rows.now b.entry.used b.entry.root.0 scratch.old }
{
    if !sound::sound_table(a) {
        return Err(Refusal::Unsound);
    }
    if !sound::sound_table(b) {
        return Err(Refusal::Unsound);
    }
    let n = rows_of_both(a.used, b.used);
    let first = Side {
        message: a.message,
        rows: a.rows,
        used: a.used,
    };
    let second = Side {
        message: b.message,
        rows: b.rows,
        used: b.used,
    };
    let same = same_roots(first, a.root, second, b.root, &mut scratch[..n]);
    Ok(same)
}

// Compares the plain texts of the roots of two tables, which may be the same. The scratch is working memory, a word for each row used on both sides; after
// all but 1 and 2 it is zero.
pub fn compare(a: Table, b: Table, scratch: &mut [u32]) -> Result<bool, Refusal>
    ensures { compared_as result scratch.new ≡ compare_answer a.entry.message.now a.entry.rows.now a.entry.used a.entry.root.0 b.entry.message.now b.entry.rows.now b.entry.used b.entry.root.0 scratch.old }
{
    if bound::MESSAGE_BYTES < a.message.len() {
        return Err(Refusal::OverBound);
    }
    if bound::MESSAGE_BYTES < b.message.len() {
        return Err(Refusal::OverBound);
    }
    if scratch.len() < rows_of_both(a.used, b.used) {
        return Err(Refusal::ShortTable);
    }
    let answer = compare_tables(a, b, scratch);
    table::clear(scratch);
    answer
}
