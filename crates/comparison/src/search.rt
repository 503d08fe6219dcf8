//! The class of one row, searched among the rows before it.
ghost use Rattle.std.specs.Prelude.{◌≡◌, ◌+◌, ◌^◌, ◌≤◌, ◌<◌, length, take};
ghost use Rattle.table.specs.Words.{row_in};
ghost use Rattle.comparison.specs.Classes.{joint_term, first_below, row_class, class_list};
ghost use Rattle.comparison.specs.Same.{placed, leads};
ghost use Rattle.comparison.specs.Sides.{side_of, placed_of};

use crate::side::{Placed, Side};
use crate::{JointRow, same};
use format::Row;

// Row j of a side whose rows begin at `base`.
fn row_at<'a>(s: Side<'a>, base: u32, j: u32) -> Placed<'a>
    requires { j < s.used }
    ensures { placed_of result ≡ placed s.entry.message.now base (row_in s.entry.rows.now j) }
{
    Placed {
        message: s.message,
        base,
        row: table::read_row(s.rows, Row(j)),
    }
}

// The first of a side's first `count` rows that stands for the same term as row y, or the number after them where none does. The side's rows begin
// at `base`. Only rows that are the first of their class are looked at, and their kinds before anything else.
fn first_same(classes: &[u32], x: Side, base: u32, count: u32, y: Placed) -> JointRow
    requires count_among { count ≤ x.used }
    requires count_in_bounds { (base + count ≤ length classes.now) × (length classes.now < 2 ^ 32) }
    ensures { result.0 ≡ base + first_below (leads classes.now (λ i. placed x.entry.message.now base (row_in x.entry.rows.now i)) (placed_of y.entry)) count }
{
    for i in 0..count {
        let n = base + i;
        if classes[n as usize] == n && same::same_row(classes, row_at(x, base, i), y) {
            return JointRow(n);
        }
    }
    JointRow(base + count)
}

// The class of row n, where the classes of all rows before it are known.
pub(crate) fn class_of(classes: &[u32], a: Side, b: Side, n: JointRow) -> JointRow
    requires row_among { (a.used + b.used ≡ length classes.now) × (n.0 < a.used + b.used) }
    requires classes_value { take n.0 classes.now ≡ class_list (joint_term (side_of a) (side_of b)) n.0 }
    ensures { result.0 ≡ row_class (joint_term (side_of a.entry) (side_of b.entry)) n.0 }
{
    let at = n.0;
    if at < a.used {
        return first_same(classes, a, 0, at, row_at(a, 0, at));
    }
    let own = at - a.used;
    let row = row_at(b, a.used, own);
    let found = first_same(classes, a, 0, a.used, row);
    if found.0 < a.used {
        return found;
    }
    first_same(classes, b, a.used, own, row)
}
