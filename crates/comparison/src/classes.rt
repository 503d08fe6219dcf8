//! The classes of all rows of two tables: the scratch holds, for each row, the first row with the same term.
ghost use Rattle.std.specs.Prelude.{◌≡◌, ◌+◌, length};
ghost use Rattle.comparison.specs.Classes.{joint_term, class_list};
ghost use Rattle.comparison.specs.Sides.{side_of};

use crate::side::Side;
use crate::{JointRow, search};

// Numbers the classes of all rows of both sides.
pub(crate) fn number_classes(a: Side, b: Side, classes: &mut [u32])
    requires { a.used + b.used ≡ length classes.old }
    ensures { classes.new ≡ class_list (joint_term (side_of a.entry) (side_of b.entry)) (a.entry.used + b.entry.used) }
{
    for n in 0..a.used + b.used {
        let found = search::class_of(classes, a, b, JointRow(n));
        classes[n as usize] = found.0;
    }
}
