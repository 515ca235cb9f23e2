// The sheet that an order is written on.
ghost use Rattle.std.specs.Prelude.{◌≡◌, ◌≤◌, ◌++◌, length, drop};

use lists::BoundedList;

// Writes the order on the first entries, and leaves the others.
pub(crate) fn fill(sheet: &mut [usize], order: &[usize])
    requires { length order.now ≤ length sheet.old }
    ensures { sheet.new ≡ order.now ++ drop (length order.now) sheet.old }
{
    let mut entries = BoundedList::new(sheet);
    for place in order {
        entries.push(*place).unwrap();
    }
}
