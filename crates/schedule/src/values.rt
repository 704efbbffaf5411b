// The value lines: a decimal and LF each, read into an array.
// What is answered is what the lines hold, up to the first that breaks the form, and where that one does.
ghost use Rattle.std.specs.Prelude.{◌≡◌, ◌≤◌};
ghost use Rattle.rules.specs.Limits.{greatest_size};
ghost use Rattle.schedule.specs.Values.{value_at};
ghost use Rattle.schedule.specs.Lines.{lines_at};
ghost use Rattle.schedule.specs.Private.{values_read};

use crate::fault::BrokenLine;
use crate::number::closed;
use rules::group::Group;
use text::number::{Broken, decimal};

// A value's line: the value and the place after the line, or the place where the line breaks the form.
pub(crate) fn value_at(s: &[u8], at: usize) -> Result<(u32, usize), Broken>
    ensures { result ≡ value_at s.now at }
{
    let number = decimal(s, at);
    closed(s, number)
}

// The values of n lines from a place on and the place after them, or the first line that breaks the form.
pub(crate) fn read_values(
    s: &[u8],
    at: usize,
    n: usize,
) -> Result<([u32; Group::GREATEST], usize), BrokenLine>
    requires { n ≤ greatest_size }
    ensures { lines_at (value_at s.now) n 0 at ≡ values_read n result }
{
    let mut values = [0u32; Group::GREATEST];
    let mut place = at;
    // The index stays: it is the line's number too, and `values[..n].iter_mut().enumerate()` would name it beside the value's place.
    for index in 0..n {
        match value_at(s, place) {
            Ok((value, next)) => {
                values[index] = value;
                place = next;
            }
            Err(broken) => {
                return Err(BrokenLine {
                    index: index as u32,
                    from: place,
                    place: broken.place,
                });
            }
        }
    }
    Ok((values, place))
}
