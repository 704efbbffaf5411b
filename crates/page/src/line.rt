// A line of text by a template: each `#` in it stands for the next number.
// It is written where it has room, and is no longer than ten digits to a number make it.
// The array and the place stay two parameters here and in the report, as `put_bytes` and `put_number` of the crate text take them.
ghost use Rattle.std.specs.Prelude.{◌≡◌, ◌+◌, ◌≤◌, length};
ghost use Rattle.page.specs.Private.{longest_of};
ghost use Rattle.page.specs.Filled.{filled};
ghost use Rattle.page.specs.Private.{Piece};

use text::put::put_number;

// Puts a template with its numbers at a place, and answers the place after it.
pub(crate) fn fill(out: &mut [u8], at: usize, template: &[u8], numbers: &[u32]) -> usize
    requires { at + longest_of (length template.now) (length numbers.now) ≤ length out.old }
    ensures { Piece (longest_of (length template.now) (length numbers.now)) out.old at (filled template.now numbers.now) out.new result }
{
    let mut left = numbers;
    let mut place = at;
    for byte in template {
        if *byte == b'#'
            && let [number, others @ ..] = left
        {
            place = put_number(out, place, *number);
            left = others;
        } else {
            out[place] = *byte;
            place += 1;
        }
    }
    place
}
