// A number that ends its line.
ghost use Rattle.std.specs.Prelude.{◌≡◌};
ghost use Rattle.schedule.specs.Line as lines;

use text::number::{Broken, byte_at};

// A number that ends its line: LF stands behind it.
pub(crate) fn closed(s: &[u8], number: Result<(u32, usize), Broken>) -> Result<(u32, usize), Broken>
    ensures { result ≡ lines.closed s.now number }
{
    let (value, next) = number?;
    if byte_at(s, next) == b'\n' {
        return Ok((value, next + 1));
    }
    Err(Broken { place: next })
}
