// A section's step lines, one after the other. No step list is kept.
// What is answered is where the lines end, or which is the first that breaks the form, and where it begins.
ghost use Rattle.std.specs.Prelude.{◌≡◌};
ghost use Rattle.schedule.specs.Line.{line_at};
ghost use Rattle.schedule.specs.Lines.{lines_at};
ghost use Rattle.schedule.specs.Private.{rows_end};

use crate::fault::BrokenLine;
use crate::lf::Lined;
use crate::reader::Reader;

// The place after the count step lines from a place on, or the first of them that breaks the form.
// It is no twin of `read_values`, whose loop fills an array, as this one keeps nothing.
pub(crate) fn check_steps<'a>(file: Lined<'a>, at: usize, count: u32) -> Result<usize, BrokenLine>
    ensures { result ≡ rows_end (lines_at (line_at file.entry.bytes.now) count 0 at) }
{
    let mut reader = Reader { file, at };
    for index in 0..count {
        let from = reader.at;
        if let Err(broken) = reader.line() {
            return Err(BrokenLine {
                index,
                from,
                place: broken.place,
            });
        }
    }
    Ok(reader.at)
}
