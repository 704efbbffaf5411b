// A part of the file with steps: a header, its count held to a limit, and as many step lines.
// What is answered is where the steps stand, or the part's first fault.
ghost use Rattle.std.specs.Prelude.{◌+◌, ◌≤◌, ◌<◌, ◌^◌, length};
ghost use Rattle.schedule.specs.Private.{PartIs};

use crate::fault::{Fault, Flaw};
use crate::header::{count_fault, heading_at};
use crate::lf::{Lined, Short};
use crate::section::check_steps;

// How many steps a part has, the place of the first step line and the place after the last.
#[derive(Clone, Copy)]
pub(crate) struct Part {
    pub count: u32,
    pub start: usize,
    pub end: usize,
}

// The part at a place: its word, the number of its first line in the file, and how many steps it may have.
pub(crate) fn part_at<'a>(
    file: Lined<'a>,
    at: usize,
    word: &[u8],
    line: u32,
    left: u32,
) -> Result<Part, Fault>
    requires { (line + left + 1 < 2 ^ 32) × (at ≤ length file.bytes.now) }
    ensures { PartIs file.entry.bytes.now at word.now line left result }
{
    let short = Short { bytes: file.bytes };
    let (count, start) = heading_at(short, at, word, line)?;
    if left < count {
        return Err(count_fault(Flaw::Size, line, at, word));
    }
    // No `map_err`, as in `heading_at`.
    match check_steps(file, start, count) {
        Ok(end) => Ok(Part { count, start, end }),
        Err(broken) => Err(broken.fault(line + 1)),
    }
}
