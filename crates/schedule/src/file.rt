// A schedule file, whole: VALUES, WARMUP and MEASURED in that order, and nothing after the last step.
// A file is sound, or has one fault: its flaw, its line and its column.
ghost use Rattle.std.specs.Prelude.{◌≡◌, ◌≤◌, length};
ghost use Rattle.rules.specs.Limits.{greatest_size, among};
ghost use Rattle.schedule.specs.Limits as limits;
ghost use Rattle.schedule.specs.Private.{ValuesAre, StepsAre, FormIs};

use crate::fault::{Fault, Flaw};
use crate::first::Values;
use crate::header::{count_fault, heading_at};
use crate::lf;
use crate::lf::{Lined, Short};
use crate::part::part_at;
use crate::values::read_values;
use rules::group::Group;

// The limits of a file.
#[derive(Clone, Copy)]
pub struct File {}

impl File {
    // "A schedule file has at most 65,535 bytes and at most 4,096 steps in all."
    pub const LONGEST: usize = lf::LONGEST;

    pub const MOST_STEPS: u32 = 4096;

    // The constants are the definitions' limits. It takes a function to say so: a constant has no clause of its own.
    pub(crate) fn longest() -> usize
        ensures { result ≡ limits.longest }
    {
        File::LONGEST
    }

    pub(crate) fn most_steps() -> u32
        ensures { result ≡ limits.most_steps }
    {
        File::MOST_STEPS
    }
}

// The values of a file and the place of its WARMUP line.
#[derive(Clone, Copy)]
pub(crate) struct Opening {
    pub values: Values,
    pub at: usize,
}

// How many steps the two sections have, and where the first of each stands: four numbers, since a pair for each section would be taken apart wherever it is used.
#[derive(Clone, Copy)]
pub(crate) struct Places {
    pub warmup: u32,
    pub start: usize,
    pub measured: u32,
    pub middle: usize,
}

// A sound file's values, and where its steps stand.
#[derive(Clone, Copy)]
pub(crate) struct Form {
    pub values: Values,
    pub places: Places,
}

// Whether a file may have this many values.
#[tactic(auto, unfolding(rules::specs::Limits::among))]
pub(crate) fn is_size(n: u32) -> bool
    ensures { result ≡ among greatest_size n }
{
    (1..=Group::GREATEST as u32).contains(&n)
}

// The VALUES section.
pub(crate) fn read_opening<'a>(file: Short<'a>) -> Result<Opening, Fault>
    ensures { ValuesAre file.entry.bytes.now result }
{
    let (n, first) = heading_at(file, 0, b"VALUES", 1)?;
    if !is_size(n) {
        return Err(count_fault(Flaw::Values, 1, 0, b"VALUES"));
    }
    // No `map_err`, as in `heading_at`.
    let (all, at) = match read_values(file.bytes, first, n as usize) {
        Ok(read) => read,
        Err(broken) => return Err(broken.fault(2)),
    };
    let values = Values { n, all };
    Ok(Opening { values, at })
}

// The WARMUP and MEASURED sections from a place on, behind n value lines, to the end of the file.
pub(crate) fn read_sections<'a>(file: Lined<'a>, n: u32, at: usize) -> Result<Places, Fault>
    requires { (n ≤ greatest_size) × (at ≤ length file.bytes.now) }
    ensures { StepsAre file.entry.bytes.now n at result }
{
    let warmup = part_at(file, at, b"WARMUP", n + 2, File::MOST_STEPS)?;
    let line = n + warmup.count + 3;
    let left = File::MOST_STEPS - warmup.count;
    let measured = part_at(file, warmup.end, b"MEASURED", line, left)?;
    if measured.end != file.bytes.len() {
        let after = n + warmup.count + measured.count + 4;
        return Err(Fault::at(Flaw::Form, after, measured.end, measured.end));
    }
    Ok(Places {
        warmup: warmup.count,
        start: warmup.start,
        measured: measured.count,
        middle: measured.start,
    })
}

// A file's values and places, or its fault.
pub(crate) fn form_of<'a>(file: Short<'a>) -> Result<Form, Fault>
    ensures { FormIs file.entry.bytes.now result }
{
    let opening = read_opening(file)?;
    let values = opening.values;
    let places = read_sections(Lined::new(file), values.n, opening.at)?;
    Ok(Form { values, places })
}
