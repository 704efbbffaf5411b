// The run of a schedule file over a lent store and the lent depths of its messages: the file is checked first, and its steps are taken while it is read again.
ghost use Rattle.std.specs.Prelude.{◌≡◌};
ghost use Rattle.schedule.specs.Run as runs;
ghost use Rattle.schedule.specs.Private.{RunReady, RanTo, BothReady, BothRan, FormGood, SoundRan};

use crate::counts::Counts;
use crate::fault::Fault;
use crate::file::{Form, Places, form_of};
use crate::lf::{Lined, Short};
use crate::reader::Reader;
use rules::group::Group;

// What the run of a sound file gives: the counts of its two sections, and the group at the end.
#[derive(Clone, Copy)]
pub struct Ran {
    pub warmup: Counts,
    pub measured: Counts,
    pub group: Group,
}

// Takes the count steps whose lines stand from a place on, and answers their counts.
pub(crate) fn run_steps<'a>(
    file: Lined<'a>,
    at: usize,
    count: u32,
    group: &mut Group,
    store: &mut [u64],
    depths: &mut [u16],
) -> Counts
    requires { RunReady file.bytes.now at count group.old store.old depths.old }
    ensures { RanTo file.entry.bytes.now at count group.old store.old depths.old group.new store.new depths.new result }
{
    let mut counts = Counts::none();
    let mut reader = Reader { file, at };
    for _ in 0..count {
        let step = reader.step();
        let answer = group.step_sound(store, depths, step);
        counts = counts.counted(answer);
    }
    counts
}

// Takes the steps of both sections from a group on, which is sound over stores that are long.
pub(crate) fn run_both<'a>(
    file: Lined<'a>,
    places: Places,
    group: Group,
    store: &mut [u64],
    depths: &mut [u16],
) -> Ran
    requires { BothReady file.bytes.now places group store.old depths.old }
    ensures { BothRan file.entry.bytes.now places group store.old depths.old result store.new depths.new }
{
    let mut last = group;
    let warmup = run_steps(file, places.start, places.warmup, &mut last, store, depths);
    let measured = run_steps(
        file,
        places.middle,
        places.measured,
        &mut last,
        store,
        depths,
    );
    Ran {
        warmup,
        measured,
        group: last,
    }
}

// Runs a sound file: a start with its values, then its steps. A start of 1 to 16 values is refused over a store that is too short alone, and then so is every step.
pub(crate) fn run_sound<'a>(
    file: Lined<'a>,
    form: Form,
    store: &mut [u64],
    depths: &mut [u16],
) -> Ran
    requires { FormGood file.bytes.now form.values form.places }
    ensures { SoundRan file.entry.bytes.now store.old depths.old result store.new depths.new }
{
    let begun = Group::start(form.values.as_slice(), store, depths);
    if begun.answer.is_err() {
        return Ran {
            warmup: Counts::refused(form.places.warmup),
            measured: Counts::refused(form.places.measured),
            group: begun.group,
        };
    }
    run_both(file, form.places, begun.group, store, depths)
}

// Runs a schedule file over a lent store and the lent depths of its messages. A faulty file runs no step, and leaves both as they were.
pub fn run(file: &[u8], store: &mut [u64], depths: &mut [u16]) -> Result<Ran, Fault>
    ensures { runs.ran_over result store.new depths.new ≡ runs.run_of file.now store.old depths.old }
{
    let short = Short::new(file)?;
    let form = form_of(short)?;
    Ok(run_sound(Lined::new(short), form, store, depths))
}
