// The report of a schedule file, as bytes in a lent array.
// The one line of a faulty file; of a sound one its two sections, and a line for each process.
ghost use Rattle.std.specs.Prelude.{◌≡◌, ◌+◌, ◌*◌, ◌≤◌, length};
ghost use Rattle.rules.specs.Limits.{greatest_size};
ghost use Rattle.page.specs.Private as private;
ghost use Rattle.page.specs.Report as reports;
ghost use Rattle.page.specs.Private.{Piece};

use crate::line::fill;
use rules::group::Group;
use rules::process::Process;
use rules::store::Store;
use schedule::counts::Counts;
use schedule::fault::Fault;
use schedule::run::{Ran, run};
use text::put::put_bytes;

// The report's limit.
#[derive(Clone, Copy)]
pub struct Report {}

impl Report {
    // No report is longer: with ten digits to a number a section's line has at most 126 bytes, the line of PROCESSES 21, and each of 16 process lines 93.
    pub const LONGEST: usize = 1761;

    // The constant is the definitions' limit. It takes a function to say so: a constant has no clause of its own.
    pub(crate) fn longest() -> usize
        ensures { result ≡ private.longest_report }
    {
        Report::LONGEST
    }
}

// The one line of a faulty file.
pub(crate) fn put_fault(out: &mut [u8], at: usize, fault: Fault) -> usize
    requires { at + private.longest_fault ≤ length out.old }
    ensures { Piece private.longest_fault out.old at (reports.fault_line fault) out.new result }
{
    let number = u8::from(fault.flaw) as u32;
    let line = fault.line;
    let column = fault.column;
    let numbers = [number, line, column];
    fill(out, at, b"BAD # # #\n", &numbers)
}

// A section's line behind its word.
pub(crate) fn put_section(out: &mut [u8], at: usize, word: &[u8], c: Counts) -> usize
    requires { (length word.now ≤ private.longest_word) × (at + private.longest_section ≤ length out.old) }
    ensures { Piece private.longest_section out.old at (reports.section_line word.now c) out.new result }
{
    let next = put_bytes(out, at, word);
    let numbers = [
        c.steps, c.applied, c.idle, c.refused, c.sent, c.again, c.decided,
    ];
    fill(
        out,
        next,
        b" # applied # idle # refused # sent # again # decided #\n",
        &numbers,
    )
}

// The line of process i with the record p and this depth: the two that `Group::process` and `Group::depth` promise.
pub(crate) fn put_process(out: &mut [u8], at: usize, i: u32, p: Process, depth: u16) -> usize
    requires { at + private.longest_line ≤ length out.old }
    ensures { Piece private.longest_line out.old at (reports.process_line i p depth) out.new result }
{
    let round = p.round as u32;
    let phase = p.phase as u32;
    let proposer = p.proposer as u32;
    let recoveries = p.recoveries as u32;
    let status: &[u8] = if p.up { b"# up" } else { b"# down" };
    let a = fill(out, at, status, &[i]);
    let b = fill(out, a, b" # # # #", &[round, phase, proposer, p.value]);
    if p.decided {
        fill(out, b, b" # # #\n", &[p.decision, recoveries, depth as u32])
    } else {
        fill(out, b, b" - # -\n", &[recoveries])
    }
}

// The lines of a group's processes, by their numbers, as the definition `Report.process_lines` is. A group may have any n, so that at most 16 is asked.
pub(crate) fn put_processes(out: &mut [u8], at: usize, group: Group) -> usize
    requires { (group.n ≤ greatest_size) × (at + group.n * private.longest_line ≤ length out.old) }
    ensures { Piece (group.n * private.longest_line) out.old at (reports.process_lines group group.n) out.new result }
{
    let n = group.n as u32;
    let mut place = at;
    for i in 1..=n {
        place = put_process(out, place, i, group.process(i), group.depth(i));
    }
    place
}

// The report of a sound file.
pub(crate) fn put_done(out: &mut [u8], at: usize, ran: Ran) -> usize
    requires { (ran.group.n ≤ greatest_size) × (at + private.longest_report ≤ length out.old) }
    ensures { Piece private.longest_report out.old at (reports.done_text ran) out.new result }
{
    let warmup = ran.warmup;
    let measured = ran.measured;
    let group = ran.group;
    let a = put_section(out, at, b"WARMUP", warmup);
    let b = put_section(out, a, b"MEASURED", measured);
    let numbers = [group.n as u32];
    let c = fill(out, b, b"PROCESSES #\n", &numbers);
    put_processes(out, c, group)
}

// Runs a schedule file over a lent store and the lent depths of its messages, and writes its report at the start of out; answers how long the report is.
// What lies past it is as it was.
pub fn write_report(
    file: &[u8],
    store: &mut [u64; Store::LENGTH],
    depths: &mut [u16; Store::LENGTH],
    out: &mut [u8; Report::LONGEST],
) -> usize
    ensures { reports.Reports file.now store.old depths.old out.old store.new depths.new out.new result }
{
    match run(file, store, depths) {
        Ok(ran) => put_done(out, 0, ran),
        Err(fault) => put_fault(out, 0, fault),
    }
}
