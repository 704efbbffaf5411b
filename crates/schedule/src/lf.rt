// The bytes of a file that is not too long, and LF in them: where the last one stands.
// Every line ends with LF, so that where one is ahead, the check of the step lines tests no byte for the file's end.
ghost use Rattle.std.specs.Prelude.{◌≡◌, ◌≤◌, length, MatchResult};
ghost use Rattle.schedule.specs.Ahead.{Ahead, ahead_next};
ghost use Rattle.schedule.specs.Limits.{longest};
ghost use Rattle.schedule.specs.Private.{LastLf};
ghost use Rattle.schedule.specs.Schedule.{read_file};

use crate::fault::{Fault, Flaw};
use text::look::Look;

// How a byte is looked at where an LF stands there or ahead: with no test for the file's end.
#[derive(Clone, Copy)]
pub(crate) struct Untested {}

impl Look for Untested {
    ghost may = { Ahead };

    ghost next = { ahead_next };

    fn byte(s: &[u8], at: usize) -> u8 {
        s[at]
    }
}

// How many bytes a file has at most.
pub(crate) const LONGEST: usize = 65535;

// The bytes of a file that is not too long.
#[derive(Clone, Copy)]
pub(crate) struct Short<'a> {
    pub bytes: &'a [u8],
    ghost short: { length bytes.now ≤ longest },
}

impl<'a> Short<'a> {
    // Too long a file is refused before any line is read.
    pub(crate) fn new(bytes: &'a [u8]) -> Result<Short<'a>, Fault>
        ensures { MatchResult result (λ file. file.bytes ≡ bytes.entry) (λ fault. read_file bytes.entry.now ≡ Err fault) }
    {
        if LONGEST < bytes.len() {
            return Err(Fault {
                flaw: Flaw::Size,
                line: 0,
                column: 0,
            });
        }
        Ok(Short { bytes })
    }
}

// The same, and the place after its last LF; 0 where it has none.
#[derive(Clone, Copy)]
pub(crate) struct Lined<'a> {
    pub bytes: &'a [u8],
    pub end: usize,
    ghost short: { length bytes.now ≤ longest },
    ghost last: { LastLf bytes.now end },
}

impl<'a> Lined<'a> {
    // The bytes are looked at from the end on, so that it costs as much as stands behind the last LF: it is called once the values are read, and a file that is faulty in them is not searched.
    pub(crate) fn new(file: Short<'a>) -> Lined<'a>
        ensures { result.bytes ≡ file.entry.bytes }
    {
        let bytes = file.bytes;
        let end = match bytes.iter().rposition(|byte| *byte == b'\n') {
            Some(k) => k + 1,
            None => 0,
        };
        Lined { bytes, end }
    }
}
