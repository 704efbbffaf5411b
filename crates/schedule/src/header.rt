// Section headers: a fixed word, a space, a count and LF.
// Each function answers what the definition of a header says of the bytes, at any place of any bytes; where they break the form, the place.
ghost use Rattle.std.specs.Prelude.{◌≡◌, ◌≤◌, length};
ghost use Rattle.schedule.specs.Header.{word_at, alone_at, header_at, count_at};
ghost use Rattle.schedule.specs.Limits.{longest};
ghost use Rattle.schedule.specs.Private.{heading_at};
ghost use Rattle.schedule.specs.Schedule.{fault_at};

use crate::fault::{Fault, Flaw};
use crate::lf::Short;
use crate::line::spaced_at;
use crate::number::closed;
use text::look::Tested;
use text::number::Broken;

// The place after a word that stands at a place, or the place of the first byte that is not the word's.
pub(crate) fn word_at(s: &[u8], at: usize, word: &[u8]) -> Result<usize, Broken>
    ensures { result ≡ word_at s.now at word.now }
{
    // The place is counted beside the bytes: it is what is answered.
    let mut place = at;
    for byte in word {
        if place >= s.len() {
            return Err(Broken { place });
        }
        if s[place] != *byte {
            return Err(Broken { place });
        }
        place += 1;
    }
    Ok(place)
}

// A space, a number and LF.
#[tactic(auto, unfolding(crate::specs::Header::alone_at))]
pub(crate) fn alone_at(s: &[u8], at: usize) -> Result<(u32, usize), Broken>
    ensures { result ≡ alone_at s.now at }
{
    let number = spaced_at::<Tested>(s, at);
    closed(s, number)
}

// A word and its count, to the end of the line: the count and the place after the line, or the place where the line breaks the form.
pub fn heading(s: &[u8], at: usize, word: &[u8]) -> Result<(u32, usize), Broken>
    ensures { result ≡ header_at s.now at word.now }
{
    let n = word_at(s, at, word)?;
    alone_at(s, n)
}

// The same of a file in which it is the line-th line: the fault of its form where it breaks it.
// The file and the place stay two parameters, here and in what reads a part: each function is given a place and answers the next, as its definition does (`Schedule.part_at`). What moves along a file is the `Reader`.
pub(crate) fn heading_at<'a>(
    file: Short<'a>,
    at: usize,
    word: &[u8],
    line: u32,
) -> Result<(u32, usize), Fault>
    requires { at ≤ length file.bytes.now }
    ensures { result ≡ heading_at file.entry.bytes.now at word.now line }
{
    // No `map_err`: its closure would have to say again which places `Fault::at` takes.
    match heading(file.bytes, at, word) {
        Ok(header) => Ok(header),
        Err(broken) => Err(Fault::at(Flaw::Form, line, at, broken.place)),
    }
}

// The fault of a count that the rules do not allow, in a header that begins at a place: it is at the count's first digit.
pub(crate) fn count_fault(flaw: Flaw, line: u32, at: usize, word: &[u8]) -> Fault
    requires { count_at at word.now ≤ longest }
    ensures { result ≡ fault_at flaw line at (count_at at word.now) }
{
    Fault::at(flaw, line, at, at + word.len() + 1)
}
