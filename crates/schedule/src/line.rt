// Step lines: a letter, its numbers, ` X` where the step is cut, and LF.
// Each function answers what the definition of a step line says of the bytes; the public one takes any place of any bytes.
ghost use Rattle.std.specs.Prelude.{◌≡◌};
ghost use Rattle.text.specs.Number.{number_at};
ghost use Rattle.schedule.specs.Line.{spaced_at, next_number, end_at, ended_at, line_at};
ghost use Rattle.schedule.specs.Private.{KnownNumber, KnownNext, KnownLine};

use crate::letter::Letter;
use rules::step::Step;
use text::look::{Look, Tested};
use text::number::{Broken, decimal_by, is_digit};

// ---- any line, however its bytes are looked at: each part answers the place of the first byte that breaks the form, and what reads it hands that on

// A space and a number.
pub(crate) fn spaced_at<L: Look>(s: &[u8], at: usize) -> Result<(u32, usize), Broken>
    requires { L.may s.now at }
    ensures { result ≡ spaced_at s.now at }
{
    if L::byte(s, at) == b' ' {
        decimal_by::<L>(s, at + 1)
    } else {
        Err(Broken { place: at })
    }
}

// The same where one more number is wanted, and otherwise nothing read.
// The flag and the 0 stay, and no `Option`: the definition `Line.next_number` says both, of every input.
pub(crate) fn next_number<L: Look>(
    s: &[u8],
    at: usize,
    wanted: bool,
) -> Result<(u32, usize), Broken>
    requires { L.may s.now at }
    ensures { result ≡ next_number s.now at wanted }
{
    if wanted {
        spaced_at::<L>(s, at)
    } else {
        Ok((0, at))
    }
}

// A line's end, which is LF or, where the step may be cut, ` X` and LF: whether it is a cut and the place after it, or where it breaks the form.
pub(crate) fn end_at<L: Look>(s: &[u8], at: usize, may: bool) -> Result<(bool, usize), Broken>
    requires { L.may s.now at }
    ensures { result ≡ end_at s.now at may }
{
    let first = L::byte(s, at);
    if first == b'\n' {
        return Ok((false, at + 1));
    }
    if !may {
        return Err(Broken { place: at });
    }
    if first != b' ' {
        return Err(Broken { place: at });
    }
    if L::byte(s, at + 1) != b'X' {
        return Err(Broken { place: at + 1 });
    }
    if L::byte(s, at + 2) != b'\n' {
        return Err(Broken { place: at + 2 });
    }
    Ok((true, at + 3))
}

// The line of a letter and its numbers, which end at a place.
pub(crate) fn ended_at<L: Look>(
    s: &[u8],
    at: usize,
    letter: Letter,
    a: u32,
    b: u32,
    c: u32,
) -> Result<(Step, usize), Broken>
    requires { L.may s.now at }
    ensures { result ≡ ended_at letter a b c s.now at }
{
    let (cut, next) = end_at::<L>(s, at, letter.may_cut())?;
    let step = letter.step(a, b, c, cut);
    Ok((step, next))
}

// What stands at a place as a step line: the step and the place after its line, or the place where the line breaks the form.
pub(crate) fn line_by<L: Look>(s: &[u8], at: usize) -> Result<(Step, usize), Broken>
    requires { L.may s.now at }
    ensures { result ≡ line_at s.now at }
{
    let Ok(letter) = Letter::try_from(L::byte(s, at)) else {
        return Err(Broken { place: at });
    };
    let count = letter.numbers();
    let (a, n) = spaced_at::<L>(s, at + 1)?;
    let (b, m) = next_number::<L>(s, n, 1 < count)?;
    let (c, l) = next_number::<L>(s, m, 2 < count)?;
    ended_at::<L>(s, l, letter, a, b, c)
}

// The same at any place of any bytes: a public function, which stays as it was.
pub fn step_line(s: &[u8], at: usize) -> Result<(Step, usize), Broken>
    ensures { result ≡ line_at s.now at }
{
    line_by::<Tested>(s, at)
}

// ---- a line that is known to keep the form: nothing is tested again
// It is read by functions of its own: measured side by side on `long_five` 1,366,572 instructions, with `line_by` of `Untested` in their place 1,908,053, of `Tested` 1,793,712 (docs/SPEED.md).

// The number at a place, and the place after it.
pub(crate) fn known_number(s: &[u8], at: usize) -> (u32, usize)
    requires { KnownNumber s.now at }
    ensures { number_at s.now at ≡ Ok result }
{
    let mut value: u32 = (s[at] - b'0') as u32;
    let mut next = at + 1;
    // No `for` over the places: it would end with the file too, where this reading never comes, and test for that at each byte.
    while is_digit(s[next]) {
        value = value * 10 + (s[next] - b'0') as u32;
        next += 1;
    }
    (value, next)
}

// The number behind a space where one more is wanted, and otherwise nothing read: the flag and the 0 are `next_number`'s.
pub(crate) fn known_next(s: &[u8], at: usize, wanted: bool) -> (u32, usize)
    requires { KnownNext s.now at wanted }
    ensures { next_number s.now at wanted ≡ Ok result }
{
    if wanted {
        known_number(s, at + 1)
    } else {
        (0, at)
    }
}

// The step of the line at a place, and the place after it.
pub(crate) fn known_line(s: &[u8], at: usize) -> (Step, usize)
    requires { KnownLine s.now at }
    ensures { line_at s.now at ≡ Ok result }
{
    let letter = Letter::try_from(s[at]).unwrap();
    let count = letter.numbers();
    let (a, n) = known_next(s, at + 1, true);
    let (b, m) = known_next(s, n, 1 < count);
    let (c, end) = known_next(s, m, 2 < count);
    let cut = s[end] == b' ';
    let step = letter.step(a, b, c, cut);
    let next = if cut { end + 3 } else { end + 1 };
    (step, next)
}
