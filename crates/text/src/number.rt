// Decimals: at most 4,294,967,295, without leading zeros.
// Any place of any bytes may be read: a place past the end has no digit.
ghost use Rattle.std.specs.Prelude.{◌≡◌, ◌≤◌, get_or, drop};
ghost use Rattle.text.specs.Number.{is_digit, most, number_at, scan};

use crate::look::{Look, Tested};

// The limit of a decimal.
#[derive(Clone, Copy)]
pub struct Number {}

impl Number {
    // The greatest number that a text can hold.
    pub const MOST: u64 = 4294967295;
}

// The place of the first byte that breaks the form of what is read.
#[derive(Clone, Copy, PartialEq, Eq, Debug)]
pub struct Broken {
    pub place: usize,
}

// Whether a byte is one of `0` to `9`.
#[tactic(auto, unfolding(crate::specs::Number::is_digit))]
pub fn is_digit(b: u8) -> bool
    ensures { result ≡ is_digit b }
{
    b.is_ascii_digit()
}

// The byte at a place; 0 past the end: a public function, which stays as it was.
pub fn byte_at(s: &[u8], at: usize) -> u8
    ensures { result ≡ get_or s.now at 0 }
{
    Tested::byte(s, at)
}

// The digits at a place, after a number v that was read up to it: up to the first byte that is none or to the end.
pub(crate) fn digits_from<L: Look>(s: &[u8], at: usize, v: u64) -> Result<(u32, usize), Broken>
    requires { L.may s.now at × (v ≤ most) }
    ensures { result ≡ scan v at (drop at s.now) }
{
    let mut place = at;
    let mut total = v;
    // No `for place in at..s.len()`: the digits would then end in two ways, at a byte that is none and at the end, and the answer would be written twice.
    'digits: loop {
        let byte = L::byte(s, place);
        if !is_digit(byte) {
            return Ok((total as u32, place));
        }
        total = total * 10 + (byte - b'0') as u64;
        if total > Number::MOST {
            return Err(Broken { place });
        }
        place += 1;
    }
}

// The decimal that begins at a place, with as many digits as stand there, and the place after it.
pub fn decimal_by<L: Look>(s: &[u8], at: usize) -> Result<(u32, usize), Broken>
    requires { L.may s.now at }
    ensures { result ≡ number_at s.now at }
{
    let first = L::byte(s, at);
    if !is_digit(first) {
        return Err(Broken { place: at });
    }
    if !is_digit(L::byte(s, at + 1)) {
        return Ok(((first - b'0') as u32, at + 1));
    }
    if first == b'0' {
        return Err(Broken { place: at + 1 });
    }
    digits_from::<L>(s, at + 1, (first - b'0') as u64)
}

// The same at any place: a public function, which stays as it was.
pub fn decimal(s: &[u8], at: usize) -> Result<(u32, usize), Broken>
    ensures { result ≡ number_at s.now at }
{
    decimal_by::<Tested>(s, at)
}
