// Texts and numbers, written one after the other into a lent array.
// Where a text has no room from its place on, nothing is written, and the place is answered as it was.
// The array and the place stay two parameters, and no room stays a place and no `None`: the clause `Puts` of `put_bytes` and `put_number` says both, of every input.
ghost use Rattle.std.specs.Prelude.{◌≡◌, ◌+◌, leb};
ghost use Rattle.text.specs.Number.{spelled};
ghost use Rattle.text.specs.Put.{Puts};

// Whether a text of this length has room from a place on.
pub(crate) fn has_room(at: usize, length: usize, room: usize) -> bool
    ensures { result ≡ leb (at + length) room }
{
    at <= room && length <= room - at
}

// Puts a text at a place, and answers the place after it.
pub fn put_bytes(out: &mut [u8], at: usize, text: &[u8]) -> usize
    ensures { Puts out.old at text.now out.new result }
{
    if !has_room(at, text.len(), out.len()) {
        return at;
    }
    let end = at + text.len();
    out[at..end].copy_from_slice(text);
    end
}

// Puts a number's digits at a place, and answers the place after them.
pub fn put_number(out: &mut [u8], at: usize, n: u32) -> usize
    ensures { Puts out.old at (spelled n) out.new result }
{
    // The digits pass through an array of the stack: nothing is allocated, as it would be by `to_string`.
    let mut text = [0u8; 20];
    let k = io::decimal(n as u64, &mut text);
    put_bytes(out, at, &text[..k])
}
