// Tallies: sets of senders as 16-bit numbers, and the majority that a tally's size may meet.
// Sender j stands at the binary digit j - 1. Nothing else looks at the digits.
ghost use Rattle.std.specs.Prelude.{◌≡◌};
ghost use Rattle.rules.specs.Limits as limits;
ghost use Rattle.rules.specs.Tally as tallies;

use crate::size::{Id, Size};

// The least size that is more than half of n.
pub(crate) fn majority(n: u8) -> u8
    ensures { result ≡ limits.majority n }
{
    n / 2 + 1
}

// The tally with the sender in it.
#[tactic(auto, unfolding(crate::specs::Tally::joined))]
pub(crate) fn joined(tally: u16, sender: Id) -> u16
    ensures { result ≡ tallies.joined tally sender }
{
    tally | (1u16 << (sender.number() - 1))
}

// Whether the tally has the sender.
#[tactic(auto, unfolding(crate::specs::Tally::holds))]
pub(crate) fn holds(tally: u16, sender: Id) -> bool
    ensures { result ≡ tallies.holds tally sender }
{
    (tally >> (sender.number() - 1)) % 2 == 1
}

// Whether the tally's size meets the majority of n, by being at least it.
#[tactic(auto, unfolding(crate::specs::Tally::meets))]
pub(crate) fn meets(tally: u16, n: Size) -> bool
    ensures { result ≡ tallies.meets tally n }
{
    majority(n.number()) as u32 <= u16::count_ones(tally)
}

// Whether the tally has no sender above n.
#[tactic(auto, unfolding(crate::specs::Tally::within))]
pub(crate) fn within(tally: u16, n: Size) -> bool
    ensures { result ≡ tallies.within tally n }
{
    tally <= ((1u32 << n.number()) - 1) as u16
}
