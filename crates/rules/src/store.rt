// The message store: the places of the messages, their entries, and handing over, its only writer beside the clearing at a start.
// Beside it stands a second store: the depth of each message, at the same place.
ghost use Rattle.std.specs.Prelude.{◌≡◌, ◌≤◌, ◌<◌, length, get_or, set, Some, OnOk};
ghost use Rattle.rules.specs.Limits as limits;
ghost use Rattle.rules.specs.Store as stores;
ghost use Rattle.rules.specs.Depths as dates;
ghost use Rattle.rules.specs.Refusals as refusals;
ghost use Rattle.rules.specs.Tally.{bit_of};
ghost use Rattle.rules.specs.Private as private;

use crate::group::Group;
use crate::process::{Message, Next, Process};
use crate::refusal::Refusal;
use crate::size::Id;

// The kinds of messages that have a round; the value of each as a number is its place among the three of a round and a process.
#[derive(Clone, Copy)]
pub enum Kind {
    E = 0,
    S = 1,
    F = 2,
}

// Where a message stands in the store, and its entry.
#[derive(Clone, Copy)]
pub struct Spot {
    pub place: usize,
    pub entry: u64,
}

// How many messages were handed over, and how many of them again: their entry was sent before.
#[derive(Clone, Copy)]
pub struct Traffic {
    pub sent: u8,
    pub again: u8,
}

// The store itself is a slice of 64-bit entries that the caller lends, and the depths one of 16-bit numbers; this type has their limits.
// The two are lent side by side and not in a struct: the contract of whatever takes such a struct has to say that it still holds the same two references, which is no plainer than saying
// that both are long enough.
#[derive(Clone, Copy)]
pub struct Store {}

impl Store {
    // How many entries a store has, and how many depths: one for each round, process and kind, and one for each decision. What lies past them is never touched.
    pub const LENGTH: usize = (Process::LAST_ROUND as usize + 1) * Group::GREATEST * Store::KINDS
        + Group::GREATEST;

    // The greatest depth that a message can have.
    pub const DEEPEST: u16 = Group::DEEPEST - 1;

    // The constant is the definitions' limit. It takes a function to say so: a constant has no clause of its own.
    pub(crate) fn deepest() -> u16
        ensures { result ≡ limits.deepest_message }
    {
        Store::DEEPEST
    }

    // How many values there are: an entry is its proposer times this, and its value.
    pub(crate) const VALUES: u64 = 4294967296;

    // The constant is the definitions' limit.
    pub(crate) fn values() -> u64
        ensures { result ≡ limits.values }
    {
        Store::VALUES
    }

    // How many kinds of messages have a round.
    pub(crate) const KINDS: usize = 3;

    // The constant is the definitions' limit.
    pub(crate) fn length() -> usize
        ensures { result ≡ limits.store_length }
    {
        Store::LENGTH
    }

    // Refusals 11 and 14 of stores of these lengths.
    #[tactic(auto, unfolding(crate::specs::Private::refused_by, crate::specs::Answers::number_of, crate::specs::Refusals::row, crate::specs::Refusals::short))]
    pub(crate) fn check(store: &[u64], depths: &[u16]) -> Result<(), Refusal>
        ensures rows { private.refused_by result ≡ refusals.row (refusals.short store.now) 11 (refusals.row (refusals.short depths.now) 14 0) }
        ensures long { OnOk result ((limits.store_length ≤ length store.now) × (limits.store_length ≤ length depths.now)) }
    {
        if store.len() < Store::LENGTH {
            return Err(Refusal::ShortStore);
        }
        if depths.len() < Store::LENGTH {
            return Err(Refusal::TooDeep);
        }
        Ok(())
    }

    // Where the message of a round, a sender and a kind stands.
    #[tactic(auto, unfolding(crate::specs::Private::kind_of))]
    pub(crate) fn slot(round: u8, sender: Id, kind: Kind) -> usize
        ensures is { result ≡ stores.slot round sender (private.kind_of kind) }
        ensures within { round ≤ limits.last_round → result < limits.store_length }
    {
        (round as usize * Group::GREATEST + (sender.number() - 1) as usize) * Store::KINDS
            + kind as usize
    }

    // Where the decision of a sender stands.
    pub(crate) fn decision_slot(sender: Id) -> usize
        ensures is { result ≡ stores.decision_slot sender }
        ensures within { result < limits.store_length }
    {
        Store::LENGTH - Group::GREATEST + (sender.number() - 1) as usize
    }

    // The entry of an estimate, or of a message that carries the value alone or none, with its sender as the proposer.
    pub(crate) fn entry_of(proposer: u8, value: u32) -> u64
        ensures { result ≡ stores.entry_of proposer value }
    {
        (proposer as u64) * Store::VALUES + (value as u64)
    }

    // The value of an entry.
    pub(crate) fn value_of(entry: u64) -> u32
        ensures { result ≡ stores.value_of entry }
    {
        (entry % Store::VALUES) as u32
    }

    // Writes an entry, and answers whether it was sent before; where it was not, the message gets the depth.
    #[tactic(auto, unfolding(crate::specs::Depths::dated_if))]
    pub(crate) fn write(store: &mut [u64], depths: &mut [u16], depth: u16, spot: Spot) -> bool
        requires { (spot.place < length store.old) × (spot.place < length depths.old) }
        ensures { (store.new ≡ set store.old spot.place spot.entry) × (depths.new ≡ dates.dated_at spot.place depth store.old depths.old) × (bit_of result ≡ stores.sent_bit (get_or store.old spot.place 0)) }
    {
        let old = store[spot.place];
        store[spot.place] = spot.entry;
        if old != 0 {
            return true;
        }
        depths[spot.place] = depth;
        false
    }

    // Where a message of process i stands, and its entry.
    #[tactic(auto, unfolding(crate::specs::Store::place_of, crate::specs::Store::entry_for, crate::specs::Private::kind_of))]
    pub(crate) fn spot(i: Id, message: Message) -> Spot
        ensures is { result ≡ private.spot_of i message }
        ensures within { stores.message_round (Some message) ≤ limits.last_round → result.place < limits.store_length }
    {
        match message {
            Message::E {
                round,
                proposer,
                value,
            } => Spot {
                place: Store::slot(round, i, Kind::E),
                entry: Store::entry_of(proposer, value),
            },
            Message::S { round } => Spot {
                place: Store::slot(round, i, Kind::S),
                entry: Store::entry_of(i.number(), 0),
            },
            Message::F {
                round,
                proposer,
                value,
            } => Spot {
                place: Store::slot(round, i, Kind::F),
                entry: Store::entry_of(proposer, value),
            },
            Message::Decision { value } => Spot {
                place: Store::decision_slot(i),
                entry: Store::entry_of(i.number(), value),
            },
        }
    }

    // Process i hands a message over at a depth, if there is one. Its round is asked and is no type's, as at `Process::on_f`.
    #[tactic(auto, unfolding(crate::specs::Private::spot_of, crate::specs::Store::hand_over, crate::specs::Depths::dated, crate::specs::Store::one, crate::specs::Store::repeats))]
    pub(crate) fn hand_over(
        store: &mut [u64],
        depths: &mut [u16],
        depth: u16,
        i: Id,
        message: Option<Message>,
    ) -> Traffic
        requires { (stores.message_round message ≤ limits.last_round) × (limits.store_length ≤ length store.old) × (limits.store_length ≤ length depths.old) }
        ensures { private.HandsOver i message depth store.old depths.old store.new depths.new result }
    {
        let Some(message) = message else {
            return Traffic { sent: 0, again: 0 };
        };
        let again = Store::write(store, depths, depth, Store::spot(i, message));
        Traffic {
            sent: 1,
            again: again as u8,
        }
    }

    // Process i hands the messages of its next record over at a depth, the first first.
    pub(crate) fn hand_over_both(
        store: &mut [u64],
        depths: &mut [u16],
        depth: u16,
        i: Id,
        next: Next,
    ) -> Traffic
        requires { (stores.message_round next.first ≤ limits.last_round) × (stores.message_round next.second ≤ limits.last_round) × (limits.store_length ≤ length store.old) × (limits.store_length ≤ length depths.old) }
        ensures { private.HandsOverBoth i next.first next.second depth store.old depths.old store.new depths.new result }
    {
        let one = Store::hand_over(store, depths, depth, i, next.first);
        let two = Store::hand_over(store, depths, depth, i, next.second);
        Traffic {
            sent: one.sent + two.sent,
            again: one.again + two.again,
        }
    }

    // Clears the entries and the depths, and nothing past them.
    #[tactic(auto, unfolding(crate::specs::Store::cleared))]
    pub(crate) fn clear(store: &mut [u64], depths: &mut [u16])
        requires { (limits.store_length ≤ length store.old) × (limits.store_length ≤ length depths.old) }
        ensures { (store.new ≡ stores.cleared limits.store_length store.old) × (depths.new ≡ stores.cleared limits.store_length depths.old) }
    {
        store[..Store::LENGTH].fill(0);
        depths[..Store::LENGTH].fill(0);
    }
}
