// The way of a step: refused, idle, or taken by a process with its next record and messages, and how high a message that it hears lifts its depth.
// It is read off the step, one record taken out by value, one entry and one depth; nothing is written here.
ghost use Rattle.std.specs.Prelude.{◌≡◌, ◌&&◌, not, true, false, ◌+◌, ◌≤◌, ltb, is_some, Some, Ok, IfOk};
ghost use Rattle.rules.specs.Limits as limits;
ghost use Rattle.rules.specs.Store as stores;
ghost use Rattle.rules.specs.Refusals as refusals;
ghost use Rattle.rules.specs.Idle as idleness;
ghost use Rattle.rules.specs.Events as events;
ghost use Rattle.rules.specs.Step as steps;
ghost use Rattle.rules.specs.Kinds.{delivers};
ghost use Rattle.rules.specs.Private as private;

use crate::group::Group;
use crate::process::{Estimate, Next, Process, Seat};
use crate::refusal::Refusal;
use crate::size::{Id, Size};
use crate::step::Step;
use crate::store::{Kind, Store};

// A step that is taken: by which process, with its next record and messages, and with what lifts its depth:
// one more than the depth of the message that it hears, and 0 where it hears none. A step that is idle gives none.
#[derive(Clone, Copy)]
pub struct Taking {
    pub taker: Id,
    pub next: Next,
    pub lift: u32,
}

// Where a step leads: the process that takes it, the place of the message that it delivers, if it delivers one, and whether it recovers the process.
// The sender and the round are not carried along, since half the kinds of steps have none: `last_way` takes them from the step, of which they are known by then.
#[derive(Clone, Copy)]
pub struct Address {
    pub taker: Id,
    pub place: Option<usize>,
    pub recovers: bool,
}

// A message that a step delivers, as it stands in the stores: its entry and its depth.
#[derive(Clone, Copy)]
pub struct Heard {
    pub entry: u64,
    pub depth: u16,
}

// What a step brings, once a message is known to name a process of the group: an estimate, and what it lifts a depth to.
#[derive(Clone, Copy)]
pub struct Carried {
    pub estimate: Estimate,
    pub lift: u32,
}

impl Carried {
    // What a step that delivers no message carries: as much as entry 0 and depth 0. It is no `Option`: so the definition `Private.held_course` reads it.
    #[tactic(auto, unfolding(crate::specs::Private::Carries))]
    pub(crate) fn nothing() -> Carried
        ensures { private.Carries 0 0 result }
    {
        Carried {
            estimate: Estimate {
                proposer: 0,
                value: 0,
            },
            lift: 1,
        }
    }
}

impl Heard {
    // The message at a place, if there is one.
    #[tactic(auto, unfolding(crate::specs::Private::heard_at))]
    pub(crate) fn at(store: &[u64], depths: &[u16], place: Option<usize>) -> Option<Heard>
        requires { private.Placed place store.now depths.now }
        ensures { result ≡ private.heard_at place store.now depths.now }
    {
        let place = place?;
        Some(Heard {
            entry: store[place],
            depth: depths[place],
        })
    }

    // What it carries in a group of n; or refusal 6, the entry's 2 or the message's 14.
    #[tactic(auto, unfolding(crate::specs::Private::refused_by, crate::specs::Private::Carries, crate::specs::Answers::number_of, crate::specs::Refusals::row, crate::specs::Limits::some_if))]
    pub(crate) fn carried(self, n: Size) -> Result<Carried, Refusal>
        ensures rows { private.refused_by result ≡ private.heard_rows n self.entry self.depth }
        ensures carries { IfOk result (private.Carries self.entry self.depth) }
    {
        if self.entry == 0 {
            return Err(Refusal::NotSent);
        }
        let Some(proposer) = n.id((self.entry / Store::VALUES) as u32) else {
            return Err(Refusal::Damaged);
        };
        if Store::DEEPEST < self.depth {
            return Err(Refusal::TooDeep);
        }
        Ok(Carried {
            estimate: Estimate {
                proposer: proposer.number(),
                value: Store::value_of(self.entry),
            },
            lift: self.depth as u32 + 1,
        })
    }
}

// ---- the step alone. The three addresses are no twins: they differ in which numbers are tested, whether there is a round, and which place is meant

// The address of an E, S or F.
#[tactic(auto, unfolding(crate::specs::Private::told_address, crate::specs::Private::unless_missed, crate::specs::Private::place_or, crate::specs::Answers::number_of, crate::specs::Refusals::row, crate::specs::Limits::some_if))]
pub(crate) fn message_address(
    n: Size,
    to: u32,
    from: u32,
    round: u32,
    kind: Kind,
) -> Result<Address, Refusal>
    ensures { private.told_address result ≡ private.unless_missed (refusals.row (not (limits.among n to && (limits.among n from && true))) 3 (refusals.row (ltb limits.last_round round) 4 0)) (private.At to (stores.slot round from (private.kind_of kind)) true false) }
{
    let taker = n.id(to).ok_or(Refusal::NoProcess)?;
    let sender = n.id(from).ok_or(Refusal::NoProcess)?;
    if (Process::LAST_ROUND as u32) < round {
        return Err(Refusal::NoRound);
    }
    let place = Store::slot(round as u8, sender, kind);
    Ok(Address {
        taker,
        place: Some(place),
        recovers: false,
    })
}

// The address of a decision.
#[tactic(auto, unfolding(crate::specs::Private::told_address, crate::specs::Private::unless_missed, crate::specs::Private::place_or, crate::specs::Answers::number_of, crate::specs::Refusals::row, crate::specs::Limits::some_if))]
pub(crate) fn decision_address(n: Size, to: u32, from: u32) -> Result<Address, Refusal>
    ensures { private.told_address result ≡ private.unless_missed (refusals.row (not (limits.among n to && (limits.among n from && true))) 3 0) (private.At to (stores.decision_slot from) true false) }
{
    let taker = n.id(to).ok_or(Refusal::NoProcess)?;
    let sender = n.id(from).ok_or(Refusal::NoProcess)?;
    let place = Store::decision_slot(sender);
    Ok(Address {
        taker,
        place: Some(place),
        recovers: false,
    })
}

// The address of a step of one process.
#[tactic(auto, unfolding(crate::specs::Private::told_address, crate::specs::Private::unless_missed, crate::specs::Private::place_or, crate::specs::Answers::number_of, crate::specs::Refusals::row, crate::specs::Limits::some_if))]
pub(crate) fn own_address(n: Size, process: u32, recovers: bool) -> Result<Address, Refusal>
    ensures { private.told_address result ≡ private.unless_missed (refusals.row (not (limits.among n process && true)) 3 0) (private.At process 0 false recovers) }
{
    let taker = n.id(process).ok_or(Refusal::NoProcess)?;
    Ok(Address {
        taker,
        place: None,
        recovers,
    })
}

impl Step {
    // Where the step leads in a group of n: refusals 3 and 4, then what it reads. A match over the eight kinds, in which each arm is a call.
    #[tactic(auto, unfolding(crate::specs::Private::address_of, crate::specs::Private::number_rows, crate::specs::Kinds::numbers_of, crate::specs::Refusals::every, crate::specs::Refusals::late, crate::specs::Refusals::row, crate::specs::Kinds::round_of, crate::specs::Kinds::taker_of, crate::specs::Kinds::slot_of, crate::specs::Kinds::delivers, crate::specs::Refusals::is_recover, crate::specs::Private::kind_of))]
    pub(crate) fn address(self, n: Size) -> Result<Address, Refusal>
        ensures { private.told_address result ≡ private.address_of n self }
    {
        match self {
            Step::DeliverE {
                to,
                from,
                round,
                cut: _,
            } => message_address(n, to, from, round, Kind::E),
            Step::DeliverS {
                to,
                from,
                round,
                cut: _,
            } => message_address(n, to, from, round, Kind::S),
            Step::DeliverF {
                to,
                from,
                round,
                cut: _,
            } => message_address(n, to, from, round, Kind::F),
            Step::DeliverDecision { to, from, cut: _ } => decision_address(n, to, from),
            Step::Suspect { process, cut: _ } => own_address(n, process, false),
            Step::Pause { process } => own_address(n, process, false),
            Step::Crash { process } => own_address(n, process, false),
            Step::Recover { process } => own_address(n, process, true),
        }
    }
}

// What a step carries to a process; or refusal 5, where the process is down and the step does not recover it, or one of those of the message.
#[tactic(auto, unfolding(crate::specs::Private::refused_by, crate::specs::Private::held_rows, crate::specs::Private::entry_heard, crate::specs::Private::depth_heard, crate::specs::Answers::number_of, crate::specs::Refusals::row))]
pub(crate) fn held(
    n: Size,
    up: bool,
    heard: Option<Heard>,
    recovers: bool,
) -> Result<Carried, Refusal>
    ensures rows { private.refused_by result ≡ private.held_rows n up (private.entry_heard heard) (private.depth_heard heard) (is_some heard) recovers }
    ensures carries { IfOk result (private.Carries (private.entry_heard heard) (private.depth_heard heard)) }
{
    if !recovers && !up {
        return Err(Refusal::Down);
    }
    match heard {
        Some(message) => message.carried(n),
        None => Ok(Carried::nothing()),
    }
}

// ---- ways of one process. Those of the four kinds of delivery are four functions: they differ in the idle test and in the event, and one function that is given what both of them give costs 4 in a hundred more (docs/SPEED.md)

// A step that hears nothing and is taken: the depth becomes the greater of itself and 0.
#[tactic(auto, unfolding(crate::specs::Private::told, crate::specs::Private::lifted))]
pub(crate) fn way_on(i: Id, next: Next) -> Option<Taking>
    ensures { private.told (Ok result) ≡ private.lifted 0 (steps.Takes i next) }
{
    Some(Taking {
        taker: i,
        next,
        lift: 0,
    })
}

impl Process {
    // An idle delivery: nothing, and a crash where it is cut.
    #[tactic(auto, unfolding(crate::specs::Private::told, crate::specs::Private::lifted, crate::specs::Step::idles))]
    pub(crate) fn idles(self, i: Id, cut: bool) -> Option<Taking>
        ensures { private.told (Ok result) ≡ private.lifted 0 (steps.idles cut i self) }
    {
        if cut {
            way_on(i, self.on_crash())
        } else {
            None
        }
    }

    #[tactic(auto, unfolding(crate::specs::Private::told, crate::specs::Private::lifted, crate::specs::Private::lift_unless, crate::specs::Step::or_idle))]
    pub(crate) fn way_e(
        self,
        seat: Seat,
        sender: Id,
        round: u8,
        carried: Carried,
        cut: bool,
    ) -> Option<Taking>
        ensures { private.told (Ok result) ≡ private.lifted (private.lift_unless (idleness.idle_e self sender round) carried.lift) (steps.or_idle (idleness.idle_e self sender round) cut seat.i self (events.on_e seat.n seat.i sender round carried.estimate.proposer carried.estimate.value self)) }
    {
        let i = seat.i;
        if self.idle_e(sender, round) {
            return self.idles(i, cut);
        }
        let next = self.on_e(seat, sender, round, carried.estimate);
        Some(Taking {
            taker: i,
            next: next.cut_if(cut),
            lift: carried.lift,
        })
    }

    #[tactic(auto, unfolding(crate::specs::Private::told, crate::specs::Private::lifted, crate::specs::Private::lift_unless, crate::specs::Step::or_idle))]
    pub(crate) fn way_s(
        self,
        seat: Seat,
        sender: Id,
        round: u8,
        carried: Carried,
        cut: bool,
    ) -> Option<Taking>
        ensures { private.told (Ok result) ≡ private.lifted (private.lift_unless (idleness.idle_s self sender round) carried.lift) (steps.or_idle (idleness.idle_s self sender round) cut seat.i self (events.on_s seat.n sender self)) }
    {
        if self.idle_s(sender, round) {
            return self.idles(seat.i, cut);
        }
        let next = self.on_s(seat.n, sender);
        Some(Taking {
            taker: seat.i,
            next: next.cut_if(cut),
            lift: carried.lift,
        })
    }

    // An F that would take the process past the last round is refused. It asks what `on_f` asks.
    #[tactic(auto, unfolding(crate::specs::Private::told, crate::specs::Private::lifted, crate::specs::Private::lift_unless, crate::specs::Step::or_idle, crate::specs::Private::or_past, crate::specs::Private::unless_past, crate::specs::Answers::number_of))]
    pub(crate) fn way_f(
        self,
        seat: Seat,
        sender: Id,
        round: u8,
        carried: Carried,
        cut: bool,
    ) -> Result<Option<Taking>, Refusal>
        requires { (self.round ≤ limits.last_round) × (round ≤ limits.last_round) }
        ensures { private.told result ≡ private.lifted (private.lift_unless (idleness.idle_f self sender round) carried.lift) (private.or_past (idleness.idle_f self sender round) cut seat.i self (events.on_f seat.n seat.i sender round carried.estimate.proposer carried.estimate.value self)) }
    {
        let i = seat.i;
        if self.idle_f(sender, round) {
            return Ok(self.idles(i, cut));
        }
        let next = self.on_f(seat, sender, round, carried.estimate);
        if Process::LAST_ROUND < next.process.round {
            return Err(Refusal::PastLastRound);
        }
        Ok(Some(Taking {
            taker: i,
            next: next.cut_if(cut),
            lift: carried.lift,
        }))
    }

    #[tactic(auto, unfolding(crate::specs::Private::told, crate::specs::Private::lifted, crate::specs::Private::lift_unless, crate::specs::Step::or_idle, crate::specs::Events::on_decision))]
    pub(crate) fn way_decision(self, i: Id, carried: Carried, cut: bool) -> Option<Taking>
        ensures { private.told (Ok result) ≡ private.lifted (private.lift_unless self.decided carried.lift) (steps.or_idle self.decided cut i self (events.on_decision carried.estimate.value self)) }
    {
        if self.decided {
            return self.idles(i, cut);
        }
        let next = self.on_decision(carried.estimate.value);
        Some(Taking {
            taker: i,
            next: next.cut_if(cut),
            lift: carried.lift,
        })
    }

    // A suspicion that is not possible is refused.
    #[tactic(auto, unfolding(crate::specs::Private::told, crate::specs::Private::lifted, crate::specs::Private::or_impossible, crate::specs::Answers::number_of))]
    pub(crate) fn way_suspect(self, i: Id, cut: bool) -> Result<Option<Taking>, Refusal>
        ensures { private.told result ≡ private.lifted 0 (private.or_impossible (refusals.may_suspect self) cut i self) }
    {
        if !self.may_suspect() {
            return Err(Refusal::NotPossible);
        }
        Ok(way_on(i, self.on_suspect().cut_if(cut)))
    }

    // A recovery of a process that is up is refused, and so is one that would be too many.
    #[tactic(auto, unfolding(crate::specs::Private::told, crate::specs::Private::lifted, crate::specs::Private::or_up, crate::specs::Private::unless_many, crate::specs::Answers::number_of))]
    pub(crate) fn way_recover(self, i: Id) -> Result<Option<Taking>, Refusal>
        ensures { private.told result ≡ private.lifted 0 (private.or_up self.up i self) }
    {
        if self.up {
            return Err(Refusal::NotPossible);
        }
        if Process::MOST_RECOVERIES <= self.recoveries {
            return Err(Refusal::TooManyRecoveries);
        }
        Ok(way_on(i, self.on_recover()))
    }

    // The way of a step that none of 11 to the message's 14 stops: a match over the eight kinds, in which each arm is a call. A table of functions would be these arms again.
    #[tactic(auto, unfolding(crate::specs::Private::last_course, crate::specs::Private::lifts, crate::specs::Kinds::delivers))]
    pub(crate) fn last_way(
        self,
        seat: Seat,
        carried: Carried,
        step: Step,
    ) -> Result<Option<Taking>, Refusal>
        requires { private.Numbered seat.n self step }
        ensures { private.told result ≡ private.lifted (private.lifts self step carried.lift) (private.last_course seat.n seat.i carried.estimate.proposer carried.estimate.value self step) }
    {
        match step {
            Step::DeliverE {
                to: _,
                from,
                round,
                cut,
            } => Ok(self.way_e(seat, Id::known(from), round as u8, carried, cut)),
            Step::DeliverS {
                to: _,
                from,
                round,
                cut,
            } => Ok(self.way_s(seat, Id::known(from), round as u8, carried, cut)),
            Step::DeliverF {
                to: _,
                from,
                round,
                cut,
            } => self.way_f(seat, Id::known(from), round as u8, carried, cut),
            Step::DeliverDecision {
                to: _,
                from: _,
                cut,
            } => Ok(self.way_decision(seat.i, carried, cut)),
            Step::Suspect { process: _, cut } => self.way_suspect(seat.i, cut),
            Step::Pause { process: _ } => Ok(way_on(seat.i, self.on_pause())),
            Step::Crash { process: _ } => Ok(way_on(seat.i, self.on_crash())),
            Step::Recover { process: _ } => self.way_recover(seat.i),
        }
    }

    // The way of a step that none of 11 to 4 stops.
    #[tactic(auto, unfolding(crate::specs::Private::lifted))]
    pub(crate) fn way(
        self,
        seat: Seat,
        heard: Option<Heard>,
        recovers: bool,
        step: Step,
    ) -> Result<Option<Taking>, Refusal>
        requires { private.Numbered seat.n self step × (is_some heard ≡ delivers step) × (recovers ≡ refusals.is_recover step) }
        ensures { private.told result ≡ private.lifted (private.lifts self step (private.depth_heard heard + 1)) (private.held_course seat.n seat.i (private.entry_heard heard) (private.depth_heard heard) self step) }
    {
        let carried = held(seat.n, self.up, heard, recovers)?;
        self.last_way(seat, carried, step)
    }
}

// ---- the way of a step of a group, which it only reads

impl Group {
    pub(crate) fn way_of(
        &self,
        store: &[u64],
        depths: &[u16],
        step: Step,
    ) -> Result<Option<Taking>, Refusal>
        requires { steps.Ready self.now store.now depths.now }
        ensures { private.told result ≡ private.way_of self.now store.now depths.now step }
    {
        let n = Size::known(self.n);
        let address = step.address(n)?;
        let heard = Heard::at(store, depths, address.place);
        let i = address.taker;
        self.member(i)
            .process
            .way(Seat { n, i }, heard, address.recovers, step)
    }
}
