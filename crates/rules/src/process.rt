// The record of one process, and what it does with each kind of event.
// A method takes the record by value and gives back the next one, with the messages that it hands over. Knows no group and no store.
ghost use Rattle.std.specs.Prelude.{◌≡◌, ◌+◌, ◌≤◌, eqb};
ghost use Rattle.rules.specs.Limits as limits;
ghost use Rattle.rules.specs.Records as records;
ghost use Rattle.rules.specs.Events as events;
ghost use Rattle.rules.specs.Idle as idleness;
ghost use Rattle.rules.specs.Refusals as refusals;
ghost use Rattle.rules.specs.Start as starts;

use crate::size::{Id, Size};
use crate::tally;

// A message that a process hands over. It is for all; its sender is the process. E and F keep proposer and value apart, as document 01's entries and the definitions have them.
#[derive(Clone, Copy)]
pub enum Message {
    E { round: u8, proposer: u8, value: u32 },
    S { round: u8 },
    F { round: u8, proposer: u8, value: u32 },
    Decision { value: u32 },
}

// An estimate that a message carries: the process that proposed it, and its value. A record keeps the two apart, since its order is by width.
#[derive(Clone, Copy)]
pub struct Estimate {
    pub proposer: u8,
    pub value: u32,
}

// Where a process stands: the size of its group, and which of it the process is.
#[derive(Clone, Copy)]
pub struct Seat {
    pub n: Size,
    pub i: Id,
}

// A process. `decision` is one where `decided` is true, and none otherwise. All but `up` and the tallies is the stored record.
// Two fields and not an option: `Group::step` promises an answer for every group, one with a number under a false `decided` too, and keeps that number.
// Phases stay numbers, and round and proposer of any size: a record with another phase is damaged, and refused by that.
// The two that no message changes stand first, the others by width: of the orders tried this one is cheapest to take out and to put back.
#[derive(Clone, Copy, Default)]
pub struct Process {
    pub first: u32,
    pub recoveries: u8,
    pub value: u32,
    pub decision: u32,
    pub estimates: u16,
    pub suspicions: u16,
    pub round: u8,
    pub phase: u8,
    pub proposer: u8,
    pub marked: bool,
    pub decided: bool,
    pub up: bool,
}

// The next record, and the messages that it hands over, at most two.
#[derive(Clone, Copy)]
pub struct Next {
    pub process: Process,
    pub first: Option<Message>,
    pub second: Option<Message>,
}

// The coordinator of a round among n.
pub(crate) fn coordinator(round: u8, n: Size) -> u8
    ensures { result ≡ limits.coordinator round n }
{
    round % n.number() + 1
}

impl Seat {
    // Whether the process coordinates a round.
    pub(crate) fn coordinates(self, round: u8) -> bool
        ensures { result ≡ eqb self.i (limits.coordinator round self.n) }
    {
        self.i.number() == coordinator(round, self.n)
    }

    // The E with which the process opens a round, where it is the coordinator.
    #[tactic(auto, unfolding(crate::specs::Events::opens, crate::specs::Events::opens_if))]
    pub(crate) fn opens(self, round: u8, value: u32) -> Option<Message>
        ensures { result ≡ events.opens self.n self.i round value }
    {
        let i = self.i;
        if self.coordinates(round) {
            Some(Message::E {
                round,
                proposer: i.number(),
                value,
            })
        } else {
            None
        }
    }
}

impl Process {
    // The last round that a process can be in.
    pub const LAST_ROUND: u8 = 63;

    // The constant is the definitions' limit. It takes a function to say so: a constant has no clause of its own, and one function for all limits could not name the constant.
    pub(crate) fn last_round() -> u8
        ensures { result ≡ limits.last_round }
    {
        Process::LAST_ROUND
    }

    // The most recoveries that a process can have.
    pub const MOST_RECOVERIES: u8 = 255;

    // The constant is the definitions' limit.
    pub(crate) fn most_recoveries() -> u8
        ensures { result ≡ limits.most_recoveries }
    {
        Process::MOST_RECOVERIES
    }

    // The record of process i at a start.
    #[tactic(auto, unfolding(crate::specs::Start::fresh, crate::specs::Records::blank))]
    pub(crate) fn fresh(i: Id, value: u32) -> Process
        ensures { result ≡ starts.fresh i value }
    {
        Process {
            first: value,
            phase: 1,
            proposer: i.number(),
            value,
            up: true,
            ..Process::blank()
        }
    }

    // The record above a group's size.
    #[tactic(auto, unfolding(crate::specs::Records::blank))]
    pub(crate) fn blank() -> Process
        ensures { result ≡ records.blank }
    {
        Process::default()
    }

    // ---- stages

    // The record, with nothing handed over.
    #[tactic(auto, unfolding(crate::specs::Events::quiet))]
    pub(crate) fn quiet(self) -> Next
        ensures { result ≡ events.quiet self }
    {
        Next {
            process: self,
            first: None,
            second: None,
        }
    }

    // With another estimate.
    #[tactic(auto, unfolding(crate::specs::Events::takes))]
    pub(crate) fn takes(mut self, estimate: Estimate) -> Process
        ensures { result ≡ events.takes estimate.proposer estimate.value self }
    {
        self.proposer = estimate.proposer;
        self.value = estimate.value;
        self
    }

    // In another round: phase 1, no mark, empty tallies.
    #[tactic(auto, unfolding(crate::specs::Events::enters))]
    pub(crate) fn enters(mut self, round: u8) -> Process
        ensures { result ≡ events.enters round self }
    {
        self.round = round;
        self.phase = 1;
        self.marked = false;
        self.estimates = 0;
        self.suspicions = 0;
        self
    }

    // After a message of a round that may be higher.
    #[tactic(auto, unfolding(crate::specs::Events::jumps, crate::specs::Events::jumps_if))]
    pub(crate) fn jumps(self, round: u8, carried: Estimate) -> Process
        ensures { result ≡ events.jumps round carried.proposer carried.value self }
    {
        if self.round < round {
            self.enters(round).takes(carried)
        } else {
            self
        }
    }

    // With the carried estimate and its E, where it has heard no E and is not the coordinator.
    #[tactic(auto, unfolding(crate::specs::Events::relays, crate::specs::Events::relays_if))]
    pub(crate) fn relays(self, seat: Seat, carried: Estimate) -> Next
        ensures { result ≡ events.relays seat.n seat.i carried.proposer carried.value self }
    {
        let round = self.round;
        if self.estimates != 0 {
            return self.quiet();
        }
        if seat.coordinates(round) {
            return self.quiet();
        }
        let process = self.takes(carried);
        let Estimate { proposer, value } = carried;
        Next {
            process,
            first: Some(Message::E {
                round,
                proposer,
                value,
            }),
            second: None,
        }
    }

    // With the decision v.
    #[tactic(auto, unfolding(crate::specs::Events::decides))]
    pub(crate) fn decides(mut self, v: u32) -> Process
        ensures { result ≡ events.decides v self }
    {
        self.decided = true;
        self.decision = v;
        self
    }

    // In phase 2, with the F that it hands over.
    #[tactic(auto, unfolding(crate::specs::Events::goes_to_phase2, crate::specs::Events::second_phase))]
    pub(crate) fn goes_to_phase_2(self) -> Next
        ensures { result ≡ events.goes_to_phase2 self }
    {
        let round = self.round;
        let proposer = self.proposer;
        let value = self.value;
        let mut process = self;
        process.phase = 2;
        process.estimates = 0;
        Next {
            process,
            first: Some(Message::F {
                round,
                proposer,
                value,
            }),
            second: None,
        }
    }

    // In phase 2, whichever it was in.
    #[tactic(auto, unfolding(crate::specs::Events::to_phase2, crate::specs::Events::goes_to_phase2_if))]
    pub(crate) fn to_phase_2(self) -> Next
        ensures { result ≡ events.to_phase2 self }
    {
        if self.phase == 1 {
            self.goes_to_phase_2()
        } else {
            self.quiet()
        }
    }

    // ---- events

    // An E of a round from the sender, to process i of n.
    #[tactic(auto, unfolding(crate::specs::Events::on_e, crate::specs::Events::changed))]
    pub(crate) fn on_e(self, seat: Seat, sender: Id, round: u8, carried: Estimate) -> Next
        ensures { result ≡ events.on_e seat.n seat.i sender round carried.proposer carried.value self }
    {
        let n = seat.n;
        let jumped = self.jumps(round, carried);
        let relayed = jumped.relays(seat, carried);
        relayed.joins(sender).decides_at(n)
    }

    // A suspicion of the process's round from the sender.
    #[tactic(auto, unfolding(crate::specs::Events::on_s, crate::specs::Events::joins_suspicions, crate::specs::Events::goes_to_phase2_if))]
    pub(crate) fn on_s(mut self, n: Size, sender: Id) -> Next
        ensures { result ≡ events.on_s n sender self }
    {
        let tally = tally::joined(self.suspicions, sender);
        self.suspicions = tally;
        if tally::meets(tally, n) {
            self.goes_to_phase_2()
        } else {
            self.quiet()
        }
    }

    // An F of a round from the sender, to process i of n. That neither round is past the last is asked, and is no type's: a group may hold any round, and is damaged then.
    #[tactic(auto, unfolding(crate::specs::Events::on_f, crate::specs::Events::changed))]
    pub(crate) fn on_f(self, seat: Seat, sender: Id, round: u8, carried: Estimate) -> Next
        requires { (self.round ≤ limits.last_round) × (round ≤ limits.last_round) }
        ensures { result ≡ events.on_f seat.n seat.i sender round carried.proposer carried.value self }
    {
        let n = seat.n;
        let moved = self.jumps(round, carried).to_phase_2();
        let adopted = moved.adopts(n, carried);
        adopted.joins(sender).enters_next_at(seat)
    }

    // A decision on the value.
    #[tactic(auto, unfolding(crate::specs::Events::on_decision))]
    pub(crate) fn on_decision(self, value: u32) -> Next
        ensures { result ≡ events.on_decision value self }
    {
        let process = self.decides(value);
        Next {
            process,
            first: Some(Message::Decision { value }),
            second: None,
        }
    }

    // A suspicion of its own.
    #[tactic(auto, unfolding(crate::specs::Events::on_suspect, crate::specs::Events::marks))]
    pub(crate) fn on_suspect(mut self) -> Next
        ensures { result ≡ events.on_suspect self }
    {
        let round = self.round;
        self.marked = true;
        Next {
            process: self,
            first: Some(Message::S { round }),
            second: None,
        }
    }

    // Down, everything kept.
    #[tactic(auto, unfolding(crate::specs::Events::on_pause, crate::specs::Events::paused))]
    pub(crate) fn on_pause(self) -> Next
        ensures { result ≡ events.on_pause self }
    {
        let mut paused = self;
        paused.up = false;
        paused.quiet()
    }

    // Down, both tallies emptied.
    #[tactic(auto, unfolding(crate::specs::Events::on_crash, crate::specs::Events::crashed))]
    pub(crate) fn on_crash(self) -> Next
        ensures { result ≡ events.on_crash self }
    {
        let mut crashed = self;
        crashed.up = false;
        crashed.estimates = 0;
        crashed.suspicions = 0;
        crashed.quiet()
    }

    // Up, and one recovery more.
    #[tactic(auto, unfolding(crate::specs::Events::on_recover, crate::specs::Events::recovered))]
    pub(crate) fn on_recover(self) -> Next
        requires { self.recoveries + 1 ≤ limits.most_recoveries }
        ensures { result ≡ events.on_recover self }
    {
        let mut recovered = self;
        recovered.up = true;
        recovered.recoveries = self.recoveries + 1;
        recovered.quiet()
    }

    // ---- what makes a delivery idle, and a suspicion possible. The three of a message with a round are no twins: they differ in the rule, at another round, in either phase and in the tally, and not in a number

    // The process has decided, or is past the round.
    #[tactic(auto, unfolding(crate::specs::Idle::past_for))]
    pub(crate) fn past_for(self, round: u8) -> bool
        ensures { result ≡ idleness.past_for self round }
    {
        self.decided || round < self.round
    }

    #[tactic(auto, unfolding(crate::specs::Idle::idle_e, crate::specs::Idle::in_phase))]
    pub(crate) fn idle_e(self, sender: Id, round: u8) -> bool
        ensures { result ≡ idleness.idle_e self sender round }
    {
        if self.past_for(round) {
            return true;
        }
        if round != self.round {
            return false;
        }
        if self.phase == 2 {
            return true;
        }
        if self.phase != 1 {
            return false;
        }
        tally::holds(self.estimates, sender)
    }

    #[tactic(auto, unfolding(crate::specs::Idle::idle_s))]
    pub(crate) fn idle_s(self, sender: Id, round: u8) -> bool
        ensures { result ≡ idleness.idle_s self sender round }
    {
        if self.past_for(round) {
            return true;
        }
        if round != self.round {
            return true;
        }
        if self.phase == 2 {
            return true;
        }
        tally::holds(self.suspicions, sender)
    }

    #[tactic(auto, unfolding(crate::specs::Idle::idle_f, crate::specs::Idle::in_phase))]
    pub(crate) fn idle_f(self, sender: Id, round: u8) -> bool
        ensures { result ≡ idleness.idle_f self sender round }
    {
        if self.past_for(round) {
            return true;
        }
        if round != self.round {
            return false;
        }
        if self.phase != 2 {
            return false;
        }
        let heard = self.estimates;
        tally::holds(heard, sender)
    }

    #[tactic(auto, unfolding(crate::specs::Refusals::may_suspect))]
    pub(crate) fn may_suspect(self) -> bool
        ensures { result ≡ refusals.may_suspect self }
    {
        if self.decided {
            return false;
        }
        if self.phase != 1 {
            return false;
        }
        !self.marked
    }
}

impl Next {
    // With the sender in the tally of estimates heard.
    #[tactic(auto, unfolding(crate::specs::Events::changed, crate::specs::Events::joins_estimates))]
    pub(crate) fn joins(mut self, sender: Id) -> Next
        ensures { result ≡ events.changed (events.joins_estimates sender) self }
    {
        let tally = tally::joined(self.process.estimates, sender);
        self.process.estimates = tally;
        self
    }

    // At a majority of estimates heard: the decision, and its message.
    #[tactic(auto, unfolding(crate::specs::Events::decides_at, crate::specs::Events::decides_if))]
    pub(crate) fn decides_at(self, n: Size) -> Next
        ensures { result ≡ events.decides_at n self }
    {
        let process = self.process;
        if tally::meets(process.estimates, n) {
            let value = process.value;
            return Next {
                process: process.decides(value),
                first: self.first,
                second: Some(Message::Decision { value }),
            };
        }
        self
    }

    // With the carried estimate, where its proposer is the coordinator.
    #[tactic(auto, unfolding(crate::specs::Events::adopts, crate::specs::Events::adopts_if, crate::specs::Events::changed))]
    pub(crate) fn adopts(mut self, n: Size, carried: Estimate) -> Next
        ensures { result ≡ events.adopts n carried.proposer carried.value self }
    {
        if carried.proposer == coordinator(self.process.round, n) {
            self.process = self.process.takes(carried);
        }
        self
    }

    // At a majority of F heard: the next round, and the E of its coordinator. It asks what `on_f` asks.
    #[tactic(auto, unfolding(crate::specs::Events::enters_next_at, crate::specs::Events::enters_next_if))]
    pub(crate) fn enters_next_at(self, seat: Seat) -> Next
        requires { self.process.round ≤ limits.last_round }
        ensures { result ≡ events.enters_next_at seat.n seat.i self }
    {
        let process = self.process;
        if tally::meets(process.estimates, seat.n) {
            let round = process.round + 1;
            let own = Estimate {
                proposer: seat.i.number(),
                value: process.value,
            };
            return Next {
                process: process.takes(own).enters(round),
                first: self.first,
                second: seat.opens(round, process.value),
            };
        }
        self
    }

    // Cut: the record is stored, nothing is handed over, and the process crashes.
    #[tactic(auto, unfolding(crate::specs::Events::cut_if))]
    pub(crate) fn cut_if(self, cut: bool) -> Next
        ensures { result ≡ events.cut_if cut self }
    {
        if cut {
            let process = self.process;
            process.on_crash()
        } else {
            self
        }
    }
}
