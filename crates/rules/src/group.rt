// A group of processes as a value, and a look at one process.
ghost use Rattle.std.specs.Prelude.{◌≡◌, ◌||◌, ◌&&◌, ◌≤◌, eqb, leb};
ghost use Rattle.rules.specs.Limits as limits;
ghost use Rattle.rules.specs.Layout as layout;
ghost use Rattle.rules.specs.Look as looks;
ghost use Rattle.rules.specs.Refusals as refusals;

use crate::process::Process;
use crate::refusal::Refusal;
use crate::size::{Id, Size};
use crate::step::Answer;
use crate::tally;

// A process of a group: its record, and its depth, which no rule about records reads.
#[derive(Clone, Copy, Default)]
pub struct Member {
    pub process: Process,
    pub depth: u16,
}

// n processes; process i stands at i - 1. A group may have any n and any records: a damaged one is refused, and left as it was.
// n stands beside sixteen places since nothing is allocated, and the records above n are there and blank.
#[derive(Clone, Copy)]
pub struct Group {
    pub n: u8,
    pub members: [Member; Group::GREATEST],
}

// The group after a start or a step, and the answer, or why it was refused.
#[derive(Clone, Copy)]
pub struct Taken {
    pub group: Group,
    pub answer: Result<Answer, Refusal>,
}

// Whether a phase is 1 or 2.
pub(crate) fn is_phase(phase: u8) -> bool
    ensures { result ≡ (eqb phase 1 || eqb phase 2) }
{
    phase == 1 || phase == 2
}

// Whether the record of a process of 1..n has no damage.
#[tactic(auto, unfolding(crate::specs::Refusals::whole, crate::specs::Limits::among))]
pub(crate) fn whole(n: Size, p: Process) -> bool
    ensures { result ≡ refusals.whole n p }
{
    let phase = is_phase(p.phase);
    let proposer = (1..=n.number()).contains(&p.proposer);
    let estimates = tally::within(p.estimates, n);
    let suspicions = tally::within(p.suspicions, n);
    (p.round <= Process::LAST_ROUND) & (phase & (proposer & (estimates & suspicions)))
}

impl Member {
    // A blank record, and the depth 0.
    #[tactic(auto, unfolding(crate::specs::Records::blank))]
    pub(crate) fn nobody() -> Member
        ensures { result ≡ layout.nobody }
    {
        Member::default()
    }

    // Whether the record has no damage among n, and the depth is not too great.
    pub(crate) fn is_sound(self, n: Size) -> bool
        ensures { result ≡ (refusals.whole n self.process && leb self.depth limits.deepest_process) }
    {
        whole(n, self.process) & (self.depth <= Group::DEEPEST)
    }
}

impl Group {
    // The most processes that a group has.
    pub const GREATEST: usize = Size::GREATEST;

    // The greatest depth that a process can have.
    pub const DEEPEST: u16 = 3088;

    // The constant is the definitions' limit. It takes a function to say so: a constant has no clause of its own.
    pub(crate) fn deepest() -> u16
        ensures { result ≡ limits.deepest_process }
    {
        Group::DEEPEST
    }

    // The constant is the definitions' limit.
    pub(crate) fn greatest() -> usize
        ensures { result ≡ limits.greatest_size }
    {
        Group::GREATEST
    }

    // A group of size 0, with every record blank and every depth 0.
    #[tactic(auto, unfolding(crate::specs::Layout::blank_group))]
    pub fn none() -> Group
        ensures { result ≡ layout.blank_group 0 }
    {
        Group {
            n: 0,
            members: [Member::nobody(); Group::GREATEST],
        }
    }

    // Process i.
    pub(crate) fn member(&self, i: Id) -> Member
        ensures { result ≡ layout.member_at self.now i }
    {
        self.members[i.number() as usize - 1]
    }

    // Puts m in as process i.
    pub(crate) fn put(&mut self, i: Id, m: Member)
        ensures { self.new ≡ layout.with_member self.old i m }
    {
        self.members[i.number() as usize - 1] = m;
    }

    // Process i, and nobody where i is not 1 to 16.
    #[tactic(auto, using(crate::proofs::Laws::Row::among_in), unfolding(crate::specs::Layout::process_at, crate::specs::Layout::depth_at, crate::specs::Records::blank, crate::specs::Look::record_of, crate::specs::Look::depth_of, crate::specs::Look::record_if, crate::specs::Look::depth_if, crate::specs::Limits::among))]
    pub(crate) fn look(&self, i: u32) -> Member
        ensures { (result.process ≡ looks.record_of self.now i) × (result.depth ≡ looks.depth_of self.now i) }
    {
        if !(1..=Group::GREATEST as u32).contains(&i) {
            return Member::nobody();
        }
        self.members[i as usize - 1]
    }

    // The record of process i, and a blank one where i is not 1 to 16.
    pub fn process(self, i: u32) -> Process
        ensures { result ≡ looks.record_of self i }
    {
        self.look(i).process
    }

    // The depth of a process, and 0 where its number is not 1 to 16. Of a process that has decided it is the decision's: its number of communication steps.
    pub fn depth(self, process: u32) -> u16
        ensures { result ≡ looks.depth_of self process }
    {
        self.look(process).depth
    }

    // Whether the group is damaged: its size is not 1 to 16, or one of its processes has a damaged record or too great a depth.
    #[tactic(auto, unfolding(crate::specs::Refusals::damaged, crate::specs::Limits::some_if))]
    pub(crate) fn is_damaged(&self) -> bool
        ensures { result ≡ refusals.damaged self.now }
    {
        let Some(n) = Size::new(self.n as usize) else {
            return true;
        };
        // All sixteen are looked at, without a branch: a loop that ends at the first damage costs more where there is none (docs/DECISIONS.md, 28).
        let mut sound = true;
        for (k, member) in self.members.iter().enumerate() {
            sound = sound & (member.is_sound(n) | (self.n as usize <= k));
        }
        !sound
    }
}
