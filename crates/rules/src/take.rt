// A step of a group over its store and the depths of its messages, without copying a group.
// The way of the step is read first; only a step that is taken writes.
ghost use Rattle.std.specs.Prelude.{◌≡◌, ◌≤◌, max, Ok};
ghost use Rattle.rules.specs.Limits as limits;
ghost use Rattle.rules.specs.Layout.{depth_at};
ghost use Rattle.rules.specs.Answers.{outcome, said};
ghost use Rattle.rules.specs.Step as steps;
ghost use Rattle.rules.specs.Private as private;

use crate::course::Taking;
use crate::group::{Group, Member, Taken};
use crate::refusal::Refusal;
use crate::step::{Answer, Step};
use crate::store::Store;

// A depth, or what a message lifts it to where that is more.
pub(crate) fn higher(old: u16, lift: u32) -> u16
    requires { lift ≤ limits.deepest_process }
    ensures { result ≡ max old lift }
{
    old.max(lift as u16)
}

impl Group {
    // A process takes its next record, its depth is lifted, and its messages are handed over at that depth.
    pub(crate) fn finish(&mut self, store: &mut [u64], depths: &mut [u16], taking: Taking) -> Answer
        requires { private.Handable taking.next store.old depths.old × (taking.lift ≤ limits.deepest_process) }
        ensures { outcome self.new store.new depths.new (said (Ok result)) ≡ steps.settled self.old store.old depths.old (max (depth_at self.old taking.taker) taking.lift) (steps.Takes taking.taker taking.next) }
    {
        let Taking { taker, next, lift } = taking;
        let before = self.member(taker);
        let depth = higher(before.depth, lift);
        self.put(
            taker,
            Member {
                process: next.process,
                depth,
            },
        );
        let traffic = Store::hand_over_both(store, depths, depth, taker, next);
        Answer::Applied {
            sent: traffic.sent,
            again: traffic.again,
            decided: next.process.decided & !before.process.decided,
        }
    }

    // One step of a group that is not damaged over stores that are not short: the one public function of the rules that asks something of its caller.
    // It is for a run that has proved it of its states; everybody else has `step_on` and `step`.
    pub fn step_sound(
        &mut self,
        store: &mut [u64],
        depths: &mut [u16],
        step: Step,
    ) -> Result<Answer, Refusal>
        requires { steps.Ready self.old store.old depths.old }
        ensures { outcome self.new store.new depths.new (said result) ≡ steps.stepped self.old store.old depths.old step }
    {
        match self.way_of(store, depths, step)? {
            None => Ok(Answer::Idle),
            Some(taking) => Ok(self.finish(store, depths, taking)),
        }
    }

    // One step of any group over any stores: what `step` does, on a group that is lent.
    pub fn step_on(
        &mut self,
        store: &mut [u64],
        depths: &mut [u16],
        step: Step,
    ) -> Result<Answer, Refusal>
        ensures { outcome self.new store.new depths.new (said result) ≡ steps.stepped self.old store.old depths.old step }
    {
        Store::check(store, depths)?;
        if self.is_damaged() {
            return Err(Refusal::Damaged);
        }
        self.step_sound(store, depths, step)
    }

    // One step of the group over its store and the depths of its messages.
    pub fn step(self, store: &mut [u64], depths: &mut [u16], step: Step) -> Taken
        ensures { outcome result.group store.new depths.new (said result.answer) ≡ steps.stepped self store.old depths.old step }
    {
        let mut group = self;
        let answer = group.step_on(store, depths, step);
        Taken { group, answer }
    }
}
