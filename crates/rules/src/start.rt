// Start: a group of fresh processes over a store that holds process 1's E of round 0 and nothing else.
// A start is refused by 11, 14 or 1, and then leaves both stores as they were.
ghost use Rattle.std.specs.Prelude.{◌≡◌, ◌≤◌, not, length, IfOk};
ghost use Rattle.rules.specs.Limits as limits;
ghost use Rattle.rules.specs.Answers as answers;
ghost use Rattle.rules.specs.Refusals as refusals;
ghost use Rattle.rules.specs.Start as starts;
ghost use Rattle.rules.specs.Private as private;

use crate::group::{Group, Member, Taken};
use crate::process::{Message, Process};
use crate::refusal::Refusal;
use crate::size::{Id, Size};
use crate::step::Answer;
use crate::store::Store;

// The size of a start with n values over these stores; or refusal 11, 14 or 1.
#[tactic(auto, unfolding(crate::specs::Private::refused_by, crate::specs::Answers::number_of, crate::specs::Refusals::row, crate::specs::Limits::some_if))]
pub(crate) fn start_size(store: &[u64], depths: &[u16], n: usize) -> Result<Size, Refusal>
    ensures err { private.refused_by result ≡ refusals.row (refusals.short store.now) 11 (refusals.row (refusals.short depths.now) 14 (refusals.row (not (limits.among limits.greatest_size n)) 1 0)) }
    ensures ok { IfOk result (λ size. size ≡ n) }
{
    Store::check(store, depths)?;
    Size::new(n).ok_or(Refusal::Values)
}

// Clears the store and the depths, and hands process 1's E of round 0 over, whose depth is 0.
pub(crate) fn begin(value: u32, store: &mut [u64], depths: &mut [u16])
    requires { (limits.store_length ≤ length store.old) × (limits.store_length ≤ length depths.old) }
    ensures { (store.new ≡ starts.opened value store.old) × (depths.new ≡ starts.opened_depths value store.old depths.old) }
{
    Store::clear(store, depths);
    Store::hand_over(
        store,
        depths,
        0,
        Id::known(1),
        Some(Message::E {
            round: 0,
            proposer: 1,
            value,
        }),
    );
}

impl Group {
    // A group of one fresh process for each value.
    pub(crate) fn fresh(n: Size, values: &[u32]) -> Group
        requires { n ≡ length values.now }
        ensures { result ≡ starts.started_to values.now (length values.now) }
    {
        let mut group = Group {
            n: n.number(),
            ..Group::none()
        };
        for (k, &value) in values.iter().enumerate() {
            let i = Id::known(k as u32 + 1);
            group.put(
                i,
                Member {
                    process: Process::fresh(i, value),
                    depth: 0,
                },
            );
        }
        group
    }

    // A group of one process for each value, with process 1's E of round 0 in a store that is cleared before, and all depths 0. Refused: a group of size 0, and both stores as they were.
    pub fn start(values: &[u32], store: &mut [u64], depths: &mut [u16]) -> Taken
        ensures { answers.outcome result.group store.new depths.new (answers.said result.answer) ≡ starts.started values.now store.old depths.old }
    {
        match start_size(store, depths, values.len()) {
            Ok(n) => {
                begin(values[0], store, depths);
                Taken {
                    group: Group::fresh(n, values),
                    answer: Ok(Answer::Applied {
                        sent: 1,
                        again: 0,
                        decided: false,
                    }),
                }
            }
            Err(refusal) => Taken {
                group: Group::none(),
                answer: Err(refusal),
            },
        }
    }
}
