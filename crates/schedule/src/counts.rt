// The counts of a section.
ghost use Rattle.std.specs.Prelude.{◌≡◌};
ghost use Rattle.rules.specs.Answers.{said};
ghost use Rattle.schedule.specs.Counts as counts;
ghost use Rattle.schedule.specs.Private as private;

use rules::refusal::Refusal;
use rules::step::Answer;

// How many steps a section has; how many of them were applied, idle and refused; how many messages were handed over, and how many of them again; how many processes decided.
#[derive(Clone, Copy, Default)]
pub struct Counts {
    pub steps: u32,
    pub applied: u32,
    pub idle: u32,
    pub refused: u32,
    pub sent: u32,
    pub again: u32,
    pub decided: u32,
}

impl Counts {
    #[tactic(auto, unfolding(crate::specs::Counts::counts_in, rules::specs::Answers::total))]
    pub(crate) fn none() -> Counts
        ensures { result ≡ counts.none }
    {
        Counts::default()
    }

    // Of steps that are all refused.
    #[tactic(auto, unfolding(crate::specs::Private::refused_all, crate::specs::Counts::counts_in, rules::specs::Answers::total))]
    pub(crate) fn refused(steps: u32) -> Counts
        ensures { result ≡ private.refused_all steps }
    {
        Counts {
            steps,
            refused: steps,
            ..Counts::none()
        }
    }

    // With one more step, which answered so or was refused.
    #[tactic(auto, unfolding(crate::specs::Private::counted, rules::specs::Answers::said, rules::specs::Answers::is_refused))]
    pub(crate) fn counted(mut self, answer: Result<Answer, Refusal>) -> Counts
        requires { private.Room self }
        ensures { result ≡ private.counted self (said answer) }
    {
        self.steps += 1;
        match answer {
            Ok(Answer::Idle) => self.idle += 1,
            Ok(
                Answer::Applied {
                    sent,
                    again,
                    decided,
                },
            ) => {
                self.applied += 1;
                self.sent += sent as u32;
                self.again += again as u32;
                self.decided += decided as u32;
            }
            Err(_) => self.refused += 1,
        }
        self
    }
}
