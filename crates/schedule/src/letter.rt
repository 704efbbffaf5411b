// The step letters: which numbers follow each, whether its step may be cut, and the step that it makes of them.
// Each method is a match over the eight: a table of functions would be these arms again.
ghost use Rattle.std.specs.Prelude.{◌≡◌, Some, None, MatchResult};
ghost use Rattle.schedule.specs.Line.{letter_of, numbers_after, may_cut, step_of};

use rules::step::Step;

#[derive(Clone, Copy, PartialEq, Eq, Debug)]
pub(crate) enum Letter {
    E,
    S,
    F,
    Z,
    Q,
    P,
    C,
    R,
}

// A byte that is no step letter.
#[derive(Clone, Copy, PartialEq, Eq, Debug)]
pub(crate) struct NoLetter {}

// The letter of a byte.
impl TryFrom<u8> for Letter {
    type Error = NoLetter;

    ghost try_from_gives = { λ byte r. MatchResult r (λ letter. letter_of byte ≡ Some letter) (λ _. letter_of byte ≡ None) };

    #[tactic(auto, unfolding(crate::specs::Line::letter_of))]
    fn try_from(byte: u8) -> Result<Letter, NoLetter> {
        match byte {
            b'E' => Ok(Letter::E),
            b'S' => Ok(Letter::S),
            b'F' => Ok(Letter::F),
            b'Z' => Ok(Letter::Z),
            b'Q' => Ok(Letter::Q),
            b'P' => Ok(Letter::P),
            b'C' => Ok(Letter::C),
            b'R' => Ok(Letter::R),
            _ => Err(NoLetter {}),
        }
    }
}

impl Letter {
    // How many numbers follow.
    #[tactic(auto, unfolding(crate::specs::Line::numbers_after))]
    pub(crate) fn numbers(self) -> u8
        ensures { result ≡ numbers_after self }
    {
        match self {
            Letter::E | Letter::S | Letter::F => 3,
            Letter::Z => 2,
            Letter::Q | Letter::P | Letter::C | Letter::R => 1,
        }
    }

    // Whether the step may be cut.
    #[tactic(auto, unfolding(crate::specs::Line::may_cut))]
    pub(crate) fn may_cut(self) -> bool
        ensures { result ≡ may_cut self }
    {
        match self {
            Letter::E | Letter::S | Letter::F | Letter::Z | Letter::Q => true,
            Letter::P | Letter::C | Letter::R => false,
        }
    }

    // The step with its numbers. A letter with fewer passes over the rest: the definition `Line.step_of` takes three of each.
    #[tactic(auto, unfolding(crate::specs::Line::step_of))]
    pub(crate) fn step(self, a: u32, b: u32, c: u32, cut: bool) -> Step
        ensures { result ≡ step_of self a b c cut }
    {
        match self {
            Letter::E => Step::DeliverE {
                to: a,
                from: b,
                round: c,
                cut,
            },
            Letter::S => Step::DeliverS {
                to: a,
                from: b,
                round: c,
                cut,
            },
            Letter::F => Step::DeliverF {
                to: a,
                from: b,
                round: c,
                cut,
            },
            Letter::Z => Step::DeliverDecision {
                to: a,
                from: b,
                cut,
            },
            Letter::Q => Step::Suspect { process: a, cut },
            Letter::P => Step::Pause { process: a },
            Letter::C => Step::Crash { process: a },
            Letter::R => Step::Recover { process: a },
        }
    }
}
