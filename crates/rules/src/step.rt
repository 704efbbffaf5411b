// A step of a schedule, and what is answered to it. Knows no process and no group.

// A step of a schedule. Its numbers are any numbers of 32 bits. A delivery and a suspicion may be cut.
#[derive(Clone, Copy)]
pub enum Step {
    DeliverE {
        to: u32,
        from: u32,
        round: u32,
        cut: bool,
    },
    DeliverS {
        to: u32,
        from: u32,
        round: u32,
        cut: bool,
    },
    DeliverF {
        to: u32,
        from: u32,
        round: u32,
        cut: bool,
    },
    DeliverDecision {
        to: u32,
        from: u32,
        cut: bool,
    },
    Suspect {
        process: u32,
        cut: bool,
    },
    Pause {
        process: u32,
    },
    Crash {
        process: u32,
    },
    Recover {
        process: u32,
    },
}

// What a step answers that is not refused: idle; or applied, with how many messages were handed over, how many of them again, their entry sent before,
// and whether the process decided. Document 01 has a word for both, so that this is no option.
#[derive(Clone, Copy, PartialEq, Eq, Debug)]
pub enum Answer {
    Idle,
    Applied { sent: u8, again: u8, decided: bool },
}
