// How many processes a group has, and which of them is meant: numbers from 1 to 16.
ghost use Rattle.std.specs.Prelude.{◌≡◌, ℕ, ◌≤◌};
ghost use Rattle.rules.specs.Limits as limits;

use std::marker::Model;

// The size of a group that is not damaged. A clause sees the number.
#[derive(Clone, Copy)]
pub struct Size {
    n: u8,
}

impl Model for Size {
    ghost Value = { ℕ };

    ghost view = { λ c. c.n };

    ghost invariant = { λ c. (1 ≤ c.n) × (c.n ≤ limits.greatest_size) };

    ghost inverse = { λ n. record { n = n } };
}

// The number of a process of some group. A clause sees the number. It is a type of its own beside `Size`, though its numbers are the same: a size in the place of a process is then no program.
#[derive(Clone, Copy)]
pub struct Id {
    number: u8,
}

impl Model for Id {
    ghost Value = { ℕ };

    ghost view = { λ c. c.number };

    ghost invariant = { λ c. (1 ≤ c.number) × (c.number ≤ limits.greatest_size) };

    ghost inverse = { λ n. record { number = n } };
}

impl Size {
    // The greatest size.
    pub(crate) const GREATEST: usize = 16;

    // The size of a group of n, if a group may have it.
    #[tactic(auto, unfolding(crate::specs::Limits::some_if, crate::specs::Limits::among))]
    pub(crate) fn new(n: usize) -> Option<Size>
        ensures { result ≡ limits.if_among limits.greatest_size n }
    {
        if !(1..=Size::GREATEST).contains(&n) {
            return None;
        }
        Some(Size { n: n as u8 })
    }

    // The size of a group that is known to have it. Methods, and no `From`: `number` says the two bounds as well, and is no plainer as `u8::from`.
    pub(crate) fn known(n: u8) -> Size
        requires { (1 ≤ n) × (n ≤ limits.greatest_size) }
        ensures { result ≡ n }
    {
        Size { n }
    }

    pub(crate) fn number(self) -> u8
        ensures is { result ≡ self }
        ensures low { 1 ≤ result }
        ensures high { result ≤ limits.greatest_size }
    {
        self.n
    }

    // The process m, if it is one of 1..n.
    #[tactic(auto, unfolding(crate::specs::Limits::some_if, crate::specs::Limits::among))]
    pub(crate) fn id(self, m: u32) -> Option<Id>
        ensures { result ≡ limits.if_among self m }
    {
        if !(1..=self.n as u32).contains(&m) {
            return None;
        }
        Some(Id { number: m as u8 })
    }
}

impl Id {
    // A process that is known to be one of 1..16.
    pub(crate) fn known(number: u32) -> Id
        requires { (1 ≤ number) × (number ≤ limits.greatest_size) }
        ensures { result ≡ number }
    {
        Id {
            number: number as u8,
        }
    }

    pub(crate) fn number(self) -> u8
        ensures is { result ≡ self }
        ensures low { 1 ≤ result }
        ensures high { result ≤ limits.greatest_size }
    {
        self.number
    }
}
