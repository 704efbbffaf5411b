// How a byte of a text is looked at: with a test for the end of the text, or without one where no test is needed.
ghost use Rattle.std.specs.Prelude.{◌≡◌, ◌≢◌, ℕ, ◌+◌, List, get_or};
ghost use Rattle.text.specs.Look.{Anywhere};

// The text and the place are two parameters wherever a byte is read: the public functions `decimal`, `byte_at`, `step_line` and `heading` take both, at any place of any bytes.
pub trait Look {
    // Where a byte may be looked at.
    ghost may: { List ℕ → ℕ → Type 0 };

    // The byte at a place; 0 past the end.
    fn byte(s: &[u8], at: usize) -> u8
        requires { may s.now at }
        ensures { result ≡ get_or s.now at 0 };

    // Behind a byte that is no LF the next one may be looked at.
    ghost next: { (s : List ℕ) (at : ℕ) → may s at → get_or s at 0 ≢ 10 → may s (at + 1) };
}

// With a test, at any place.
#[derive(Clone, Copy)]
pub struct Tested {}

impl Look for Tested {
    ghost may = { Anywhere };

    ghost next = { λ _ _ _ _. tt };

    fn byte(s: &[u8], at: usize) -> u8 {
        if at >= s.len() {
            return 0;
        }
        s[at]
    }
}
