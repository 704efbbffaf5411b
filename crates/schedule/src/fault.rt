// The fault of a file: what is wrong with it, and where.
// A file has at most one: the first that reading it meets.
ghost use Rattle.std.specs.Prelude.{◌≡◌, ◌+◌, ◌≤◌, ◌<◌, ◌^◌};
ghost use Rattle.schedule.specs.Limits.{longest};
ghost use Rattle.schedule.specs.Schedule.{number_of, fault_at, line_fault};

// What is wrong with a file, with the refusal's number: not 1 to 16 values, a line that breaks the form, too many bytes or steps.
#[derive(Clone, Copy, PartialEq, Eq, Debug)]
pub enum Flaw {
    Values = 1,
    Form = 9,
    Size = 10,
}

// The refusal's number.
impl From<Flaw> for u8 {
    ghost from_gives = { λ flaw number. number ≡ number_of flaw };

    fn from(flaw: Flaw) -> u8 {
        flaw as u8
    }
}

// What is wrong with a file, and the line and the column, both counted from 1; a file that is too long has line 0 and column 0.
// The zeros stay, and no `Option`: document 01's report of it is `BAD 10 0 0`, and the definition `too_long` is so.
#[derive(Clone, Copy, PartialEq, Eq, Debug)]
pub struct Fault {
    pub flaw: Flaw,
    pub line: u32,
    pub column: u32,
}

impl Fault {
    // A fault at a place of the line that begins at the place from. No column is worked out anywhere else.
    pub(crate) fn at(flaw: Flaw, line: u32, from: usize, place: usize) -> Fault
        requires { (from ≤ place) × (place ≤ longest) }
        ensures { result ≡ fault_at flaw line from place }
    {
        let column = (place - from + 1) as u32;
        Fault { flaw, line, column }
    }
}

// Of some lines the first that breaks the form: which it is, counted from 0, where it begins, and where it breaks the form.
#[derive(Clone, Copy, PartialEq, Eq, Debug)]
pub(crate) struct BrokenLine {
    pub index: u32,
    pub from: usize,
    pub place: usize,
}

impl BrokenLine {
    // Its fault, where the first of the lines is the file's line-th.
    pub(crate) fn fault(self, line: u32) -> Fault
        requires { (line + self.index < 2 ^ 32) × (self.from ≤ self.place) × (self.place ≤ longest) }
        ensures { result ≡ line_fault line self }
    {
        Fault::at(Flaw::Form, line + self.index, self.from, self.place)
    }
}
