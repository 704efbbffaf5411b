// The reader: the lent bytes of the file and a place in them. Each method reads a line and goes on behind it: the work is on a slice and a number, in `line`.
ghost use Rattle.std.specs.Prelude.{◌≡◌};
ghost use Rattle.schedule.specs.Line.{line_at};
ghost use Rattle.schedule.specs.Private.{KnownLine, read_to};

use crate::lf::{Lined, Untested};
use crate::line::{known_line, line_by};
use rules::step::Step;
use text::look::Tested;
use text::number::Broken;

#[derive(Clone, Copy)]
pub(crate) struct Reader<'a> {
    pub file: Lined<'a>,
    pub at: usize,
}

impl<'a> Reader<'a> {
    // The step of the line here, and then the place behind the line; or the place where the line breaks the form.
    #[tactic(auto, unfolding(crate::specs::Private::read_to))]
    pub(crate) fn line(&mut self) -> Result<Step, Broken>
        ensures same { self.new.file ≡ self.old.file }
        ensures read { line_at self.old.file.bytes.now self.old.at ≡ read_to result self.new.at }
    {
        let read = if self.at < self.file.end {
            line_by::<Untested>(self.file.bytes, self.at)
        } else {
            line_by::<Tested>(self.file.bytes, self.at)
        };
        let (step, next) = read?;
        self.at = next;
        Ok(step)
    }

    // The same of a line that is known to keep the form.
    pub(crate) fn step(&mut self) -> Step
        requires { KnownLine self.old.file.bytes.now self.old.at }
        ensures same { self.new.file ≡ self.old.file }
        ensures read { line_at self.old.file.bytes.now self.old.at ≡ Ok (result, self.new.at) }
    {
        let (step, next) = known_line(self.file.bytes, self.at);
        self.at = next;
        step
    }
}
