// Counting a line.
ghost use Rattle.std.specs.Prelude.{◌≡◌, ◌+◌, ◌^◌, ◌<◌};
ghost use Rattle.replay.specs.Counts.{lines_of};

use crate::line::Outcome;
use crate::tally::{Run, Tally};
use crate::word::name_of;

impl<'a> Tally<'a> {
    // The tally of no line.
    pub fn new() -> Tally<'a>
        ensures { lines_of result ≡ 0 }
    {
        Tally {
            run: None,
            calls: 0,
            comments: 0,
            bad: 0,
        }
    }

    // How many lines there were.
    pub fn lines(&self) -> u64
        requires { lines_of self.now < 2 ^ 64 }
        ensures { result ≡ lines_of self.now }
    {
        self.calls + self.comments + self.bad
    }

    // One call more. Another name than the run's begins a run; the answer is the run that this ended.
    fn count_call(&mut self, name: &'a [u8], agreed: bool) -> Option<Run<'a>>
        requires { lines_of self.old + 1 < 2 ^ 64 }
        ensures { lines_of self.new ≡ lines_of self.old + 1 }
    {
        self.calls += 1;
        let agreed = u64::from(agreed);
        match &mut self.run {
            Some(run) if run.name == name => {
                run.put += 1;
                run.agreed += agreed;
                None
            }
            _ => self.run.replace(Run {
                name,
                put: 1,
                agreed,
            }),
        }
    }

    // A line counts as one of a call, a comment and a bad line, and as no more. The answer is the run that it ended.
    pub fn count(&mut self, line: &'a [u8], outcome: Outcome) -> Option<Run<'a>>
        requires { lines_of self.old + 1 < 2 ^ 64 }
        ensures { lines_of self.new ≡ lines_of self.old + 1 }
    {
        match outcome {
            Outcome::Agreed => self.count_call(name_of(line), true),
            Outcome::Differs => self.count_call(name_of(line), false),
            Outcome::Comment => {
                self.comments += 1;
                None
            }
            Outcome::Bad => {
                self.bad += 1;
                None
            }
        }
    }
}
