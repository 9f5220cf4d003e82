// What is printed. A write that fails is passed over, and the next one is tried: a run has no status of its own.
use crate::call::Answer;
use crate::line::Outcome;
use crate::tally::{Run, Tally};
use std::fmt;

// An answer as the list would have it.
impl fmt::Display for Answer {
    fn fmt<W: fmt::Write>(&self, f: &mut fmt::Formatter<W>) -> fmt::Result {
        for number in &self.numbers {
            write!(f, "{number} ")?;
        }
        write!(f, "x")?;
        for byte in self.memory.lent() {
            write!(f, "{byte:02x}")?;
        }
        Ok(())
    }
}

// A line that does not agree, by its number and in full, behind what the port answered.
pub fn print_line(rt: &impl Print, number: u64, line: &[u8], outcome: Outcome, answer: &Answer) {
    let what = match outcome {
        Outcome::Comment | Outcome::Agreed => return,
        Outcome::Differs => {
            let _ = println!(rt; "answered {answer}");
            "differs"
        }
        Outcome::Bad => "is bad",
    };
    let _ = print!(rt; "line {number} {what}: ");
    let _ = rt.write_all(line);
    let _ = println!(rt);
}

// The lines of one function.
pub fn print_run(rt: &impl Print, run: &Run<'_>) {
    let _ = rt.write_all(run.name);
    let _ = println!(rt; " agreed {} of {}", run.agreed, run.put);
}

// All lines.
pub fn print_total(rt: &impl Print, tally: &Tally<'_>) {
    let _ = println!(rt;
        "{} calls, {} comments, {} bad lines",
        tally.calls, tally.comments, tally.bad
    );
}
