// The whole list.
use crate::call::{Answer, Call};
use crate::line::replayed;
use crate::report::{print_line, print_run};
use crate::tally::Tally;

// Every line of the list; the last may lack its line end.
pub fn replay<'a>(rt: &HostRuntime, list: &'a [u8]) -> Tally<'a> {
    let mut tally = Tally::new();
    let mut call = Call::new();
    let mut told = Answer::new();
    for line in list.split_inclusive(|byte| *byte == b'\n') {
        let line = line.strip_suffix(b"\n").unwrap_or(line);
        let outcome = replayed(line, &mut call, &mut told);
        print_line(rt, tally.lines() + 1, line, outcome, &call.answer);
        if let Some(run) = tally.count(line, outcome) {
            print_run(rt, &run);
        }
    }
    if let Some(run) = tally.run {
        print_run(rt, &run);
    }
    tally
}
