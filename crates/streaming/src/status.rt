// How a stream call ends.
ghost use Rattle.std.specs.Prelude.{◌≡◌};

use std::fmt;

#[derive(Clone, Copy, Debug, PartialEq, Eq, Hash)]
pub enum Status {
    // bases are to come, and the source is used up
    Hungry,
    // every base is written
    Done,
    // bases are to come, and the memory is used up
    Full,
}

impl fmt::Display for Status {
    fn fmt<W: fmt::Write>(&self, f: &mut fmt::Formatter<W>) -> fmt::Result {
        match self {
            Status::Hungry => f.write_str("Hungry"),
            Status::Done => f.write_str("Done"),
            Status::Full => f.write_str("Full"),
        }
    }
}

// The number by which host programs name the status.
impl From<Status> for u64 {
    ghost use Rattle.streaming.specs.Answers.{status_number};

    ghost from_gives = { λ status number. number ≡ status_number status };

    fn from(status: Status) -> u64 {
        match status {
            Status::Hungry => 1,
            Status::Done => 2,
            Status::Full => 3,
        }
    }
}

impl Status {
    ghost use Rattle.streaming.specs.Stream.{status_for};

    // The status once the skip is done, from the budget and the space that are left.
    pub(crate) fn of(budget: u64, room: usize) -> Self
        ensures { result ≡ status_for budget room }
    {
        if budget == 0 {
            return Status::Done;
        }
        if room == 0 {
            return Status::Full;
        }
        Status::Hungry
    }
}
