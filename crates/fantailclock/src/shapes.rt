// What passes the boundary: structs of 64-bit numbers, by value. `refusal` is 0 for an accepted call.

ghost use Rattle.std.specs.Prelude.{◌≡◌};
ghost use Rattle.alphabet.specs.Questions.{refusal_reply, number_in};
ghost use Rattle.alphabet.specs.Answers.{count_reply};
ghost use Rattle.packing.specs.Answers.{range_reply};
ghost use Rattle.streaming.specs.Answers.{ended_reply};
ghost use Rattle.fantailclock.specs.Shapes.{number, count, covered, range, packed, ended, end_reply, details};

use alphabet::Refusal;
use packing::ByteRange;

#[repr(C)]
#[derive(Clone, Copy, Debug, PartialEq, Eq)]
pub struct Number {
    pub refusal: u64,
    pub value: u64,
}

#[repr(C)]
#[derive(Clone, Copy, Debug, PartialEq, Eq)]
pub struct Count {
    pub refusal: u64,
    pub count: u64,
}

// `value` is the base whose code is no symbol's where the refusal is 18, and else 0.
#[repr(C)]
#[derive(Clone, Copy, Debug, PartialEq, Eq)]
pub struct Covered {
    pub refusal: u64,
    pub count: u64,
    pub value: u64,
}

// A guesser's state; `fold` is 0 or 1.
#[repr(C)]
#[derive(Clone, Copy, Debug, PartialEq, Eq)]
pub struct Guesser {
    pub mask: u64,
    pub fold: u64,
}

#[repr(C)]
#[derive(Clone, Copy, Debug, PartialEq, Eq)]
pub struct Guessing {
    pub refusal: u64,
    pub next: Guesser,
}

#[repr(C)]
#[derive(Clone, Copy, Debug, PartialEq, Eq)]
pub struct Range {
    pub refusal: u64,
    pub start: u64,
    pub end: u64,
}

#[repr(C)]
#[derive(Clone, Copy, Debug, PartialEq, Eq)]
pub struct Packed {
    pub refusal: u64,
    pub count: u64,
    pub position: u64,
    pub byte: u64,
    pub bad_count: u64,
}

// An encoder's state; `bad_position` and `bad_byte` are of no account where `has_bad` is 0, `bad_count` is 0 there, and `fold` is 0 or 1.
#[repr(C)]
#[derive(Clone, Copy, Debug, PartialEq, Eq)]
pub struct Encoder {
    pub alphabet: u64,
    pub seen: u64,
    pub pending_bits: u64,
    pub pending: u64,
    pub has_bad: u64,
    pub bad_position: u64,
    pub bad_byte: u64,
    pub fold: u64,
    pub bad_count: u64,
}

#[repr(C)]
#[derive(Clone, Copy, Debug, PartialEq, Eq)]
pub struct EncoderStarted {
    pub refusal: u64,
    pub next: Encoder,
}

#[repr(C)]
#[derive(Clone, Copy, Debug, PartialEq, Eq)]
pub struct Updated {
    pub refusal: u64,
    pub count: u64,
    pub next: Encoder,
}

// A stream's state; `skip` is 0 once it is done.
#[repr(C)]
#[derive(Clone, Copy, Debug, PartialEq, Eq)]
pub struct Stream {
    pub alphabet: u64,
    pub skip: u64,
    pub budget: u64,
    pub pending_bits: u64,
    pub pending: u64,
}

#[repr(C)]
#[derive(Clone, Copy, Debug, PartialEq, Eq)]
pub struct StreamStarted {
    pub refusal: u64,
    pub next: Stream,
}

// `status` is 1 Hungry, 2 Done, 3 Full, and 0 on a refusal.
#[repr(C)]
#[derive(Clone, Copy, Debug, PartialEq, Eq)]
pub struct Streamed {
    pub refusal: u64,
    pub taken: u64,
    pub written: u64,
    pub status: u64,
    pub next: Stream,
}

// `outstanding` is 0 unless the refusal is 7.
#[repr(C)]
#[derive(Clone, Copy, Debug, PartialEq, Eq)]
pub struct Ended {
    pub refusal: u64,
    pub outstanding: u64,
}

// A refusal's number, as wide as every number here.
pub fn number_of(refusal: Refusal) -> u64
    ensures { result ≡ number_in (refusal_reply refusal) }
{
    u64::from(refusal.number())
}

// What a refusal tells beside its number: the first non-member's position and byte and how many there are, or the bases outstanding, or the base whose code is
// no symbol's; zeros where it tells nothing.
#[derive(Clone, Copy, Debug, PartialEq, Eq)]
pub struct Details {
    pub first: u64,
    pub second: u64,
    pub third: u64,
}

impl From<Refusal> for Details {
    ghost from_gives = { λ refusal told. told ≡ details (refusal_reply refusal) };

    fn from(refusal: Refusal) -> Details {
        let (first, second, third) = match refusal {
            Refusal::NonMember {
                position,
                byte,
                count,
            } => (position as u64, u64::from(byte), count as u64),
            Refusal::Outstanding(bases) => (bases, 0, 0),
            Refusal::NoSymbol(base) => (base as u64, 0, 0),
            _ => (0, 0, 0),
        };
        Details {
            first,
            second,
            third,
        }
    }
}

impl From<Result<u64, Refusal>> for Number {
    ghost from_gives = { λ answer told. told ≡ number (count_reply answer) };

    fn from(answer: Result<u64, Refusal>) -> Number {
        match answer {
            Ok(value) => Number { refusal: 0, value },
            Err(refusal) => Number {
                refusal: number_of(refusal),
                value: 0,
            },
        }
    }
}

impl From<Result<usize, Refusal>> for Count {
    ghost from_gives = { λ answer told. told ≡ count (count_reply answer) };

    fn from(answer: Result<usize, Refusal>) -> Count {
        match answer {
            Ok(count) => Count {
                refusal: 0,
                count: count as u64,
            },
            Err(refusal) => Count {
                refusal: number_of(refusal),
                count: 0,
            },
        }
    }
}

// The base that a refusal by 18 tells comes with it.
impl From<Result<usize, Refusal>> for Covered {
    ghost from_gives = { λ answer told. told ≡ covered (count_reply answer) };

    fn from(answer: Result<usize, Refusal>) -> Covered {
        match answer {
            Ok(count) => Covered {
                refusal: 0,
                count: count as u64,
                value: 0,
            },
            Err(refusal) => Covered {
                refusal: number_of(refusal),
                count: 0,
                value: Details::from(refusal).first,
            },
        }
    }
}

impl From<Result<usize, Refusal>> for Packed {
    ghost from_gives = { λ answer told. told ≡ packed (count_reply answer) };

    fn from(answer: Result<usize, Refusal>) -> Packed {
        match answer {
            Ok(count) => Packed {
                refusal: 0,
                count: count as u64,
                position: 0,
                byte: 0,
                bad_count: 0,
            },
            Err(refusal) => {
                let details = Details::from(refusal);
                Packed {
                    refusal: number_of(refusal),
                    count: 0,
                    position: details.first,
                    byte: details.second,
                    bad_count: details.third,
                }
            }
        }
    }
}

impl From<Result<ByteRange, Refusal>> for Range {
    ghost from_gives = { λ answer told. told ≡ range (range_reply answer) };

    fn from(answer: Result<ByteRange, Refusal>) -> Range {
        match answer {
            Ok(bytes) => Range {
                refusal: 0,
                start: bytes.from as u64,
                end: bytes.to as u64,
            },
            Err(refusal) => Range {
                refusal: number_of(refusal),
                start: 0,
                end: 0,
            },
        }
    }
}

// The bases outstanding come with a refusal by 7.
impl From<Result<(), Refusal>> for Ended {
    ghost from_gives = { λ answer told. told ≡ ended (end_reply answer) };

    fn from(answer: Result<(), Refusal>) -> Ended {
        match answer {
            Ok(()) => Ended {
                refusal: 0,
                outstanding: 0,
            },
            Err(refusal) => Ended {
                refusal: number_of(refusal),
                outstanding: Details::from(refusal).first,
            },
        }
    }
}
