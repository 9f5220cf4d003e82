// The stream's state and calls.
ghost use Rattle.std.specs.Prelude.{◌||◌, ◌≡◌, eqb, ltb, length, Result};
ghost use Rattle.streaming.specs.Stream.{sound_stream, start_stream_at, stream_at, stream_memory, end_at};

use crate::flow::{carry, pump};
use crate::opening::Opening;
use crate::status::Status;
use alphabet::{AlphabetType, Refusal, Refused};

// `skip` bits are to be passed over first (0: done, or never due); `budget` bases are to come; `bits` bits, of value `pending`, are taken and not used.
#[derive(Clone, Copy, Debug, PartialEq, Eq, Hash)]
pub struct StreamingDecoder {
    pub alphabet: AlphabetType,
    pub skip: u8,
    pub budget: u64,
    pub bits: u8,
    pub pending: u8,
}

// What a stream call did: bytes taken, bases written, status and next state.
#[derive(Clone, Copy, Debug, PartialEq, Eq, Hash)]
pub struct Streamed {
    pub taken: usize,
    pub written: usize,
    pub status: Status,
    pub next: StreamingDecoder,
}

impl StreamingDecoder {
    // A stream that has taken nothing. A number above 5 is refused by 8, a skip above 7 by 6: narrower types would ask more of callers than `start_stream_at` does.
    pub fn new(alphabet: u64, skip: u64, budget: u64) -> Result<StreamingDecoder, Refusal>
        ensures { result ≡ start_stream_at alphabet skip budget }
    {
        let alphabet = AlphabetType::try_from(alphabet)?;
        if 8 <= skip {
            return Err(Refusal::BadSkip);
        }
        Ok(StreamingDecoder {
            alphabet,
            skip: skip as u8,
            budget,
            bits: 0,
            pending: 0,
        })
    }

    // Question 4: skip below 8, at most 7 bits pending, their value below 2 to their count, none while the skip is due.
    fn is_sound(self) -> bool
        ensures { result ≡ sound_stream self }
    {
        if 8 <= self.skip {
            return false;
        }
        if 8 <= self.bits {
            return false;
        }
        if (1u64 << usize::from(self.bits)) <= u64::from(self.pending) {
            return false;
        }
        self.skip == 0 || self.bits == 0
    }

    // With the skip due one byte is needed first.
    fn can_begin(self, given: usize) -> bool
        ensures { result ≡ eqb self.skip 0 || ltb 0 given }
    {
        self.skip == 0 || 0 < given
    }

    // The bases that the source's bytes give, at the front of the memory; an unsound state is refused by 1 and comes back as it was.
    pub fn read(self, source: &[u8], out: &mut [u8]) -> Result<Streamed, Refused<StreamingDecoder>>
        ensures value { result ≡ stream_at self source.now (length out.old) }
        ensures out_after { out.new ≡ stream_memory self source.now out.old }
    {
        if !self.is_sound() {
            return Err(Refusal::Unsound.keeping(self));
        }
        if !self.can_begin(source.len()) {
            return Ok(Streamed {
                taken: 0,
                written: 0,
                status: Status::Hungry,
                next: self,
            });
        }
        let start = Opening::of(self, source);
        let kind = self.alphabet;
        if kind.bits_per_symbol() == 8 {
            return Ok(carry(start, out));
        }
        Ok(pump(start, out))
    }

    // The end of the stream: with the skip due or bases to come it is refused by 7, with the bases outstanding. A state that is
    // refused comes back as it was.
    pub fn end(self) -> Result<(), Refused<StreamingDecoder>>
        ensures { result ≡ end_at self }
    {
        if !self.is_sound() {
            return Err(Refusal::Unsound.keeping(self));
        }
        if 0 < self.skip {
            return Err(Refusal::Outstanding(self.budget).keeping(self));
        }
        if 0 < self.budget {
            return Err(Refusal::Outstanding(self.budget).keeping(self));
        }
        Ok(())
    }
}
