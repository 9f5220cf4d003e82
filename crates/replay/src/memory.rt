// Memory that is lent to a call.
ghost use Rattle.std.specs.Prelude.{◌≡◌, ◌≤◌, ◌-◌, length, take, drop, replicate, OnOk};
ghost use Rattle.replay.specs.declared.memory.TheConstants.{ROOM};

use crate::error::LineError;
use crate::word::byte;

// As many bytes as are lent at most.
const ROOM: usize = 320;

// Memory of which the front is lent. What is not lent holds A5, so that a byte read behind the lent ones shows, and one written there too: a slice would not have
// it.
#[derive(PartialEq, Drop)]
pub struct Memory {
    pub bytes: [u8; ROOM],
    pub lent: usize,
    ghost within: { lent ≤ ROOM },
}

impl Memory {
    // Memory of which nothing is lent.
    pub fn new() -> Memory
        ensures { result.lent ≡ 0 }
    {
        Memory {
            bytes: [0xA5; ROOM],
            lent: 0,
        }
    }

    // Takes the bytes of a word: two hexadecimal digits each, behind an x.
    pub fn read(&mut self, word: &[u8]) -> Result<(), LineError>
        ensures room { OnOk result (length self.new.bytes ≡ ROOM) }
        ensures behind { OnOk result (drop self.new.lent self.new.bytes ≡ replicate (ROOM - self.new.lent) 0xA5) }
    {
        let digits = word.strip_prefix(b"x").ok_or(LineError::NoCall)?;
        self.bytes.fill(0xA5);
        self.lent = 0;
        for pair in digits.chunks(2) {
            if self.lent == ROOM {
                return Err(LineError::TooMany);
            }
            self.bytes[self.lent] = byte(pair).ok_or(LineError::NoCall)?;
            self.lent += 1;
        }
        Ok(())
    }

    pub fn lent(&self) -> &[u8]
        ensures { result.now ≡ take self.now.lent self.now.bytes }
    {
        &self.bytes[..self.lent]
    }
}
