// A call that a line gives, and its answer.
ghost use Rattle.std.specs.Prelude.{◌≡◌, length, OnOk};
ghost use Rattle.arrayvec.specs.ArrayVec.{array_vec_len};
ghost use Rattle.replay.specs.Takes.{takes};

use crate::error::LineError;
use crate::function::Function;
use crate::memory::Memory;
use crate::numbers::Numbers;

// What a call answers: numbers, and the output memory afterwards.
#[derive(PartialEq, Drop)]
pub struct Answer {
    pub numbers: Numbers,
    pub memory: Memory,
}

// A call: its numbers, the bytes lent, and what it answers, whose memory is the output memory. Lines have the same one in turn, so that none is moved.
#[derive(Drop)]
pub struct Call {
    pub numbers: Numbers,
    pub text: Memory,
    pub answer: Answer,
}

// A call that was made, which gave as many numbers as its function takes.
#[derive(Clone, Copy)]
pub struct Made<'a> {
    pub function: Function,
    pub numbers: &'a [u64],
    pub answer: &'a Answer,
    ghost taken: { takes function ≡ length numbers.now },
}

impl Answer {
    pub fn new() -> Answer {
        Answer {
            numbers: Numbers::new(),
            memory: Memory::new(),
        }
    }
}

impl Call {
    pub fn new() -> Call {
        Call {
            numbers: Numbers::new(),
            text: Memory::new(),
            answer: Answer::new(),
        }
    }

    pub fn make(&mut self, function: Function) -> Result<(), LineError>
        ensures { OnOk result (takes function ≡ array_vec_len self.new.numbers) }
    {
        let lent = self.answer.memory.lent;
        let bytes = &mut self.answer.memory.bytes[..];
        self.answer.numbers.clear();
        function.answer(
            self.numbers.as_slice(),
            self.text.lent(),
            &mut bytes[..lent],
            &mut self.answer.numbers,
        )
    }
}
