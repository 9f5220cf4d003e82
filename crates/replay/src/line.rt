// One line of the list: read, called, compared.
ghost use Rattle.std.specs.Prelude.{◌≡◌, take, drop, map, IfOk, OnOk};
ghost use Rattle.arrayvec.specs.ArrayVec.{array_vec_len};
ghost use Rattle.replay.specs.Compared.{Agreeing};
ghost use Rattle.replay.specs.Fields.{written};

use crate::call::{Answer, Call, Made};
use crate::error::LineError;
use crate::function::Function;
use crate::numbers::Numbers;
use crate::word::decimal;
use arrayvec::ArrayVec;

// As many words as a line has at most: a name, eleven numbers, what is lent, who answered, eleven numbers and what is told of the memory.
const MOST: usize = 27;

// What a line is: a comment, a call whose answer agreed, one whose answer differs, or none of these.
#[derive(Clone, Copy)]
pub enum Outcome {
    Comment,
    Agreed,
    Differs,
    Bad,
}

// The words behind the numbers in front, which are read.
fn read_numbers<'a, 'b>(
    words: &'b [&'a [u8]],
    numbers: &mut Numbers,
) -> Result<&'b [&'a [u8]], LineError>
    ensures values { OnOk result (numbers.new.items ≡ map (λ word. written word.now) (take (array_vec_len numbers.new) words.now)) }
    ensures behind { IfOk result (λ rest. rest.now ≡ drop (array_vec_len numbers.new) words.now) }
{
    numbers.clear();
    for (i, word) in words.iter().enumerate() {
        let Some(number) = decimal(word) else {
            return Ok(&words[i..]);
        };
        numbers.try_push(number)?;
    }
    Ok(&words[words.len()..])
}

// Reads the call that a line gives, and the answer that it tells. The answer is the call's function.
fn read(line: &[u8], call: &mut Call, told: &mut Answer) -> Result<Function, LineError> {
    let mut words = ArrayVec::<&[u8], MOST>::new();
    for word in line.split(|byte| *byte == b' ') {
        words.try_push(word)?;
    }
    let [name, words @ ..] = words.as_slice() else {
        return Err(LineError::NoCall);
    };
    let words = read_numbers(words, &mut call.numbers)?;
    let [text, memory, b"rust" | b"rules", words @ ..] = words else {
        return Err(LineError::NoCall);
    };
    let words = read_numbers(words, &mut told.numbers)?;
    let [left] = words else {
        return Err(LineError::NoCall);
    };
    let function = Function::try_from(*name)?;
    call.text.read(text)?;
    call.answer.memory.read(memory)?;
    told.memory.read(left)?;
    Ok(function)
}

// A line is bad that tells fewer or more numbers than the function answers, or another length of memory. The bytes behind the memory lent are compared too.
fn compared(made: Made<'_>, told: &Answer) -> Outcome
    ensures { Agreeing result made.entry told.now }
{
    let answer = made.answer;
    if answer.numbers.len() != told.numbers.len() || answer.memory.lent != told.memory.lent {
        return Outcome::Bad;
    }
    if *answer == *told {
        return Outcome::Agreed;
    }
    Outcome::Differs
}

// Makes the call of a line, and compares the answer with the line's.
fn called(line: &[u8], call: &mut Call, told: &mut Answer) -> Result<Outcome, LineError> {
    let function = read(line, call, told)?;
    call.make(function)?;
    let made = Made {
        function,
        numbers: call.numbers.as_slice(),
        answer: &call.answer,
    };
    Ok(compared(made, told))
}

// What a line is. Where its answer differs, the port's is the call's.
pub fn replayed(line: &[u8], call: &mut Call, told: &mut Answer) -> Outcome {
    if line.first() == Some(&b'#') {
        return Outcome::Comment;
    }
    called(line, call, told).unwrap_or(Outcome::Bad)
}
