// The questions of a read, in their order.
ghost use Rattle.std.specs.Prelude.{◌≡◌};
ghost use Rattle.alphabet.specs.Names.{kind_of};
ghost use Rattle.windows.specs.Window.{read_at, lent_at};

use crate::lent::Lent;
use alphabet::{AlphabetType, Refusal};
use bits::LIMIT;

// The largest number that names an alphabet. It is asked for here, and not by `try_from`, with which windows of Dna2bit of one to four bases took up to 1.09 times as
// long.
const LAST_ALPHABET: u64 = 5;

// The kind that a number names; a number that names none is not asked for, and counts as Unknown.
pub fn kind_of(alphabet: u64) -> AlphabetType
    ensures { result ≡ kind_of alphabet }
{
    AlphabetType::try_from(alphabet).unwrap_or(AlphabetType::Unknown)
}

// The answer of a zero-filling read with `room` bytes of output memory.
pub fn asked(
    alphabet: u64,
    offset: usize,
    start: usize,
    end: usize,
    room: usize,
) -> Result<usize, Refusal>
    ensures { result ≡ read_at alphabet offset start end room }
{
    if end <= start {
        return Ok(0);
    }
    if LAST_ALPHABET < alphabet {
        return Err(Refusal::NoAlphabet);
    }
    if LIMIT < end {
        return Err(Refusal::TooFar);
    }
    if LIMIT < offset {
        return Err(Refusal::TooFar);
    }
    if room < end - start {
        return Err(Refusal::ShortMemory);
    }
    Ok(end - start)
}

// The answer of a covered read before its codes are looked at: what a zero-filling one asks, memory aside, and question 6 before the memory. Memory of `end` bytes
// is never too short.
pub fn asked_covered(
    alphabet: u64,
    lent: &Lent<'_>,
    start: usize,
    end: usize,
    room: usize,
) -> Result<usize, Refusal>
    ensures { result ≡ lent_at alphabet lent.now.bytes.now lent.now.offset start end room }
{
    let count = asked(alphabet, lent.offset, start, end, end)?;
    if count == 0 {
        return Ok(0);
    }
    let b = kind_of(alphabet).bits_per_symbol();
    if start * b / 8 < lent.offset {
        return Err(Refusal::Uncovered);
    }
    if lent.bytes.len() < (end * b + 7) / 8 - lent.offset {
        return Err(Refusal::Uncovered);
    }
    if room < count {
        return Err(Refusal::ShortMemory);
    }
    Ok(count)
}
