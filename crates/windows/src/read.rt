// The reads of a window. All but the covered read take any byte that is not lent for zero, and all that read one alphabet give one answer; the covered read gives
// it, or refuses. An alphabet is a number, which question 1 asks about, and bytes and offset are apart: of these `read_at`, `covered_at` and the theorem `engines` speak,
// and C hands them in so. That they are apart in an engine too is told at `Engine`.
ghost use Rattle.std.specs.Prelude.{◌≡◌, ◌+◌, ◌^◌, ◌≤◌, length};
ghost use Rattle.alphabet.specs.Symbols.{coding};
ghost use Rattle.alphabet.specs.Names.{kind_of};
ghost use Rattle.windows.specs.Window.{read_at, read_memory, covered_at, covered_memory};

use crate::asked::{asked, asked_covered, kind_of};
use crate::blocks::ByBlocks;
use crate::engine::Engine;
use crate::fours::TwoBits;
use crate::lacking::first_lacking;
use crate::lent::Lent;
use crate::plain::copy_file;
use crate::rolling::roll;
use alphabet::{AlphabetType, DecodingTable, Refusal};

// The engine of any kind: the rolling accumulator; plain bytes are copied.
#[derive(Clone, Copy)]
struct Rolling {
    kind: AlphabetType,
}

impl Engine for Rolling {
    ghost kind = { λ it. it.kind };

    fn write(self, bytes: &[u8], offset: usize, start: usize, out: &mut [u8]) {
        let lent = Lent { bytes, offset };
        if self.kind.bits_per_symbol() == 8 {
            copy_file(&lent, start, out);
            return;
        }
        roll(&DecodingTable::of(self.kind), &lent, start, out);
    }
}

// A kind's own engine.
#[derive(Clone, Copy)]
struct Own {
    kind: AlphabetType,
}

impl Engine for Own {
    ghost kind = { λ it. it.kind };

    #[inline(always)]
    fn write(self, bytes: &[u8], offset: usize, start: usize, out: &mut [u8]) {
        match self.kind {
            AlphabetType::Dna2bit => TwoBits.write(bytes, offset, start, out),
            AlphabetType::Dna3bit => ByBlocks::Three.write(bytes, offset, start, out),
            AlphabetType::DnaIupac => ByBlocks::Four.write(bytes, offset, start, out),
            AlphabetType::Protein => ByBlocks::Five.write(bytes, offset, start, out),
            AlphabetType::Ascii | AlphabetType::Unknown => {
                Rolling { kind: self.kind }.write(bytes, offset, start, out)
            }
        }
    }
}

// A zero-filling read by an engine, laid into each read, so that its answer is not handed on through memory.
#[inline(always)]
fn zero_filling<E: Engine>(
    engine: E,
    alphabet: u64,
    bytes: &[u8],
    offset: usize,
    start: usize,
    end: usize,
    out: &mut [u8],
) -> Result<usize, Refusal>
    requires { E.kind engine ≡ kind_of alphabet }
    ensures value { result ≡ read_at alphabet offset start end (length out.old) }
    ensures out_after { out.new ≡ read_memory alphabet bytes.now offset start end out.old }
{
    let count = asked(alphabet, offset, start, end, out.len())?;
    if count == 0 {
        return Ok(0);
    }
    engine.write(bytes, offset, start, &mut out[..count]);
    Ok(count)
}

// The bases from `start` to `end` of the file of which `bytes` are the bytes from `byte_offset` on, written at the front of `out`.
#[inline(always)]
pub fn decode_substring_from_bytes_at_offset(
    alphabet: u64,
    bytes: &[u8],
    byte_offset: usize,
    start: usize,
    end: usize,
    out: &mut [u8],
) -> Result<usize, Refusal>
    ensures value { result ≡ read_at alphabet byte_offset start end (length out.old) }
    ensures out_after { out.new ≡ read_memory alphabet bytes.now byte_offset start end out.old }
{
    let kind = kind_of(alphabet);
    zero_filling(Own { kind }, alphabet, bytes, byte_offset, start, end, out)
}

// The same where the lent bytes are the file's first.
#[inline(always)]
pub fn decode_substring_from_bytes(
    alphabet: u64,
    bytes: &[u8],
    start: usize,
    end: usize,
    out: &mut [u8],
) -> Result<usize, Refusal>
    ensures value { result ≡ read_at alphabet 0 start end (length out.old) }
    ensures out_after { out.new ≡ read_memory alphabet bytes.now 0 start end out.old }
{
    decode_substring_from_bytes_at_offset(alphabet, bytes, 0, start, end, out)
}

// The first `seq_len` bases.
pub fn decode_string_from_bytes(
    alphabet: u64,
    bytes: &[u8],
    seq_len: usize,
    out: &mut [u8],
) -> Result<usize, Refusal>
    ensures value { result ≡ read_at alphabet 0 0 seq_len (length out.old) }
    ensures out_after { out.new ≡ read_memory alphabet bytes.now 0 0 seq_len out.old }
{
    decode_substring_from_bytes(alphabet, bytes, 0, seq_len, out)
}

// The covered read: the same bases, where every byte of the window's range is lent and every base's code is a symbol's; else refused by 3, and by 18 with the
// first base whose code is no symbol's.
pub fn decode_covered(
    alphabet: u64,
    bytes: &[u8],
    byte_offset: usize,
    start: usize,
    end: usize,
    out: &mut [u8],
) -> Result<usize, Refusal>
    ensures value { result ≡ covered_at alphabet bytes.now byte_offset start end (length out.old) }
    ensures out_after { out.new ≡ covered_memory alphabet bytes.now byte_offset start end out.old }
{
    let lent = Lent {
        bytes,
        offset: byte_offset,
    };
    let count = asked_covered(alphabet, &lent, start, end, out.len())?;
    if count == 0 {
        return Ok(0);
    }
    let kind = kind_of(alphabet);
    if let Some(first) = first_lacking(kind, &lent, start, end) {
        return Err(Refusal::NoSymbol(first));
    }
    Own { kind }.write(bytes, byte_offset, start, &mut out[..count]);
    Ok(count)
}

// The engine of Dna2bit: four bases from a byte. The four engines have a name each, by which C and the theorem `engines` call them.
pub fn decode_2bit(
    bytes: &[u8],
    byte_offset: usize,
    start: usize,
    end: usize,
    out: &mut [u8],
) -> Result<usize, Refusal>
    ensures value { result ≡ read_at 0 byte_offset start end (length out.old) }
    ensures out_after { out.new ≡ read_memory 0 bytes.now byte_offset start end out.old }
{
    zero_filling(TwoBits, 0, bytes, byte_offset, start, end, out)
}

// The engine of Dna3bit: eight bases from three bytes.
pub fn decode_3bit(
    bytes: &[u8],
    byte_offset: usize,
    start: usize,
    end: usize,
    out: &mut [u8],
) -> Result<usize, Refusal>
    ensures value { result ≡ read_at 1 byte_offset start end (length out.old) }
    ensures out_after { out.new ≡ read_memory 1 bytes.now byte_offset start end out.old }
{
    zero_filling(ByBlocks::Three, 1, bytes, byte_offset, start, end, out)
}

// The engine of DnaIupac: two bases from each byte.
pub fn decode_4bit(
    bytes: &[u8],
    byte_offset: usize,
    start: usize,
    end: usize,
    out: &mut [u8],
) -> Result<usize, Refusal>
    ensures value { result ≡ read_at 2 byte_offset start end (length out.old) }
    ensures out_after { out.new ≡ read_memory 2 bytes.now byte_offset start end out.old }
{
    zero_filling(ByBlocks::Four, 2, bytes, byte_offset, start, end, out)
}

// The engine of Protein: eight bases from five bytes.
pub fn decode_5bit(
    bytes: &[u8],
    byte_offset: usize,
    start: usize,
    end: usize,
    out: &mut [u8],
) -> Result<usize, Refusal>
    ensures value { result ≡ read_at 3 byte_offset start end (length out.old) }
    ensures out_after { out.new ≡ read_memory 3 bytes.now byte_offset start end out.old }
{
    zero_filling(ByBlocks::Five, 3, bytes, byte_offset, start, end, out)
}

// The engine of any alphabet: the rolling accumulator.
pub fn decode_rolling(
    alphabet: u64,
    bytes: &[u8],
    byte_offset: usize,
    start: usize,
    end: usize,
    out: &mut [u8],
) -> Result<usize, Refusal>
    ensures value { result ≡ read_at alphabet byte_offset start end (length out.old) }
    ensures out_after { out.new ≡ read_memory alphabet bytes.now byte_offset start end out.old }
{
    let engine = Rolling {
        kind: kind_of(alphabet),
    };
    zero_filling(engine, alphabet, bytes, byte_offset, start, end, out)
}
