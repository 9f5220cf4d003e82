// Dna3bit, DnaIupac and Protein: blocks of bases, each as many as fill whole bytes. A block may begin anywhere in a byte, and so is read from its bytes and the next
// one: where it begins goes into a shift alone, since a branch by it is one that the processor cannot foresee.
ghost use Rattle.std.specs.Prelude.{◌≡◌, ◌+◌, ◌-◌, ◌*◌, ◌/◌, ◌^◌, ◌<◌, ◌≤◌, map, length};
ghost use Rattle.bits.specs.Tables.{at};
ghost use Rattle.bits.specs.Streams.{bit_at, word, fields};
ghost use Rattle.bits.specs.Memory.{front};
ghost use Rattle.alphabet.specs.Symbols.{coding};
ghost use Rattle.alphabet.specs.declared.kind.AlphabetType.TheVariants.{Dna3bit, DnaIupac, Protein};
ghost use Rattle.windows.specs.Window.{window};
ghost use Rattle.windows.specs.Workers.{Fills, written_by};

use crate::engine::Engine;
use crate::lent::Lent;
use alphabet::{AlphabetType, DecodingTable};
use bits::{field, push_byte};

// The number that at most eight bytes write; the search for codes without a symbol takes it too.
pub fn number(bytes: &[u8]) -> u64
    requires { length bytes.now ≤ 8 }
    ensures { result ≡ word (bit_at 8 (at bytes.now)) 0 (length bytes.now * 8) }
{
    let mut all: u64 = 0;
    for byte in bytes {
        all = push_byte(all, *byte);
    }
    all
}

// The table's entries at the codes, b bits wide, that the low bits of a number write.
fn spread(table: &[u8; 32], b: usize, w: u64, out: &mut [u8])
    requires { (b ≤ 5) × (length out.old * b < 64) }
    ensures { out.new ≡ map (at table.now) (fields b (length out.old) w) }
{
    let c = out.len();
    for (t, base) in out.iter_mut().enumerate() {
        *base = table[field(w, (c - 1 - t) * b, b)];
    }
}

// How many blocks of n bytes are lent from byte i of the lent ones on, each with the next byte.
fn lent_blocks(lent: &Lent<'_>, i: usize, n: usize) -> usize
    requires { (i < 2 ^ 63) × (0 < n) }
    ensures { result ≡ (length lent.now.bytes.now - (i + 1)) / n }
{
    lent.bytes.len().saturating_sub(i + 1) / n
}

// Blocks of C bases, N bytes each, from base `start` on, while memory is left for one, and the bytes of a block and the next one are lent. The answer is how many bases
// were written. The sizes are constants at each call, so that the compiler makes a loop for each.
fn blocks<const C: usize, const N: usize>(
    table: &DecodingTable,
    lent: &Lent<'_>,
    start: usize,
    out: &mut [u8],
) -> usize
    requires { Fills (coding table.now.kind) C N × (start + length out.old ≤ 2 ^ 60) }
    ensures { (result ≤ length out.old) × (out.new ≡ front (window (coding table.now.kind) lent.now.bytes.now lent.now.offset start result) out.old) }
{
    // Asked for first, so that the shortest windows pay for nothing else.
    if out.len() < C {
        return 0;
    }
    let b = table.kind.bits_per_symbol();
    let bit = start * b;
    let first = bit / 8;
    if first < lent.offset {
        return 0;
    }
    let i = first - lent.offset;
    let count = lent_blocks(lent, i, N).min(out.len() / C);
    // By number: a turn reads the byte behind its own too, and cuts a part of the memory.
    for m in 0..count {
        let from = i + m * N;
        let w = number(&lent.bytes[from..from + N + 1]);
        spread(
            &table.symbols,
            b,
            w >> (8 - bit % 8),
            &mut out[m * C..m * C + C],
        );
    }
    count * C
}

// The bases from base `start` on, one at a time.
fn singles(table: &DecodingTable, lent: &Lent<'_>, start: usize, out: &mut [u8])
    requires { ((coding table.now.kind).width ≤ 5) × (start + length out.old ≤ 2 ^ 60) }
    ensures { out.new ≡ window (coding table.now.kind) lent.now.bytes.now lent.now.offset start (length out.old) }
{
    let b = table.kind.bits_per_symbol();
    for (n, base) in out.iter_mut().enumerate() {
        *base = table.symbols[lent.code((start + n) * b, b)];
    }
}

// Eight bases from N bytes, and one at a time what is left, and where bytes are not lent: eight codes of an alphabet fill as many bytes as each has bits.
fn eights<const N: usize>(table: &DecodingTable, lent: &Lent<'_>, start: usize, out: &mut [u8])
    requires { ((coding table.now.kind).width ≡ N × N ≤ 5) × (start + length out.old ≤ 2 ^ 60) }
    ensures { out.new ≡ window (coding table.now.kind) lent.now.bytes.now lent.now.offset start (length out.old) }
{
    let done = blocks::<8, N>(table, lent, start, out);
    singles(table, lent, start + done, &mut out[done..]);
}

// The engine of Dna3bit: eight bases from three bytes.
#[derive(Clone, Copy)]
pub struct ThreeBits;

impl Engine for ThreeBits {
    ghost kind = { λ _. Dna3bit };

    #[inline(always)]
    fn write(self, bytes: &[u8], offset: usize, start: usize, out: &mut [u8]) {
        let lent = Lent { bytes, offset };
        let table = DecodingTable::of(AlphabetType::Dna3bit);
        eights::<3>(&table, &lent, start, out);
    }
}

// The engine of DnaIupac: two bases from a byte, of seven bytes at once, and then of four.
#[derive(Clone, Copy)]
pub struct FourBits;

impl Engine for FourBits {
    ghost kind = { λ _. DnaIupac };

    #[inline(always)]
    fn write(self, bytes: &[u8], offset: usize, start: usize, out: &mut [u8]) {
        let lent = Lent { bytes, offset };
        let table = DecodingTable::of(AlphabetType::DnaIupac);
        let done = blocks::<14, 7>(&table, &lent, start, out);
        eights::<4>(&table, &lent, start + done, &mut out[done..]);
    }
}

// The engine of Protein: eight bases from five bytes.
#[derive(Clone, Copy)]
pub struct FiveBits;

impl Engine for FiveBits {
    ghost kind = { λ _. Protein };

    #[inline(always)]
    fn write(self, bytes: &[u8], offset: usize, start: usize, out: &mut [u8]) {
        let lent = Lent { bytes, offset };
        let table = DecodingTable::of(AlphabetType::Protein);
        eights::<5>(&table, &lent, start, out);
    }
}

// The three as one function of the archive, into which each is laid, and which calls no other: a function that hands its slices on copies them first.
#[derive(Clone, Copy)]
pub enum ByBlocks {
    Three,
    Four,
    Five,
}

impl Engine for ByBlocks {
    ghost kind = { written_by };

    fn write(self, bytes: &[u8], offset: usize, start: usize, out: &mut [u8]) {
        match self {
            ByBlocks::Three => ThreeBits.write(bytes, offset, start, out),
            ByBlocks::Four => FourBits.write(bytes, offset, start, out),
            ByBlocks::Five => FiveBits.write(bytes, offset, start, out),
        }
    }
}
