// Dna2bit: four bases from a byte, by arithmetic. There is no table, so a call lays none out, and the compiler may read many bytes at once.
ghost use Rattle.std.specs.Prelude.{◌≡◌, ◌+◌, ◌-◌, ◌*◌, ◌/◌, ◌%◌, ◌^◌, ◌<◌, ◌≤◌, length};
ghost use Rattle.bits.specs.Tables.{at};
ghost use Rattle.bits.specs.Memory.{front};
ghost use Rattle.alphabet.specs.Symbols.{coding};
ghost use Rattle.alphabet.specs.declared.kind.AlphabetType.TheVariants.{Dna2bit};
ghost use Rattle.windows.specs.Window.{window};
ghost use Rattle.windows.specs.Workers.{symbols_of};

use crate::engine::Engine;
use crate::lent::Lent;

// How long a window is for which a loop without shifts gains more than the two branches by its start may cost.
const LONG: usize = 512;

// Base t of a byte, 0 to 3. The codes 1, 2 and 3 are C, A and G, which differ from C in the bits of 0, 2 and 4: twice the code, less two. Code 0 wraps there to
// more than the bits in which T differs from C, and so gets these.
fn base_in(byte: u8, t: usize) -> u8
    requires { t < 4 }
    ensures { result ≡ at (symbols_of (coding Dna2bit) 4 byte) t }
{
    let code = (byte >> ((3 - t) * 2)) % 4;
    (code * 2).wrapping_add(254).min(b'T' ^ b'C') ^ b'C'
}

// A byte's four bases.
fn put_four(byte: u8, out: &mut [u8])
    requires { length out.old ≡ 4 }
    ensures { out.new ≡ symbols_of (coding Dna2bit) 4 byte }
{
    out[0] = base_in(byte, 0);
    out[1] = base_in(byte, 1);
    out[2] = base_in(byte, 2);
    out[3] = base_in(byte, 3);
}

// The eight bits that follow the first s bases of two neighbouring bytes.
fn joined(x: u8, y: u8, s: usize) -> u8
    requires { s < 4 }
    ensures { result ≡ (x * 256 + y) / 2 ^ (8 - s * 2) % 256 }
{
    (((u16::from(x) * 256 + u16::from(y)) >> (8 - s * 2)) % 256) as u8
}

// Four bases at a time from base `start` on, each four of two neighbouring bytes, while memory is left for four and the bytes are lent. The answer is how many bases
// were written. Where in a byte the window starts goes into the shift alone: a branch by it is one that the processor cannot foresee.
fn fours(lent: &Lent<'_>, start: usize, out: &mut [u8]) -> usize
    requires { start + length out.old ≤ 2 ^ 60 }
    ensures { (result ≤ length out.old) × (out.new ≡ front (window (coding Dna2bit) lent.now.bytes.now lent.now.offset start result) out.old) }
{
    let first = start / 4;
    if first < lent.offset {
        return 0;
    }
    let s = start % 4;
    let i = first - lent.offset;
    // A four that begins with its byte takes nothing of the next one, which need not be lent.
    let next = (s + 3) / 4;
    let count = lent.bytes.len().saturating_sub(i + next).min(out.len() / 4);
    // By number: a turn reads two bytes, and cuts a part of the memory; so below, of one byte.
    for n in 0..count {
        let byte = joined(lent.bytes[i + n], lent.bytes[i + n + next], s);
        put_four(byte, &mut out[n * 4..n * 4 + 4]);
    }
    count * 4
}

// The bases of lent bytes, the first of them byte `first` of the file, while memory is left for four. The answer is how many bases were written.
fn whole_bytes(lent: &Lent<'_>, first: usize, out: &mut [u8]) -> usize
    requires { first * 4 + length out.old ≤ 2 ^ 60 }
    ensures { (result ≤ length out.old) × (out.new ≡ front (window (coding Dna2bit) lent.now.bytes.now lent.now.offset (first * 4) result) out.old) }
{
    if first < lent.offset {
        return 0;
    }
    let i = first - lent.offset;
    let count = lent.bytes.len().saturating_sub(i).min(out.len() / 4);
    for n in 0..count {
        put_four(lent.bytes[i + n], &mut out[n * 4..n * 4 + 4]);
    }
    count * 4
}

// The bases from base `start` on, one at a time: made by arithmetic, and so no case of the alphabets that have a table.
fn singles(lent: &Lent<'_>, start: usize, out: &mut [u8])
    requires { start + length out.old ≤ 2 ^ 60 }
    ensures { out.new ≡ window (coding Dna2bit) lent.now.bytes.now lent.now.offset start (length out.old) }
{
    for (n, base) in out.iter_mut().enumerate() {
        let i = start + n;
        *base = base_in(lent.byte(i / 4), i % 4);
    }
}

// A long window: one base at a time up to a byte, by whole bytes, and one at a time to the end and where bytes are not lent.
fn long_window(lent: &Lent<'_>, start: usize, out: &mut [u8])
    requires { start + length out.old ≤ 2 ^ 60 }
    ensures { out.new ≡ window (coding Dna2bit) lent.now.bytes.now lent.now.offset start (length out.old) }
{
    let head = ((4 - start % 4) % 4).min(out.len());
    let (first, rest) = out.split_at_mut(head);
    singles(lent, start, first);
    let done = whole_bytes(lent, (start + head) / 4, rest);
    singles(lent, start + head + done, &mut rest[done..]);
}

// The engine of Dna2bit: by fours, and one at a time what is left, and where bytes are not lent. Fewer than four are asked for first, so that the shortest windows pay
// for nothing else.
#[derive(Clone, Copy)]
pub struct TwoBits;

impl Engine for TwoBits {
    ghost kind = { λ _. Dna2bit };

    fn write(self, bytes: &[u8], offset: usize, start: usize, out: &mut [u8]) {
        let lent = Lent { bytes, offset };
        if out.len() < 4 {
            singles(&lent, start, out);
            return;
        }
        if LONG <= out.len() {
            long_window(&lent, start, out);
            return;
        }
        let done = fours(&lent, start, out);
        singles(&lent, start + done, &mut out[done..]);
    }
}
