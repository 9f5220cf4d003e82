// Within a call: the loops that cut bases from the bits at hand.
ghost use Rattle.std.specs.Prelude.{◌≡◌, ℕ, ◌+◌, ◌*◌, ◌^◌, ◌<◌, ◌≤◌, min, length};
ghost use Rattle.bits.specs.Tables.{at};
ghost use Rattle.bits.specs.Streams.{bit_at, word};
ghost use Rattle.bits.specs.Memory.{front};
ghost use Rattle.streaming.specs.Stream.{reads_by};
ghost use Rattle.streaming.specs.Flow.{Stands, count_in_blocks, answered_by, filled, all_moved, all_filled};

use crate::decoder::{Streamed, StreamingDecoder};
use crate::opening::Opening;
use crate::status::Status;
use crate::symbols::{Singles, Symbols};
use bits::{byte_at, field, low, power, push_byte};

// What clearing the memory for pairs of symbols costs, told in pairs that are laid out.
const CLEARED: usize = 64;

// `written` bases are written, and `taken` source bytes are taken; `have` bits, of value `acc`, are taken and not used.
#[derive(Clone, Copy)]
pub(crate) struct Flow {
    pub acc: u64,
    pub have: usize,
    pub taken: usize,
    pub written: usize,
}

// A call on a packed alphabet, whose codes are B bits wide.
#[derive(Clone, Copy)]
struct Packed<'a, const B: usize> {
    start: Opening<'a>,
    symbols: Singles<B>,
    ghost same: { symbols.table.kind ≡ start.state.alphabet },
}

// The answer where the loops of a call end, with output memory for `room`.
fn answered(state: StreamingDecoder, end: Flow, room: usize) -> Streamed
    requires most { end.written ≤ min state.budget room }
    requires few { end.have < 8 }
    requires small { end.acc < 2 ^ 8 }
    ensures { result ≡ answered_by state end.acc end.have end.taken end.written room }
{
    let budget = state.budget - end.written as u64;
    Streamed {
        taken: end.taken,
        written: end.written,
        status: Status::of(budget, room - end.written),
        next: StreamingDecoder {
            alphabet: state.alphabet,
            skip: 0,
            budget,
            bits: end.have as u8,
            pending: end.acc as u8,
        },
    }
}

// A number with bytes behind it. The bytes are joined by themselves first, so that the compiler may load them at once.
fn gather(bytes: &[u8], acc: u64) -> u64
    requires small { acc < 2 ^ 8 }
    requires few { length bytes.now ≤ 5 }
    ensures { result ≡ acc * 2 ^ (length bytes.now * 8) + word (bit_at 8 (at bytes.now)) 0 (length bytes.now * 8) }
{
    let mut bits: u64 = 0;
    for byte in bytes {
        bits = push_byte(bits, *byte);
    }
    acc * power(bytes.len() * 8) + bits
}

impl<'a, const B: usize> Packed<'a, B> {
    fn of(start: Opening<'a>) -> Self
        requires wide { (reads_by start.state).width ≡ B }
        requires some { 1 < B }
        requires five { B ≤ 5 }
        ensures state { result.start.state ≡ start.entry.state }
        ensures source { result.start.source.now ≡ start.entry.source.now }
    {
        Packed {
            start,
            symbols: Singles::of(start.state.alphabet),
        }
    }

    // Blocks of eight bases, as many as budget, space and source allow. Eight bases use the bits of as many bytes as a base has bits, so a block leaves as many bits at
    // hand as it found. Each width, and each way to look symbols up, has a copy of its own, in which every shift but one is by a literal.
    fn blocks<T: Symbols<B>>(&self, by: &T, out: &mut [u8]) -> Flow
        requires { T.reads by.now ≡ self.now.symbols.table.kind }
        ensures stands { Stands self.now.start.state self.now.start.source.now (length out.old) result }
        ensures count { result.written ≡ count_in_blocks self.now.start.state self.now.start.source.now (length out.old) self.now.start.flow.taken }
        ensures out_after { out.new ≡ filled self.now.start.state self.now.start.source.now result.written out.old }
    {
        let source = self.start.source;
        let have = self.start.flow.have;
        let from = self.start.flow.taken;
        let mut acc = self.start.flow.acc;
        let count = (self.start.limit(out.len()) / 8).min((source.len() - from) / B);
        // By number: a turn cuts a part of the source and one of the memory, and of what `chunks_exact_mut` lends no proof knows what is written.
        for k in 0..count {
            let next = from + k * B;
            let bits = gather(&source[next..next + B], acc);
            by.put_block(bits >> have, &mut out[k * 8..k * 8 + 8]);
            acc = low(bits, have);
        }
        Flow {
            acc,
            have,
            taken: from + count * B,
            written: count * 8,
        }
    }

    // The blocks of a call, if it has any: by pairs where it is long. To lay a pair out costs about what four bases gain by pairs, and four bases take one source byte to
    // two and a half.
    fn bulk(&self, out: &mut [u8]) -> Flow
        ensures stands { Stands self.now.start.state self.now.start.source.now (length out.old) result }
        ensures count { result.written ≡ count_in_blocks self.now.start.state self.now.start.source.now (length out.old) self.now.start.flow.taken }
        ensures out_after { out.new ≡ filled self.now.start.state self.now.start.source.now result.written out.old }
    {
        let start = self.start;
        let limit = start.limit(out.len());
        if limit < 8 {
            return start.flow;
        }
        if (limit / 4)
            .min(start.source.len() / 2)
            .saturating_sub(CLEARED)
            < power(B * 2) as usize
        {
            return self.blocks(&self.symbols, out);
        }
        self.blocks(&self.symbols.paired(), out)
    }

    // The rest, one base at a time, and the answer. A byte is taken only for a base that is due, has space and lacks bits.
    fn finish(&self, from: Flow, out: &mut [u8]) -> Streamed
        requires stands { Stands self.now.start.state self.now.start.source.now (length out.old) from }
        requires written { out.old ≡ filled self.now.start.state self.now.start.source.now from.written out.old }
        ensures value { result ≡ all_moved self.now.start.state self.now.start.source.now (length out.old) }
        ensures out_after { out.new ≡ all_filled self.now.start.state self.now.start.source.now out.old }
    {
        let source = self.start.source;
        let limit = self.start.limit(out.len());
        let mut acc = from.acc;
        let mut have = from.have;
        let mut taken = from.taken;
        for n in from.written..limit {
            if have < B {
                if taken == source.len() {
                    let end = Flow {
                        acc,
                        have,
                        taken,
                        written: n,
                    };
                    return answered(self.start.state, end, out.len());
                }
                acc = push_byte(acc, source[taken]);
                taken += 1;
                have += 8;
            }
            have -= B;
            out[n] = self.symbols.table.symbols[field(acc, have, B)];
            acc = low(acc, have);
        }
        let end = Flow {
            acc,
            have,
            taken,
            written: limit,
        };
        answered(self.start.state, end, out.len())
    }

    // The bases of the call: in blocks, and then one by one.
    fn bases(&self, out: &mut [u8]) -> Streamed
        ensures value { result ≡ all_moved self.now.start.state self.now.start.source.now (length out.old) }
        ensures out_after { out.new ≡ all_filled self.now.start.state self.now.start.source.now out.old }
    {
        let whole = self.bulk(out);
        self.finish(whole, out)
    }
}

// The bases of a packed alphabet, by its width.
pub(crate) fn pump(start: Opening<'_>, out: &mut [u8]) -> Streamed
    requires { (reads_by start.state).width ≤ 5 }
    ensures value { result ≡ all_moved start.entry.state start.entry.source.now (length out.old) }
    ensures out_after { out.new ≡ all_filled start.entry.state start.entry.source.now out.old }
{
    match start.state.alphabet.bits_per_symbol() {
        2 => Packed::<2>::of(start).bases(out),
        3 => Packed::<3>::of(start).bases(out),
        4 => Packed::<4>::of(start).bases(out),
        _ => Packed::<5>::of(start).bases(out),
    }
}

// A run of bytes at the front of memory. `copy_from_slice` would be plainer: it was measured, and calls the C library, which takes up to 1.7 of the loop's time where a
// read fills 64 KiB.
fn copy(bytes: &[u8], out: &mut [u8])
    requires { length bytes.now ≤ length out.old }
    ensures { out.new ≡ front bytes.now out.old }
{
    for (n, byte) in bytes.iter().enumerate() {
        out[n] = *byte;
    }
}

// The bases of an alphabet of whole bytes. Each base takes a byte, so as many bits stay at hand; with none, bases are bytes as
// they come.
pub(crate) fn carry(start: Opening<'_>, out: &mut [u8]) -> Streamed
    requires eight { (reads_by start.state).width ≡ 8 }
    requires same { (c : ℕ) → (reads_by start.state).symbol c ≡ c }
    ensures value { result ≡ all_moved start.entry.state start.entry.source.now (length out.old) }
    ensures out_after { out.new ≡ all_filled start.entry.state start.entry.source.now out.old }
{
    let source = start.source;
    let have = start.flow.have;
    let from = start.flow.taken;
    let limit = start.limit(out.len());
    let count = limit.min(source.len() - from);
    let taken = from + count;
    if have == 0 {
        copy(&source[from..taken], out);
        let end = Flow {
            acc: 0,
            have: 0,
            taken,
            written: count,
        };
        return answered(start.state, end, out.len());
    }
    let mut acc = start.flow.acc;
    for (n, byte) in source[from..taken].iter().enumerate() {
        let bits = push_byte(acc, *byte);
        out[n] = byte_at(bits, have);
        acc = low(bits, have);
    }
    let end = Flow {
        acc,
        have,
        taken,
        written: count,
    };
    answered(start.state, end, out.len())
}
