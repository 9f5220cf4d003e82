// The symbols of a packed alphabet by their codes: one by one, and two by two.
ghost use Rattle.std.specs.Prelude.{◌≡◌, ◌*◌, ◌/◌, ◌%◌, ◌^◌, ◌<◌, ◌≤◌, [], ◌∷◌, length};
ghost use Rattle.std.specs.Int.{w16, to_le_bytes};
ghost use Rattle.alphabet.specs.declared.kind.AlphabetType.{AlphabetType};
ghost use Rattle.alphabet.specs.Symbols.{coding};
ghost use Rattle.streaming.specs.Symbols.{decoding, block_of, Paired};

use alphabet::{AlphabetType, DecodingTable};
use bits::{field, low, power};

// What looks up the symbols of codes that are B bits wide.
pub(crate) trait Symbols<const B: usize> {
    // whose symbols they are
    ghost reads: { Self → AlphabetType };

    // Eight bases: those whose codes the low bits of a number write.
    fn put_block(&self, codes: u64, block: &mut [u8])
        requires { length block.old ≡ 8 }
        ensures { block.new ≡ block_of (reads self.now) B codes };
}

// The symbols one by one.
#[derive(Clone, Copy)]
pub(crate) struct Singles<const B: usize> {
    pub table: DecodingTable,
    ghost wide: { (coding table.kind).width ≡ B },
    ghost some: { 1 < B },
    ghost five: { B ≤ 5 },
}

// The symbols two by two: at each number of twice a code's bits, those of the two codes that it writes, as two bytes in one load. There are as many rows as the widest
// codes need: no const argument is computed from B.
#[derive(Drop)]
pub(crate) struct Pairs<const B: usize> {
    pub kind: AlphabetType,
    pub rows: [u16; 1024],
    ghost five: { B ≤ 5 },
    ghost paired: { Paired (decoding kind) B (2 ^ (B * 2)) rows },
}

// Two bytes that are read at once.
fn pair(first: u8, second: u8) -> u16
    ensures { to_le_bytes w16 result ≡ first ∷ second ∷ [] }
{
    u16::from_le_bytes([first, second])
}

impl<const B: usize> Singles<B> {
    // The table of an alphabet, to be had once per call.
    pub fn of(kind: AlphabetType) -> Self
        requires wide { (coding kind).width ≡ B }
        requires some { 1 < B }
        requires five { B ≤ 5 }
        ensures { result.table.kind ≡ kind }
    {
        Singles {
            table: DecodingTable::of(kind),
        }
    }

    // The table's entries two by two.
    pub fn paired(&self) -> Pairs<B>
        ensures { result.kind ≡ self.now.table.kind }
    {
        let mut rows = [0u16; 1024];
        let all = power(B * 2) as usize;
        // v is the number that is looked up, and its place.
        for v in 0..all {
            rows[v] = pair(
                self.table.symbols[field(v as u64, B, B)],
                self.table.symbols[low(v as u64, B) as usize],
            );
        }
        Pairs {
            kind: self.table.kind,
            rows,
        }
    }
}

impl<const B: usize> Symbols<B> for Singles<B> {
    ghost reads = { λ s. s.table.kind };

    fn put_block(&self, codes: u64, block: &mut [u8]) {
        for (t, base) in block.iter_mut().enumerate() {
            *base = self.table.symbols[field(codes, (7 - t) * B, B)];
        }
    }
}

impl<const B: usize> Symbols<B> for Pairs<B> {
    ghost reads = { λ s. s.kind };

    fn put_block(&self, codes: u64, block: &mut [u8]) {
        // By index: of what `chunks_exact_mut` lends no proof knows what is written.
        for t in 0..4usize {
            let [first, second] = self.rows[field(codes, (3 - t) * (B * 2), B * 2)].to_le_bytes();
            block[t * 2] = first;
            block[t * 2 + 1] = second;
        }
    }
}
