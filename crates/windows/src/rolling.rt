// The rolling accumulator: bytes go in at its low end, bases come out at its high end, one at a time.
ghost use Rattle.std.specs.Prelude.{◌≡◌, ℕ, ◌+◌, ◌^◌, ◌<◌, ◌≤◌, length};
ghost use Rattle.bits.specs.Packing.{file_byte};
ghost use Rattle.alphabet.specs.Symbols.{coding};
ghost use Rattle.windows.specs.Window.{window};
ghost use Rattle.windows.specs.Workers.{Holds};

use crate::lent::Lent;
use alphabet::DecodingTable;
use bits::{field, push_byte};

// Bits that were read and not yet used: the `have` ones before byte `next`. They are the low bits of `acc`; what stands above them is used.
#[derive(Clone, Copy)]
pub struct Held {
    pub next: usize,
    pub have: usize,
    pub acc: u64,
}

impl Held {
    // What is left of a byte from bit `bit` of the file on; nothing where that bit is a byte's first.
    fn prime(lent: &Lent<'_>, bit: usize) -> Held
        requires { bit ≤ 2 ^ 63 }
        ensures { (result.have < 8) × Holds (file_byte lent.now.bytes.now lent.now.offset) bit result }
    {
        let next = bit / 8;
        let skip = bit % 8;
        if skip == 0 {
            return Held {
                next,
                have: 0,
                acc: 0,
            };
        }
        Held {
            next: next + 1,
            have: 8 - skip,
            acc: u64::from(lent.byte(next)),
        }
    }

    // At least b bits: one byte more where fewer are at hand.
    fn refill(self, lent: &Lent<'_>, b: usize) -> Held
        requires { (self.have < 8) × (self.next < 2 ^ 63) × (b ≤ 8) }
        ensures { (b ≤ result.have) × (result.have < b + 8)
            × ((place : ℕ) → Holds (file_byte lent.now.bytes.now lent.now.offset) place self → Holds (file_byte lent.now.bytes.now lent.now.offset) place result) }
    {
        if b <= self.have {
            return self;
        }
        Held {
            next: self.next + 1,
            have: self.have + 8,
            acc: push_byte(self.acc, lent.byte(self.next)),
        }
    }
}

// The bases from base `start` on.
pub fn roll(table: &DecodingTable, lent: &Lent<'_>, start: usize, out: &mut [u8])
    requires { ((coding table.now.kind).width ≤ 5) × (start + length out.old ≤ 2 ^ 60) }
    ensures { out.new ≡ window (coding table.now.kind) lent.now.bytes.now lent.now.offset start (length out.old) }
{
    let b = table.kind.bits_per_symbol();
    let mut held = Held::prime(lent, start * b);
    for base in out.iter_mut() {
        held = held.refill(lent, b);
        held.have -= b;
        *base = table.symbols[field(held.acc, held.have, b)];
    }
}
