// The lent bytes of a file.
ghost use Rattle.std.specs.Prelude.{◌≡◌, ◌^◌, ◌<◌, ◌≤◌};
ghost use Rattle.bits.specs.Tables.{Bytes};
ghost use Rattle.bits.specs.Streams.{bit_at, word};
ghost use Rattle.bits.specs.Packing.{file_byte};

use bits::{field, push_byte};

// Those bytes of a file that are lent: from byte `offset` on. Any other byte reads as zero.
#[derive(Clone, Copy)]
pub struct Lent<'a> {
    pub bytes: &'a [u8],
    pub offset: usize,
    ghost small: { Bytes bytes.now },
}

impl Lent<'_> {
    // Byte j of the file.
    pub fn byte(&self, j: usize) -> u8
        ensures { result ≡ file_byte self.now.bytes.now self.now.offset j }
    {
        if j < self.offset {
            return 0;
        }
        let i = j - self.offset;
        if i < self.bytes.len() {
            return self.bytes[i];
        }
        0
    }

    // The code of the b bits from bit `bit` of the file on, from the bytes of its first and of its last bit, which may be one.
    pub fn code(&self, bit: usize, b: usize) -> usize
        requires { (bit ≤ 2 ^ 63) × ((0 < b) × (b ≤ 8)) }
        ensures { result ≡ word (bit_at 8 (file_byte self.now.bytes.now self.now.offset)) bit b }
    {
        let first = u64::from(self.byte(bit / 8));
        let last = self.byte((bit + b - 1) / 8);
        field(push_byte(first, last), 16 - bit % 8 - b, b)
    }
}
