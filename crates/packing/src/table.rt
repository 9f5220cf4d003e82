// A call's table: for each of the 256 bytes the b bits that it is packed as, its code or, where it is no member, ones. So a digit is added to others as it is, with no
// mask. A plain alphabet needs no table.
ghost use Rattle.std.specs.Prelude.{◌≡◌, ◌-◌, ◌^◌, replicate};
ghost use Rattle.alphabet.specs.Symbols.{coding, coding_of};
ghost use Rattle.packing.specs.Run.{Tabled};

use alphabet::{AlphabetType, TextAlphabet};
use bits::power;

// What a non-member is packed as.
pub fn ones(kind: AlphabetType) -> u8
    ensures { result ≡ 2 ^ (coding kind).width - 1 }
{
    (power(kind.bits_per_symbol()) - 1) as u8
}

// A struct of a table and its alphabet, with `Tabled` as its invariant, was proved and measured: its 256 bytes are copied where it is made, so that 8 bytes of Ascii take half
// as long again. So table and alphabet are handed on side by side.
// Gives a table that starts as ones the digits of an alphabet's members. The caller makes the table, and it is written where it lies: handed out by value it would be
// copied, which a short piece would notice.
pub fn lay_digits(alphabet: TextAlphabet, table: &mut [u8; 256])
    requires { table.old ≡ replicate 256 (2 ^ (coding alphabet.kind).width - 1) }
    ensures { Tabled (coding_of alphabet) table.new }
{
    if 8 <= alphabet.kind.bits_per_symbol() {
        return;
    }
    alphabet.lay_codes(table);
}
