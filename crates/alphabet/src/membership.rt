// Which bytes stand for symbols, told by comparisons alone. There is no branch in them and no table, so that in a loop the compiler may test many bytes at once.
ghost use Rattle.std.specs.Prelude.{◌≡◌, ◌&&◌, ◌||◌, ◌==◌, nat_le};
ghost use Rattle.alphabet.specs.Symbols.{coding, coding_of};
ghost use Rattle.alphabet.specs.declared.kind.AlphabetType.TheVariants.{Dna3bit, DnaIupac};

use crate::bases::{is_base, telling_bits};
use crate::kind::AlphabetType;
use crate::text::TextAlphabet;

// Whether a byte is a symbol of Dna3bit. These letters have no order that a few comparisons could use. But mixed with its double, or with 8A where that is larger, a
// letter of the alphabet falls into one of three groups in which no other byte is: this was found by a search, and is computed for all 256 bytes.
fn is_dna3bit(x: u8) -> bool
    ensures { result ≡ (coding Dna3bit).member x }
{
    let y = x.wrapping_add(x).max(0x8A) ^ x;
    (y & 0xDD == 0xC9) | (0xFC <= y) | (y & 0xDB == 0xD2)
}

// Whether a byte is a symbol of DnaIupac. The same: added to itself, or to K where it is larger, a letter of the alphabet falls into one of four groups.
fn is_dna_iupac(x: u8) -> bool
    ensures { result ≡ (coding DnaIupac).member x }
{
    let y = (x.min(0x4B) + 0x3E).wrapping_add(x);
    (y & 0xE5 == 0xC4) | (y & 0xDD == 0xC0) | (y & 0xF3 == 0xD3) | (y == 0xDD)
}

// Protein has every letter, and three signs besides.
fn is_letter(x: u8) -> bool
    ensures { result ≡ (nat_le 0x41 x && nat_le x 0x5a) }
{
    (b'A' <= x) & (x <= b'Z')
}

fn is_sign(x: u8) -> bool
    ensures { result ≡ ((x == 0x2a || x == 0x2d) || x == 0x2e) }
{
    (x == b'*') | (x == b'-') | (x == b'.')
}

impl TextAlphabet {
    // Whether a byte stands for a symbol of the alphabet. A letter is told by the bits that tell a base too; a sign by all of its bits, since it has no other case.
    pub fn takes(self, byte: u8) -> bool
        ensures { result ≡ (coding_of self).member byte }
    {
        let letter = byte & telling_bits(self.fold);
        match self.kind {
            AlphabetType::Dna2bit => is_base(letter),
            AlphabetType::Dna3bit => is_dna3bit(letter),
            AlphabetType::DnaIupac => is_dna_iupac(letter),
            AlphabetType::Protein => is_letter(letter) | is_sign(byte),
            AlphabetType::Ascii | AlphabetType::Unknown => true,
        }
    }
}
