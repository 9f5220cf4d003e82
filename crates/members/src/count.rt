// How many bytes of a text are no members of an alphabet.
ghost use Rattle.std.specs.Prelude.{◌≡◌, ◌≤◌, length};
ghost use Rattle.alphabet.specs.Symbols.{coding_of};
ghost use Rattle.members.specs.Members.{bad_in};

use alphabet::{AlphabetType, TextAlphabet};

// Counts the non-members among bytes that are few enough for a byte to count them. There is no branch in it, so that a text of nothing else is as fast as any, and the
// compiler may count many at once; where the length is a constant there, a caller makes no loop of it.
#[inline(always)]
fn strangers(alphabet: TextAlphabet, text: &[u8]) -> u8
    requires { length text.now ≤ 128 }
    ensures { result ≡ bad_in (coding_of alphabet) text.now }
{
    let mut sum = 0;
    for &byte in text {
        sum += u8::from(!alphabet.takes(byte));
    }
    sum
}

// The non-members of a text, 128 bytes at a time, and then those of the bytes that are left.
fn count(alphabet: TextAlphabet, text: &[u8]) -> usize
    ensures { result ≡ bad_in (coding_of alphabet) text.now }
{
    let (blocks, rest) = text.as_chunks::<128>();
    let mut sum = usize::from(strangers(alphabet, rest));
    for block in blocks {
        sum += usize::from(strangers(alphabet, block));
    }
    sum
}

// The same. The kind is a constant at each call, so that the compiler makes a loop for each: with one loop for all a wrong file of Protein takes a seventh longer.
pub fn count_strangers(alphabet: TextAlphabet, text: &[u8]) -> usize
    ensures { result ≡ bad_in (coding_of alphabet) text.now }
{
    let fold = alphabet.fold;
    match alphabet.kind {
        AlphabetType::Dna2bit => count(
            TextAlphabet {
                kind: AlphabetType::Dna2bit,
                fold,
            },
            text,
        ),
        AlphabetType::Dna3bit => count(
            TextAlphabet {
                kind: AlphabetType::Dna3bit,
                fold,
            },
            text,
        ),
        AlphabetType::DnaIupac => count(
            TextAlphabet {
                kind: AlphabetType::DnaIupac,
                fold,
            },
            text,
        ),
        AlphabetType::Protein => count(
            TextAlphabet {
                kind: AlphabetType::Protein,
                fold,
            },
            text,
        ),
        AlphabetType::Ascii | AlphabetType::Unknown => 0,
    }
}
