// Dna2bit: four bases to a byte, by arithmetic. There is no table and no branch by a byte's value, so that the compiler packs many bases at once. A text with
// non-members costs the same however many they are, and a clean one, which has none, less.
ghost use Rattle.std.specs.Prelude.{◌≡◌, true, cond, ◌||◌, ℕ, ◌+◌, ◌-◌, ◌*◌, ◌/◌, ◌%◌, ◌^◌, ◌≤◌, ◌<◌, eqb, length, take};
ghost use Rattle.std.specs.Int.Bits.{bit_and};
ghost use Rattle.bits.specs.Tables.{tabulate, at};
ghost use Rattle.bits.specs.Streams.{bit_at, cut};
ghost use Rattle.bits.specs.Memory.{put_at};
ghost use Rattle.alphabet.specs.Symbols.{coding_by};
ghost use Rattle.alphabet.specs.declared.kind.AlphabetType.TheVariants.{Dna2bit};
ghost use Rattle.members.specs.Members.{Members, Passed};
ghost use Rattle.packing.specs.Encode.{digit_of, digits_of};
ghost use Rattle.packing.specs.Run.{Clean, ran};

use alphabet::{AlphabetType, TextAlphabet, telling_bits};
use members::all_members;

// A base as it is, and G, whose code is all ones, for any other byte. A and C differ in one bit, so that one comparison tells both.
fn tame(x: u8) -> u8
    ensures { result ≡ cond (eqb (bit_and x 0xfd) 65 || eqb x 84) x 71 }
{
    if (x & 0xFD == b'A') | (x == b'T') {
        return x;
    }
    b'G'
}

// The code of a base. Two bits tell them apart, 0, 1, 2 and 3 in A, C, T and G, whose codes are 2, 1, 0 and 3: two less these bits, modulo four.
fn code(x: u8) -> u8
    ensures { result ≡ (6 - x / 2 % 4) % 4 }
{
    (6 - (x >> 1) % 4) % 4
}

// A byte's digit: the code of the base that it stands for, and ones where it stands for none. In a clean text there is no such byte, and the two bits that tell a code
// are the same in both cases of letters.
fn digit(fold: bool, clean: bool, x: u8) -> u8
    requires { clean ≡ true → (coding_by fold Dna2bit).member x ≡ true }
    ensures { result ≡ digit_of (coding_by fold Dna2bit) x }
{
    if clean {
        return code(x);
    }
    code(tame(x & telling_bits(fold)))
}

// The digits of 64 bytes, from byte i on, a byte each.
fn codes_of(fold: bool, clean: bool, text: &[u8], i: usize) -> [u8; 64]
    requires { (i + 64 ≤ length text.now) × (clean ≡ true → Members (coding_by fold Dna2bit) text.now i 64) }
    ensures { result ≡ tabulate 64 (λ j. digit_of (coding_by fold Dna2bit) (at text.now (i + j))) }
{
    let mut codes = [0u8; 64];
    for (j, code) in codes.iter_mut().enumerate() {
        *code = digit(fold, clean, text[i + j]);
    }
    codes
}

// Four neighbouring codes as one number, the first lowest. In a function of its own, which takes the array and the place, the compiler sees that it is one load.
fn word4(codes: &[u8; 64], i: usize) -> u32
    requires { i + 4 ≤ 64 }
    ensures { result ≡ at codes.now i + at codes.now (i + 1) * 2 ^ 8 + at codes.now (i + 2) * 2 ^ 16
        + at codes.now (i + 3) * 2 ^ 24 }
{
    u32::from(codes[i])
        + (u32::from(codes[i + 1]) << 8)
        + (u32::from(codes[i + 2]) << 16)
        + (u32::from(codes[i + 3]) << 24)
}

// Four codes of two bits, each in its byte of a number, the first lowest, as one byte, the first on top: two and two are joined, and then the pairs.
fn squeeze(c: u32) -> u8
    requires { (c % 2 ^ 8 < 4) × ((c / 2 ^ 8 % 2 ^ 8 < 4) × ((c / 2 ^ 16 % 2 ^ 8 < 4) × (c / 2 ^ 24 < 4))) }
    ensures { result ≡ c % 2 ^ 8 * 64 + c / 2 ^ 8 % 2 ^ 8 * 16 + c / 2 ^ 16 % 2 ^ 8 * 4 + c / 2 ^ 24 }
{
    let d = (c << 2) + (c >> 8);
    (((d << 4) + (d >> 16)) % 256) as u8
}

// The bytes of 64 codes of two bits. (Over `iter_mut` the proof did not tell what is stored: between place and store stand two calls.)
fn packed16(codes: &[u8; 64]) -> [u8; 16]
    requires { (j : ℕ) → j < 64 → at codes.now j < 4 }
    ensures { result ≡ cut 8 (bit_at 2 (at codes.now)) 0 16 }
{
    let mut bytes = [0u8; 16];
    for j in 0..16 {
        bytes[j] = squeeze(word4(codes, j * 4));
    }
    bytes
}

// Packs 64 bytes, from byte i on, into 16, from place w on. The arrays are whole before one byte is stored: output that might be the text would make the compiler go
// byte by byte.
fn put_64(fold: bool, clean: bool, text: &[u8], i: usize, out: &mut [u8], w: usize)
    requires { (i + 64 ≤ length text.now) × ((w + 16 ≤ length out.old) × (clean ≡ true → Members (coding_by fold Dna2bit) text.now i 64)) }
    ensures { out.new ≡ put_at w (cut 8 (bit_at 2 (λ j. digit_of (coding_by fold Dna2bit) (at text.now j))) (i * 2) 16) out.old }
{
    let codes = codes_of(fold, clean, text, i);
    out[w..w + 16].copy_from_slice(&packed16(&codes));
}

// Packs the whole blocks of 64 bytes that a text begins with, and tells how many there are. By number, here and below, since a turn cuts a part of the text and one of the
// memory. `clean` is a constant at each call (run.rt).
pub fn pack_fours(fold: bool, clean: bool, text: &[u8], out: &mut [u8]) -> usize
    requires { (length text.now / 64 * 16 ≤ length out.old) × Clean clean (coding_by fold Dna2bit) text.now }
    ensures { (result ≡ length text.now / 64)
        × (out.new ≡ ran 2 0 0 (digits_of (coding_by fold Dna2bit) (take (result * 64) text.now)) out.old) }
{
    let n = text.len() / 64;
    for b in 0..n {
        put_64(fold, clean, text, b * 64, out, b * 16);
    }
    n
}

// Packs the blocks of 64 members that a text begins with, each as soon as it is known to be one, so that the text is read once. The answer is how many they are.
pub fn fours_of_members(fold: bool, text: &[u8], out: &mut [u8]) -> usize
    requires { length text.now / 64 * 16 ≤ length out.old }
    ensures passed { Passed (coding_by fold Dna2bit) text.now (result * 64) }
    ensures wrote { out.new ≡ ran 2 0 0 (digits_of (coding_by fold Dna2bit) (take (result * 64) text.now)) out.old }
{
    let alphabet = TextAlphabet {
        kind: AlphabetType::Dna2bit,
        fold,
    };
    let n = text.len() / 64;
    for b in 0..n {
        let i = b * 64;
        if !all_members(alphabet, &text[i..i + 64]) {
            return b;
        }
        put_64(fold, true, text, i, out, b * 16);
    }
    n
}
