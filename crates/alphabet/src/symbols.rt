// The four symbol lists, and what follows from them: encoding, decoding, membership.
ghost use Rattle.std.specs.Prelude.{◌≡◌, ◌==◌, ◌≤◌, ◌&&◌, ℕ, List, length, if◌then◌else◌};
ghost use Rattle.std.specs.List.{list_any};
ghost use Rattle.bits.specs.Tables.{tabulate, at};
ghost use Rattle.alphabet.specs.Symbols.{symbol_of, code_of, found, among, canon, folds, folded_entries, coding, coding_of};

use crate::fold::fold_entries;
use crate::kind::AlphabetType;
use crate::text::TextAlphabet;

// The encoding table's entry for a byte that is no member.
pub const INVALID_CODE: u8 = 0xFF;

// UCSC's 2bit layout.
const DNA_2BIT_SYMBOLS: [[u8; 2]; 4] = [[b'T', 0b00], [b'C', 0b01], [b'A', 0b10], [b'G', 0b11]];

const DNA_3BIT_SYMBOLS: [[u8; 2]; 8] = [
    [b'A', 0b000],
    [b'C', 0b001],
    [b'G', 0b010],
    [b'T', 0b011],
    [b'N', 0b100],
    [b'R', 0b101],
    [b'Y', 0b110],
    [b'U', 0b111],
];

// No bit mask of bases: an arbitrary pairing of 16 letters with 16 codes.
const DNA_IUPAC_SYMBOLS: [[u8; 2]; 16] = [
    [b'N', 0b0000], // any base
    [b'A', 0b0001], // adenine
    [b'C', 0b0010], // cytosine
    [b'M', 0b0011], // A or C
    [b'G', 0b0100], // guanine
    [b'R', 0b0101], // A or G
    [b'S', 0b0110], // G or C
    [b'K', 0b0111], // G or T
    [b'T', 0b1000], // thymine
    [b'W', 0b1001], // A or T
    [b'Y', 0b1010], // C or T
    [b'U', 0b1011], // uracil
    [b'B', 0b1100], // not A
    [b'D', 0b1101], // not C
    [b'H', 0b1110], // not G
    [b'V', 0b1111], // not T
];

// Codes 29 to 31 are unassigned.
const PROTEIN_SYMBOLS: [[u8; 2]; 29] = [
    [b'A', 0b00000], // alanine
    [b'C', 0b00001], // cysteine
    [b'D', 0b00010], // aspartic acid
    [b'E', 0b00011], // glutamic acid
    [b'F', 0b00100], // phenylalanine
    [b'G', 0b00101], // glycine
    [b'H', 0b00110], // histidine
    [b'I', 0b00111], // isoleucine
    [b'K', 0b01000], // lysine
    [b'L', 0b01001], // leucine
    [b'M', 0b01010], // methionine
    [b'N', 0b01011], // asparagine
    [b'P', 0b01100], // proline
    [b'Q', 0b01101], // glutamine
    [b'R', 0b01110], // arginine
    [b'S', 0b01111], // serine
    [b'T', 0b10000], // threonine
    [b'V', 0b10001], // valine
    [b'W', 0b10010], // tryptophan
    [b'Y', 0b10011], // tyrosine
    [b'*', 0b10100], // stop
    [b'X', 0b10101], // residue seen, unknown
    [b'-', 0b10110], // gap
    [b'.', 0b10111], // gap
    [b'U', 0b11000], // selenocysteine
    [b'B', 0b11001], // D or N
    [b'Z', 0b11010], // E or Q
    [b'O', 0b11011], // pyrrolysine
    [b'J', 0b11100], // L or I
];

// Gives each symbol's place in a table by the bytes' values the symbol's code. The list is read from its end, so that of two pairs with one symbol the first would
// count. Laid into its caller, so that the compiler stores a list's codes one by one, without a loop: a short piece would notice.
#[inline(always)]
fn lay(symbols: &[[u8; 2]], table: &mut [u8; 256])
    ensures { table.new ≡ tabulate 256 (λ v. found symbol_of code_of (at table.old v) symbols.now v) }
{
    for &[symbol, code] in symbols.iter().rev() {
        table[usize::from(symbol)] = code;
    }
}

// The same, and then each lowercase letter's place gets the entry of its uppercase letter, where that is chosen.
#[inline(always)]
fn lay_folded(symbols: &[[u8; 2]], fold: bool, table: &mut [u8; 256])
    ensures { table.new ≡ folded_entries fold (tabulate 256 (λ v. found symbol_of code_of (at table.old v) symbols.now v)) }
{
    lay(symbols, table);
    fold_entries(fold, table);
}

// The codes 0 to 31: in Ascii they are their own symbols.
fn identity_32() -> [u8; 32]
    ensures { result ≡ tabulate 32 (λ c. c) }
{
    let mut table = [0; 32];
    lay_bytes(&mut table);
    table
}

// The table of each code's symbol, for codes of at most five bits; a code that the list lacks decodes to `unassigned`.
fn build_decoding(symbols: &[[u8; 2]], unassigned: u8) -> [u8; 32]
    ensures { result ≡ tabulate 32 (found code_of symbol_of unassigned symbols.now) }
{
    let mut table = [unassigned; 32];
    for &[symbol, code] in symbols.iter().rev() {
        if code < 32 {
            table[usize::from(code)] = symbol;
        }
    }
    table
}

// Whether a byte is among a list's symbols; codes are not looked at.
fn is_listed(symbols: &[[u8; 2]], byte: u8) -> bool
    ensures { result ≡ list_any (λ (pair : List ℕ). byte == symbol_of pair) symbols.now }
{
    symbols.iter().any(|&[symbol, _]| byte == symbol)
}

// Gives each place in a table of at most 256 entries its own number: in Ascii a byte is its own code, and a code its own symbol.
fn lay_bytes(table: &mut [u8])
    requires { length table.old ≤ 256 }
    ensures { table.new ≡ tabulate (length table.old) (λ v. v) }
{
    for (v, entry) in table.iter_mut().enumerate() {
        *entry = v as u8;
    }
}

impl TextAlphabet {
    // Gives each byte that stands for a symbol, by the choice to fold, the symbol's code in a table by the bytes' values; all others keep what the caller put at the place of
    // what they stand for. The table is written where it lies: handed out by value it would be copied, which a short piece would notice. Each list is folded where it is
    // laid, and not all of them at one place behind: the compiler would else make one code of the four lists, which a short piece would notice too.
    pub fn lay_codes(self, table: &mut [u8; 256])
        ensures { table.new
            ≡ tabulate 256 (λ v. (if (coding_of self).member v then (coding_of self).code v else at table.old (canon (self.fold && folds self.kind) v))) }
    {
        match self.kind {
            AlphabetType::Dna2bit => lay_folded(&DNA_2BIT_SYMBOLS, self.fold, table),
            AlphabetType::Dna3bit => lay_folded(&DNA_3BIT_SYMBOLS, self.fold, table),
            AlphabetType::DnaIupac => lay_folded(&DNA_IUPAC_SYMBOLS, self.fold, table),
            AlphabetType::Protein => lay_folded(&PROTEIN_SYMBOLS, self.fold, table),
            AlphabetType::Ascii | AlphabetType::Unknown => lay_bytes(table),
        }
    }
}

// An alphabet's symbols by their codes, 0 to 31: every code of the four packed alphabets. To be had once per call, not per base.
#[derive(Clone, Copy)]
pub struct DecodingTable {
    pub kind: AlphabetType,
    pub symbols: [u8; 32],
    ghost laid: { symbols ≡ tabulate 32 (coding kind).symbol },
}

impl DecodingTable {
    pub fn of(kind: AlphabetType) -> Self
        ensures { result.kind ≡ kind }
    {
        let symbols = match kind {
            AlphabetType::Dna2bit => build_decoding(&DNA_2BIT_SYMBOLS, b'N'),
            AlphabetType::Dna3bit => build_decoding(&DNA_3BIT_SYMBOLS, b'N'),
            AlphabetType::DnaIupac => build_decoding(&DNA_IUPAC_SYMBOLS, b'N'),
            AlphabetType::Protein => build_decoding(&PROTEIN_SYMBOLS, b'X'),
            AlphabetType::Ascii | AlphabetType::Unknown => identity_32(),
        };
        DecodingTable { kind, symbols }
    }
}

// Whether a byte is a symbol of the alphabet.
pub fn contains(kind: AlphabetType, byte: u8) -> bool
    ensures { result ≡ (coding kind).member byte }
{
    match kind {
        AlphabetType::Dna2bit => is_listed(&DNA_2BIT_SYMBOLS, byte),
        AlphabetType::Dna3bit => is_listed(&DNA_3BIT_SYMBOLS, byte),
        AlphabetType::DnaIupac => is_listed(&DNA_IUPAC_SYMBOLS, byte),
        AlphabetType::Protein => is_listed(&PROTEIN_SYMBOLS, byte),
        AlphabetType::Ascii | AlphabetType::Unknown => true,
    }
}
