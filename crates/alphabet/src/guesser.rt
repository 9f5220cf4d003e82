// The guesser: the first alphabet in the order that holds every byte of a text.
ghost use Rattle.std.specs.Prelude.{◌≡◌, ◌+◌, ◌<◌, ◌≤◌, length, drop};
ghost use Rattle.bits.specs.Tables.{tabulate};
ghost use Rattle.alphabet.specs.Symbols.{canon, folded};
ghost use Rattle.alphabet.specs.Guess.{fresh_guesser, sound_guesser, mask_of, masked, guesser_update_at, guess_at, guess_of};
ghost use Rattle.alphabet.specs.Answers.{guesser_updated_reply, guesser_update_told, guessed_reply, guess_told};

use crate::bases::pass_bases;
use crate::kind::AlphabetType;
use crate::mask::{ALPHABET_ORDER, Masks};
use crate::refusal::{Refusal, Refused};

// The mask while every alphabet is possible.
const ALL_ALPHABETS: u8 = 31;

// The mask once only Ascii remains.
const ASCII_BIT: u8 = 16;

// How many bytes the outer loop hands to the inner one.
const GUESS_CHUNK: usize = 4096;

// The guesser's state: bit i of `acc` is set while alphabet i of ALPHABET_ORDER can hold every byte seen, by the choice to fold.
#[derive(Clone, Copy, Debug, PartialEq, Eq, Hash)]
pub struct AlphabetGuesser {
    pub acc: u8,
    pub fold: bool,
}

impl AlphabetGuesser {
    // A guesser that has seen nothing, with the caller's choice to fold.
    pub fn new(fold: bool) -> Self
        ensures { result ≡ fresh_guesser fold }
    {
        AlphabetGuesser {
            acc: ALL_ALPHABETS,
            fold,
        }
    }

    // Question 4: is the mask 16 to 31?
    fn is_sound(self) -> bool
        ensures { result ≡ sound_guesser self }
    {
        ASCII_BIT <= self.acc && self.acc <= ALL_ALPHABETS
    }

    // The state after a text; an unsound state is refused by 1 and comes back as it was.
    pub fn update(self, sequence: &[u8]) -> Result<AlphabetGuesser, Refused<AlphabetGuesser>>
        ensures value { result ≡ guesser_update_at self sequence.now }
        ensures told { guesser_updated_reply result ≡ guesser_update_told self sequence.now }
    {
        if !self.is_sound() {
            return Err(Refusal::Unsound.keeping(self));
        }
        if self.acc == ASCII_BIT {
            return Ok(self);
        }
        let fold = self.fold;
        let acc = scan(self.acc, fold, sequence);
        Ok(AlphabetGuesser { acc, fold })
    }

    // The alphabet whose place in the order is the count of the mask's trailing zero bits; an unsound state is refused by 1.
    pub fn guess(self) -> Result<AlphabetType, Refused<AlphabetGuesser>>
        ensures value { result ≡ guess_at self }
        ensures told { guessed_reply result ≡ guess_told self }
    {
        if !self.is_sound() {
            return Err(Refusal::Unsound.keeping(self));
        }
        let i = self.acc.trailing_zeros() as usize;
        Ok(ALPHABET_ORDER[i])
    }
}

impl Masks {
    // A mask once those of a text's bytes are ANDed to it.
    fn after(&self, acc: u8, text: &[u8]) -> u8
        ensures { result ≡ masked acc (folded self.now.fold text.now) }
    {
        let mut m = acc;
        for &byte in text {
            m = m & self.of_bytes[usize::from(byte)];
        }
        m
    }

    // Passes bytes that a text begins with and that leave a mask as it is, and tells how many: bases first, 64 at a time, which leave every mask as it is, and then
    // eight at a time. By number, since a place is what is told.
    fn pass_alike(&self, acc: u8, text: &[u8]) -> usize
        requires { acc ≤ 31 }
        ensures within { result ≤ length text.now }
        ensures alike { masked acc (drop result (folded self.now.fold text.now)) ≡ masked acc (folded self.now.fold text.now) }
    {
        let bases = pass_bases(self.fold, text);
        let eights = (text.len() - bases) / 8;
        for k in 0..eights {
            let i = bases + k * 8;
            if self.after(acc, &text[i..i + 8]) != acc {
                return i;
            }
        }
        bases + eights * 8
    }

    // A sound mask once each byte's mask is ANDed to it, up to the byte after which only Ascii remains: no later one changes it.
    fn scan(&self, mask: u8, text: &[u8]) -> u8
        requires { (16 ≤ mask) × (mask ≤ 31) }
        ensures { result ≡ masked mask (folded self.now.fold text.now) }
    {
        let mut acc = mask;
        'chunks: for chunk in text.chunks(GUESS_CHUNK) {
            let start = self.pass_alike(acc, chunk);
            for &byte in &chunk[start..] {
                acc = acc & self.of_bytes[usize::from(byte)];
                if acc == ASCII_BIT {
                    break 'chunks;
                }
            }
        }
        acc
    }
}

// The same, by the masks of what the choice to fold says. A function by itself, so that who has nothing else than bases does not pay for the registers that it needs.
#[inline(never)]
fn scan_masked(mask: u8, fold: bool, sequence: &[u8]) -> u8
    requires { (16 ≤ mask) × (mask ≤ 31) }
    ensures { result ≡ masked mask (folded fold sequence.now) }
{
    Masks::by(fold).scan(mask, sequence)
}

// The same. The bases that a text begins with are passed before the table of masks is laid out: most texts, and most pieces, have nothing else.
fn scan(mask: u8, fold: bool, sequence: &[u8]) -> u8
    requires { (16 ≤ mask) × (mask ≤ 31) }
    ensures { result ≡ masked mask (folded fold sequence.now) }
{
    let start = pass_bases(fold, sequence);
    if sequence.len() <= start {
        return mask;
    }
    scan_masked(mask, fold, &sequence[start..])
}

// The guess for a whole text, by the caller's choice to fold: `new`, `update` and `guess` in one. No state is handed from one to the next, since that would cost a
// short text more than its scan does.
pub fn guess_alphabet(fold: bool, sequence: &[u8]) -> AlphabetType
    ensures { result ≡ guess_of fold sequence.now }
{
    let acc = scan(ALL_ALPHABETS, fold, sequence);
    AlphabetGuesser { acc, fold }.guess().unwrap()
}
