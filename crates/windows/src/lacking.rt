// Codes that an alphabet's own list lacks. Protein has 29 symbols, so that three of the 32 codes that five bits write are no symbol's; every code of the other
// alphabets is a symbol's. A window is looked through before any base of it is written.
ghost use Rattle.std.specs.Prelude.{◌≡◌, ℕ, ◌+◌, ◌*◌, ◌/◌, ◌%◌, ◌^◌, ◌<◌, ◌≤◌, true, false, MatchOption};
ghost use Rattle.alphabet.specs.Symbols.{coding};
ghost use Rattle.alphabet.specs.declared.kind.AlphabetType.TheVariants.{Protein};
ghost use Rattle.windows.specs.Window.{covers, first_lacking_of};
ghost use Rattle.windows.specs.Workers.{Near, Covered, Passes, FirstLacking};

use crate::blocks::number;
use crate::lent::Lent;
use alphabet::AlphabetType;

// Protein's bits per symbol.
const WIDTH: usize = 5;

// Its first code that is no symbol's.
const LACKING: usize = 29;

// Eleven codes have 55 bits, which are at most 62 with the bits before them in their first byte: eight bytes hold them, wherever in a byte they begin.
const MANY: usize = 11;

// So few bases are looked at one by one: a number of their bytes, whose count is not known beforehand, takes longer to make.
const FEW: usize = 4;

// 3 in each of eleven fields of five bits: added to a code from 29 on it carries into the field above.
const THREES: u64 = 0xC6318C6318C63;

// The bits that these carries come to: the lowest of each field but the first, and the one above the last.
const CARRIES: u64 = 0x84210842108420;

// Whether one of eleven codes, those of a number above its n low bits, is no symbol's. That it says so of no others is not asked of it: where it does, each is looked
// at.
fn lacks(codes: u64, n: usize) -> bool
    requires { (codes < 2 ^ 62) × (n ≤ 7) }
    ensures { result ≡ false → (i : ℕ) → i < 11 → codes / 2 ^ (n + i * 5) % 2 ^ 5 < 29 }
{
    let threes = THREES << n;
    ((codes + threes) ^ codes ^ threes) & (CARRIES << n) != 0
}

// Passes bases from `start` on whose codes are symbols', eight at a time, while more than eleven are left, so that eight bytes are. Eight codes fill five bytes, so
// that each eight begins at the same bit of its byte; the three codes behind them are looked at too, and once more with the next eight. The answer is the first base
// that was not passed; how far it goes is free.
fn pass_many(lent: &Lent<'_>, start: usize, end: usize) -> usize
    requires { Covered lent.now.bytes.now lent.now.offset start end }
    ensures { Passes (coding Protein) lent.now.bytes.now lent.now.offset start result end }
{
    let bit = start * WIDTH;
    let first = bit / 8 - lent.offset;
    let above = 7 - bit % 8;
    let most = (end - start).saturating_sub(4) / 8;
    // By number: a turn reads eight bytes and goes on by five.
    for n in 0..most {
        let from = first + n * WIDTH;
        if lacks(number(&lent.bytes[from..from + 8]) >> 2, above) {
            return start + n * 8;
        }
    }
    start + most * 8
}

// The same for the rest, all at once; where more than eleven bases are left, or few, none is passed.
fn pass_rest(lent: &Lent<'_>, start: usize, end: usize) -> usize
    requires { Covered lent.now.bytes.now lent.now.offset start end }
    ensures { Passes (coding Protein) lent.now.bytes.now lent.now.offset start result end }
{
    if end - start < FEW {
        return start;
    }
    if MANY < end - start {
        return start;
    }
    let first = start * WIDTH / 8;
    let last = (end * WIDTH + 7) / 8;
    let all = number(&lent.bytes[first - lent.offset..last - lent.offset]);
    if lacks(all >> (last * 8 - end * WIDTH), 0) {
        return start;
    }
    end
}

// The first base from `start` on whose code is no symbol's, looked for one at a time.
fn first_alone(lent: &Lent<'_>, start: usize, end: usize) -> Option<usize>
    requires { Near start end }
    ensures { FirstLacking (coding Protein) lent.now.bytes.now lent.now.offset start end result }
{
    for i in start..end {
        if LACKING <= lent.code(i * WIDTH, WIDTH) {
            return Some(i);
        }
    }
    None
}

// The first base of a covered window whose code is no symbol's, which only Protein has.
pub fn first_lacking(kind: AlphabetType, lent: &Lent<'_>, start: usize, end: usize) -> Option<usize>
    requires { Near start end × (covers (coding kind) lent.now.bytes.now lent.now.offset start end ≡ true) }
    ensures { FirstLacking (coding kind) lent.now.bytes.now lent.now.offset start end result }
{
    match kind {
        AlphabetType::Protein => {
            let many = pass_many(lent, start, end);
            let rest = pass_rest(lent, many, end);
            first_alone(lent, rest, end)
        }
        _ => None,
    }
}
