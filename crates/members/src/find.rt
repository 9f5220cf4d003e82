// The members that a text begins with, and its first non-member.
ghost use Rattle.std.specs.Prelude.{◌≡◌, ◌<◌, ◌≤◌, length, not, position, MatchOption};
ghost use Rattle.alphabet.specs.Symbols.{coding_of};
ghost use Rattle.members.specs.Members.{members_ahead_of, all_members_of, Passed};

use alphabet::{AlphabetType, TextAlphabet};

// Whether a text has members alone. It leaves no byte out and stops at none, so that the compiler may test many at once; where the length is a constant there, a caller
// makes no loop of it.
#[inline(always)]
pub fn all_members(alphabet: TextAlphabet, text: &[u8]) -> bool
    ensures { result ≡ all_members_of (coding_of alphabet) text.now }
{
    let mut all = true;
    for &byte in text {
        all &= alphabet.takes(byte);
    }
    all
}

// The same of a block. It stays a function by itself, which the compiler makes for each length that is asked about, without a loop.
fn are_members<const N: usize>(alphabet: TextAlphabet, block: &[u8; N]) -> bool
    requires { N ≤ 64 }
    ensures { result ≡ all_members_of (coding_of alphabet) block.now }
{
    all_members(alphabet, block)
}

// Passes blocks of members, N bytes each, that a text begins with, and tells how many bytes they are.
fn pass<const N: usize>(alphabet: TextAlphabet, text: &[u8]) -> usize
    requires { (0 < N) × (N ≤ 64) }
    ensures { Passed (coding_of alphabet) text.now result }
{
    let (blocks, _) = text.as_chunks::<N>();
    for (k, block) in blocks.iter().enumerate() {
        if !are_members(alphabet, block) {
            return k * N;
        }
    }
    blocks.len() * N
}

// Passes a long text's halves side by side, a block of each at a time: memory hands out two stretches of a text faster than one. Where a block has a non-member, what
// was passed of the first half is told. By number, since a turn reads a block of each half.
fn pass_halves(alphabet: TextAlphabet, text: &[u8]) -> usize
    ensures { Passed (coding_of alphabet) text.now result }
{
    if text.len() < 16384 {
        return 0;
    }
    let (blocks, _) = text.as_chunks::<64>();
    let half = text.len() / 128;
    for k in 0..half {
        let here = are_members(alphabet, &blocks[k]);
        let there = are_members(alphabet, &blocks[half + k]);
        if !(here & there) {
            return k * 64;
        }
    }
    half * 128
}

// Passes the members that a text begins with: a long text's halves side by side, and then 64 at a test and 16.
fn pass_many(alphabet: TextAlphabet, text: &[u8]) -> usize
    ensures { Passed (coding_of alphabet) text.now result }
{
    let side = pass_halves(alphabet, text);
    let many = side + pass::<64>(alphabet, &text[side..]);
    many + pass::<16>(alphabet, &text[many..])
}

// Passes the last bytes, fewer than 16, at a test: with bytes before them that are passed already, where there are so many, so that they are 16.
fn pass_last(alphabet: TextAlphabet, text: &[u8], passed: usize) -> usize
    requires { Passed (coding_of alphabet) text.now passed }
    ensures { Passed (coding_of alphabet) text.now result }
{
    if 16 <= text.len() - passed {
        return passed;
    }
    let all = match text.last_chunk::<16>() {
        Some(last) => are_members(alphabet, last),
        None => all_members(alphabet, &text[passed..]),
    };
    if all { text.len() } else { passed }
}

// The place of a text's first non-member, a byte at a time.
fn next_stranger(alphabet: TextAlphabet, text: &[u8]) -> Option<usize>
    ensures { result ≡ position (λ v. not ((coding_of alphabet).member v)) text.now }
{
    text.iter().position(|&byte| !alphabet.takes(byte))
}

// The place of a text's first non-member. Behind what was passed many bytes at a test it goes on a byte at a time, for at most 16.
pub fn first_stranger(alphabet: TextAlphabet, text: &[u8]) -> Option<usize>
    ensures { MatchOption result (members_ahead_of (coding_of alphabet) text.now ≡ length text.now)
        (λ i. (i ≡ members_ahead_of (coding_of alphabet) text.now) × (i < length text.now)) }
{
    if let AlphabetType::Ascii | AlphabetType::Unknown = alphabet.kind {
        return None;
    }
    let many = pass_many(alphabet, text);
    if text.len() <= many {
        return None;
    }
    let passed = pass_last(alphabet, text, many);
    let next = next_stranger(alphabet, &text[passed..])?;
    Some(passed + next)
}
