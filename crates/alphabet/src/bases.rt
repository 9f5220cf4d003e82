// Runs of the four bases, by the choice to fold.
ghost use Rattle.std.specs.Prelude.{◌≡◌, ◌+◌, ◌≤◌, true, length, if◌then◌else◌};
ghost use Rattle.alphabet.specs.Symbols.{folded};
ghost use Rattle.alphabet.specs.Bases.{base, Bases, Run};

// Whether a byte is one of the four bases. A and C differ in one bit, so that one comparison tells both.
pub fn is_base(x: u8) -> bool
    ensures { result ≡ base x }
{
    (x & 0xFD == b'A') | (x == b'G') | (x == b'T')
}

// The bits of a byte that tell a base: with folding all but the one in which a lowercase letter differs from its uppercase letter.
pub fn telling_bits(fold: bool) -> u8
    ensures { result ≡ (if fold then 0xdf else 0xff) }
{
    if fold {
        return 0xDF;
    }
    0xFF
}

// Whether a text has bytes alone that stand for bases. It leaves no byte out and stops at none, so that the compiler may test many at once.
fn are_bases(fold: bool, text: &[u8]) -> bool
    ensures { result ≡ true → Bases (folded fold text.now) 0 (length text.now) }
{
    let bits = telling_bits(fold);
    let mut all = true;
    for &byte in text {
        all = all & is_base(byte & bits);
    }
    all
}

// Passes the bytes that a text begins with while they stand for bases, 64 at a time, and tells how many. By number, since a block's place is what is told.
fn pass_run(fold: bool, text: &[u8]) -> usize
    ensures { Run (folded fold text.now) result }
{
    let blocks = text.len() / 64;
    for k in 0..blocks {
        let i = k * 64;
        if !are_bases(fold, &text[i..i + 64]) {
            return i;
        }
    }
    blocks * 64
}

// The same; how far it goes is free. The choice is a constant at each of the two calls, so that the compiler makes a loop for each.
pub fn pass_bases(fold: bool, text: &[u8]) -> usize
    ensures { Run (folded fold text.now) result }
{
    if fold {
        return pass_run(true, text);
    }
    pass_run(false, text)
}
