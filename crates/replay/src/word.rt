// What a word of a line writes.
ghost use Rattle.std.specs.Prelude.{◌≡◌, ℕ, ◌<◌, ◌==◌, length, take, position, IfSome};
ghost use Rattle.replay.specs.Fields.{index_of, digit_of, written};

// The place of the first byte that is the one asked for.
fn find(bytes: &[u8], byte: u8) -> Option<usize>
    ensures { result ≡ position (λ (x : ℕ). x == byte) bytes.now }
{
    bytes.iter().position(|found| *found == byte)
}

// What a byte is worth as a hexadecimal digit in lowercase.
#[tactic(auto, using(crate::proofs::Words::place_none))]
fn digit(byte: u8) -> Option<usize>
    ensures none { result ≡ None → digit_of byte ≡ 16 }
    ensures some { IfSome result (λ d. (d ≡ digit_of byte) × (d < 16)) }
{
    find(b"0123456789abcdef", byte)
}

// A number in decimal. There is none without a digit, or where it takes more than 64 bits.
#[tactic(auto, using(crate::proofs::Words::written_more, crate::proofs::Words::written_whole))]
pub fn decimal(word: &[u8]) -> Option<u64>
    ensures { IfSome result (λ value. value ≡ written word.now) }
{
    if word.is_empty() {
        return None;
    }
    let mut value = 0u64;
    for byte in word {
        let digit = digit(*byte).filter(|digit| *digit < 10)?;
        value = value.checked_mul(10)?.checked_add(digit as u64)?;
    }
    Some(value)
}

// The byte that two hexadecimal digits write.
pub fn byte(pair: &[u8]) -> Option<u8> {
    let [high, low] = pair else {
        return None;
    };
    Some((digit(*high)? * 16 + digit(*low)?) as u8)
}

// The name in front of a line: what stands before its first space.
#[tactic(auto, using(crate::proofs::Words::place_at, crate::proofs::Words::named_whole))]
pub fn name_of(line: &[u8]) -> &[u8]
    ensures { result.now ≡ take (index_of 32 line.now) line.now }
{
    match find(line, b' ') {
        Some(end) => &line[..end],
        None => line,
    }
}
