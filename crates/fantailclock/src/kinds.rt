// Widths, members and names of alphabets, and the later of two.
ghost use Rattle.std.specs.Prelude.{◌≡◌, length, OnErr};
ghost use Rattle.alphabet.specs.Genome.{later_at};
ghost use Rattle.alphabet.specs.Answers.{named_reply, count_reply};
ghost use Rattle.fantailclock.specs.Shapes.{number, count};
ghost use Rattle.fantailclock.specs.Kinds.{bits_told, contains_told, name_told, name_memory};

use crate::shapes::{Count, Number};
use alphabet::{AlphabetType, Refusal, contains, later_alphabet};

// The version of this boundary; a change of a struct, or of what a function takes or answers, raises it.
pub fn fc_abi_version() -> u64
    ensures { result ≡ 4 }
{
    4
}

#[tactic(auto, unfolding(crate::specs::Kinds::bits_told))]
fn bits_per_symbol(alphabet: u64) -> Result<u64, Refusal>
    ensures { count_reply result ≡ bits_told alphabet }
{
    let kind = AlphabetType::try_from(alphabet)?;
    Ok(kind.bits_per_symbol() as u64)
}

// The bits per symbol.
pub fn fc_bits_per_symbol(alphabet: u64) -> Number
    ensures { result ≡ number (bits_told alphabet) }
{
    Number::from(bits_per_symbol(alphabet))
}

#[tactic(auto, unfolding(crate::specs::Kinds::contains_told))]
fn contained(alphabet: u64, byte: u64) -> Result<u64, Refusal>
    ensures { count_reply result ≡ contains_told alphabet byte }
{
    let kind = AlphabetType::try_from(alphabet)?;
    let member = byte < 256 && contains(kind, byte as u8);
    Ok(u64::from(member))
}

// 1 for a member, else 0; a number above 255 is no byte and so no member.
pub fn fc_contains(alphabet: u64, byte: u64) -> Number
    ensures { result ≡ number (contains_told alphabet byte) }
{
    Number::from(contained(alphabet, byte))
}

fn later(one: u64, other: u64) -> Result<u64, Refusal>
    ensures { count_reply result ≡ named_reply (later_at one other) }
{
    let kind = later_alphabet(one, other)?;
    Ok(u64::from(kind))
}

// The number of the later of two alphabets.
pub fn fc_later_alphabet(one: u64, other: u64) -> Number
    ensures { result ≡ number (named_reply (later_at one other)) }
{
    Number::from(later(one, other))
}

#[tactic(auto, unfolding(crate::specs::Kinds::name_told, crate::specs::Kinds::name_memory))]
fn name(alphabet: u64, out: &mut [u8]) -> Result<usize, Refusal>
    ensures value { count_reply result ≡ name_told alphabet (length out.old) }
    ensures memory { out.new ≡ name_memory alphabet out.old }
{
    let kind = AlphabetType::try_from(alphabet)?;
    let name = kind.display_name().as_bytes();
    if out.len() < name.len() {
        return Err(Refusal::ShortMemory);
    }
    out[..name.len()].copy_from_slice(name);
    Ok(name.len())
}

// The display name at the front of `out`, and its length.
pub fn fc_display_name(alphabet: u64, out: &mut [u8]) -> Count
    ensures value { result ≡ count (name_told alphabet (length out.old)) }
    ensures memory { out.new ≡ name_memory alphabet out.old }
{
    Count::from(name(alphabet, out))
}
