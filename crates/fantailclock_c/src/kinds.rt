ghost use Rattle.std.specs.Prelude.{◌≡◌, length};
ghost use Rattle.alphabet.specs.Genome.{later_at};
ghost use Rattle.alphabet.specs.Answers.{named_reply};
ghost use Rattle.fantailclock.specs.Shapes.{number, count};
ghost use Rattle.fantailclock.specs.Kinds.{bits_told, contains_told, name_told, name_memory};

use fantailclock::{Count, Number};

// The version of this boundary; a change of a struct, or of what a function takes or answers, raises it.
#[unsafe(no_mangle)]
pub extern "C" fn fc_abi_version() -> u64
    ensures { result ≡ 4 }
{
    fantailclock::fc_abi_version()
}

// The bits per symbol.
#[unsafe(no_mangle)]
pub extern "C" fn fc_bits_per_symbol(alphabet: u64) -> Number
    ensures { result ≡ number (bits_told alphabet) }
{
    fantailclock::fc_bits_per_symbol(alphabet)
}

// 1 for a member, else 0; a number above 255 is no byte and so no member.
#[unsafe(no_mangle)]
pub extern "C" fn fc_contains(alphabet: u64, byte: u64) -> Number
    ensures { result ≡ number (contains_told alphabet byte) }
{
    fantailclock::fc_contains(alphabet, byte)
}

// The number of the later of two alphabets.
#[unsafe(no_mangle)]
pub extern "C" fn fc_later_alphabet(one: u64, other: u64) -> Number
    ensures { result ≡ number (named_reply (later_at one other)) }
{
    fantailclock::fc_later_alphabet(one, other)
}

// The display name at the front of `out`, and its length.
#[unsafe(no_mangle)]
pub extern "C" fn fc_display_name(alphabet: u64, out: &mut [u8]) -> Count
    ensures value { result ≡ count (name_told alphabet (length out.old)) }
    ensures memory { out.new ≡ name_memory alphabet out.old }
{
    fantailclock::fc_display_name(alphabet, out)
}
