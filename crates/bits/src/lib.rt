// What every storey above shares: definitions and laws of lists and bits, the bits of a word, and the largest position.
#![tactic(auto)]

mod word;

pub use word::{byte_at, field, low, power, push, push_byte};

// The largest position and the largest count of symbols: 2^60.
pub const LIMIT: usize = 1 << 60;
