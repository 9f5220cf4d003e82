// The alphabets: symbols and codes, names and numbers, and the guess of a text's alphabet.
#![tactic(auto)]

mod bases;
mod fold;
mod guesser;
mod kind;
mod mask;
mod membership;
mod refusal;
mod symbols;
mod text;

pub use bases::telling_bits;
pub use guesser::{AlphabetGuesser, guess_alphabet};
pub use kind::{AlphabetType, later_alphabet};
pub use mask::ALPHABET_ORDER;
pub use refusal::{Refusal, Refused};
pub use symbols::{DecodingTable, INVALID_CODE, contains};
pub use text::TextAlphabet;
