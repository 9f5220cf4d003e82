// The alphabet that a text is taken by.
use crate::kind::AlphabetType;

// A kind, and the caller's choice whether a lowercase letter stands for its uppercase letter.
#[derive(Clone, Copy, Debug, PartialEq, Eq, Hash)]
pub struct TextAlphabet {
    pub kind: AlphabetType,
    pub fold: bool,
}
