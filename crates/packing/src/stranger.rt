// A byte of a text that is no member of an alphabet.

// Its position in the text, and the byte as it came.
#[derive(Clone, Copy, Debug, PartialEq, Eq, Hash)]
pub struct Stranger {
    pub position: usize,
    pub byte: u8,
}
