// Lines of text on lent memory: what programs print of a packing. Each function puts all of its text at the front of memory and answers how many bytes that
// is, or answers None where the memory is too short, and then changes none of it. What is called of `hex` and `itoa` takes no memory from the heap.
#![tactic(auto)]

mod line;

pub use line::{packed_lines, refused_line, text_line};
