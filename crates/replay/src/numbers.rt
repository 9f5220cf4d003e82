// A line's numbers.
use arrayvec::ArrayVec;

// As many as a call gives or an answer tells at most, in fixed memory.
pub type Numbers = ArrayVec<u64, 11>;
