// The exports of the host library for C (include/fantailclock.h): each calls the function of the crate `fantailclock` that has its name, and states that function's
// clauses again. Numbers, flags and lent bytes are those of the header. Archive and symbols are those of one library, libfantailclock.a.
#![tactic(auto)]

mod encoders;
mod guesses;
mod kinds;
mod reads;
mod streams;
