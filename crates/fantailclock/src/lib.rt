// The host library: one function for each entry point, over numbers, plain structs and lent memory. The crate fantailclock_c hands them out to C.
// Alphabets, choices and states are numbers, flags stand beside what they tell of, and lent bytes beside their offset, as the C interface has them (include/fantailclock.h).
#![tactic(auto)]

mod encoders;
mod guesses;
mod kinds;
mod reads;
mod shapes;
mod streams;

pub use encoders::{
    fc_byte_range_for_bases, fc_encode_sequence, fc_encoder_ask, fc_encoder_finalize,
    fc_encoder_new, fc_encoder_update,
};
pub use guesses::{fc_guess_alphabet, fc_guesser_guess, fc_guesser_new, fc_guesser_update};
pub use kinds::{
    fc_abi_version, fc_bits_per_symbol, fc_contains, fc_display_name, fc_later_alphabet,
};
pub use reads::{
    fc_decode_2bit, fc_decode_3bit, fc_decode_4bit, fc_decode_5bit, fc_decode_covered,
    fc_decode_rolling, fc_decode_string_from_bytes, fc_decode_substring_from_bytes,
    fc_decode_substring_from_bytes_at_offset,
};
pub use shapes::{
    Count, Covered, Encoder, EncoderStarted, Ended, Guesser, Guessing, Number, Packed, Range,
    Stream, StreamStarted, Streamed, Updated,
};
pub use streams::{fc_stream_end, fc_stream_new, fc_stream_read};
