// Windows: the symbols of a stretch of a packed file of which some bytes are lent.
#![tactic(auto)]

mod asked;
mod blocks;
mod engine;
mod fours;
mod lacking;
mod lent;
mod plain;
mod read;
mod rolling;

pub use read::{
    decode_2bit, decode_3bit, decode_4bit, decode_5bit, decode_covered, decode_rolling,
    decode_string_from_bytes, decode_substring_from_bytes, decode_substring_from_bytes_at_offset,
};
