// The coder layer under one name: packing, windows and the stream, over the alphabets' promises.
#![tactic(auto)]

pub use packing::{
    Bad, ByteRange, SequenceEncoder, Stranger, Updated, byte_range_for_bases, encode_sequence,
};
pub use streaming::{Status, Streamed, StreamingDecoder};
pub use windows::{
    decode_2bit, decode_3bit, decode_4bit, decode_5bit, decode_covered, decode_rolling,
    decode_string_from_bytes, decode_substring_from_bytes, decode_substring_from_bytes_at_offset,
};
