// The stream: the bases of a stretch of packed bytes, fed in pieces.
#![tactic(auto)]

mod decoder;
mod flow;
mod opening;
mod status;
mod symbols;

pub use decoder::{Streamed, StreamingDecoder};
pub use status::Status;
