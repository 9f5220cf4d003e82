// Calls of the windows layer.
ghost use Rattle.std.specs.Prelude.{◌≡◌, OnOk, length};
ghost use Rattle.replay.specs.Takes.{takes_reads};

use crate::error::LineError;
use crate::numbers::Numbers;
use crate::row::Row;
use fantailclock::{
    fc_decode_2bit, fc_decode_3bit, fc_decode_4bit, fc_decode_5bit, fc_decode_covered,
    fc_decode_rolling, fc_decode_string_from_bytes, fc_decode_substring_from_bytes,
    fc_decode_substring_from_bytes_at_offset,
};

#[derive(Clone, Copy, Debug, PartialEq, Eq)]
pub enum Reads {
    SubstringAtOffset,
    Substring,
    String,
    Covered,
    Rolling,
    TwoBit,
    ThreeBit,
    FourBit,
    FiveBit,
}

// A number as a position.
fn size(number: u64) -> usize {
    number as usize
}

impl Reads {
    // Puts what the function answers of the numbers given in the row, if it takes so many.
    pub fn answer(
        self,
        given: &[u64],
        bytes: &[u8],
        out: &mut [u8],
        row: &mut Numbers,
    ) -> Result<(), LineError>
        ensures { OnOk result (takes_reads self ≡ length given.now) }
    {
        let answered = match (self, given) {
            (Reads::SubstringAtOffset, &[alphabet, offset, start, end]) => {
                let (offset, start, end) = (size(offset), size(start), size(end));
                fc_decode_substring_from_bytes_at_offset(
                    alphabet, bytes, offset, start, end, out,
                ).row(row)
            }
            (Reads::Substring, &[alphabet, start, end]) => {
                fc_decode_substring_from_bytes(alphabet, bytes, size(start), size(end), out).row(
                    row,
                )
            }
            (Reads::String, &[alphabet, len]) => {
                fc_decode_string_from_bytes(alphabet, bytes, size(len), out).row(row)
            }
            (Reads::Covered, &[alphabet, offset, start, end]) => {
                let (offset, start, end) = (size(offset), size(start), size(end));
                fc_decode_covered(alphabet, bytes, offset, start, end, out).row(row)
            }
            (Reads::Rolling, &[alphabet, offset, start, end]) => {
                let (offset, start, end) = (size(offset), size(start), size(end));
                fc_decode_rolling(alphabet, bytes, offset, start, end, out).row(row)
            }
            (Reads::TwoBit, &[offset, start, end]) => {
                fc_decode_2bit(bytes, size(offset), size(start), size(end), out).row(row)
            }
            (Reads::ThreeBit, &[offset, start, end]) => {
                fc_decode_3bit(bytes, size(offset), size(start), size(end), out).row(row)
            }
            (Reads::FourBit, &[offset, start, end]) => {
                fc_decode_4bit(bytes, size(offset), size(start), size(end), out).row(row)
            }
            (Reads::FiveBit, &[offset, start, end]) => {
                fc_decode_5bit(bytes, size(offset), size(start), size(end), out).row(row)
            }
            _ => return Err(LineError::NoCall),
        };
        Ok(answered?)
    }
}
