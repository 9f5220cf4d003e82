// Calls of the streaming layer.
ghost use Rattle.std.specs.Prelude.{◌≡◌, IfOk, OnOk, length};
ghost use Rattle.replay.specs.Takes.{takes_streams};

use crate::error::LineError;
use crate::numbers::Numbers;
use crate::row::Row;
use fantailclock::{Stream, fc_stream_end, fc_stream_new, fc_stream_read};

#[derive(Clone, Copy, Debug, PartialEq, Eq)]
pub enum Streams {
    New,
    Read,
    End,
}

// The state that five numbers make.
fn stream(given: &[u64]) -> Result<Stream, LineError>
    ensures { IfOk result (λ _. length given.now ≡ 5) }
{
    let [alphabet, skip, budget, pending_bits, pending] = *given else {
        return Err(LineError::NoCall);
    };
    Ok(Stream {
        alphabet,
        skip,
        budget,
        pending_bits,
        pending,
    })
}

impl Streams {
    // Puts what the function answers of the numbers given in the row, if it takes so many.
    pub fn answer(
        self,
        given: &[u64],
        source: &[u8],
        out: &mut [u8],
        row: &mut Numbers,
    ) -> Result<(), LineError>
        ensures { OnOk result (takes_streams self ≡ length given.now) }
    {
        let answered = match (self, given) {
            (Streams::New, &[alphabet, skip, budget]) => {
                fc_stream_new(alphabet, skip, budget).row(row)
            }
            (Streams::Read, state) => fc_stream_read(stream(state)?, source, out).row(row),
            (Streams::End, state) => fc_stream_end(stream(state)?).row(row),
            _ => return Err(LineError::NoCall),
        };
        Ok(answered?)
    }
}
