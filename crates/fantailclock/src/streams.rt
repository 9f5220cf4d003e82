// The stream.
ghost use Rattle.std.specs.Prelude.{◌≡◌, Result, length};
ghost use Rattle.fantailclock.specs.Shapes.{ended, end_reply};
ghost use Rattle.fantailclock.specs.Streams.{outside, state_of, answer_from, stream_started, streamed, streamed_memory, end_told};

use crate::shapes::{Ended, Stream, StreamStarted, Streamed, number_of};
use alphabet::{AlphabetType, Refusal};
use streaming::StreamingDecoder;

// The numbers of a state.
impl From<StreamingDecoder> for Stream {
    ghost from_gives = { λ state numbers. numbers ≡ outside state };

    #[tactic(auto, unfolding(crate::specs::Streams::outside))]
    fn from(state: StreamingDecoder) -> Stream {
        Stream {
            alphabet: u64::from(state.alphabet),
            skip: u64::from(state.skip),
            budget: state.budget,
            pending_bits: u64::from(state.bits),
            pending: u64::from(state.pending),
        }
    }
}

// The state that a host's numbers stand for, where each fits its field: 8 for an alphabet's number that is none, 1 for a number that fits no field. Whether it is
// sound is asked by the call that gets it.
impl TryFrom<Stream> for StreamingDecoder {
    type Error = Refusal;

    ghost try_from_gives = { λ numbers r. r ≡ state_of numbers };

    #[tactic(auto, unfolding(crate::specs::Streams::state_of, crate::specs::Streams::inside))]
    fn try_from(numbers: Stream) -> Result<StreamingDecoder, Refusal> {
        let alphabet = AlphabetType::try_from(numbers.alphabet)?;
        if 255 < numbers.skip || 255 < numbers.pending_bits || 255 < numbers.pending {
            return Err(Refusal::Unsound);
        }
        Ok(StreamingDecoder {
            alphabet,
            skip: numbers.skip as u8,
            budget: numbers.budget,
            bits: numbers.pending_bits as u8,
            pending: numbers.pending as u8,
        })
    }
}

// A stream that has taken nothing; a refused start echoes its arguments, so that the state is refused again.
#[tactic(auto, unfolding(crate::specs::Streams::stream_started))]
pub fn fc_stream_new(alphabet: u64, skip: u64, budget: u64) -> StreamStarted
    ensures { result ≡ stream_started alphabet skip budget }
{
    let refusal = match StreamingDecoder::new(alphabet, skip, budget) {
        Ok(_) => 0,
        Err(refusal) => number_of(refusal),
    };
    StreamStarted {
        refusal,
        next: Stream {
            alphabet,
            skip,
            budget,
            pending_bits: 0,
            pending: 0,
        },
    }
}

#[tactic(auto, unfolding(crate::specs::Streams::streamed_memory))]
fn read(state: Stream, source: &[u8], out: &mut [u8]) -> Result<streaming::Streamed, Refusal>
    ensures value { result ≡ answer_from source.now (length out.old) (state_of state) }
    ensures memory { out.new ≡ streamed_memory state source.now out.old }
{
    let stream = StreamingDecoder::try_from(state)?;
    Ok(stream.read(source, out)?)
}

// The bases that the source's bytes give, at the front of the memory.
#[tactic(auto, unfolding(crate::specs::Streams::streamed))]
pub fn fc_stream_read(state: Stream, source: &[u8], out: &mut [u8]) -> Streamed
    ensures value { result ≡ streamed state source.now (length out.old) }
    ensures memory { out.new ≡ streamed_memory state source.now out.old }
{
    match read(state, source, out) {
        Ok(done) => Streamed {
            refusal: 0,
            taken: done.taken as u64,
            written: done.written as u64,
            status: u64::from(done.status),
            next: Stream::from(done.next),
        },
        Err(refusal) => Streamed {
            refusal: number_of(refusal),
            taken: 0,
            written: 0,
            status: 0,
            next: state,
        },
    }
}

#[tactic(auto, unfolding(crate::specs::Streams::end_told))]
fn end(state: Stream) -> Result<(), Refusal>
    ensures { end_reply result ≡ end_told state }
{
    let stream = StreamingDecoder::try_from(state)?;
    Ok(stream.end()?)
}

// Whether the stream is complete; with bases outstanding it is refused by 7, with their count.
pub fn fc_stream_end(state: Stream) -> Ended
    ensures { result ≡ ended (end_told state) }
{
    Ended::from(end(state))
}
