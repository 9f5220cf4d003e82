ghost use Rattle.std.specs.Prelude.{◌≡◌, length};
ghost use Rattle.fantailclock.specs.Shapes.{ended};
ghost use Rattle.fantailclock.specs.Streams.{stream_started, streamed, streamed_memory, end_told};

use fantailclock::{Ended, Stream, StreamStarted, Streamed};

// A stream that has taken nothing; a refused start echoes its arguments, so that the state is refused again.
#[unsafe(no_mangle)]
pub extern "C" fn fc_stream_new(alphabet: u64, skip: u64, budget: u64) -> StreamStarted
    ensures { result ≡ stream_started alphabet skip budget }
{
    fantailclock::fc_stream_new(alphabet, skip, budget)
}

// The bases that the source's bytes give, at the front of the memory.
#[unsafe(no_mangle)]
pub extern "C" fn fc_stream_read(state: Stream, source: &[u8], out: &mut [u8]) -> Streamed
    ensures value { result ≡ streamed state source.now (length out.old) }
    ensures memory { out.new ≡ streamed_memory state source.now out.old }
{
    fantailclock::fc_stream_read(state, source, out)
}

// Whether the stream is complete; with bases outstanding it is refused by 7, with their count.
#[unsafe(no_mangle)]
pub extern "C" fn fc_stream_end(state: Stream) -> Ended
    ensures { result ≡ ended (end_told state) }
{
    fantailclock::fc_stream_end(state)
}
