// The bits at hand when a call begins.
ghost use Rattle.std.specs.Prelude.{true, ◌||◌, ◌≡◌, ◌<◌, min, eqb, ltb, length};
ghost use Rattle.bits.specs.Tables.{Bytes};
ghost use Rattle.streaming.specs.Stream.{sound_stream};
ghost use Rattle.streaming.specs.Flow.{Level};

use crate::decoder::StreamingDecoder;
use crate::flow::Flow;
use bits::low;

// A call before its first base: its state, its source and the bits at hand.
#[derive(Clone, Copy)]
pub(crate) struct Opening<'a> {
    pub state: StreamingDecoder,
    pub source: &'a [u8],
    pub flow: Flow,
    ghost bytes: { Bytes source.now },
    ghost pends: { state.bits < 8 },
    ghost few: { flow.have < 8 },
    ghost none: { flow.written ≡ 0 },
    ghost level: { Level state source.now flow.acc flow.have flow.taken 0 },
}

impl<'a> Opening<'a> {
    // The bits that pend or, with the skip due, those of the first byte that the skip leaves.
    pub fn of(state: StreamingDecoder, source: &'a [u8]) -> Self
        requires sound { sound_stream state ≡ true }
        requires begins { (eqb state.skip 0 || ltb 0 (length source.now)) ≡ true }
        ensures state { result.state ≡ state }
        ensures source { result.source.now ≡ source.now }
    {
        let skip = usize::from(state.skip);
        if skip == 0 {
            return Opening {
                state,
                source,
                flow: Flow {
                    acc: u64::from(state.pending),
                    have: usize::from(state.bits),
                    taken: 0,
                    written: 0,
                },
            };
        }
        let have = 8 - skip;
        Opening {
            state,
            source,
            flow: Flow {
                acc: low(u64::from(source[0]), have),
                have,
                taken: 1,
                written: 0,
            },
        }
    }

    // The most bases that the budget and output memory for `room` allow.
    pub fn limit(&self, room: usize) -> usize
        ensures { result ≡ min self.now.state.budget room }
    {
        (self.state.budget as usize).min(room)
    }
}
