ghost use Rattle.std.specs.Prelude.{◌≡◌, length};
ghost use Rattle.packing.specs.Encode.{encode_at, encode_memory};
ghost use Rattle.packing.specs.Range.{range_at};
ghost use Rattle.packing.specs.Answers.{encoded_reply, range_reply};
ghost use Rattle.fantailclock.specs.Shapes.{range, packed, chosen};
ghost use Rattle.fantailclock.specs.Encoders.{encoder_started};
ghost use Rattle.fantailclock.specs.Encoders.{encoder_updated, encoder_update_memory, finalize_told, encoder_finalize_memory};

use fantailclock::{Encoder, EncoderStarted, Packed, Range, Updated};

// The first byte and the end of the bytes that hold the bases from `start` to `end`.
#[unsafe(no_mangle)]
pub extern "C" fn fc_byte_range_for_bases(start: u64, end: u64, bits: u64) -> Range
    ensures { result ≡ range (range_reply (range_at start end bits)) }
{
    fantailclock::fc_byte_range_for_bases(start, end, bits)
}

// A text packed whole.
#[unsafe(no_mangle)]
pub extern "C" fn fc_encode_sequence(
    alphabet: u64,
    fold: u64,
    text: &[u8],
    out: &mut [u8],
) -> Packed
    ensures value { result ≡ packed (encoded_reply (encode_at alphabet (chosen fold) text.now (length out.old))) }
    ensures memory { out.new ≡ encode_memory alphabet (chosen fold) text.now out.old }
{
    fantailclock::fc_encode_sequence(alphabet, fold, text, out)
}

// An encoder that has seen nothing; a refused start echoes its arguments as they came, so that the state is refused again.
#[unsafe(no_mangle)]
pub extern "C" fn fc_encoder_new(alphabet: u64, fold: u64) -> EncoderStarted
    ensures { result ≡ encoder_started alphabet fold }
{
    fantailclock::fc_encoder_new(alphabet, fold)
}

// What `fc_encoder_update` would answer with memory of `room` bytes; none is lent.
#[unsafe(no_mangle)]
pub extern "C" fn fc_encoder_ask(state: Encoder, piece: &[u8], room: u64) -> Updated
    ensures { result ≡ encoder_updated state piece.now room }
{
    fantailclock::fc_encoder_ask(state, piece, room)
}

// A piece packed behind what pends.
#[unsafe(no_mangle)]
pub extern "C" fn fc_encoder_update(state: Encoder, piece: &[u8], out: &mut [u8]) -> Updated
    ensures value { result ≡ encoder_updated state piece.now (length out.old) }
    ensures memory { out.new ≡ encoder_update_memory state piece.now out.old }
{
    fantailclock::fc_encoder_update(state, piece, out)
}

// The last byte, where bits pend.
#[unsafe(no_mangle)]
pub extern "C" fn fc_encoder_finalize(state: Encoder, out: &mut [u8]) -> Packed
    ensures value { result ≡ packed (finalize_told state (length out.old)) }
    ensures memory { out.new ≡ encoder_finalize_memory state out.old }
{
    fantailclock::fc_encoder_finalize(state, out)
}
