// Packing: the encoder, whole texts, byte ranges.
ghost use Rattle.std.specs.Prelude.{◌≡◌, true, length};
ghost use Rattle.alphabet.specs.Answers.{count_reply};
ghost use Rattle.packing.specs.Encode.{encode_at, encode_memory};
ghost use Rattle.packing.specs.Range.{range_at};
ghost use Rattle.packing.specs.Answers.{encoded_reply, range_reply};
ghost use Rattle.fantailclock.specs.Shapes.{range, packed, chosen};
ghost use Rattle.fantailclock.specs.Encoders.{inside, fitting, outside, state_of, encoder_started, answer_from};
ghost use Rattle.fantailclock.specs.Encoders.{updated_by, encoder_updated, encoder_update_memory, finalize_told, encoder_finalize_memory};

use crate::shapes::{Encoder, EncoderStarted, Packed, Range, Updated, number_of};
use alphabet::{AlphabetType, Refusal};
use packing::{Bad, SequenceEncoder, Stranger, byte_range_for_bases, encode_sequence};

// The first byte and the end of the bytes that hold the bases from `start` to `end`.
pub fn fc_byte_range_for_bases(start: u64, end: u64, bits: u64) -> Range
    ensures { result ≡ range (range_reply (range_at start end bits)) }
{
    Range::from(byte_range_for_bases(start as usize, end as usize, bits as usize))
}

// A text packed whole.
pub fn fc_encode_sequence(alphabet: u64, fold: u64, text: &[u8], out: &mut [u8]) -> Packed
    ensures value { result ≡ packed (encoded_reply (encode_at alphabet (chosen fold) text.now (length out.old))) }
    ensures memory { out.new ≡ encode_memory alphabet (chosen fold) text.now out.old }
{
    Packed::from(encode_sequence(alphabet, fold != 0, text, out))
}

// The numbers of a state.
impl From<SequenceEncoder> for Encoder {
    ghost from_gives = { λ state numbers. numbers ≡ outside state };

    #[tactic(auto, unfolding(crate::specs::Encoders::outside))]
    fn from(state: SequenceEncoder) -> Encoder {
        let (has_bad, bad_position, bad_byte) = match state.bad.first {
            None => (0, 0, 0),
            Some(first) => (1, first.position as u64, u64::from(first.byte)),
        };
        Encoder {
            alphabet: u64::from(state.alphabet),
            seen: state.seen as u64,
            pending_bits: u64::from(state.bits),
            pending: u64::from(state.pending),
            has_bad,
            bad_position,
            bad_byte,
            fold: u64::from(state.fold),
            bad_count: state.bad.count as u64,
        }
    }
}

impl Encoder {
    // The first non-member that the numbers name.
    #[tactic(auto, unfolding(crate::specs::Encoders::inside))]
    fn first(self) -> Option<Stranger>
        requires { fitting self ≡ true }
        ensures { result ≡ (inside self).bad.first }
    {
        if self.has_bad == 0 {
            return None;
        }
        Some(Stranger {
            position: self.bad_position as usize,
            byte: self.bad_byte as u8,
        })
    }

    // Whether `fold` is 0 or 1, `has_bad` is 0 or 1 and a first non-member is a byte.
    #[tactic(auto, unfolding(crate::specs::Encoders::fitting))]
    fn is_fitting(self) -> bool
        ensures { result ≡ fitting self }
    {
        self.fold <= 1 && (self.has_bad == 0 || (self.has_bad == 1 && self.bad_byte <= 255))
    }
}

// The state that a host's numbers stand for, where each fits its field: 8 for an alphabet's number that is none, 1 for a number that fits no field. Whether it is
// sound is asked by the call that gets it.
impl TryFrom<Encoder> for SequenceEncoder {
    type Error = Refusal;

    ghost try_from_gives = { λ numbers r. r ≡ state_of numbers };

    #[tactic(auto, unfolding(crate::specs::Encoders::state_of, crate::specs::Encoders::inside))]
    fn try_from(numbers: Encoder) -> Result<SequenceEncoder, Refusal> {
        let alphabet = AlphabetType::try_from(numbers.alphabet)?;
        if !numbers.is_fitting() || 255 < numbers.pending_bits || 255 < numbers.pending {
            return Err(Refusal::Unsound);
        }
        Ok(SequenceEncoder {
            alphabet,
            seen: numbers.seen as usize,
            bits: numbers.pending_bits as u8,
            pending: numbers.pending as u8,
            bad: Bad {
                first: numbers.first(),
                count: numbers.bad_count as usize,
            },
            fold: numbers.fold != 0,
        })
    }
}

// An encoder that has seen nothing; a refused start echoes its arguments as they came, so that the state is refused again.
#[tactic(auto, unfolding(crate::specs::Encoders::encoder_started))]
pub fn fc_encoder_new(alphabet: u64, fold: u64) -> EncoderStarted
    ensures { result ≡ encoder_started alphabet fold }
{
    match SequenceEncoder::new(alphabet, fold != 0) {
        Ok(fresh) => EncoderStarted {
            refusal: 0,
            next: Encoder::from(fresh),
        },
        Err(refusal) => EncoderStarted {
            refusal: number_of(refusal),
            next: Encoder {
                alphabet,
                seen: 0,
                pending_bits: 0,
                pending: 0,
                has_bad: 0,
                bad_position: 0,
                bad_byte: 0,
                fold,
                bad_count: 0,
            },
        },
    }
}

// What an encoder's answer to a piece tells the host that handed in these numbers; on a refusal it gets them back.
fn told(state: Encoder, answer: Result<packing::Updated, Refusal>) -> Updated
    ensures { result ≡ updated_by state answer }
{
    match answer {
        Ok(done) => Updated {
            refusal: 0,
            count: done.count as u64,
            next: Encoder::from(done.next),
        },
        Err(refusal) => Updated {
            refusal: number_of(refusal),
            count: 0,
            next: state,
        },
    }
}

fn ask(state: Encoder, piece: &[u8], room: u64) -> Result<packing::Updated, Refusal>
    ensures { result ≡ answer_from piece.now room (state_of state) }
{
    let encoder = SequenceEncoder::try_from(state)?;
    Ok(encoder.ask(piece, room as usize)?)
}

// What `fc_encoder_update` would answer with memory of `room` bytes; none is lent.
#[tactic(auto, unfolding(crate::specs::Encoders::encoder_updated))]
pub fn fc_encoder_ask(state: Encoder, piece: &[u8], room: u64) -> Updated
    ensures { result ≡ encoder_updated state piece.now room }
{
    told(state, ask(state, piece, room))
}

#[tactic(auto, unfolding(crate::specs::Encoders::encoder_update_memory))]
fn update(state: Encoder, piece: &[u8], out: &mut [u8]) -> Result<packing::Updated, Refusal>
    ensures value { result ≡ answer_from piece.now (length out.old) (state_of state) }
    ensures memory { out.new ≡ encoder_update_memory state piece.now out.old }
{
    let encoder = SequenceEncoder::try_from(state)?;
    Ok(encoder.update(piece, out)?)
}

// A piece packed behind what pends.
#[tactic(auto, unfolding(crate::specs::Encoders::encoder_updated))]
pub fn fc_encoder_update(state: Encoder, piece: &[u8], out: &mut [u8]) -> Updated
    ensures value { result ≡ encoder_updated state piece.now (length out.old) }
    ensures memory { out.new ≡ encoder_update_memory state piece.now out.old }
{
    told(state, update(state, piece, out))
}

#[tactic(auto, unfolding(crate::specs::Encoders::finalize_told, crate::specs::Encoders::encoder_finalize_memory))]
fn finalize(state: Encoder, out: &mut [u8]) -> Result<usize, Refusal>
    ensures value { count_reply result ≡ finalize_told state (length out.old) }
    ensures memory { out.new ≡ encoder_finalize_memory state out.old }
{
    let encoder = SequenceEncoder::try_from(state)?;
    Ok(encoder.finalize(out)?)
}

// The last byte, where bits pend.
pub fn fc_encoder_finalize(state: Encoder, out: &mut [u8]) -> Packed
    ensures value { result ≡ packed (finalize_told state (length out.old)) }
    ensures memory { out.new ≡ encoder_finalize_memory state out.old }
{
    Packed::from(finalize(state, out))
}
