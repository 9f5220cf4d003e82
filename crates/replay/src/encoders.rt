// Calls of the packing layer.
ghost use Rattle.std.specs.Prelude.{◌≡◌, IfOk, OnOk, length};
ghost use Rattle.replay.specs.Takes.{takes_encoders};

use crate::error::LineError;
use crate::numbers::Numbers;
use crate::row::Row;
use fantailclock::{
    Encoder, fc_byte_range_for_bases, fc_encode_sequence, fc_encoder_ask, fc_encoder_finalize,
    fc_encoder_new, fc_encoder_update,
};

#[derive(Clone, Copy, Debug, PartialEq, Eq)]
pub enum Encoders {
    New,
    Update,
    Finalize,
    EncodeSequence,
    ByteRangeForBases,
    Ask,
}

// The state that nine numbers make.
fn encoder(given: &[u64]) -> Result<Encoder, LineError>
    ensures { IfOk result (λ _. length given.now ≡ 9) }
{
    let [
        alphabet,
        seen,
        pending_bits,
        pending,
        has_bad,
        bad_position,
        bad_byte,
        fold,
        bad_count,
    ] = *given
    else {
        return Err(LineError::NoCall);
    };
    Ok(Encoder {
        alphabet,
        seen,
        pending_bits,
        pending,
        has_bad,
        bad_position,
        bad_byte,
        fold,
        bad_count,
    })
}

impl Encoders {
    // Puts what the function answers of the numbers given in the row, if it takes so many.
    pub fn answer(
        self,
        given: &[u64],
        text: &[u8],
        out: &mut [u8],
        row: &mut Numbers,
    ) -> Result<(), LineError>
        ensures { OnOk result (takes_encoders self ≡ length given.now) }
    {
        let answered = match (self, given) {
            (Encoders::New, &[alphabet, fold]) => fc_encoder_new(alphabet, fold).row(row),
            (Encoders::Update, state) => fc_encoder_update(encoder(state)?, text, out).row(row),
            (Encoders::Finalize, state) => fc_encoder_finalize(encoder(state)?, out).row(row),
            (Encoders::EncodeSequence, &[alphabet, fold]) => {
                fc_encode_sequence(alphabet, fold, text, out).row(row)
            }
            (Encoders::ByteRangeForBases, &[start, end, bits]) => {
                fc_byte_range_for_bases(start, end, bits).row(row)
            }
            (Encoders::Ask, [state @ .., room]) => {
                fc_encoder_ask(encoder(state)?, text, *room).row(row)
            }
            _ => return Err(LineError::NoCall),
        };
        Ok(answered?)
    }
}
