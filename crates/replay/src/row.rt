// What a call answers, as a row of numbers.
use crate::numbers::Numbers;
use arrayvec::CapacityError;
use fantailclock::{
    Count, Covered, Encoder, EncoderStarted, Ended, Guesser, Guessing, Number, Packed, Range,
    Stream, StreamStarted, Streamed, Updated,
};

pub trait Row {
    // Puts the numbers behind those of the row.
    fn row(self, row: &mut Numbers) -> Result<(), CapacityError>;
}

impl Row for u64 {
    fn row(self, row: &mut Numbers) -> Result<(), CapacityError> {
        row.try_extend_from_slice(&[self])
    }
}

impl Row for Number {
    fn row(self, row: &mut Numbers) -> Result<(), CapacityError> {
        row.try_extend_from_slice(&[self.refusal, self.value])
    }
}

impl Row for Count {
    fn row(self, row: &mut Numbers) -> Result<(), CapacityError> {
        row.try_extend_from_slice(&[self.refusal, self.count])
    }
}

impl Row for Covered {
    fn row(self, row: &mut Numbers) -> Result<(), CapacityError> {
        row.try_extend_from_slice(&[self.refusal, self.count, self.value])
    }
}

impl Row for Guesser {
    fn row(self, row: &mut Numbers) -> Result<(), CapacityError> {
        row.try_extend_from_slice(&[self.mask, self.fold])
    }
}

impl Row for Guessing {
    fn row(self, row: &mut Numbers) -> Result<(), CapacityError> {
        row.try_extend_from_slice(&[self.refusal, self.next.mask, self.next.fold])
    }
}

impl Row for Range {
    fn row(self, row: &mut Numbers) -> Result<(), CapacityError> {
        row.try_extend_from_slice(&[self.refusal, self.start, self.end])
    }
}

impl Row for Packed {
    fn row(self, row: &mut Numbers) -> Result<(), CapacityError> {
        row.try_extend_from_slice(&[
            self.refusal,
            self.count,
            self.position,
            self.byte,
            self.bad_count,
        ])
    }
}

impl Row for Encoder {
    fn row(self, row: &mut Numbers) -> Result<(), CapacityError> {
        row.try_extend_from_slice(&[
            self.alphabet,
            self.seen,
            self.pending_bits,
            self.pending,
            self.has_bad,
            self.bad_position,
            self.bad_byte,
            self.fold,
            self.bad_count,
        ])
    }
}

impl Row for EncoderStarted {
    fn row(self, row: &mut Numbers) -> Result<(), CapacityError> {
        row.try_extend_from_slice(&[self.refusal])?;
        self.next.row(row)
    }
}

impl Row for Updated {
    fn row(self, row: &mut Numbers) -> Result<(), CapacityError> {
        row.try_extend_from_slice(&[self.refusal, self.count])?;
        self.next.row(row)
    }
}

impl Row for Stream {
    fn row(self, row: &mut Numbers) -> Result<(), CapacityError> {
        row.try_extend_from_slice(&[
            self.alphabet,
            self.skip,
            self.budget,
            self.pending_bits,
            self.pending,
        ])
    }
}

impl Row for StreamStarted {
    fn row(self, row: &mut Numbers) -> Result<(), CapacityError> {
        row.try_extend_from_slice(&[self.refusal])?;
        self.next.row(row)
    }
}

impl Row for Streamed {
    fn row(self, row: &mut Numbers) -> Result<(), CapacityError> {
        row.try_extend_from_slice(&[self.refusal, self.taken, self.written, self.status])?;
        self.next.row(row)
    }
}

impl Row for Ended {
    fn row(self, row: &mut Numbers) -> Result<(), CapacityError> {
        row.try_extend_from_slice(&[self.refusal, self.outstanding])
    }
}
