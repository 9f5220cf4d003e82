// Why a line tells no call and its answer.
use arrayvec::CapacityError;

#[derive(Clone, Copy, Debug, PartialEq, Eq)]
pub enum LineError {
    NoCall,
    TooMany,
}

// More words or numbers than a line has.
impl<T: Drop> From<CapacityError<T>> for LineError {
    fn from(_: CapacityError<T>) -> LineError {
        LineError::TooMany
    }
}
