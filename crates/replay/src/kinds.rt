// Calls of the alphabet layer.
ghost use Rattle.std.specs.Prelude.{◌≡◌, OnOk, length};
ghost use Rattle.replay.specs.Takes.{takes_kinds};

use crate::error::LineError;
use crate::numbers::Numbers;
use crate::row::Row;
use fantailclock::{
    Guesser, fc_abi_version, fc_bits_per_symbol, fc_contains, fc_display_name, fc_guess_alphabet,
    fc_guesser_guess, fc_guesser_new, fc_guesser_update, fc_later_alphabet,
};

#[derive(Clone, Copy, Debug, PartialEq, Eq)]
pub enum Kinds {
    AbiVersion,
    BitsPerSymbol,
    Contains,
    DisplayName,
    GuesserNew,
    GuesserUpdate,
    GuesserGuess,
    GuessAlphabet,
    LaterAlphabet,
}

impl Kinds {
    // Puts what the function answers of the numbers given in the row, if it takes so many.
    pub fn answer(
        self,
        given: &[u64],
        text: &[u8],
        out: &mut [u8],
        row: &mut Numbers,
    ) -> Result<(), LineError>
        ensures { OnOk result (takes_kinds self ≡ length given.now) }
    {
        let answered = match (self, given) {
            (Kinds::AbiVersion, []) => fc_abi_version().row(row),
            (Kinds::BitsPerSymbol, &[alphabet]) => fc_bits_per_symbol(alphabet).row(row),
            (Kinds::Contains, &[alphabet, byte]) => fc_contains(alphabet, byte).row(row),
            (Kinds::DisplayName, &[alphabet]) => fc_display_name(alphabet, out).row(row),
            (Kinds::GuesserNew, &[fold]) => fc_guesser_new(fold).row(row),
            (Kinds::GuesserUpdate, &[mask, fold]) => {
                fc_guesser_update(guesser(mask, fold), text).row(row)
            }
            (Kinds::GuesserGuess, &[mask, fold]) => {
                fc_guesser_guess(guesser(mask, fold)).row(row)
            }
            (Kinds::GuessAlphabet, &[fold]) => fc_guess_alphabet(fold, text).row(row),
            (Kinds::LaterAlphabet, &[one, other]) => fc_later_alphabet(one, other).row(row),
            _ => return Err(LineError::NoCall),
        };
        Ok(answered?)
    }
}

fn guesser(mask: u64, fold: u64) -> Guesser {
    Guesser { mask, fold }
}
