ghost use Rattle.std.specs.Prelude.{◌≡◌};
ghost use Rattle.alphabet.specs.Guess.{fresh_guesser};
ghost use Rattle.fantailclock.specs.Shapes.{number, chosen};
ghost use Rattle.fantailclock.specs.Guesses.{outside, guesser_updated, guesser_told, guessed_told};

use fantailclock::{Guesser, Guessing, Number};

// A guesser that has seen nothing.
#[unsafe(no_mangle)]
pub extern "C" fn fc_guesser_new(fold: u64) -> Guesser
    ensures { result ≡ outside (fresh_guesser (chosen fold)) }
{
    fantailclock::fc_guesser_new(fold)
}

// The state after a text. A mask outside 16 to 31, 64 bits wide as it comes, is refused by 1, and so is a `fold` above 1. The choice that is handed back is the
// number that came: read from the next state it would be loaded together with the mask, which was stored by itself a moment before, and short texts would wait.
#[unsafe(no_mangle)]
pub extern "C" fn fc_guesser_update(state: Guesser, text: &[u8]) -> Guessing
    ensures { result ≡ guesser_updated state text.now }
{
    fantailclock::fc_guesser_update(state, text)
}

// The number of the alphabet guessed.
#[unsafe(no_mangle)]
pub extern "C" fn fc_guesser_guess(state: Guesser) -> Number
    ensures { result ≡ number (guesser_told state) }
{
    fantailclock::fc_guesser_guess(state)
}

// The number of the alphabet guessed for a whole text.
#[unsafe(no_mangle)]
pub extern "C" fn fc_guess_alphabet(fold: u64, text: &[u8]) -> Number
    ensures { result ≡ number (guessed_told fold text.now) }
{
    fantailclock::fc_guess_alphabet(fold, text)
}
