// The guesser.
ghost use Rattle.std.specs.Prelude.{◌≡◌, Result};
ghost use Rattle.alphabet.specs.Guess.{fresh_guesser};
ghost use Rattle.alphabet.specs.Answers.{count_reply};
ghost use Rattle.fantailclock.specs.Shapes.{number, chosen};
ghost use Rattle.fantailclock.specs.Guesses.{outside, state_of, answer_from, guesser_updated, guesser_told, guessed_told};

use crate::shapes::{Guesser, Guessing, Number, number_of};
use alphabet::{AlphabetGuesser, Refusal, guess_alphabet};

// The numbers of a state.
impl From<AlphabetGuesser> for Guesser {
    ghost from_gives = { λ state numbers. numbers ≡ outside state };

    #[tactic(auto, unfolding(crate::specs::Guesses::outside))]
    fn from(state: AlphabetGuesser) -> Guesser {
        Guesser {
            mask: u64::from(state.acc),
            fold: u64::from(state.fold),
        }
    }
}

// The state that a host's numbers stand for, where each fits its field; else refused by 1. Whether it is sound is asked by the call that gets it.
impl TryFrom<Guesser> for AlphabetGuesser {
    type Error = Refusal;

    ghost try_from_gives = { λ numbers r. r ≡ state_of numbers };

    #[tactic(auto, unfolding(crate::specs::Guesses::state_of, crate::specs::Guesses::inside))]
    fn try_from(numbers: Guesser) -> Result<AlphabetGuesser, Refusal> {
        if 255 < numbers.mask || 1 < numbers.fold {
            return Err(Refusal::Unsound);
        }
        Ok(AlphabetGuesser {
            acc: numbers.mask as u8,
            fold: numbers.fold != 0,
        })
    }
}

// A guesser that has seen nothing.
pub fn fc_guesser_new(fold: u64) -> Guesser
    ensures { result ≡ outside (fresh_guesser (chosen fold)) }
{
    Guesser::from(AlphabetGuesser::new(fold != 0))
}

fn update(state: Guesser, text: &[u8]) -> Result<AlphabetGuesser, Refusal>
    ensures { result ≡ answer_from text.now (state_of state) }
{
    let guesser = AlphabetGuesser::try_from(state)?;
    Ok(guesser.update(text)?)
}

// The state after a text. A mask outside 16 to 31, 64 bits wide as it comes, is refused by 1, and so is a `fold` above 1. The choice that is handed back is the
// number that came: read from the next state it would be loaded together with the mask, which was stored by itself a moment before, and short texts would wait.
#[tactic(auto, unfolding(crate::specs::Guesses::guesser_updated, crate::specs::Guesses::outside))]
pub fn fc_guesser_update(state: Guesser, text: &[u8]) -> Guessing
    ensures { result ≡ guesser_updated state text.now }
{
    match update(state, text) {
        Ok(next) => Guessing {
            refusal: 0,
            next: Guesser {
                mask: u64::from(next.acc),
                fold: state.fold,
            },
        },
        Err(refusal) => Guessing {
            refusal: number_of(refusal),
            next: state,
        },
    }
}

#[tactic(auto, unfolding(crate::specs::Guesses::guesser_told))]
fn guess(state: Guesser) -> Result<u64, Refusal>
    ensures { count_reply result ≡ guesser_told state }
{
    let kind = AlphabetGuesser::try_from(state)?.guess()?;
    Ok(u64::from(kind))
}

// The number of the alphabet guessed.
pub fn fc_guesser_guess(state: Guesser) -> Number
    ensures { result ≡ number (guesser_told state) }
{
    Number::from(guess(state))
}

// The number of the alphabet guessed for a whole text.
#[tactic(auto, unfolding(crate::specs::Guesses::guessed_told))]
pub fn fc_guess_alphabet(fold: u64, text: &[u8]) -> Number
    ensures { result ≡ number (guessed_told fold text.now) }
{
    Number {
        refusal: 0,
        value: u64::from(guess_alphabet(fold != 0, text)),
    }
}
