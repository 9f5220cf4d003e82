// The bytes of a text that are no members of an alphabet: which is the first, and how many they are.
ghost use Rattle.std.specs.Prelude.{◌≡◌, ◌+◌, ◌<◌, ◌≤◌, length, MatchOption};
ghost use Rattle.alphabet.specs.Symbols.{coding_of};
ghost use Rattle.alphabet.specs.Questions.{limit};
ghost use Rattle.members.specs.Members.{members_ahead_of, Passed};
ghost use Rattle.packing.specs.Encode.{bad_from_of, both_bad_of};

use crate::stranger::Stranger;
use alphabet::TextAlphabet;
use members::{count_strangers, first_stranger};

// The first non-member, where there is one, and how many there are. Each is a field by itself, so that a host's numbers can be handed in as they are, and
// question 4 asks whether they go together.
#[derive(Clone, Copy, Debug, PartialEq, Eq, Hash)]
pub struct Bad {
    pub first: Option<Stranger>,
    pub count: usize,
}

// The place of a text's first non-member, where its first bytes, as many as were passed, are known to be members.
fn stranger_behind(alphabet: TextAlphabet, text: &[u8], passed: usize) -> Option<usize>
    requires { Passed (coding_of alphabet) text.now passed }
    ensures { MatchOption result (members_ahead_of (coding_of alphabet) text.now ≡ length text.now)
        (λ i. (i ≡ members_ahead_of (coding_of alphabet) text.now) × (i < length text.now)) }
{
    if text.len() <= passed {
        return None;
    }
    let next = first_stranger(alphabet, &text[passed..])?;
    Some(passed + next)
}

// The non-members of a text whose first byte has position `from`, and whose first bytes, as many as were passed, are known to be members. They are counted from the first
// one on, so that a text without one is searched once and no more.
pub fn bad_behind(alphabet: TextAlphabet, from: usize, text: &[u8], passed: usize) -> Bad
    requires bounded { from + length text.now ≤ limit }
    requires known { Passed (coding_of alphabet) text.now passed }
    ensures { result ≡ bad_from_of (coding_of alphabet) from text.now }
{
    match stranger_behind(alphabet, text, passed) {
        Some(i) => Bad {
            first: Some(Stranger {
                position: from + i,
                byte: text[i],
            }),
            count: count_strangers(alphabet, &text[i..]),
        },
        None => Bad {
            first: None,
            count: 0,
        },
    }
}

// The same of a text of which nothing is known.
pub fn bad_from(alphabet: TextAlphabet, from: usize, text: &[u8]) -> Bad
    requires { from + length text.now ≤ limit }
    ensures { result ≡ bad_from_of (coding_of alphabet) from text.now }
{
    bad_behind(alphabet, from, text, 0)
}

// The non-members of a text and of one behind it: a first one that is known stays, and counts add.
pub fn both_bad(before: Bad, later: Bad) -> Bad
    requires { before.count + later.count ≤ limit }
    ensures { result ≡ both_bad_of before later }
{
    Bad {
        first: before.first.or(later.first),
        count: before.count + later.count,
    }
}
