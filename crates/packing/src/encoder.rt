// A text packed piece by piece.
ghost use Rattle.std.specs.Prelude.{◌≡◌, true, ◌+◌, ◌-◌, ◌≤◌, ◌&&◌, nat_lt, nat_le, length, Result};
ghost use Rattle.alphabet.specs.Questions.{limit};
ghost use Rattle.alphabet.specs.Symbols.{coding_of};
ghost use Rattle.packing.specs.Encode.{packs_by, sound_bad, sound_encoder, start_encoder_at, bad_from_of, updated, update_at, update_memory, finalize_at, finalize_memory};
ghost use Rattle.packing.specs.Run.{Tabled, due_at};

use crate::bad::{Bad, bad_behind, bad_from, both_bad};
use crate::run::{left_over, pack};
use crate::table::{lay_digits, ones};
use crate::words::pad;
use alphabet::{AlphabetType, Refusal, Refused, TextAlphabet};
use bits::{LIMIT, power};
use members::first_stranger;

// The state between pieces: `seen` symbols so far, of which `bits` bits, of value `pending`, fill no byte yet; the non-members among them. Whether lowercase
// letters fold is chosen once, for the whole text.
#[derive(Clone, Copy, Debug, PartialEq, Eq, Hash)]
pub struct SequenceEncoder {
    pub alphabet: AlphabetType,
    pub seen: usize,
    pub bits: u8,
    pub pending: u8,
    pub bad: Bad,
    pub fold: bool,
}

// What comes of an accepted piece: how many bytes it completes, and the next state.
#[derive(Clone, Copy, Debug, PartialEq, Eq, Hash)]
pub struct Updated {
    pub count: usize,
    pub next: SequenceEncoder,
}

// Whether as many non-members as this stand from a position on, among the symbols seen: one or more.
fn is_counted(position: usize, count: usize, seen: usize) -> bool
    ensures { result ≡ (nat_lt position seen && (nat_lt 0 count && nat_le count (seen - position))) }
{
    position < seen && 0 < count && count <= seen - position
}

// Whether a first non-member is none of the alphabet and was seen; and whether there are as many as the symbols seen allow: none without a first one, and with it one or
// more, which stand from its position on. The byte is searched as a text by itself: the comparisons of all alphabets, written out here, would keep the compiler from
// laying the question into its callers, which takes a tenth of the time of a short piece.
fn is_sound_bad(alphabet: TextAlphabet, seen: usize, bad: Bad) -> bool
    ensures { result ≡ sound_bad (coding_of alphabet) seen bad }
{
    let Some(first) = bad.first else {
        return bad.count == 0;
    };
    match first_stranger(alphabet, &[first.byte]) {
        None => false,
        Some(_) => is_counted(first.position, bad.count, seen),
    }
}

impl SequenceEncoder {
    // An encoder that has seen nothing, for an alphabet by its number and the choice to fold. A kind would ask more of callers: `start_encoder_at` says that 8 refuses a number.
    pub fn new(alphabet: u64, fold: bool) -> Result<SequenceEncoder, Refusal>
        ensures { result ≡ start_encoder_at alphabet fold }
    {
        let alphabet = AlphabetType::try_from(alphabet)?;
        Ok(SequenceEncoder {
            alphabet,
            seen: 0,
            bits: 0,
            pending: 0,
            bad: Bad {
                first: None,
                count: 0,
            },
            fold,
        })
    }

    // Question 4, in full: the fields are public, and a host may hand in anything.
    fn is_sound(self) -> bool
        ensures { result ≡ sound_encoder self }
    {
        let kind = self.alphabet;
        let seen = self.seen;
        if LIMIT < seen {
            return false;
        }
        let bits = usize::from(self.bits);
        if bits != seen * kind.bits_per_symbol() % 8 {
            return false;
        }
        let pending = u64::from(self.pending);
        if power(bits) <= pending {
            return false;
        }
        let alphabet = TextAlphabet {
            kind,
            fold: self.fold,
        };
        is_sound_bad(alphabet, seen, self.bad)
    }

    // Questions 5 and 9 of a piece of `len` symbols, and memory of `room` bytes: how many it completes, or why it is refused.
    fn due(self, len: usize, room: usize) -> Result<usize, Refusal>
        requires { sound_encoder self ≡ true }
        ensures { result ≡ due_at self len room }
    {
        if LIMIT - self.seen < len {
            return Err(Refusal::TooFar);
        }
        let count = (usize::from(self.bits) + len * self.alphabet.bits_per_symbol()) / 8;
        if room < count {
            return Err(Refusal::ShortMemory);
        }
        Ok(count)
    }

    // The state after an accepted piece, whose non-members were found. A non-member counts as a symbol of b ones, and packing goes on; the first one's position and how
    // many there are, over all accepted pieces, are kept for `finalize`.
    fn next(self, table: &[u8; 256], piece: &[u8], found: Bad) -> SequenceEncoder
        requires tabled { Tabled (packs_by self) table.now }
        requires accepted { sound_encoder self ≡ true }
        requires bounded { self.seen + length piece.now ≤ limit }
        requires searched { found ≡ bad_from_of (packs_by self) self.seen piece.now }
        ensures { result ≡ updated self piece.now }
    {
        let b = self.alphabet.bits_per_symbol();
        let bits = usize::from(self.bits);
        SequenceEncoder {
            seen: self.seen + piece.len(),
            bits: ((bits + piece.len() * b) % 8) as u8,
            pending: left_over(table, b, bits, self.pending, piece),
            bad: both_bad(self.bad, found),
            ..self
        }
    }

    // What `update` would answer to a piece and memory of `room` bytes, next state and refusals included. No memory is lent, so `room` may be any number.
    pub fn ask(self, piece: &[u8], room: usize) -> Result<Updated, Refused<SequenceEncoder>>
        ensures { result ≡ update_at self piece.now room }
    {
        if !self.is_sound() {
            return Err(Refusal::Unsound.keeping(self));
        }
        let count = match self.due(piece.len(), room) {
            Ok(count) => count,
            Err(refusal) => return Err(refusal.keeping(self)),
        };
        let kind = self.alphabet;
        let alphabet = TextAlphabet {
            kind,
            fold: self.fold,
        };
        let mut entries = [ones(kind); 256];
        lay_digits(alphabet, &mut entries);
        let found = bad_from(alphabet, self.seen, piece);
        Ok(Updated {
            count,
            next: self.next(&entries, piece, found),
        })
    }

    // Packs a piece behind what pends, and writes the bytes that it completes at the front of `out`. It asks as `ask` does, by the same functions; the table comes before
    // the questions, where it costs a short piece less.
    pub fn update(self, piece: &[u8], out: &mut [u8]) -> Result<Updated, Refused<SequenceEncoder>>
        ensures value { result ≡ update_at self piece.now (length out.old) }
        ensures memory { out.new ≡ update_memory self piece.now out.old }
    {
        let kind = self.alphabet;
        let alphabet = TextAlphabet {
            kind,
            fold: self.fold,
        };
        let mut table = [ones(kind); 256];
        lay_digits(alphabet, &mut table);
        if !self.is_sound() {
            return Err(Refusal::Unsound.keeping(self));
        }
        let count = match self.due(piece.len(), out.len()) {
            Ok(count) => count,
            Err(refusal) => return Err(refusal.keeping(self)),
        };
        let passed = pack(alphabet, false, &table, self.seen, self.pending, piece, out);
        let found = bad_behind(alphabet, self.seen, piece, passed);
        let next = self.next(&table, piece, found);
        Ok(Updated { count, next })
    }

    // The answer to the end of the text and memory of `room` bytes; nothing is written.
    fn asked_last(self, room: usize) -> Result<usize, Refused<SequenceEncoder>>
        ensures { result ≡ finalize_at self room }
    {
        if !self.is_sound() {
            return Err(Refusal::Unsound.keeping(self));
        }
        if let Some(first) = self.bad.first {
            let refusal = Refusal::NonMember {
                position: first.position,
                byte: first.byte,
                count: self.bad.count,
            };
            return Err(refusal.keeping(self));
        }
        let last = (usize::from(self.bits) + 7) / 8;
        if room < last {
            return Err(Refusal::ShortMemory.keeping(self));
        }
        Ok(last)
    }

    // Writes the last byte, where bits pend, at the front of `out`; refused where a byte was no member.
    pub fn finalize(self, out: &mut [u8]) -> Result<usize, Refused<SequenceEncoder>>
        ensures value { result ≡ finalize_at self (length out.old) }
        ensures memory { out.new ≡ finalize_memory self out.old }
    {
        let count = self.asked_last(out.len())?;
        if count != 0 {
            out[0] = pad(self.pending, usize::from(self.bits));
        }
        Ok(count)
    }
}
