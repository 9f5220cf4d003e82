// A whole text packed in one call.
ghost use Rattle.std.specs.Prelude.{◌≡◌, true, ◌*◌, ◌≤◌, length, Result};
ghost use Rattle.bits.specs.Packing.{bytes_for};
ghost use Rattle.bits.specs.Memory.{front};
ghost use Rattle.alphabet.specs.Questions.{limit};
ghost use Rattle.alphabet.specs.Symbols.{coding_of};
ghost use Rattle.packing.specs.Encode.{packing, encode_by, encode_at, encode_memory};
ghost use Rattle.packing.specs.Run.{Tabled, Clean};

use crate::run;
use crate::run::left_over;
use crate::table::{lay_digits, ones};
use crate::words::pad;
use alphabet::{AlphabetType, Refusal, TextAlphabet};
use bits::LIMIT;
use members::{count_strangers, first_stranger};

// The answer to a text and memory of `room` bytes: the questions in their order, and nothing written.
fn asked(alphabet: TextAlphabet, text: &[u8], room: usize) -> Result<usize, Refusal>
    ensures { result ≡ encode_by (coding_of alphabet) text.now room }
{
    let len = text.len();
    if LIMIT < len {
        return Err(Refusal::TooFar);
    }
    let count = (len * alphabet.kind.bits_per_symbol() + 7) / 8;
    if room < count {
        return Err(Refusal::ShortMemory);
    }
    match first_stranger(alphabet, text) {
        Some(i) => Err(Refusal::NonMember {
            position: i,
            byte: text[i],
            count: count_strangers(alphabet, &text[i..]),
        }),
        None => Ok(count),
    }
}

// Writes the packing of a text of members, its last byte included.
fn write_packing(alphabet: TextAlphabet, table: &[u8; 256], text: &[u8], out: &mut [u8])
    requires bounded { length text.now ≤ limit }
    requires fits { bytes_for (length text.now * (coding_of alphabet).width) ≤ length out.old }
    requires tabled { Tabled (coding_of alphabet) table.now }
    requires members { Clean true (coding_of alphabet) text.now }
    ensures { out.new ≡ front (packing (coding_of alphabet) text.now) out.old }
{
    run::pack(alphabet, true, table, 0, 0, text, out);
    let b = alphabet.kind.bits_per_symbol();
    let total = text.len() * b;
    if total % 8 != 0 {
        let last = left_over(table, b, 0, 0, text);
        out[total / 8] = pad(last, total % 8);
    }
}

// The packing of a text, whole, by the choice to fold. A non-member is found before the first byte is stored. The alphabet is a number, and the choice beside it, as in
// `new` of an encoder: 8 refuses a number by `encode_at`.
pub fn encode_sequence(
    alphabet: u64,
    fold: bool,
    text: &[u8],
    out: &mut [u8],
) -> Result<usize, Refusal>
    ensures value { result ≡ encode_at alphabet fold text.now (length out.old) }
    ensures memory { out.new ≡ encode_memory alphabet fold text.now out.old }
{
    let kind = AlphabetType::try_from(alphabet)?;
    let alphabet = TextAlphabet { kind, fold };
    let mut table = [ones(kind); 256];
    lay_digits(alphabet, &mut table);
    let count = asked(alphabet, text, out.len())?;
    write_packing(alphabet, &table, text, out);
    Ok(count)
}
