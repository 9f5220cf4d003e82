// The lines. Memory for every part is taken before any is filled, so that nothing is written where all of them do not fit.
ghost use Rattle.std.specs.Prelude.{◌≡◌, ◌+◌, ◌*◌, length};
ghost use Rattle.lines.specs.Digits.{decimal as Digits·decimal, hex};
ghost use Rattle.lines.specs.Lines.{line, packed_lines_of, refused_line_of, put_count, put_memory};

use alphabet::{AlphabetType, Refusal};

// The most digits that a number has.
const MOST_DIGITS: usize = 20;

// A number's decimal digits, in memory that has room for those of every number.
#[tactic(auto, using(crate::proofs::Spelling::numerals))]
fn decimal(number: u64, memory: &mut [u8; MOST_DIGITS]) -> &[u8]
    ensures { result.now ≡ Digits·decimal number }
{
    let start = itoa::write_digits(number, memory, MOST_DIGITS);
    &memory[start..]
}

// Fills memory with bytes in hexadecimal.
fn fill_hex(bytes: &[u8], out: &mut [u8])
    requires { length out.old ≡ 2 * length bytes.now }
    ensures { out.new ≡ hex bytes.now }
{
    // it fails only where memory has another length
    hex::encode_to_slice(bytes, out).unwrap();
}

// Fills memory with a text as a line.
#[tactic(auto, unfolding(crate::specs::Lines::line))]
fn fill_line(text: &[u8], out: &mut [u8])
    requires { length out.old ≡ length text.now + 1 }
    ensures { out.new ≡ line text.now }
{
    let (front, end) = out.split_at_mut(text.len());
    front.copy_from_slice(text);
    end[0] = b'\n';
}

// Fills memory with bytes in hexadecimal as a line.
#[tactic(auto, unfolding(crate::specs::Lines::line))]
fn fill_hex_line(bytes: &[u8], out: &mut [u8])
    requires { length out.old ≡ 2 * length bytes.now + 1 }
    ensures { out.new ≡ line (hex bytes.now) }
{
    let (front, end) = out.split_at_mut(2 * bytes.len());
    fill_hex(bytes, front);
    end[0] = b'\n';
}

// A text as a line.
#[tactic(auto, using(crate::proofs::Parts::line_length), unfolding(crate::specs::Lines::put_count, crate::specs::Lines::put_memory))]
pub fn text_line(text: &[u8], out: &mut [u8]) -> Option<usize>
    ensures value { result ≡ put_count (line text.now) (length out.old) }
    ensures memory { out.new ≡ put_memory (line text.now) out.old }
{
    let (whole, _) = out.split_at_mut_checked(text.len() + 1)?;
    fill_line(text, whole);
    Some(whole.len())
}

// A refusal: `refused` and its number.
#[tactic(auto, using(crate::proofs::Made::refused_put))]
pub fn refused_line(refusal: Refusal, out: &mut [u8]) -> Option<usize>
    ensures value { result ≡ put_count (refused_line_of refusal) (length out.old) }
    ensures memory { out.new ≡ put_memory (refused_line_of refusal) out.old }
{
    let word = b"refused ";
    let mut memory = [0; MOST_DIGITS];
    let number = decimal(u64::from(refusal.number()), &mut memory);
    let (first, rest) = out.split_at_mut_checked(word.len())?;
    let (second, _) = rest.split_at_mut_checked(number.len() + 1)?;
    first.copy_from_slice(word);
    fill_line(number, second);
    Some(first.len() + second.len())
}

// A packing: the display name, the count in decimal and the packed bytes in hexadecimal, a line each.
#[tactic(auto, using(crate::proofs::Made::packed_put))]
pub fn packed_lines(kind: AlphabetType, count: u64, packed: &[u8], out: &mut [u8]) -> Option<usize>
    ensures value { result ≡ put_count (packed_lines_of kind count packed.now) (length out.old) }
    ensures memory { out.new ≡ put_memory (packed_lines_of kind count packed.now) out.old }
{
    let name = kind.display_name().as_bytes();
    let mut memory = [0; MOST_DIGITS];
    let digits = decimal(count, &mut memory);
    let (first, rest) = out.split_at_mut_checked(name.len() + 1)?;
    let (second, rest) = rest.split_at_mut_checked(digits.len() + 1)?;
    let (third, _) = rest.split_at_mut_checked(2 * packed.len() + 1)?;
    fill_line(name, first);
    fill_line(digits, second);
    fill_hex_line(packed, third);
    Some(first.len() + second.len() + third.len())
}
