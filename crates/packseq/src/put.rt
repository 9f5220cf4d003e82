// The whole output, put into memory before any of it is written.
ghost use Rattle.std.specs.Prelude.{◌≡◌, ◌≤◌, length, IfOk};
ghost use Rattle.bits.specs.Memory.{front};
ghost use Rattle.lines.specs.Lines.{put_count, put_memory};
ghost use Rattle.packseq.specs.Printed.{most, answered, printed, output};

use alphabet::{AlphabetType, Refusal};
use std::io;

// The most bytes that are packed.
const LONGEST: usize = 16384;

// Puts the lines for what packing answered, having put the packed bytes at the front of `packed`.
#[tactic(auto, unfolding(crate::specs::Printed::answered))]
fn put_answer(
    kind: AlphabetType,
    count: u64,
    answer: Result<usize, Refusal>,
    packed: &[u8],
    out: &mut [u8],
) -> Option<usize>
    requires { IfOk answer (λ n. n ≤ length packed.now) }
    ensures value { result ≡ put_count (answered kind count answer packed.now) (length out.old) }
    ensures memory { out.new ≡ put_memory (answered kind count answer packed.now) out.old }
{
    let Ok(n) = answer else {
        return lines::refused_line(answer.unwrap_err(), out);
    };
    lines::packed_lines(kind, count, &packed[..n], out)
}

// Puts the whole output for a text at the front of `out`, and answers how long it is.
#[tactic(auto, using(crate::proofs::Output::printing), unfolding(bits::specs::Tables::bytes_of))]
fn put_printed(text: &[u8], out: &mut [u8]) -> usize
    requires { most ≤ length out.old }
    ensures value { result ≡ length (printed text.now) }
    ensures memory { out.new ≡ front (printed text.now) out.old }
{
    if LONGEST < text.len() {
        return lines::text_line(b"too long", out).unwrap();
    }
    // without folding: a text with lowercase letters is Ascii to this program
    let kind = alphabet::guess_alphabet(false, text);
    let mut packed = [0; LONGEST];
    let answer = coder::encode_sequence(u64::from(kind), false, text, &mut packed);
    // `as`: there is no `u64::from` of a usize
    put_answer(kind, text.len() as u64, answer, &packed, out).unwrap()
}

// The same for what was read into `buf`: a text that was not read to its end is not printed. The count and the buffer come apart, as `output` and its theorems
// have them.
#[tactic(auto, unfolding(crate::specs::Printed::output))]
pub fn put_output(read: io::Result<usize>, buf: &[u8], out: &mut [u8]) -> usize
    requires read_in_bounds { IfOk read (λ len. len ≤ length buf.now) }
    requires most_in_bounds { most ≤ length out.old }
    ensures value { result ≡ length (output read buf.now) }
    ensures memory { out.new ≡ front (output read buf.now) out.old }
{
    match read {
        Ok(len) => put_printed(&buf[..len], out),
        Err(_) => lines::text_line(b"cannot read", out).unwrap(),
    }
}
