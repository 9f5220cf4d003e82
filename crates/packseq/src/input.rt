// Reading the input into a buffer that has room for one byte more than is packed, so that a longer input shows.
ghost use Rattle.std.specs.Prelude.{◌≡◌, ◌+◌, ◌≤◌, length, take, IfOk, IfSome};
ghost use Rattle.packseq.specs.Input.{room, reading_after};

use std::io::{self, Read};

// How far reading has come: so many bytes, with more to be read; or all that there is, so many bytes.
#[derive(Clone, Copy)]
pub enum Reading {
    More(usize),
    Whole(usize),
}

// How far reading has come after a read into `rest`, what the buffer has behind its first `len` bytes, that answered `read`. It alone judges what a read answers.
#[tactic(auto, unfolding(crate::specs::Input::reading_after))]
fn after_read(len: usize, read: io::Result<usize>, rest: &[u8]) -> io::Result<Reading>
    requires { len + length rest.now ≡ room }
    ensures { result ≡ reading_after len read (length rest.now) }
{
    match read {
        Ok(0) => Ok(Reading::Whole(len)),
        Ok(more) if more < rest.len() => Ok(Reading::More(len + more)),
        Ok(_) => Ok(Reading::Whole(len + rest.len())),
        Err(failure) => Err(failure),
    }
}

// Reads until the input ends or the buffer is full, and answers how many bytes that is. A read that fails is no end: it is the answer.
pub fn read_input<R: Read>(reader: &mut R, buf: &mut [u8]) -> io::Result<usize>
    requires { length buf.old ≡ room }
    ensures within { IfOk result (λ len. len ≤ room) }
    ensures whole { IfOk result (λ len. IfSome (R.remaining reader.old) (λ text. take len buf.new ≡ take room text)) }
{
    // by hand: `read_to_end` reads into a Vec, whose memory can run out
    let mut len = 0;
    loop {
        let rest = &mut buf[len..];
        match after_read(len, reader.read(rest), rest)? {
            Reading::More(more) => len = more,
            Reading::Whole(whole) => return Ok(whole),
        }
    }
}
