// Reads of windows.
ghost use Rattle.std.specs.Prelude.{◌≡◌, length};
ghost use Rattle.windows.specs.Window.{read_at, read_memory, covered_at, covered_memory};
ghost use Rattle.windows.specs.Answers.{read_reply};
ghost use Rattle.fantailclock.specs.Shapes.{count, covered};

use crate::shapes::{Count, Covered};
use windows::{
    decode_2bit, decode_3bit, decode_4bit, decode_5bit, decode_covered, decode_rolling,
    decode_string_from_bytes, decode_substring_from_bytes, decode_substring_from_bytes_at_offset,
};

// The bases from `start` to `end` of the file of which `bytes` are the bytes from `byte_offset` on; other bytes read as zero.
pub fn fc_decode_substring_from_bytes_at_offset(
    alphabet: u64,
    bytes: &[u8],
    byte_offset: usize,
    start: usize,
    end: usize,
    out: &mut [u8],
) -> Count
    ensures value { result ≡ count (read_reply (read_at alphabet byte_offset start end (length out.old))) }
    ensures memory { out.new ≡ read_memory alphabet bytes.now byte_offset start end out.old }
{
    Count::from(decode_substring_from_bytes_at_offset(
        alphabet,
        bytes,
        byte_offset,
        start,
        end,
        out,
    ))
}

// The same where the lent bytes are the file's first.
pub fn fc_decode_substring_from_bytes(
    alphabet: u64,
    bytes: &[u8],
    start: usize,
    end: usize,
    out: &mut [u8],
) -> Count
    ensures value { result ≡ count (read_reply (read_at alphabet 0 start end (length out.old))) }
    ensures memory { out.new ≡ read_memory alphabet bytes.now 0 start end out.old }
{
    Count::from(decode_substring_from_bytes(alphabet, bytes, start, end, out))
}

// The first `seq_len` bases.
pub fn fc_decode_string_from_bytes(
    alphabet: u64,
    bytes: &[u8],
    seq_len: usize,
    out: &mut [u8],
) -> Count
    ensures value { result ≡ count (read_reply (read_at alphabet 0 0 seq_len (length out.old))) }
    ensures memory { out.new ≡ read_memory alphabet bytes.now 0 0 seq_len out.old }
{
    Count::from(decode_string_from_bytes(alphabet, bytes, seq_len, out))
}

// The covered read: refused by 3 where a byte of the window's range is not lent, and by 18 with the first base whose code is no symbol's.
pub fn fc_decode_covered(
    alphabet: u64,
    bytes: &[u8],
    byte_offset: usize,
    start: usize,
    end: usize,
    out: &mut [u8],
) -> Covered
    ensures value { result ≡ covered (read_reply (covered_at alphabet bytes.now byte_offset start end (length out.old))) }
    ensures memory { out.new ≡ covered_memory alphabet bytes.now byte_offset start end out.old }
{
    Covered::from(decode_covered(alphabet, bytes, byte_offset, start, end, out))
}

// The rolling engine.
pub fn fc_decode_rolling(
    alphabet: u64,
    bytes: &[u8],
    byte_offset: usize,
    start: usize,
    end: usize,
    out: &mut [u8],
) -> Count
    ensures value { result ≡ count (read_reply (read_at alphabet byte_offset start end (length out.old))) }
    ensures memory { out.new ≡ read_memory alphabet bytes.now byte_offset start end out.old }
{
    Count::from(decode_rolling(alphabet, bytes, byte_offset, start, end, out))
}

// The engine of Dna2bit.
pub fn fc_decode_2bit(
    bytes: &[u8],
    byte_offset: usize,
    start: usize,
    end: usize,
    out: &mut [u8],
) -> Count
    ensures value { result ≡ count (read_reply (read_at 0 byte_offset start end (length out.old))) }
    ensures memory { out.new ≡ read_memory 0 bytes.now byte_offset start end out.old }
{
    Count::from(decode_2bit(bytes, byte_offset, start, end, out))
}

// The engine of Dna3bit.
pub fn fc_decode_3bit(
    bytes: &[u8],
    byte_offset: usize,
    start: usize,
    end: usize,
    out: &mut [u8],
) -> Count
    ensures value { result ≡ count (read_reply (read_at 1 byte_offset start end (length out.old))) }
    ensures memory { out.new ≡ read_memory 1 bytes.now byte_offset start end out.old }
{
    Count::from(decode_3bit(bytes, byte_offset, start, end, out))
}

// The engine of DnaIupac.
pub fn fc_decode_4bit(
    bytes: &[u8],
    byte_offset: usize,
    start: usize,
    end: usize,
    out: &mut [u8],
) -> Count
    ensures value { result ≡ count (read_reply (read_at 2 byte_offset start end (length out.old))) }
    ensures memory { out.new ≡ read_memory 2 bytes.now byte_offset start end out.old }
{
    Count::from(decode_4bit(bytes, byte_offset, start, end, out))
}

// The engine of Protein.
pub fn fc_decode_5bit(
    bytes: &[u8],
    byte_offset: usize,
    start: usize,
    end: usize,
    out: &mut [u8],
) -> Count
    ensures value { result ≡ count (read_reply (read_at 3 byte_offset start end (length out.old))) }
    ensures memory { out.new ≡ read_memory 3 bytes.now byte_offset start end out.old }
{
    Count::from(decode_5bit(bytes, byte_offset, start, end, out))
}
