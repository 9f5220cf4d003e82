// Runs rows of the worked table, and UCSC's published example, on the code itself; what it prints is held to the rules' table.
#![tactic(auto)]

mod shown;

use alphabet::AlphabetType::{Ascii, Dna2bit, Dna3bit, DnaIupac, Protein};
use alphabet::{AlphabetType, Refusal};
use anyhow::Result;
use coder::{SequenceEncoder, Streamed, StreamingDecoder, Updated};
use shown::{Foretold, Hex, Letters, Told};
use std::fmt::Display;

// Memory that calls write into holds this byte before, so that what they leave is seen.
const UNWRITTEN: u8 = 0xAA;

// The bytes that a call wrote at the front of memory.
fn front(memory: &[u8], count: usize) -> &[u8] {
    &memory[..count.min(memory.len())]
}

// What a call answered, behind its label.
fn tell<T: Display + Drop, E: Into<Refusal>>(
    rt: &impl Print,
    label: &str,
    answer: Result<T, E>,
) -> Result<()> {
    match answer {
        Ok(value) => println!(rt; "{label}: {value}")?,
        Err(refusal) => println!(rt; "{label}: {}", Told(refusal.into()))?,
    }
    Ok(())
}

// A text in one call, which takes the alphabet's number and the choice to fold.
fn pack(rt: &impl Print, label: &str, kind: AlphabetType, fold: bool, text: &str) -> Result<()> {
    let mut out = [UNWRITTEN; 9];
    let answer = coder::encode_sequence(u64::from(kind), fold, text.as_bytes(), &mut out);
    tell(rt, label, answer.map(|count| Hex(front(&out, count))))
}

fn finish(rt: &impl Print, encoder: SequenceEncoder) -> Result<()> {
    let mut out = [UNWRITTEN; 9];
    let answer = encoder.finalize(&mut out);
    tell(rt, "finalize", answer.map(|count| Hex(front(&out, count))))
}

// One piece, and the bytes that it completes behind its label.
fn update(
    rt: &impl Print,
    label: &str,
    encoder: SequenceEncoder,
    piece: &str,
) -> Result<SequenceEncoder> {
    let mut out = [UNWRITTEN; 9];
    let Updated { count, next } = encoder
        .update(piece.as_bytes(), &mut out)
        .map_err(Refusal::from)?;
    println!(rt; "update {label}: {}", Hex(front(&out, count)))?;
    Ok(next)
}

// A text by one `update`, then `finalize`.
fn pack_by_update(rt: &impl Print, kind: AlphabetType, text: &str) -> Result<()> {
    let encoder = SequenceEncoder::new(u64::from(kind), false)?;
    finish(rt, update(rt, text, encoder, text)?)
}

// Two pieces, then `finalize`: the choice to fold and the non-members so far stay in the state.
fn pack_pieces(rt: &impl Print, label: &str, fold: bool, one: &str, two: &str) -> Result<()> {
    let encoder = SequenceEncoder::new(u64::from(Dna2bit), fold)?;
    let middle = update(rt, label, encoder, one)?;
    finish(rt, update(rt, two, middle, two)?)
}

// What `update` would answer with `room` bytes of memory: how many it would write, and what the next state has seen and keeps.
fn ask(
    rt: &impl Print,
    label: &str,
    encoder: SequenceEncoder,
    piece: &str,
    room: usize,
) -> Result<()> {
    tell(rt, label, encoder.ask(piece.as_bytes(), room).map(Foretold))
}

// A scheduler asks before it lends memory: with none, with what is enough, with any number; then the piece is packed as it was asked about.
fn asking(rt: &impl Print) -> Result<()> {
    let encoder = SequenceEncoder::new(u64::from(Dna2bit), false)?;
    ask(rt, "ask ACGTA, room 0", encoder, "ACGTA", 0)?;
    ask(rt, "ask ACGTA, room 1", encoder, "ACGTA", 1)?;
    ask(rt, "ask ACGTA, room 2^64 - 1", encoder, "ACGTA", usize::MAX)?;
    ask(rt, "ask ACG, room 0", encoder, "ACG", 0)?;
    ask(rt, "ask ACNT, room 1", encoder, "ACNT", 1)?;
    pack_pieces(rt, "ACGTA", false, "ACGTA", "CGT")
}

fn guess(rt: &impl Print, label: &str, fold: bool, text: &str) -> Result<AlphabetType> {
    let kind = alphabet::guess_alphabet(fold, text.as_bytes());
    println!(rt; "guess {label}: {kind}")?;
    Ok(kind)
}

// By numbers, as the call takes them: either may name no alphabet.
fn later(rt: &impl Print, label: &str, one: u64, other: u64) -> Result<()> {
    tell(rt, label, alphabet::later_alphabet(one, other))
}

// Two chromosomes guessed one by one, and the guess of both joined.
fn genome(rt: &impl Print) -> Result<()> {
    let one = guess(rt, "ACGU", false, "ACGU")?;
    let other = guess(rt, "ACGT", false, "ACGT")?;
    later(rt, "the later", u64::from(one), u64::from(other))?;
    guess(rt, "ACGUACGT", false, "ACGUACGT")?;
    later(rt, "later of 4 and 5", 4, 5)?;
    later(rt, "later of 0 and 6", 0, 6)
}

// Lowercase letters, as they are and with folding.
fn folding(rt: &impl Print) -> Result<()> {
    guess(rt, "acgt", false, "acgt")?;
    guess(rt, "acgt, folding", true, "acgt")?;
    pack(rt, "Dna2bit acgt", Dna2bit, false, "acgt")?;
    pack(rt, "Dna2bit acgt, folding", Dna2bit, true, "acgt")?;
    pack(rt, "Dna2bit acnt, folding", Dna2bit, true, "acnt")?;
    pack(rt, "Ascii az, folding", Ascii, true, "az")?;
    pack_pieces(rt, "acgta, folding", true, "acgta", "cnt")
}

// Non-members, counted over the whole text and over all pieces.
fn counting(rt: &impl Print) -> Result<()> {
    pack(rt, "Dna2bit NACGTNN", Dna2bit, false, "NACGTNN")?;
    pack(rt, "Dna2bit ACnaN, folding", Dna2bit, true, "ACnaN")?;
    pack_pieces(rt, "ACNTN", false, "ACNTN", "NTT")
}

// What a read of bytes lent to it answers: the bases that it wrote, or its refusal.
fn read<D: FnOnce(&mut [u8]) -> Result<usize, Refusal> + Drop>(
    rt: &impl Print,
    label: &str,
    decode: D,
) -> Result<()>
    requires { D.IsAlwaysCallable decode }
{
    let mut out = [UNWRITTEN; 9];
    let answer = decode(&mut out);
    tell(rt, label, answer.map(|count| Letters(front(&out, count))))
}

fn windows(rt: &impl Print) -> Result<()> {
    let alphabet = u64::from(Dna2bit);
    let bytes = [0x80];
    read(rt, "80 at 1, Dna2bit, 2 to 5", |out| {
        coder::decode_substring_from_bytes_at_offset(alphabet, &bytes, 1, 2, 5, out)
    })?;
    read(rt, "covered", |out| {
        coder::decode_covered(alphabet, &bytes, 1, 2, 5, out)
    })?;
    read(rt, "end 2^60, no memory", |_| {
        coder::decode_string_from_bytes(alphabet, &bytes, 1 << 60, &mut [])
    })?;
    read(rt, "end 2^60 + 1", |_| {
        coder::decode_string_from_bytes(alphabet, &bytes, (1 << 60) + 1, &mut [])
    })
}

// Codes that Protein's list lacks: a zero-filling read shows X, the covered read tells the first of them.
fn residues(rt: &impl Print) -> Result<()> {
    let alphabet = u64::from(Protein);
    read(rt, "e8, Protein, 0 to 1", |out| {
        coder::decode_string_from_bytes(alphabet, &[0xE8], 1, out)
    })?;
    read(rt, "covered", |out| {
        coder::decode_covered(alphabet, &[0xE8], 0, 0, 1, out)
    })?;
    read(rt, "07 40, Protein, 0 to 2, covered", |out| {
        coder::decode_covered(alphabet, &[0x07, 0x40], 0, 0, 2, out)
    })?;
    read(rt, "0 to 1, covered", |out| {
        coder::decode_covered(alphabet, &[0x07, 0x40], 0, 0, 1, out)
    })?;
    read(rt, "a8, Protein, 0 to 1, covered", |out| {
        coder::decode_covered(alphabet, &[0xA8], 0, 0, 1, out)
    })
}

fn stream(rt: &impl Print) -> Result<()> {
    let stream = StreamingDecoder::new(u64::from(Dna3bit), 3, 0)?;
    let mut out = [UNWRITTEN; 4];
    let Streamed { status, next, .. } = stream.read(&[], &mut out).map_err(Refusal::from)?;
    println!(rt; "stream, skip 3, budget 0, no source: {status}")?;
    tell(rt, "end call", next.end().map(|()| "complete"))
}

fn rows(rt: &impl Print) -> Result<()> {
    pack(rt, "UCSC TCAG", Dna2bit, false, "TCAG")?;
    pack(rt, "Dna2bit ACGT", Dna2bit, false, "ACGT")?;
    pack(rt, "Dna3bit ACGTNRYU", Dna3bit, false, "ACGTNRYU")?;
    pack(rt, "DnaIupac NACM", DnaIupac, false, "NACM")?;
    pack(rt, "Protein MK*", Protein, false, "MK*")?;
    pack(rt, "Dna2bit ACNT", Dna2bit, false, "ACNT")?;
    pack_by_update(rt, Dna2bit, "ACNT")?;
    folding(rt)?;
    counting(rt)?;
    asking(rt)?;
    windows(rt)?;
    residues(rt)?;
    stream(rt)?;
    genome(rt)
}

// What cannot be printed is passed over: a run shows rows, and has no status of its own.
fn main(rt: HostRuntime) {
    let _ = rows(&rt);
}
