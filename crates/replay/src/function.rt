// The functions that a line may name.
ghost use Rattle.std.specs.Prelude.{◌≡◌, OnOk, length};
ghost use Rattle.replay.specs.Takes.{takes};

use crate::encoders::Encoders;
use crate::error::LineError;
use crate::kinds::Kinds;
use crate::numbers::Numbers;
use crate::reads::Reads;
use crate::streams::Streams;

#[derive(Clone, Copy, Debug, PartialEq, Eq)]
pub enum Function {
    OfKinds(Kinds),
    OfEncoders(Encoders),
    OfReads(Reads),
    OfStreams(Streams),
}

// Their names. A table, since a match on 27 texts takes minutes to prove.
const NAMES: [(&str, Function); 27] = [
    ("abi_version", Function::OfKinds(Kinds::AbiVersion)),
    ("bits_per_symbol", Function::OfKinds(Kinds::BitsPerSymbol)),
    ("contains", Function::OfKinds(Kinds::Contains)),
    ("display_name", Function::OfKinds(Kinds::DisplayName)),
    ("guesser_new", Function::OfKinds(Kinds::GuesserNew)),
    ("guesser_update", Function::OfKinds(Kinds::GuesserUpdate)),
    ("guesser_guess", Function::OfKinds(Kinds::GuesserGuess)),
    ("guess_alphabet", Function::OfKinds(Kinds::GuessAlphabet)),
    ("later_alphabet", Function::OfKinds(Kinds::LaterAlphabet)),
    ("encoder_new", Function::OfEncoders(Encoders::New)),
    ("encoder_update", Function::OfEncoders(Encoders::Update)),
    ("encoder_finalize", Function::OfEncoders(Encoders::Finalize)),
    (
        "encode_sequence",
        Function::OfEncoders(Encoders::EncodeSequence),
    ),
    (
        "byte_range_for_bases",
        Function::OfEncoders(Encoders::ByteRangeForBases),
    ),
    ("encoder_ask", Function::OfEncoders(Encoders::Ask)),
    (
        "decode_substring_from_bytes_at_offset",
        Function::OfReads(Reads::SubstringAtOffset),
    ),
    (
        "decode_substring_from_bytes",
        Function::OfReads(Reads::Substring),
    ),
    ("decode_string_from_bytes", Function::OfReads(Reads::String)),
    ("decode_covered", Function::OfReads(Reads::Covered)),
    ("decode_rolling", Function::OfReads(Reads::Rolling)),
    ("decode_2bit", Function::OfReads(Reads::TwoBit)),
    ("decode_3bit", Function::OfReads(Reads::ThreeBit)),
    ("decode_4bit", Function::OfReads(Reads::FourBit)),
    ("decode_5bit", Function::OfReads(Reads::FiveBit)),
    ("stream_new", Function::OfStreams(Streams::New)),
    ("stream_read", Function::OfStreams(Streams::Read)),
    ("stream_end", Function::OfStreams(Streams::End)),
];

impl TryFrom<&[u8]> for Function {
    type Error = LineError;

    fn try_from(name: &[u8]) -> Result<Function, LineError> {
        NAMES
            .iter()
            .find(|(known, _)| known.as_bytes() == name)
            .map(|(_, function)| *function)
            .ok_or(LineError::NoCall)
    }
}

impl Function {
    // Puts the numbers that the function answers in the row, if it takes as many as are given. What is lent comes by itself: a struct with a `&mut` in it that is
    // passed on gets no proof.
    pub fn answer(
        self,
        given: &[u64],
        text: &[u8],
        out: &mut [u8],
        row: &mut Numbers,
    ) -> Result<(), LineError>
        ensures { OnOk result (takes self ≡ length given.now) }
    {
        match self {
            Function::OfKinds(function) => function.answer(given, text, out, row),
            Function::OfEncoders(function) => function.answer(given, text, out, row),
            Function::OfReads(function) => function.answer(given, text, out, row),
            Function::OfStreams(function) => function.answer(given, text, out, row),
        }
    }
}
