// How answers are printed.
use alphabet::Refusal;
use coder::Updated;
use std::fmt::{self, Display, Formatter, Write};

// Bytes in hexadecimal.
#[derive(Drop)]
pub struct Hex<'a>(pub &'a [u8]);

impl Display for Hex<'_> {
    fn fmt<W: Write>(&self, f: &mut Formatter<W>) -> fmt::Result {
        for byte in self.0 {
            write!(f, "{byte:02x}")?;
        }
        Ok(())
    }
}

// Bytes as letters.
#[derive(Drop)]
pub struct Letters<'a>(pub &'a [u8]);

impl Display for Letters<'_> {
    fn fmt<W: Write>(&self, f: &mut Formatter<W>) -> fmt::Result {
        for &byte in self.0 {
            f.write_char(char::from(byte))?;
        }
        Ok(())
    }
}

// A refusal's number, then its values.
#[derive(Drop)]
pub struct Told(pub Refusal);

impl Display for Told {
    fn fmt<W: Write>(&self, f: &mut Formatter<W>) -> fmt::Result {
        let refusal = self.0;
        write!(f, "{refusal}")?;
        match refusal {
            Refusal::NonMember {
                position,
                byte,
                count,
            } => write!(f, ", position {position}, byte {byte:02x}, count {count}"),
            Refusal::Outstanding(bases) => write!(f, ", {bases} outstanding"),
            Refusal::NoSymbol(base) => write!(f, ", base {base}"),
            _ => Ok(()),
        }
    }
}

// What `ask` answers: how many bytes would be written, and what the next state has seen and keeps.
#[derive(Drop)]
pub struct Foretold(pub Updated);

impl Display for Foretold {
    fn fmt<W: Write>(&self, f: &mut Formatter<W>) -> fmt::Result {
        let Updated { count, next } = self.0;
        write!(
            f,
            "{count} to be written, {} seen, {} bits pending, value {}, non-members {}",
            next.seen, next.bits, next.pending, next.bad.count
        )
    }
}
