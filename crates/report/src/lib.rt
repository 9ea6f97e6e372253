// What the sample programs print: a line for each call, with the number it answered and its octets in hex.
#![tactic(auto)]

use std::io::Write;
use std::{fmt, io};

// Octets that are printed in hex.
#[derive(Clone, Copy)]
struct Hex<'a>(&'a [u8]);

impl fmt::Display for Hex<'_> {
    fn fmt<W: fmt::Write>(&self, f: &mut fmt::Formatter<W>) -> fmt::Result {
        for octet in self.0 {
            write!(f, "{octet:02x}")?;
        }
        Ok(())
    }
}

// Writes one line: the label, the number answered, and the octets.
pub fn line<W: Write>(out: &mut W, label: &[u8], answer: u8, octets: &[u8]) -> io::Result<()> {
    out.write_all(label)?;
    writeln!(out, " {answer} {}", Hex(octets))
}

// The same with a number behind the label.
pub fn numbered<W: Write>(
    out: &mut W,
    label: &[u8],
    n: usize,
    answer: u8,
    octets: &[u8],
) -> io::Result<()> {
    out.write_all(label)?;
    writeln!(out, " {n} {answer} {}", Hex(octets))
}
