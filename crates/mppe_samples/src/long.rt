// Long packets, as backhaul units have them, sealed and opened one after the other.
use crate::shown::show_digest;
use crate::{Call, MESSAGE};
use mppe::{FRONT, Link, Outcome};
use std::io;
use std::io::Write;

// The octets of a buffer, more than any packet has.
const LENT: usize = 32100;

// Plain packets of an information field of 1,500 octets and beyond it, on both sides of 16,384 octets sealed, at the limit and beyond it.
pub fn all<W: Write>(writer: &mut W, first: Link) -> io::Result<()> {
    report::numbered(writer, b"cases from", 1498, 0, b"")?;
    let mut sender = first;
    let mut receiver = first;
    for length in [1498u16, 1499, 16379, 16380, 31998, 31999] {
        let n = usize::from(length);
        let mut wire = [0xEE; LENT];
        let sent = seal_filled(sender, n, &mut wire);
        show_digest(writer, b"long seal", n, sent, &wire)?;
        let mut out = [0xEE; LENT];
        let opened = Call::Open.within(receiver, &wire, FRONT + n, &mut out, LENT);
        show_digest(writer, b"long open", n, opened, &out)?;
        sender = sent.link;
        receiver = opened.link;
    }
    Ok(())
}

// Seals the message behind a protocol number, zeros, and a mark in the last octets.
fn seal_filled(link: Link, n: usize, out: &mut [u8]) -> Outcome {
    let mut plain = [0; LENT];
    octets::copy(MESSAGE, &mut plain);
    octets::copy_at(b"the end", n.saturating_sub(7), &mut plain);
    Call::Seal.within(link, &plain, n, out, LENT)
}
