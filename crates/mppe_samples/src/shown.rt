// What is printed: of a call its number, its octets or the front of their digest, its key changes and the record after it.
use crate::Call;
use mppe::{Link, Outcome};
use mppe_keys::{Mode, Strength};
use std::io;
use std::io::Write;

// Prints the bits of a strength, and a mode.
pub fn headed<W: Write>(writer: &mut W, strength: Strength, mode: Mode) -> io::Result<()> {
    let bits = mppe_record::bits_of(strength);
    let name = match mode {
        Mode::Stateless => "stateless",
        Mode::Stateful => "stateful",
    };
    writeln!(writer, "{bits} bits, {name}")
}

// Prints a record whole.
pub fn show_whole<W: Write>(
    writer: &mut W,
    label: &[u8],
    n: usize,
    answer: u8,
    link: Link,
) -> io::Result<()> {
    report::numbered(writer, label, n, answer, &record_shown(link))
}

// A record's octets as far as its cells, and the front of the digest of them all.
fn record_shown(link: Link) -> [u8; 47] {
    let octets = mppe_record::record_octets(link);
    // Not copy_from_slice: tried, the length of a part of the octets was not proved.
    let mut shown = [0; 47];
    octets::copy(&octets, &mut shown);
    octets::copy_at(&digest_front(&octets), 39, &mut shown);
    shown
}

// The first octets of a digest.
fn digest_front(octets: &[u8]) -> [u8; 8] {
    let digest = sha_1::sha1(octets).unwrap_or([0; 20]);
    let mut front = [0; 8];
    front.copy_from_slice(&digest[..8]);
    front
}

// Prints what a call gave, with the front of the buffer's digest.
pub fn show_digest<W: Write>(
    writer: &mut W,
    label: &[u8],
    n: usize,
    made: Outcome,
    out: &[u8],
) -> io::Result<()> {
    show(writer, label, n, made, &digest_front(out))
}

// Prints what a call gave: octets, and the record from its count on.
pub fn show<W: Write>(
    writer: &mut W,
    label: &[u8],
    n: usize,
    made: Outcome,
    out: &[u8],
) -> io::Result<()> {
    report::numbered(writer, label, n, made.answer, out)?;
    report::numbered(
        writer,
        b"link",
        usize::from(made.changes),
        made.answer,
        &record_shown(made.link)[33..],
    )
}

// Opens a packet of the message, and prints what it gave.
pub fn show_opened<W: Write>(
    writer: &mut W,
    label: &[u8],
    n: usize,
    link: Link,
    packet: &[u8],
    room: usize,
) -> io::Result<Link> {
    let mut out = [0xEE; 14];
    let made = Call::Open.within(link, packet, packet.len(), &mut out, room);
    show(writer, label, n, made, &out)?;
    Ok(made.link)
}

// Takes a Reset-Request, and prints what it gave.
pub fn show_reset<W: Write>(
    writer: &mut W,
    n: usize,
    link: Link,
    request: &[u8],
) -> io::Result<Link> {
    let made = link.reset(request);
    show(writer, b"reset", n, made, request)?;
    Ok(made.link)
}
