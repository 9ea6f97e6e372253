// Links in both modes, packets sealed and opened, Reset-Requests, and every set of rows that refuse them.
#![tactic(auto)]

use mppe::{Link, NewLink, Outcome};
use mppe_keys::{Mode, Strength, key_length};
use std::io;
use std::io::{BufWriter, Write};

mod cases;
mod long;
mod runs;
mod shown;

// The octets of a buffer, more than a packet of an information field of 1,500 octets has. Longer ones have buffers of their own.
const LENT: usize = 1600;
// A packet of the message of RFC 3079, 3.5, behind a protocol number.
const MESSAGE: &[u8; 14] = b"\x00\x21test message";
// The start key of RFC 3079, 3.5.3, of which 3.5.1 and 3.5.2 have eight octets, and one octet more.
const START: &[u8; 17] = b"\x8b\x7c\xdc\x14\x9b\x99\x3a\x1b\xa1\x18\xcb\x15\x3f\x56\xdc\xcb\x5a";

// What is called with a packet.
#[derive(Clone, Copy)]
enum Call {
    Seal,
    Open,
}

impl Call {
    // Calls with the first octets of a packet and of a buffer, as far as they go.
    fn within(
        self,
        link: Link,
        packet: &[u8],
        given: usize,
        out: &mut [u8],
        room: usize,
    ) -> Outcome {
        let packet = &packet[..given.min(packet.len())];
        let lent = room.min(out.len());
        let out = &mut out[..lent];
        match self {
            Call::Seal => link.seal(packet, out),
            Call::Open => link.open(packet, out),
        }
    }
}

// How a call differs from one with a whole packet and all the room: octets lent, room, and bits of the first octets turned over.
#[derive(Clone, Copy)]
struct Trial {
    given: usize,
    room: usize,
    mask: [u8; 6],
}

// Prints them to standard output, by blocks.
fn main(rt: HostRuntime) -> io::Result<()> {
    let mut writer = BufWriter::new(rt.alloc(), io::writer(&rt))?;
    print_all(&mut writer)?;
    writer.flush()
}

// All cases, in the order of tests/mppe.c.
fn print_all<W: Write>(writer: &mut W) -> io::Result<()> {
    for strength in [Strength::Bits40, Strength::Bits56, Strength::Bits128] {
        cases::all(writer, strength, Mode::Stateless)?;
        cases::all(writer, strength, Mode::Stateful)?;
        cases::first_packet(writer, fresh(strength, Mode::Stateful))?;
        cases::waiting_rows(writer, strength)?;
        runs::all(writer, fresh(strength, Mode::Stateful))?;
        long::all(writer, fresh(strength, Mode::Stateless))?;
        long::all(writer, fresh(strength, Mode::Stateful))?;
    }
    Ok(())
}

// A new link of the samples' start key.
fn fresh(strength: Strength, mode: Mode) -> Link {
    new_link(strength, mode, key_length(strength)).link
}

// A new link of the first n octets of the start key, as far as they go.
fn new_link(strength: Strength, mode: Mode, n: usize) -> NewLink {
    Link::new(strength, mode, &START[..n.min(START.len())])
}

// A link with another count.
fn counted(link: Link, count: u16) -> Link {
    Link { count, ..link }
}

// Packets of the message sealed one after the other: the last of them, and the sender's record after it.
#[derive(Clone, Copy)]
struct Sent {
    wire: [u8; 18],
    link: Link,
}

// Seals so many of them.
fn last_packet(link: Link, packets: usize) -> Sent {
    let mut sender = link;
    let mut wire = [0xEE; 18];
    for _ in 0..packets {
        sender = sender.seal(MESSAGE, &mut wire).link;
    }
    Sent { wire, link: sender }
}

// Octets with bits of the first six turned over.
fn struck(octets: [u8; LENT], mask: [u8; 6]) -> [u8; LENT] {
    let mut out = octets;
    for (octet, bits) in out.iter_mut().zip(mask) {
        *octet ^= bits;
    }
    out
}
