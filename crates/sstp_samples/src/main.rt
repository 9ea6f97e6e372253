// Derives the base and binding keys of both ends from RFC 3079's 128-bit sample, tries the limits of 01, and prints what is answered.
#![tactic(auto)]

ghost use Rattle.std.specs.Prelude.{◌≤◌, length};

use answer::{Refusal, number_of};
use mppe_keys::{Direction, Role, Strength};
use std::io;
use std::io::{BufWriter, Write};

// RFC 3079, 3.5.3: the master key.
const MASTER: [u8; 16] = [
    0xFD, 0xEC, 0xE3, 0x71, 0x7A, 0x8C, 0x83, 0x8C, 0xB3, 0x88, 0xE5, 0x27, 0xAE, 0x3C, 0xDD, 0x31,
];

// Key material that no call takes: one octet beyond the limit.
const TOO_LONG: usize = 65536;

// Prints them to standard output, by blocks.
fn main(rt: HostRuntime) -> io::Result<()> {
    let mut writer = BufWriter::new(rt.alloc(), io::writer(&rt))?;
    print_all(&mut writer)?;
    writer.flush()
}

// All cases, in the order of tests/sstp.c.
fn print_all<W: Write>(writer: &mut W) -> io::Result<()> {
    end(writer, b"client", Role::Client)?;
    end(writer, b"server", Role::Server)?;
    for role in [Role::Client, Role::Server] {
        sizes(writer, role)?;
    }
    materials(writer)?;
    bound(writer, &[0u8; 32])
}

// One end's start keys, its base key and its binding key.
fn end<W: Write>(writer: &mut W, label: &[u8], role: Role) -> io::Result<()> {
    report::line(writer, label, 0, &MASTER)?;
    let send = start_key(writer, b"send start key", role, Direction::Send)?;
    let receive = start_key(writer, b"receive start key", role, Direction::Receive)?;
    let base = base_key(writer, role, &send, &receive)?;
    bound(writer, &base)
}

// Prints a start key, and hands back its octets.
fn start_key<W: Write>(
    writer: &mut W,
    label: &[u8],
    role: Role,
    direction: Direction,
) -> io::Result<[u8; 16]> {
    shown(
        writer,
        label,
        mppe_keys::start_key(Strength::Bits128, role, direction, &MASTER),
    )
}

// Prints a base key, and hands back its octets.
fn base_key<W: Write>(
    writer: &mut W,
    role: Role,
    send: &[u8],
    receive: &[u8],
) -> io::Result<[u8; 32]> {
    shown(writer, b"base key", sstp::base_key(role, send, receive))
}

// Prints a key, and hands back its octets: zeros where it is refused.
fn shown<W: Write, const N: usize>(
    writer: &mut W,
    label: &[u8],
    key: Result<[u8; N], Refusal>,
) -> io::Result<[u8; N]> {
    let number = number_of(&key);
    let octets = key.unwrap_or([0; N]);
    report::line(writer, label, number, &octets)?;
    Ok(octets)
}

// Start keys of right and wrong lengths.
fn sizes<W: Write>(writer: &mut W, role: Role) -> io::Result<()> {
    let sent = &[0x11; 17][..];
    let received = &[0x22; 17][..];
    base_key(writer, role, &sent[..16], &received[..16])?;
    base_key(writer, role, &sent[..15], &received[..16])?;
    base_key(writer, role, sent, &received[..16])?;
    base_key(writer, role, &sent[..16], &received[..15])?;
    base_key(writer, role, &sent[..16], received)?;
    base_key(writer, role, &sent[..8], &received[..8])?;
    base_key(writer, role, b"", b"")?;
    Ok(())
}

// Key material of 0 to 70 octets, the longest, and one octet more.
fn materials<W: Write>(writer: &mut W) -> io::Result<()> {
    let mut octets = [0u8; TOO_LONG];
    fill(&mut octets);
    for n in 0..=70 {
        bound(writer, &octets[..n])?;
    }
    longest(writer, &octets)
}

// All of them but the last, and all.
fn longest<W: Write>(writer: &mut W, octets: &[u8]) -> io::Result<()>
    requires { 1 ≤ length octets.now }
{
    bound(writer, &octets[..octets.len() - 1])?;
    bound(writer, octets)
}

// Octets that begin with no zero.
fn fill(octets: &mut [u8]) {
    for (i, octet) in octets.iter_mut().enumerate() {
        *octet = (i % 255 + 1) as u8;
    }
}

// Prints the binding key of key material.
fn bound<W: Write>(writer: &mut W, material: &[u8]) -> io::Result<()> {
    let key = sstp::binding_key(material);
    let number = number_of(&key);
    report::numbered(
        writer,
        b"binding key",
        material.len(),
        number,
        &key.unwrap_or([0; 32]),
    )
}
