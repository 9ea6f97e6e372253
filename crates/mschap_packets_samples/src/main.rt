// Writes and reads Challenge and Response packets: RFC 2759's own values, the limits of 01, and every field changed. It prints what is answered.
#![tactic(auto)]

ghost use Rattle.std.specs.Prelude.{◌<◌, ◌≤◌};

use mschap_packets::{Challenge, Kind, Response};
use std::io;
use std::io::{BufWriter, Write};

// RFC 2759, 9.2: the authenticator's challenge.
const AUTHENTICATOR: [u8; 16] = [
    0x5B, 0x5D, 0x7C, 0x7D, 0x7B, 0x3F, 0x2F, 0x3E, 0x3C, 0x2C, 0x60, 0x21, 0x32, 0x26, 0x26, 0x28,
];
// The peer's challenge.
const PEER: [u8; 16] = [
    0x21, 0x40, 0x23, 0x24, 0x25, 0x5E, 0x26, 0x2A, 0x28, 0x29, 0x5F, 0x2B, 0x3A, 0x33, 0x7C, 0x7E,
];
// The NT-Response.
const NT_RESPONSE: [u8; 24] = [
    0x82, 0x30, 0x9E, 0xCD, 0x8D, 0x70, 0x8B, 0x5E, 0xA0, 0x8F, 0xAA, 0x39, 0x81, 0xCD, 0x83, 0x54,
    0x42, 0x33, 0x11, 0x4A, 0x3D, 0x85, 0xD6, 0xDF,
];

// The lengths of names, at each limit.
const NAMES: [usize; 5] = [0, 1, 255, 256, 257];

// The lengths that a packet of 320 octets is made to name: none, about the least of each kind, its own, about the longest name, the slice's and beyond.
const LENGTHS: [u16; 18] = [
    0, 5, 20, 21, 22, 25, 53, 54, 55, 58, 277, 278, 310, 311, 319, 320, 321, 65535,
];

// Prints them to standard output, by blocks.
fn main(rt: HostRuntime) -> io::Result<()> {
    let mut writer = BufWriter::new(rt.alloc(), io::writer(&rt))?;
    print_all(&mut writer)?;
    writer.flush()
}

// All cases, in the order of tests/mschap_packets.c.
fn print_all<W: Write>(writer: &mut W) -> io::Result<()> {
    cases(writer, Kind::Challenge, 21)?;
    cases(writer, Kind::Response, 54)?;
    exchanged(writer)?;
    challenges(writer)?;
    responses(writer)
}

// The cases of one kind of packet, whose least length is given.
fn cases<W: Write>(writer: &mut W, kind: Kind, least: usize) -> io::Result<()>
    requires { (21 ≤ least) × (least ≤ 54) }
{
    names(writer, kind, least)?;
    slices(writer, kind)?;
    changed(writer, kind, 0x01)?;
    changed(writer, kind, 0x80)?;
    lengths(writer, kind)?;
    long_and_reserved(writer, kind)
}

// Names of every length at a limit.
fn names<W: Write>(writer: &mut W, kind: Kind, least: usize) -> io::Result<()>
    requires { (21 ≤ least) × (least ≤ 54) }
{
    for n in NAMES {
        rooms(writer, kind, least + n, n)?;
    }
    Ok(())
}

// Buffers with no room, with one octet too few, with just room and with more.
fn rooms<W: Write>(writer: &mut W, kind: Kind, length: usize, n: usize) -> io::Result<()>
    requires { (1 ≤ length) × (length ≤ 311) }
{
    for room in [0, length - 1, length, length + 3] {
        named(writer, kind, n, room)?;
    }
    Ok(())
}

// A packet with a name of n octets written into a buffer of as many octets as asked, and the buffer read.
fn named<W: Write>(writer: &mut W, kind: Kind, n: usize, room: usize) -> io::Result<()>
    requires { room ≤ 314 }
{
    let octets = counted();
    let mut out = [0xAAu8; 314];
    let lent = &mut out[..room];
    write(writer, kind, first(&octets, n), lent)?;
    read(writer, kind, lent)
}

// The first n octets, or all where there are fewer.
fn first(octets: &[u8], n: usize) -> &[u8] {
    &octets[..n.min(octets.len())]
}

// Octets to cut names and values from.
fn counted() -> [u8; 257] {
    let mut octets = [0u8; 257];
    for (i, octet) in octets.iter_mut().enumerate() {
        *octet = (i % 256) as u8;
    }
    octets
}

// RFC 2759's packet for its user, in a longer buffer.
fn sample<W: Write>(writer: &mut W, kind: Kind) -> io::Result<[u8; 320]> {
    let mut out = [0x55u8; 320];
    write(writer, kind, b"User", &mut out)?;
    Ok(out)
}

// The sample cut to every length up to 60.
fn slices<W: Write>(writer: &mut W, kind: Kind) -> io::Result<()> {
    let packet = sample(writer, kind)?;
    for n in 0..61 {
        read(writer, kind, first(&packet, n))?;
    }
    Ok(())
}

// The sample with bits of one octet turned, for each of the first 60.
fn changed<W: Write>(writer: &mut W, kind: Kind, bits: u8) -> io::Result<()> {
    let packet = sample(writer, kind)?;
    for i in 0..60 {
        read(writer, kind, &turned(packet, i, bits))?;
    }
    Ok(())
}

// A packet with bits of octet i turned.
fn turned(packet: [u8; 320], i: usize, bits: u8) -> [u8; 320]
    requires { i < 320 }
{
    let mut out = packet;
    out[i] ^= bits;
    out
}

// The sample with other lengths named.
fn lengths<W: Write>(writer: &mut W, kind: Kind) -> io::Result<()> {
    let packet = sample(writer, kind)?;
    for n in LENGTHS {
        read(writer, kind, &lengthened(packet, n))?;
    }
    Ok(())
}

// A packet with another length named.
fn lengthened(packet: [u8; 320], n: u16) -> [u8; 320] {
    let mut out = packet;
    out[2..4].copy_from_slice(&n.to_be_bytes());
    out
}

// A name that is too long and a reserved octet that is not zero: 1 comes before 3.
fn long_and_reserved<W: Write>(writer: &mut W, kind: Kind) -> io::Result<()> {
    let packet = lengthened(sample(writer, kind)?, 311);
    read(writer, kind, &turned(packet, 21, 1))
}

// Each kind read as the other.
fn exchanged<W: Write>(writer: &mut W) -> io::Result<()> {
    let challenge = sample(writer, Kind::Challenge)?;
    read(writer, Kind::Response, &challenge)?;
    let response = sample(writer, Kind::Response)?;
    read(writer, Kind::Challenge, &response)
}

// Challenges of other lengths; 3 comes before 2.
fn challenges<W: Write>(writer: &mut W) -> io::Result<()> {
    for n in [0, 15, 16, 17] {
        challenge_of(writer, n, &mut [0xAA; 30])?;
    }
    challenge_of(writer, 15, &mut [])
}

// A Challenge with the first n octets for its challenge.
fn challenge_of<W: Write>(writer: &mut W, n: usize, out: &mut [u8]) -> io::Result<()> {
    let octets = counted();
    let given = mschap_packets::write_challenge(255, first(&octets, n), b"User", out);
    report::numbered(writer, b"challenge of", n, answer::number_of(&given), out)
}

// Peer challenges and NT-Responses of other lengths; 3 comes before 2.
fn responses<W: Write>(writer: &mut W) -> io::Result<()> {
    for (n, m) in [(15, 24), (17, 24), (16, 23), (16, 25), (16, 24)] {
        response_of(writer, n, m, &mut [0xAA; 60])?;
    }
    response_of(writer, 0, 0, &mut [])
}

// A Response with the first n and m octets for its two fields.
fn response_of<W: Write>(writer: &mut W, n: usize, m: usize, out: &mut [u8]) -> io::Result<()> {
    let octets = counted();
    let peer = first(&octets, n);
    let response = first(&octets, m);
    let given = mschap_packets::write_response(0, peer, response, b"User", out);
    report::numbered(writer, b"response of", n, answer::number_of(&given), out)
}

// Writes RFC 2759's values with a name, and prints the number and the whole buffer.
fn write<W: Write>(writer: &mut W, kind: Kind, name: &[u8], out: &mut [u8]) -> io::Result<()> {
    match kind {
        Kind::Challenge => {
            let given = mschap_packets::write_challenge(7, &AUTHENTICATOR, name, out);
            report::numbered(
                writer,
                b"write challenge",
                name.len(),
                answer::number_of(&given),
                out,
            )
        }
        Kind::Response => {
            let given = mschap_packets::write_response(7, &PEER, &NT_RESPONSE, name, out);
            report::numbered(
                writer,
                b"write response",
                name.len(),
                answer::number_of(&given),
                out,
            )
        }
    }
}

// Prints the fields and the name that a packet has.
fn read<W: Write>(writer: &mut W, kind: Kind, packet: &[u8]) -> io::Result<()> {
    match kind {
        Kind::Challenge => read_challenge(writer, packet)?,
        Kind::Response => read_response(writer, packet)?,
    }
    let name = mschap_packets::name(kind, packet);
    report::numbered(writer, b"name of", name.len(), 0, name)
}

// The fields of a Challenge, zeros where it is refused: number, identifier, value.
fn read_challenge<W: Write>(writer: &mut W, packet: &[u8]) -> io::Result<()> {
    let given = mschap_packets::read_challenge(packet);
    let number = answer::number_of(&given);
    let fields = given.unwrap_or(Challenge {
        identifier: 0,
        value: [0; 16],
    });
    let identifier = usize::from(fields.identifier);
    report::numbered(writer, b"challenge", identifier, number, &fields.value)
}

// The fields of a Response, zeros where it is refused: number, identifier, peer challenge, NT-Response.
fn read_response<W: Write>(writer: &mut W, packet: &[u8]) -> io::Result<()> {
    let given = mschap_packets::read_response(packet);
    let number = answer::number_of(&given);
    let fields = given.unwrap_or(Response {
        identifier: 0,
        peer_challenge: [0; 16],
        nt_response: [0; 24],
    });
    let identifier = usize::from(fields.identifier);
    report::numbered(
        writer,
        b"peer challenge",
        identifier,
        number,
        &fields.peer_challenge,
    )?;
    report::numbered(
        writer,
        b"NT-Response",
        identifier,
        number,
        &fields.nt_response,
    )
}
