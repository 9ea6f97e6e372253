// The fixed cases: new links, records read, RFC 3079's message, distances, and every way to be refused.
ghost use Rattle.std.specs.Prelude.{◌<◌};

use crate::shown::{headed, show, show_digest, show_opened, show_reset, show_whole};
use crate::{Call, LENT, MESSAGE, Trial, counted, fresh, last_packet, new_link, struck};
use answer::number_of;
use mppe::{FRONT, Link};
use mppe_keys::{Mode, Strength};
use mppe_record::{no_record, read_record, record_octets};
use std::io;
use std::io::Write;

// Where a record's mode stands, and its mark; RC4's indices are behind it.
const MODE_AT: usize = 35;

const MARK_AT: usize = 36;
// Octets for a mode or a mark.
const MARKS: [u8; 4] = [0, 1, 2, 0xFF];
// Protocol numbers inside and outside the limits, and the message's own first octets.
const PROTOCOLS: [[u8; 2]; 11] = [
    [0x00, 0x00],
    [0x00, 0x20],
    [0x00, 0x21],
    [0x00, 0xFA],
    [0x00, 0xFB],
    [0x00, 0xFF],
    [0x01, 0x00],
    [0x01, 0x21],
    [0x21, 0x00],
    [0xFF, 0x21],
    [0x74, 0x65],
];

// What a case of a number is about.
#[derive(Clone, Copy)]
enum Kind {
    NewLink,
    Octets,
    Bits,
    Marks,
    Rows,
    Record,
    Room,
    Length,
    Flags,
    Protocol,
    Reset,
}

// Every fixed case at one strength and in one mode: links made and records read; what a new link opens; and every way to be refused, from a
// link whose next packet has count 0.
pub fn all<W: Write>(writer: &mut W, strength: Strength, mode: Mode) -> io::Result<()> {
    headed(writer, strength, mode)?;
    let link = steady(strength, mode);
    each(writer, link, Kind::NewLink, 0, 18)?;
    each(writer, link, Kind::Octets, 35, 36)?;
    each(writer, link, Kind::Octets, 293, 298)?;
    each(writer, link, Kind::Bits, 38, 59)?;
    each(writer, link, Kind::Bits, 126, 131)?;
    each(writer, link, Kind::Marks, 0, 16)?;
    let first = fresh(strength, mode);
    show_sample(writer, first)?;
    distances(writer, first)?;
    arrivals(writer, first)?;
    each(writer, link, Kind::Rows, 0, 96)?;
    each(writer, link, Kind::Record, 0, 42)?;
    each(writer, link, Kind::Room, 4, 25)?;
    each(writer, link, Kind::Length, 4, 13)?;
    each(writer, link, Kind::Length, 1500, 1506)?;
    each(writer, link, Kind::Flags, 0, 16)?;
    each(writer, link, Kind::Protocol, 0, 11)?;
    each(writer, link, Kind::Reset, 0, 22)
}

// A stateful link's first packet, under the initial session key: behind the protocol number it is the sample's message.
pub fn first_packet<W: Write>(writer: &mut W, link: Link) -> io::Result<()> {
    let mut wire = [0; 16];
    let made = link.seal(b"\x00\x21st message", &mut wire);
    show(writer, b"first packet", 0, made, &wire)
}

// The sets of rows in which a stateful link is waiting.
pub fn waiting_rows<W: Write>(writer: &mut W, strength: Strength) -> io::Result<()> {
    let link = steady(strength, Mode::Stateful);
    each(writer, link, Kind::Rows, 128, 224)
}

// The link of most cases, whose next packet has count 0: a new one, or a stateful one that has sealed a packet and is not waiting.
fn steady(strength: Strength, mode: Mode) -> Link {
    let first = fresh(strength, mode);
    match mode {
        Mode::Stateless => first,
        Mode::Stateful => counted(last_packet(first, 1).link, 4095),
    }
}

// The cases of a kind in a range of numbers.
fn each<W: Write>(
    writer: &mut W,
    link: Link,
    kind: Kind,
    from: usize,
    to: usize,
) -> io::Result<()> {
    report::numbered(writer, b"cases from", from, 0, b"")?;
    for n in from..to {
        case(writer, link, kind, n)?;
    }
    Ok(())
}

// One case with a link. A length is that of the sealed packet, and a room that for it.
fn case<W: Write>(writer: &mut W, link: Link, kind: Kind, n: usize) -> io::Result<()> {
    match kind {
        Kind::NewLink => {
            let made = new_link(link.strength, link.mode, n);
            show_whole(writer, b"link", n, made.answer, made.link)
        }
        Kind::Octets => show_read(writer, n, record_octets(link), n),
        Kind::Bits => {
            let mut octets = record_octets(link);
            octets[0] = (n % 256) as u8;
            show_read(writer, n, octets, octets.len())
        }
        Kind::Marks => {
            let mut octets = record_octets(link);
            octets[MODE_AT] = MARKS[n / 4 % 4];
            octets[MARK_AT] = MARKS[n % 4];
            show_read(writer, n, octets, octets.len())
        }
        Kind::Record => {
            let other = altered(link, n);
            both(writer, n, link, other, whole([0; 6]))?;
            show_reset(writer, n, other, b"\x0e\x07\x00\x04")?;
            Ok(())
        }
        Kind::Reset => show_request(writer, n, counted_if(11 <= n, link)),
        Kind::Rows => {
            let waiting = if 128 <= n {
                turned(link, MARK_AT)
            } else {
                link
            };
            let other = counted_if(n % 2 == 1, waiting);
            both(writer, n, link, other, rows(n, flags_of(link.mode)))
        }
        Kind::Room => {
            let trial = Trial {
                room: n,
                ..whole([0; 6])
            };
            both(writer, n, link, link, trial)
        }
        Kind::Length => {
            let trial = Trial {
                given: n,
                room: 1520,
                mask: [0; 6],
            };
            both(writer, n, link, link, trial)
        }
        Kind::Flags => {
            let setting = (n % 16 * 16) as u8;
            let mask = [0, 0, setting ^ flags_of(link.mode), 0, 0, 0];
            both(writer, n, link, link, whole(mask))
        }
        Kind::Protocol => {
            // RC4 lets it be altered unseen in a sealed packet.
            let [high, low] = PROTOCOLS[n % 11];
            both(writer, n, link, link, whole([0, 0, 0, 0, high, low ^ 0x21]))
        }
    }
}

// The flags of a packet: A and D, or in stateful mode D alone.
fn flags_of(mode: Mode) -> u8 {
    match mode {
        Mode::Stateless => 0x90,
        Mode::Stateful => 0x10,
    }
}

// What is read of the first octets of a record, and zeros behind it.
fn show_read<W: Write>(
    writer: &mut W,
    n: usize,
    octets: [u8; 295],
    given: usize,
) -> io::Result<()> {
    let mut lent = [0; 300];
    lent[..295].copy_from_slice(&octets);
    let read = read_record(&lent[..given.min(300)]);
    show_whole(
        writer,
        b"read",
        n,
        number_of(&read),
        read.unwrap_or(no_record()),
    )
}

// A Reset-Request with an octet altered, or of 0 to 6 octets.
fn show_request<W: Write>(writer: &mut W, n: usize, link: Link) -> io::Result<()> {
    let mut request = [14, 7, 0, 4, 0, 0];
    let case = n % 11;
    let given = if case < 4 {
        request[case] ^= 1;
        4
    } else {
        case - 4
    };
    show_reset(writer, n, link, &request[..given])?;
    Ok(())
}

// A plain packet sealed, and the next packet of a link opened, both with one record and as one trial says.
fn both<W: Write>(
    writer: &mut W,
    n: usize,
    first: Link,
    link: Link,
    trial: Trial,
) -> io::Result<()> {
    let given = trial.given;
    let room = trial.room;
    let mask = trial.mask;
    if 4 <= given && 4 <= room {
        let mut plain = [0; LENT];
        octets::copy(MESSAGE, &mut plain);
        let mut wire = [0xEE; LENT];
        // A packet that fills the buffer; a shorter one has its first octets.
        Call::Seal.within(first, &plain, LENT - FRONT, &mut wire, LENT);
        let plain = struck(plain, [mask[4], mask[5], 0, 0, 0, 0]);
        show_call(writer, b"seal", Call::Seal, n, link, plain, given - 4, room)?;
        show_call(
            writer,
            b"open",
            Call::Open,
            n,
            link,
            struck(wire, mask),
            given,
            room - 4,
        )?;
    }
    Ok(())
}

// Seals or opens, and prints what it gave.
fn show_call<W: Write>(
    writer: &mut W,
    label: &[u8],
    call: Call,
    n: usize,
    link: Link,
    packet: [u8; LENT],
    given: usize,
    room: usize,
) -> io::Result<()> {
    let mut out = [0xEE; LENT];
    let made = call.within(link, &packet, given, &mut out, room);
    show_digest(writer, label, n, made, &out)
}

// The whole packet and room for it, with bits turned over.
fn whole(mask: [u8; 6]) -> Trial {
    Trial {
        given: 18,
        room: 18,
        mask,
    }
}

// A set of rows: 1 record, 2 size and shape, 4 flags, 8 room, 16 protocol, 32 repeat or 64 late, which never apply together, and 128
// waiting, in stateful mode.
fn rows(set: usize, flags: u8) -> Trial {
    let high = if_in(set / 4, flags) ^ if_in(set / 32, 0x0F) ^ if_in(set / 64, 0x0F);
    let given = if set / 2 % 2 == 1 { 5 } else { 18 };
    Trial {
        given,
        room: given - set / 8 % 2,
        mask: [0, 0, high, if_in(set / 32, 0xFF), if_in(set / 16, 0xFF), 0],
    }
}

// A mask where a set's lowest bit is in it.
fn if_in(set: usize, mask: u8) -> u8 {
    if set % 2 == 1 { mask } else { 0 }
}

// A link as it is, or with a count beyond the limit.
fn counted_if(wrong: bool, link: Link) -> Link {
    if wrong { counted(link, 8191) } else { link }
}

// A link with a bit of one octet of its record turned over.
fn turned(link: Link, at: usize) -> Link
    requires { at < 295 }
{
    let mut octets = record_octets(link);
    octets[at] ^= 1;
    read_back(octets)
}

// The record that octets hold.
fn read_back(octets: [u8; 295]) -> Link {
    read_record(&octets).unwrap_or(no_record())
}

// Record number v: one place of the start key altered, one of the session key, another count, the mode, the mark or an index altered, one
// cell with what the next one has, two cells exchanged, or a refused new link.
fn altered(link: Link, v: usize) -> Link {
    match v {
        0..=31 => turned(link, 1 + v),
        32 => counted(link, 4096),
        33 => counted(link, 65535),
        34 => counted(link, 4094),
        35..=38 => turned(link, v),
        39 | 40 => with_cells(link, v == 40),
        _ => Link::new(link.strength, link.mode, &[]).link,
    }
}

// A link whose cell 20 holds what cell 21 does; with both exchanged, cell 21 holds what the other did.
fn with_cells(link: Link, exchanged: bool) -> Link {
    let mut octets = record_octets(link);
    let held = octets[59];
    octets[59] = octets[60];
    if exchanged {
        octets[60] = held;
    }
    read_back(octets)
}

// The distances of K1 to K5, and those at the limits of what is opened, from counts about the wrap.
fn distances<W: Write>(writer: &mut W, first: Link) -> io::Result<()> {
    for (last, packets) in [(4095, 1), (2, 3), (4094, 3), (0, 4095), (7, 4096)] {
        ahead(writer, first, last, packets)?;
    }
    for last in [0, 255, 2047, 2048, 4094, 4095] {
        for packets in [1, 2047, 2048, 2049, 4095] {
            ahead(writer, first, last, packets)?;
        }
    }
    Ok(())
}

// Packets sealed from a count made by hand, and the last of them opened by a link with that count, as it is and with another protocol number
// inside, each with room and without.
fn ahead<W: Write>(writer: &mut W, first: Link, last: u16, packets: usize) -> io::Result<()> {
    let link = counted(first, last);
    let wire = last_packet(link, packets).wire;
    report::numbered(writer, b"last count", usize::from(last), 0, &wire)?;
    show_opened(writer, b"opened after packets", packets, link, &wire, 14)?;
    show_opened(writer, b"without room", packets, link, &wire, 13)?;
    let mut other = wire;
    other[4] ^= 0xFF;
    show_opened(
        writer,
        b"with another protocol number",
        packets,
        link,
        &other,
        14,
    )?;
    show_opened(writer, b"with neither", packets, link, &other, 13)?;
    Ok(())
}

// Packets of a new link, as they arrive on a line that loses 2,047 in a row from the start and again across the wrap, and brings some
// behind others: the last one opened is then one, two, and 2,047 ahead.
fn arrivals<W: Write>(writer: &mut W, first: Link) -> io::Result<()> {
    let mut receiver = first;
    for packet in [2047u16, 2049, 2048, 2049, 2047, 4097, 2050, 4096, 4098] {
        let packet = usize::from(packet);
        let wire = last_packet(first, packet + 1).wire;
        receiver = show_opened(writer, b"arrival of packet", packet, receiver, &wire, 14)?;
    }
    Ok(())
}

// The sample's encrypted message behind a header of count 0, under the initial session key, which no stateless packet has, opened.
fn show_sample<W: Write>(writer: &mut W, link: Link) -> io::Result<()> {
    let packet = match link.strength {
        Strength::Bits40 => b"\x00\xfd\x90\x00\x92\x91\x37\x91\x7e\x58\x03\xd6\x68\xd7\x58\x98",
        Strength::Bits56 => b"\x00\xfd\x90\x00\x3f\x10\x68\x33\xfa\x44\x8d\xa8\x42\xbc\x57\xb8",
        Strength::Bits128 => b"\x00\xfd\x90\x00\x81\x84\x83\x17\xdf\x68\x84\x62\x72\xfb\x5a\xbe",
    };
    show_opened(
        writer,
        b"message under the initial session key",
        0,
        link,
        packet,
        14,
    )?;
    Ok(())
}
