// Prints what the CCP option of this repository reads, writes and replies: K9 to K12 of 01, every request and policy, and refusals; and its
// Reset-Requests.
#![tactic(auto)]

mod resets;

ghost use Rattle.std.specs.Prelude.{◌<◌, ◌≤◌, length};

use answer::number_of;
use ccp::{Choice, Reply, Strengths};
use mppe_keys::Mode;
use std::io;
use std::io::{BufWriter, Write};

// Requests: each subset of H, M, S and L, in four settings of the other bits.
const REQUESTS: usize = 64;
// Each subset of 40, 56 and 128 bits.
const SETS: usize = 8;
// Policies: each such set, without stateful mode and with it.
const POLICIES: usize = 16;

// Bits of the lowest octet in the four settings: none, C, D, none.
const LOWEST: [u8; 4] = [0, 0x01, 0x10, 0];
// Bits of the octets above it, and of the highest.
const OTHERS: [u8; 4] = [0, 0, 0, 0x80];

// Prints them to standard output, by blocks.
fn main(rt: HostRuntime) -> io::Result<()> {
    let mut writer = BufWriter::new(rt.alloc(), io::writer(&rt))?;
    print_all(&mut writer)?;
    writer.flush()
}

// All cases, in the order of tests/ccp.c.
fn print_all<W: Write>(writer: &mut W) -> io::Result<()> {
    marked(writer)?;
    reads(writer)?;
    writes(writer)?;
    rooms(writer)?;
    replies(writer)?;
    wrong_options(writer)?;
    resets::all(writer)
}

// K9 to K12.
fn marked<W: Write>(writer: &mut W) -> io::Result<()> {
    writer.write_all(b"K9 ")?;
    show_read(writer, b"\x12\x06\x01\x00\x00\x40")?;
    marked_reply(writer, b"K10 ", b"\x12\x06\x01\x00\x00\xe0", 15)?;
    marked_reply(writer, b"K11 ", b"\x12\x06\x00\x00\x00\x20", 7)?;
    marked_reply(writer, b"K12 ", b"\x12\x06\x01\x00\x00\x20", 4)
}

// A reply's line behind a mark.
fn marked_reply<W: Write>(
    writer: &mut W,
    mark: &[u8],
    option: &[u8],
    policy: usize,
) -> io::Result<()> {
    writer.write_all(mark)?;
    show_reply(writer, option, policy)
}

// Every request, read.
fn reads<W: Write>(writer: &mut W) -> io::Result<()> {
    for i in 0..REQUESTS {
        show_read(writer, &request(i))?;
    }
    Ok(())
}

// Every mode with every set of strengths, written into eight octets.
fn writes<W: Write>(writer: &mut W) -> io::Result<()> {
    for mode in [Mode::Stateful, Mode::Stateless] {
        for set in 0..SETS {
            show_write(writer, mode, set, &mut [0xaa; 8])?;
        }
    }
    Ok(())
}

// Buffers without room, with just room and with more.
fn rooms<W: Write>(writer: &mut W) -> io::Result<()> {
    show_write(writer, Mode::Stateless, 7, &mut [])?;
    show_write(writer, Mode::Stateless, 7, &mut [0xaa; 5])?;
    show_write(writer, Mode::Stateless, 7, &mut [0xaa; 6])?;
    show_write(writer, Mode::Stateful, 1, &mut [0xaa; 8])
}

// Every request under every policy.
fn replies<W: Write>(writer: &mut W) -> io::Result<()> {
    for policy in 0..POLICIES {
        for i in 0..REQUESTS {
            show_reply(writer, &request(i), policy)?;
        }
    }
    Ok(())
}

// Options that are not six octets, and those of six octets with another type or length.
fn wrong_options<W: Write>(writer: &mut W) -> io::Result<()> {
    let options: [&[u8]; 7] = [
        b"",
        b"\x12\x06\x01\x00\x00",
        b"\x12\x06\x01\x00\x00\x40\x00",
        b"\x12\x07\x01\x00\x00\x40\x00",
        b"\x11\x06\x01\x00\x00\x40",
        b"\x12\x05\x01\x00\x00\x40",
        b"\x12\x07\x01\x00\x00\x40",
    ];
    for option in options {
        refused(writer, option)?;
    }
    Ok(())
}

// An option read, and replied to with all strengths allowed, with none, and with stateful mode besides: 1 comes before 8.
fn refused<W: Write>(writer: &mut W, option: &[u8]) -> io::Result<()> {
    show_read(writer, option)?;
    for policy in [7, 0, 15] {
        show_reply(writer, option, policy)?;
    }
    Ok(())
}

// Request i.
fn request(i: usize) -> [u8; 6]
    requires { i < 64 }
{
    let setting = i / 16;
    let highest = (i / 8 % 2) as u8;
    let lowest = (i % 8 * 32) as u8;
    let others = OTHERS[setting];
    [
        18,
        6,
        highest | others,
        others,
        others,
        lowest | LOWEST[setting],
    ]
}

// Set i of strengths.
fn strengths(i: usize) -> Strengths {
    Strengths {
        bits40: i % 2 == 1,
        bits56: i / 2 % 2 == 1,
        bits128: i / 4 % 2 == 1,
    }
}

// Which set of strengths it is.
fn set_of(strengths: Strengths) -> usize {
    strengths.bits40 as usize | (strengths.bits56 as usize) << 1 | (strengths.bits128 as usize) << 2
}

// The line of an option read: mode, set of strengths, number, option. A refused one is stateful and has no strength.
fn show_read<W: Write>(writer: &mut W, option: &[u8]) -> io::Result<()> {
    let offer = ccp::read(option);
    let number = number_of(&offer);
    let (mode, set) = match offer {
        Ok(offer) => (offer.mode, set_of(offer.strengths)),
        Err(_) => (Mode::Stateful, 0),
    };
    show_mode(writer, mode, set, number, option)
}

// The line of an option written: set of strengths, number, the buffer afterwards.
fn show_write<W: Write>(writer: &mut W, mode: Mode, set: usize, out: &mut [u8]) -> io::Result<()> {
    let number = number_of(&ccp::write(mode, strengths(set), out));
    report::numbered(writer, b"written", set, number, out)
}

// The line of a reply: its kind and mode, the policy, its number, the request in eight octets, the reply's option.
fn show_reply<W: Write>(writer: &mut W, option: &[u8], policy: usize) -> io::Result<()> {
    let mut shown = [0u8; 14];
    let n = option.len().min(8);
    shown[..n].copy_from_slice(&option[..n]);
    match ccp::reply_to(option, strengths(policy), SETS <= policy) {
        Ok(Reply::Accept(choice)) => show_choice(writer, b"accept ", policy, choice, &mut shown),
        Ok(Reply::CounterOffer(choice)) => show_choice(
            writer,
            b"counter-offer ",
            policy,
            choice,
            &mut shown,
        ),
        Err(refusal) => report::numbered(writer, b"refused", policy, u8::from(refusal), &shown),
    }
}

// The line of an accept or a counter-offer.
fn show_choice<W: Write>(
    writer: &mut W,
    kind: &[u8],
    policy: usize,
    choice: Choice,
    shown: &mut [u8],
) -> io::Result<()>
    requires { 8 ≤ length shown.old }
{
    let written = ccp::write(choice.mode, ccp::only(choice.strength), &mut shown[8..]);
    writer.write_all(kind)?;
    show_mode(writer, choice.mode, policy, number_of(&written), shown)
}

// A line behind a mode, with a number.
fn show_mode<W: Write>(
    writer: &mut W,
    mode: Mode,
    n: usize,
    answer: u8,
    octets: &[u8],
) -> io::Result<()> {
    match mode {
        Mode::Stateless => report::numbered(writer, b"stateless", n, answer, octets),
        Mode::Stateful => report::numbered(writer, b"stateful", n, answer, octets),
    }
}
