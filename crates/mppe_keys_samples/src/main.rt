// Derives the keys of RFC 3079, section 3.5, changes them, tries the limits of 01, and prints what is answered.
#![tactic(auto)]

ghost use Rattle.std.specs.Prelude.{◌≤◌, length};

use answer::{Refusal, number_of};
use mppe_keys::{Direction, Role, Strength};
use rc4::Rc4;
use std::io;
use std::io::{BufWriter, Write};

// Section 3.5, step 2: the hash of the password's hash.
const HASH_HASH: [u8; 16] = [
    0x41, 0xC0, 0x0C, 0x58, 0x4B, 0xD2, 0xD9, 0x1C, 0x40, 0x17, 0xA2, 0xA1, 0x2F, 0xA5, 0x9F, 0x3F,
];

// Its NT-Response.
const NT_RESPONSE: [u8; 24] = [
    0x82, 0x30, 0x9E, 0xCD, 0x8D, 0x70, 0x8B, 0x5E, 0xA0, 0x8F, 0xAA, 0x39, 0x81, 0xCD, 0x83, 0x54,
    0x42, 0x33, 0x11, 0x4A, 0x3D, 0x85, 0xD6, 0xDF,
];

// The key of section 2.5.2 before it is reduced (01, K13).
const UNREDUCED: [u8; 8] = [0xD8, 0x08, 0x01, 0x53, 0x8C, 0xEC, 0x4A, 0x08];

// Octets to cut inputs of any length from.
const COUNTED: [u8; 32] = [
    0x01, 0x02, 0x03, 0x04, 0x05, 0x06, 0x07, 0x08, 0x09, 0x0A, 0x0B, 0x0C, 0x0D, 0x0E, 0x0F, 0x10,
    0x11, 0x12, 0x13, 0x14, 0x15, 0x16, 0x17, 0x18, 0x19, 0x1A, 0x1B, 0x1C, 0x1D, 0x1E, 0x1F, 0x20,
];

// Prints them to standard output, by blocks.
fn main(rt: HostRuntime) -> io::Result<()> {
    let mut writer = BufWriter::new(rt.alloc(), io::writer(&rt))?;
    print_all(&mut writer)?;
    writer.flush()
}

// All cases, in the order of tests/mppe_keys.c.
fn print_all<W: Write>(writer: &mut W) -> io::Result<()> {
    samples(writer)?;
    reduced(writer)?;
    places(writer)?;
    masters(writer)?;
    starts(writer)?;
    let strengths: [(&[u8], Strength); 3] = [
        (b"lengths at 40 bits", Strength::Bits40),
        (b"lengths at 56 bits", Strength::Bits56),
        (b"lengths at 128 bits", Strength::Bits128),
    ];
    for (label, strength) in strengths {
        lengths(writer, label, strength)?;
    }
    Ok(())
}

// Section 3.5, from the master key on.
fn samples<W: Write>(writer: &mut W) -> io::Result<()> {
    report::line(writer, b"hash-hash", 0, &HASH_HASH)?;
    report::line(writer, b"NT-Response", 0, &NT_RESPONSE)?;
    let master = shown(
        writer,
        b"master key",
        mppe_keys::master_key(&HASH_HASH, &NT_RESPONSE),
    )?;
    let strengths: [(&[u8], Strength); 3] = [
        (b"40 bits", Strength::Bits40),
        (b"56 bits", Strength::Bits56),
        (b"128 bits", Strength::Bits128),
    ];
    for (label, strength) in strengths {
        derived(writer, label, strength, &master)?;
    }
    Ok(())
}

// Prints a key, and hands back its octets: zeros where it is refused.
fn shown<W: Write>(
    writer: &mut W,
    label: &[u8],
    key: Result<[u8; 16], Refusal>,
) -> io::Result<[u8; 16]> {
    let number = number_of(&key);
    let octets = key.unwrap_or([0; 16]);
    report::line(writer, label, number, &octets)?;
    Ok(octets)
}

// The same for keys under their labels.
fn show_all<W: Write>(
    writer: &mut W,
    keys: &[(&[u8], Result<[u8; 16], Refusal>)],
) -> io::Result<()> {
    for (label, key) in keys {
        shown(writer, label, *key)?;
    }
    Ok(())
}

// Section 3.5 at one strength, for both ends of the link: the server's session keys too.
fn derived<W: Write>(
    writer: &mut W,
    label: &[u8],
    strength: Strength,
    master: &[u8; 16],
) -> io::Result<()> {
    report::line(writer, label, 0, master)?;
    let sides: [(&[u8], Role, Direction); 4] = [
        (b"server sends", Role::Server, Direction::Send),
        (b"server receives", Role::Server, Direction::Receive),
        (b"client sends", Role::Client, Direction::Send),
        (b"client receives", Role::Client, Direction::Receive),
    ];
    for (label, role, direction) in sides {
        let start = shown(
            writer,
            label,
            mppe_keys::start_key(strength, role, direction, master),
        )?;
        if role == Role::Server {
            session(writer, strength, part(strength, &start))?;
        }
    }
    Ok(())
}

// The octets of a key in 16 places.
fn part(strength: Strength, key: &[u8; 16]) -> &[u8] {
    match strength {
        Strength::Bits40 | Strength::Bits56 => &key[..8],
        Strength::Bits128 => &key[..],
    }
}

// The session keys of a start key.
fn session<W: Write>(writer: &mut W, strength: Strength, start: &[u8]) -> io::Result<()> {
    let first = shown(
        writer,
        b"initial session key",
        mppe_keys::initial_session_key(strength, start),
    )?;
    changes(writer, strength, start, part(strength, &first))
}

// The session keys from the first one on, and the sample's message under that one.
fn changes<W: Write>(
    writer: &mut W,
    strength: Strength,
    start: &[u8],
    first: &[u8],
) -> io::Result<()> {
    encrypted(writer, first, &mut [0u8; 12])?;
    show_all(
        writer,
        &[
            (b"new key", mppe_keys::new_key(strength, start, first)),
            (
                b"after one key change",
                mppe_keys::key_change(strength, start, first),
            ),
        ],
    )?;
    for n in [0, 1, 2, 3, 255, 4095] {
        changed(writer, strength, start, first, n)?;
    }
    Ok(())
}

// Prints "test message" enciphered under a session key.
fn encrypted<W: Write>(writer: &mut W, session: &[u8], out: &mut [u8]) -> io::Result<()> {
    let left = Rc4::keyed(session).and_then(|state| state.run(b"test message", out));
    report::line(writer, b"test message", number_of(&left), out)
}

// Prints the session key after n key changes.
fn changed<W: Write>(
    writer: &mut W,
    strength: Strength,
    start: &[u8],
    session: &[u8],
    n: usize,
) -> io::Result<()> {
    let key = mppe_keys::key_changes(strength, start, session, n);
    let number = number_of(&key);
    report::numbered(writer, b"key changes", n, number, &key.unwrap_or([0; 16]))
}

// Reduced keys.
fn reduced<W: Write>(writer: &mut W) -> io::Result<()> {
    show_all(
        writer,
        &[
            (
                b"reduced to 40 bits",
                mppe_keys::reduce(Strength::Bits40, &UNREDUCED),
            ),
            (
                b"reduced to 56 bits",
                mppe_keys::reduce(Strength::Bits56, &UNREDUCED),
            ),
            (
                b"reduced to 128 bits",
                mppe_keys::reduce(Strength::Bits128, &HASH_HASH),
            ),
        ],
    )
}

// Keys in 16 places after key changes, with octets behind them that no strength of 8 octets reads.
fn places<W: Write>(writer: &mut W) -> io::Result<()> {
    let cases: [(&[u8], Strength, usize); 4] = [
        (b"40 bits in 16 places", Strength::Bits40, 2),
        (b"56 bits in 16 places", Strength::Bits56, 2),
        (b"128 bits in 16 places", Strength::Bits128, 2),
        (b"none of them", Strength::Bits56, 0),
    ];
    for (label, strength, n) in cases {
        let key = mppe_keys::placed_key_changes(strength, HASH_HASH, [0x5A; 16], n);
        report::line(writer, label, 0, &key)?;
    }
    Ok(())
}

// Master keys of inputs one octet too short or too long, and the start key of a right one.
fn masters<W: Write>(writer: &mut W) -> io::Result<()> {
    let counted = &COUNTED[..];
    let right = shown(
        writer,
        b"master key of counted octets",
        mppe_keys::master_key(&counted[..16], &counted[..24]),
    )?;
    show_all(
        writer,
        &[
            (
                b"hash-hash of 15 octets",
                mppe_keys::master_key(&counted[..15], &counted[..24]),
            ),
            (
                b"hash-hash of 17 octets",
                mppe_keys::master_key(&counted[..17], &counted[..24]),
            ),
            (
                b"NT-Response of 23 octets",
                mppe_keys::master_key(&counted[..16], &counted[..23]),
            ),
            (
                b"NT-Response of 25 octets",
                mppe_keys::master_key(&counted[..16], &counted[..25]),
            ),
            (b"both empty", mppe_keys::master_key(b"", b"")),
            (
                b"start key of it",
                mppe_keys::start_key(Strength::Bits56, Role::Client, Direction::Send, &right),
            ),
        ],
    )
}

// Start keys of master keys one octet too short or too long.
fn starts<W: Write>(writer: &mut W) -> io::Result<()> {
    show_all(
        writer,
        &[
            (
                b"master key of 15 octets",
                mppe_keys::start_key(
                    Strength::Bits128,
                    Role::Client,
                    Direction::Send,
                    &COUNTED[..15],
                ),
            ),
            (
                b"master key of 17 octets",
                mppe_keys::start_key(
                    Strength::Bits40,
                    Role::Server,
                    Direction::Receive,
                    &COUNTED[..17],
                ),
            ),
        ],
    )
}

// Every call on keys of the length of their strength, and of one octet less and more.
#[tactic(auto, using(mppe_keys::proofs::Laws::key_least, mppe_keys::proofs::Laws::key_most))]
fn lengths<W: Write>(writer: &mut W, label: &[u8], strength: Strength) -> io::Result<()> {
    let n = mppe_keys::key_length(strength);
    let short = &COUNTED[..n - 1];
    let right = &COUNTED[..n];
    let long = &COUNTED[..n + 1];
    report::line(writer, label, 0, right)?;
    one_key(writer, strength, short, right, long)?;
    one_change(writer, strength, short, right, long)?;
    changes_and_new_keys(writer, strength, short, right, long)
}

// What is made of one key.
fn one_key<W: Write>(
    writer: &mut W,
    strength: Strength,
    short: &[u8],
    right: &[u8],
    long: &[u8],
) -> io::Result<()> {
    show_all(
        writer,
        &[
            (b"initial", mppe_keys::initial_session_key(strength, right)),
            (
                b"initial, short",
                mppe_keys::initial_session_key(strength, short),
            ),
            (
                b"initial, long",
                mppe_keys::initial_session_key(strength, long),
            ),
            (b"reduce", mppe_keys::reduce(strength, right)),
            (b"reduce, short", mppe_keys::reduce(strength, short)),
            (b"reduce, long", mppe_keys::reduce(strength, long)),
        ],
    )
}

// One key change.
fn one_change<W: Write>(
    writer: &mut W,
    strength: Strength,
    short: &[u8],
    right: &[u8],
    long: &[u8],
) -> io::Result<()> {
    let cases: [(&[u8], &[u8], &[u8]); 5] = [
        (b"change", right, right),
        (b"change, start short", short, right),
        (b"change, start long", long, right),
        (b"change, session short", right, short),
        (b"change, session long", right, long),
    ];
    for (label, start, session) in cases {
        shown(
            writer,
            label,
            mppe_keys::key_change(strength, start, session),
        )?;
    }
    Ok(())
}

// Several key changes, and new keys.
fn changes_and_new_keys<W: Write>(
    writer: &mut W,
    strength: Strength,
    short: &[u8],
    right: &[u8],
    long: &[u8],
) -> io::Result<()> {
    let several = [
        (right, right, 7),
        (short, right, 7),
        (right, long, 7),
        (short, long, 0),
    ];
    for (start, session, n) in several {
        changed(writer, strength, start, session, n)?;
    }
    show_all(
        writer,
        &[
            (b"new key", mppe_keys::new_key(strength, right, right)),
            (
                b"new key, start short",
                mppe_keys::new_key(strength, short, right),
            ),
            (
                b"new key, session long",
                mppe_keys::new_key(strength, right, long),
            ),
        ],
    )
}
