// Cases of Challenge and Response packets, of CCP's option and Reset-Request, and of a tape's packets.
use crate::keys::strength;
use crate::{Case, low, tell, tell_given, tell_octets, tell_written};
use ccp::Strengths;
use mppe_keys::{Mode, is_stateful};
use mschap_packets::Kind;
use std::io;
use std::io::Write;

// The calls 32 to 42.
pub fn call<W: Write>(writer: &mut W, case: Case<'_>, lent: &mut [u8]) -> io::Result<()> {
    let Case { x, y, a, b, c, .. } = case;
    let identifier = low(x as usize);
    match case.call {
        32 => tell_challenge(writer, a),
        33 => tell_response(writer, a),
        // The name of a packet, which has no number of its own.
        34 => tell(writer, 0, mschap_packets::name(kind(x), a), &[]),
        35 => {
            let written = mschap_packets::write_challenge(identifier, a, b, lent);
            tell_written(writer, written, lent)
        }
        36 => {
            let written = mschap_packets::write_response(identifier, a, b, c, lent);
            tell_written(writer, written, lent)
        }
        37 => tell_option(writer, a),
        38 => {
            let written = ccp::write(mode(x), strengths(y), lent);
            tell_written(writer, written, lent)
        }
        // The set of one strength, which has no number.
        39 => tell_octets(writer, 0, set_fields(ccp::only(strength(x)))),
        40 => tell_given(writer, ccp::read_reset(a).map(|identifier| [identifier])),
        41 => {
            let written = ccp::write_reset(identifier, lent);
            tell_written(writer, written, lent)
        }
        // The packet of a tape at an offset; the number of a read is compared through C.
        42 => tell(writer, 0, tape::packet(a, x as usize), &[]),
        _ => Ok(()),
    }
}

// A Challenge read: identifier and value.
fn tell_challenge<W: Write>(writer: &mut W, a: &[u8]) -> io::Result<()> {
    let fields = mschap_packets::read_challenge(a).map(|read| {
        let mut fields = [0u8; 17];
        fields[0] = read.identifier;
        fields[1..].copy_from_slice(&read.value);
        fields
    });
    tell_given(writer, fields)
}

// A Response read: identifier, peer challenge and NT-Response.
fn tell_response<W: Write>(writer: &mut W, a: &[u8]) -> io::Result<()> {
    let fields = mschap_packets::read_response(a).map(|read| {
        let mut fields = [0u8; 41];
        fields[0] = read.identifier;
        fields[1..17].copy_from_slice(&read.peer_challenge);
        fields[17..].copy_from_slice(&read.nt_response);
        fields
    });
    tell_given(writer, fields)
}

// An option read: its mode, 1 for stateless, and its strengths.
fn tell_option<W: Write>(writer: &mut W, a: &[u8]) -> io::Result<()> {
    let fields = ccp::read(a).map(|offer| {
        let [bits40, bits56, bits128] = set_fields(offer.strengths);
        [!is_stateful(offer.mode) as u8, bits40, bits56, bits128]
    });
    tell_given(writer, fields)
}

// A set of strengths: 40, 56 and 128 bits, each 1 or 0.
fn set_fields(strengths: Strengths) -> [u8; 3] {
    [
        strengths.bits40 as u8,
        strengths.bits56 as u8,
        strengths.bits128 as u8,
    ]
}

// Kind n: 0 is a Challenge.
fn kind(n: u16) -> Kind {
    if n == 0 {
        Kind::Challenge
    } else {
        Kind::Response
    }
}

// Mode n: 0 is stateful, as in the option.
pub fn mode(n: u16) -> Mode {
    if n == 0 {
        Mode::Stateful
    } else {
        Mode::Stateless
    }
}

// Set n of strengths.
fn strengths(n: u16) -> Strengths {
    Strengths {
        bits40: n % 2 == 1,
        bits56: n / 2 % 2 == 1,
        bits128: n / 4 % 2 == 1,
    }
}
