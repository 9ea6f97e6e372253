// Cases of keys.
use crate::texts::state_fields;
use crate::{Case, low, tell_given, tell_octets};
use mppe_keys::{Direction, Role, Strength};
use std::io;
use std::io::Write;

// The calls 48 to 58.
pub fn call<W: Write>(writer: &mut W, case: Case<'_>) -> io::Result<()> {
    let Case { a, b, .. } = case;
    let strength = strength(case.x);
    let role = role(case.y);
    let changes = case.y as usize;
    match case.call {
        48 => tell_given(writer, mppe_keys::master_key(a, b)),
        49 => tell_given(
            writer,
            mppe_keys::start_key(strength, role, direction(case.z), a),
        ),
        50 => tell_given(writer, mppe_keys::new_key(strength, a, b)),
        51 => tell_given(writer, mppe_keys::initial_session_key(strength, a)),
        52 => tell_given(writer, mppe_keys::reduce(strength, a)),
        53 => tell_given(writer, mppe_keys::key_change(strength, a, b)),
        54 => tell_given(writer, mppe_keys::key_changes(strength, a, b, changes)),
        // The base key of a send and a receive start key.
        55 => tell_given(writer, sstp::base_key(role, a, b)),
        // Key changes over keys in 16 places, how many octets a key has, and the state of RC4 keyed with a key in 16 places: these have no number.
        56 => tell_octets(
            writer,
            0,
            mppe_keys::placed_key_changes(strength, places(a), places(b), changes),
        ),
        57 => tell_octets(writer, 0, [low(mppe_keys::key_length(strength))]),
        58 => tell_octets(
            writer,
            0,
            state_fields(mppe_keys::placed_cipher(strength, places(a))),
        ),
        _ => Ok(()),
    }
}

// Strength n: 0 is 40 bits, 1 is 56.
pub fn strength(n: u16) -> Strength {
    match n {
        0 => Strength::Bits40,
        1 => Strength::Bits56,
        _ => Strength::Bits128,
    }
}

// The 16 places of a key, from an input of at most as many octets.
fn places(a: &[u8]) -> [u8; 16] {
    let mut key = [0u8; 16];
    octets::copy(a, &mut key);
    key
}

// Role n: 0 is the client.
fn role(n: u16) -> Role {
    if n == 0 { Role::Client } else { Role::Server }
}

// Direction n: 0 is sending.
fn direction(n: u16) -> Direction {
    if n == 0 {
        Direction::Send
    } else {
        Direction::Receive
    }
}
