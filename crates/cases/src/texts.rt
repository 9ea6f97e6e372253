// Cases of digests and ciphers.
use crate::{Case, low, tell, tell_given, tell_octets, tell_written};
use answer::Refusal;
use rc4::Rc4;
use std::io;
use std::io::Write;

// The calls 0 to 10: MD4, SHA-1 and SHA-256 of a text, HMAC over SHA-256 of a key and a text, DES of a key and a block; and RC4.
pub fn call<W: Write>(writer: &mut W, case: Case<'_>, lent: &mut [u8]) -> io::Result<()> {
    let Case { x, y, a, b, c, .. } = case;
    let i = low(x as usize);
    let j = low(y as usize);
    match case.call {
        0 => tell_given(writer, md4::md4(a)),
        1 => tell_given(writer, sha_1::sha1(a)),
        2 => tell_given(writer, sha256::sha256(a)),
        3 => tell_given(writer, sha256::hmac_sha256(a, b)),
        4 => tell_given(writer, des::encrypt(a, b)),
        5 => tell_state(writer, Rc4::keyed(a), state(&[], 0, 0), &[]),
        6 => {
            let s = state(a, i, j);
            let left = s.run(b, lent);
            tell_state(writer, left, s, lent)
        }
        // A draw by value: its octet stands in the lent buffer's place.
        7 => {
            let drawn = state(a, i, j).draw();
            tell(writer, 0, &state_fields(drawn.state), &[drawn.octet])
        }
        8 => {
            let written = rc4::apply(a, b, lent);
            tell_written(writer, written, lent)
        }
        // Whether a state is the one without a key, and whether its box is a permutation, which have no number.
        9 => {
            let s = state(a, i, j);
            tell_octets(writer, 0, [s.is_unkeyed() as u8, s.is_permutation() as u8])
        }
        // RC4 run within bounds, from a state that is the first input, box and both indices, or from the third as a key.
        10 => {
            let i = a.get(256).copied().unwrap_or(0);
            let j = a.get(257).copied().unwrap_or(0);
            let s = state(a, i, j);
            let left = s.run_within(case.z == 1, c, x, y, b, lent);
            tell_state(writer, left, s, lent)
        }
        _ => Ok(()),
    }
}

// What a call gives that leaves a state of RC4; where it refuses, the state that was there before.
fn tell_state<W: Write>(
    writer: &mut W,
    left: Result<Rc4, Refusal>,
    before: Rc4,
    lent: &[u8],
) -> io::Result<()> {
    let number = answer::number_of(&left);
    tell(writer, number, &state_fields(left.unwrap_or(before)), lent)
}

// A state whose box is some octets, with zeros behind a short one.
fn state(a: &[u8], i: u8, j: u8) -> Rc4 {
    let mut cells = [0u8; 256];
    octets::copy(a, &mut cells);
    Rc4 { cells, i, j }
}

// A state's octets: the box and both indices.
pub fn state_fields(state: Rc4) -> [u8; 258] {
    let mut fields = [0u8; 258];
    fields[..256].copy_from_slice(&state.cells);
    fields[256] = state.i;
    fields[257] = state.j;
    fields
}
