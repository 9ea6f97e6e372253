// A link record as octets: strength in bits 1, start key 16, session key 16, last count 2 with its highest octet first; and behind these
// 35 mode 1, waiting mark 1, RC4's indices 1 each, its cells 256.
#![tactic(auto)]

ghost use Rattle.std.specs.Prelude.{◌≡◌, ◌≤◌, length};
ghost use Rattle.mppe_keys.specs.Keys.{bits_of};
ghost use Rattle.mppe_record.specs.Record.{strength_of, no_strength, yes_number, front_octets, rest_octets, record_length, record_octets, front_in, record_in, no_record, record_read, front_length, stateless_read};
ghost use Rattle.mppe_record.specs.Inner.{state_in};

use answer::Refusal;
use mppe::Link;
use mppe_keys::{Mode, Strength, is_stateful, mode_if};
use octets::pair;
use rc4::Rc4;

// The octets of a link record; the first is its strength in bits.
pub const RECORD_LENGTH: usize = 295;
// Those in front of the mode, which alone hold a stateless record.
pub const FRONT_LENGTH: usize = 35;
// Where its start key begins.
const START_AT: usize = 1;
// Where its session key begins.
const SESSION_AT: usize = 17;
// Where its last count begins.
const COUNT_AT: usize = 33;
// Where its mode stands, and its mark.
const MODE_AT: usize = 35;

const MARK_AT: usize = 36;
// Where RC4's state begins, with both indices.
const STATE_AT: usize = 37;

// The octets of a link record.
pub fn record_octets(link: Link) -> [u8; 295]
    ensures { result ≡ record_octets link }
{
    let front = front_octets(link);
    let rest = rest_octets(link);
    let mut octets = [0u8; 295];
    octets::copy(&front, &mut octets);
    octets::copy_at(&rest, FRONT_LENGTH, &mut octets);
    octets
}

// Its first 35 octets.
pub fn front_octets(link: Link) -> [u8; 35]
    ensures { (result ≡ front_octets link) × (length result ≡ 35) }
{
    let strength = link.strength;
    let start = link.start;
    let session = link.session;
    let count = link.count;
    let mut octets = [0u8; 35];
    octets::copy_at(&[bits_of(strength)], 0, &mut octets);
    octets::copy_at(&start, START_AT, &mut octets);
    octets::copy_at(&session, SESSION_AT, &mut octets);
    octets::copy_at(
        &[(count / 256) as u8, (count % 256) as u8],
        COUNT_AT,
        &mut octets,
    );
    octets
}

// The octets behind these.
fn rest_octets(link: Link) -> [u8; 260]
    ensures { (result ≡ rest_octets link) × (length result ≡ 260) }
{
    let mode = link.mode;
    let state = link.state;
    let cells = state.cells;
    let mut octets = [0u8; 260];
    octets::copy(
        &[
            yes_number(is_stateful(mode)),
            yes_number(link.waiting),
            state.i,
            state.j,
        ],
        &mut octets,
    );
    octets::copy_at(&cells, 4, &mut octets);
    octets
}

// A yes or no as a number.
pub fn yes_number(holds: bool) -> u8
    ensures { result ≡ yes_number holds }
{
    u8::from(holds)
}

// Reads a link record; refused as `record` where the octets are not 295, the first is no strength, or the mode or the mark neither 0 nor 1.
#[tactic(auto, unfolding(crate::specs::Record::record_read))]
pub fn read_record(octets: &[u8]) -> Result<Link, Refusal>
    ensures { result ≡ record_read octets.now }
{
    if octets.len() != RECORD_LENGTH
        || no_strength(octets[0])
        || 1 < octets[MODE_AT]
        || 1 < octets[MARK_AT]
    {
        return Err(Refusal::Record);
    }
    Ok(record_in(octets))
}

// Reads a stateless record of its first 35 octets; refused as `record` where they are not 35, or the first is no strength.
#[tactic(auto, unfolding(crate::specs::Record::stateless_read, crate::specs::Record::stateless_in))]
pub fn read_stateless(octets: &[u8]) -> Result<Link, Refusal>
    ensures { result ≡ stateless_read octets.now }
{
    if octets.len() != FRONT_LENGTH || no_strength(octets[0]) {
        return Err(Refusal::Record);
    }
    Ok(front_in(octets, Mode::Stateless, Rc4::unkeyed(), false))
}

// Whether a number of bits is no strength.
pub fn no_strength(bits: u8) -> bool
    ensures { result ≡ no_strength bits }
{
    bits != bits_of(strength_of(bits))
}

// The strength of a number of bits; 40 bits for one that is no strength. No From and TryFrom: the type is mppe_keys' own.
pub fn strength_of(bits: u8) -> Strength
    ensures { result ≡ strength_of bits }
{
    match bits {
        128 => Strength::Bits128,
        56 => Strength::Bits56,
        _ => Strength::Bits40,
    }
}

// The bits of a strength.
pub fn bits_of(strength: Strength) -> u8
    ensures { result ≡ bits_of strength }
{
    match strength {
        Strength::Bits40 => 40,
        Strength::Bits56 => 56,
        Strength::Bits128 => 128,
    }
}

// The link record in 295 octets.
#[tactic(auto, unfolding(crate::specs::Record::record_in, crate::specs::Inner::state_in))]
fn record_in(octets: &[u8]) -> Link
    requires { length octets.now ≡ record_length }
    ensures { result ≡ record_in octets.now }
{
    let stateful = octets[MODE_AT] == 1;
    let waiting = octets[MARK_AT] == 1;
    let state = state_in(&octets[STATE_AT..]);
    front_in(octets, mode_if(stateful), state, waiting)
}

// The record of which octets hold the first 35.
fn front_in(octets: &[u8], mode: Mode, state: Rc4, waiting: bool) -> Link
    requires { front_length ≤ length octets.now }
    ensures { result ≡ front_in octets.now mode state waiting }
{
    Link {
        strength: strength_of(octets[0]),
        mode,
        start: places(&octets[START_AT..SESSION_AT]),
        session: places(&octets[SESSION_AT..COUNT_AT]),
        count: pair(octets[COUNT_AT], octets[COUNT_AT + 1]),
        state,
        waiting,
    }
}

// RC4's state in 258 octets.
#[tactic(auto, unfolding(crate::specs::Inner::state_in))]
fn state_in(octets: &[u8]) -> Rc4
    requires { length octets.now ≡ 258 }
    ensures { result ≡ state_in octets.now }
{
    let mut cells = [0; 256];
    cells.copy_from_slice(&octets[2..]);
    Rc4 {
        cells,
        i: octets[0],
        j: octets[1],
    }
}

// A key in its places.
fn places(key: &[u8]) -> [u8; 16]
    requires { length key.now ≡ 16 }
    ensures { result ≡ key.now }
{
    let mut places = [0; 16];
    places.copy_from_slice(key);
    places
}

// The record of octets that hold none: 40 bits, stateless, all else 0.
pub fn no_record() -> Link
    ensures { result ≡ no_record }
{
    mppe::no_link(Strength::Bits40, Mode::Stateless)
}
