// Challenge and Response packets (RFC 1994, section 4.1; RFC 2759, sections 3 and 4), read and written.
#![tactic(auto, unfolding(crate::specs::Packet::challenge_read, crate::specs::Packet::response_read, crate::specs::Packet::name_of, crate::specs::Packet::name_at, crate::specs::Packet::write_code, crate::specs::Packet::write_out, crate::specs::Packet::challenge_code, crate::specs::Packet::challenge_out, crate::specs::Packet::response_code, crate::specs::Packet::response_out, crate::specs::Packet::response_value, crate::specs::Packet::header))]

ghost use Rattle.std.specs.Prelude.{◌≡◌, false, ◌+◌, ◌≤◌, length, OnOk};
ghost use Rattle.answer.specs.Answer.{result_of};
ghost use Rattle.octets.specs.Octets.{onward};
ghost use Rattle.mschap_packets.specs.Packet.{packet_code, value_size, least_length, length_field, part, any_set, reserved, header as header_of, packet_of, response_value, read_code, challenge_read, response_read, name_of, name_at, write_code, write_out, challenge_code, challenge_out, response_code, response_out};

use answer::Refusal;

// The octets in front of a packet's value: code, identifier, length and value size.
const HEADER_LENGTH: usize = 5;
// The octets of a challenge.
const CHALLENGE_LENGTH: usize = 16;
// The octets of an NT-Response.
const RESPONSE_LENGTH: usize = 24;
// The octets of the longest name.
const LONGEST_NAME: usize = 256;

// Which of the two packets it is.
#[derive(Clone, Copy, Debug, PartialEq, Eq)]
pub enum Kind {
    Challenge,
    Response,
}

impl Kind {
    // The code of a packet.
    fn packet_code(self) -> u8
        ensures { result ≡ packet_code self }
    {
        match self {
            Kind::Challenge => 1,
            Kind::Response => 2,
        }
    }

    // The octets of its value.
    fn value_size(self) -> u8
        ensures { (result ≡ value_size self) × (16 ≤ result) × (result ≤ 49) }
    {
        match self {
            Kind::Challenge => 16,
            Kind::Response => 49,
        }
    }

    // The octets of a packet without a name.
    fn least_length(self) -> usize
        ensures { (result ≡ least_length self) × (21 ≤ result) × (result ≤ 54) }
    {
        HEADER_LENGTH + usize::from(self.value_size())
    }
}

// The fields of a Challenge.
#[derive(Clone, Copy, Debug, PartialEq, Eq)]
pub struct Challenge {
    pub identifier: u8,
    pub value: [u8; 16],
}

// The fields of a Response.
#[derive(Clone, Copy, Debug, PartialEq, Eq)]
pub struct Response {
    pub identifier: u8,
    pub peer_challenge: [u8; 16],
    pub nt_response: [u8; 24],
}

// Reads the fields of a Challenge; refused with 1 for a wrong shape, then with 3 for a name over 256 octets.
pub fn read_challenge(packet: &[u8]) -> Result<Challenge, Refusal>
    ensures { result ≡ challenge_read packet.now }
{
    readable(Kind::Challenge, packet)?;
    Ok(Challenge {
        identifier: packet[1],
        value: part(HEADER_LENGTH, packet),
    })
}

// Reads the fields of a Response; refused with 1 for a wrong shape, also a reserved octet that is not zero, then with 3 as above.
pub fn read_response(packet: &[u8]) -> Result<Response, Refusal>
    ensures { result ≡ response_read packet.now }
{
    readable(Kind::Response, packet)?;
    Ok(Response {
        identifier: packet[1],
        peer_challenge: part(HEADER_LENGTH, packet),
        nt_response: part(29, packet),
    })
}

// The whole name in a packet, with its domain where it has one, as that part of the packet; the empty part where it is refused.
pub fn name(kind: Kind, packet: &[u8]) -> &[u8]
    ensures { (result.now ≡ name_of kind packet.now)
        × (result.ref_ptr ≡ onward (name_at kind packet.now) packet.entry.ref_ptr) }
{
    if readable(kind, packet).is_err() {
        return &packet[..0];
    }
    let start = kind.least_length();
    let end = length_field(packet);
    &packet[start..end]
}

// Writes a Challenge into the front of a lent buffer; refused with 3 for a wrong length, then with 2 for too little room.
pub fn write_challenge(
    identifier: u8,
    challenge: &[u8],
    name: &[u8],
    out: &mut [u8],
) -> Result<(), Refusal>
    ensures { (result ≡ result_of (challenge_code identifier challenge.now name.now out.old) tt)
        × (out.new ≡ challenge_out identifier challenge.now name.now out.old) }
{
    if challenge.len() != CHALLENGE_LENGTH {
        return Err(Refusal::Size);
    }
    write(Kind::Challenge, identifier, challenge, name, out)
}

// Writes a Response into the front of a lent buffer; refused likewise.
pub fn write_response(
    identifier: u8,
    peer: &[u8],
    response: &[u8],
    name: &[u8],
    out: &mut [u8],
) -> Result<(), Refusal>
    ensures { (result ≡ result_of (response_code identifier peer.now response.now name.now out.old) tt)
        × (out.new ≡ response_out identifier peer.now response.now name.now out.old) }
{
    if peer.len() != CHALLENGE_LENGTH {
        return Err(Refusal::Size);
    }
    if response.len() != RESPONSE_LENGTH {
        return Err(Refusal::Size);
    }
    let value = response_value(peer, response);
    write(Kind::Response, identifier, &value, name, out)
}

// The length that a packet names.
fn length_field(packet: &[u8]) -> usize
    requires { 4 ≤ length packet.now }
    ensures { result ≡ length_field packet.now }
{
    usize::from(u16::from_be_bytes([packet[2], packet[3]]))
}

// Whether a packet may be read: then its length lies between the least and the slice's.
#[tactic(auto, using(crate::proofs::Laws::earlier), unfolding(crate::specs::Packet::read_code))]
fn readable(kind: Kind, packet: &[u8]) -> Result<(), Refusal>
    ensures answer { result ≡ result_of (read_code kind packet.now) tt }
    ensures inside { OnOk result ((least_length kind ≤ length_field packet.now)
        × (length_field packet.now ≤ length packet.now)) }
{
    let least = kind.least_length();
    if packet.len() < least {
        return Err(Refusal::Shape);
    }
    if packet[0] != kind.packet_code() {
        return Err(Refusal::Shape);
    }
    if packet[4] != kind.value_size() {
        return Err(Refusal::Shape);
    }
    let length = length_field(packet);
    if length < least {
        return Err(Refusal::Shape);
    }
    if packet.len() < length {
        return Err(Refusal::Shape);
    }
    if reserved_set(kind, packet) {
        return Err(Refusal::Shape);
    }
    if LONGEST_NAME < length - least {
        return Err(Refusal::Size);
    }
    Ok(())
}

// Whether a reserved octet is not zero.
#[tactic(auto, using(crate::proofs::Laws::set_append))]
fn reserved_set(kind: Kind, packet: &[u8]) -> bool
    requires { least_length kind ≤ length packet.now }
    ensures { result ≡ any_set (reserved kind packet.now) }
{
    match kind {
        Kind::Challenge => false,
        Kind::Response => any_set(&packet[21..29]) || any_set(&packet[53..54]),
    }
}

// Whether one of these octets is not zero.
fn any_set(octets: &[u8]) -> bool
    ensures { result ≡ any_set octets.now }
{
    octets.iter().any(|octet| *octet != 0)
}

// Some octets of a packet, from a place on.
fn part<const N: usize>(at: usize, packet: &[u8]) -> [u8; N]
    requires { at + N ≤ length packet.now }
    ensures { result ≡ part at N packet.now }
{
    let mut octets = [0u8; N];
    octets.copy_from_slice(&packet[at..at + N]);
    octets
}

// The value of a Response.
fn response_value(peer: &[u8], response: &[u8]) -> [u8; 49]
    requires { (length peer.now ≡ 16) × (length response.now ≡ 24) }
    ensures { result ≡ response_value peer.now response.now }
{
    let mut value = [0u8; 49];
    let (front, rest) = value.split_at_mut(24);
    front[..16].copy_from_slice(peer);
    rest[..24].copy_from_slice(response);
    value
}

// Writes a packet with its value.
fn write(
    kind: Kind,
    identifier: u8,
    value: &[u8],
    name: &[u8],
    out: &mut [u8],
) -> Result<(), Refusal>
    requires { length value.now ≡ value_size kind }
    ensures { (result ≡ result_of (write_code false (packet_of kind identifier value.now name.now)
        name.now out.old) tt)
        × (out.new ≡ write_out false (packet_of kind identifier value.now name.now)
        name.now out.old) }
{
    if LONGEST_NAME < name.len() {
        return Err(Refusal::Size);
    }
    let least = kind.least_length();
    let length = least + name.len();
    if out.len() < length {
        return Err(Refusal::Room);
    }
    let (head, rest) = out.split_at_mut(HEADER_LENGTH);
    head.copy_from_slice(&header(kind, identifier, length));
    let (front, rest) = rest.split_at_mut(value.len());
    front.copy_from_slice(value);
    rest[..name.len()].copy_from_slice(name);
    Ok(())
}

// The octets in front of a value.
fn header(kind: Kind, identifier: u8, length: usize) -> [u8; 5]
    requires { length ≤ 65535 }
    ensures { result ≡ header_of kind identifier length }
{
    let [high, low] = (length as u16).to_be_bytes();
    [kind.packet_code(), identifier, high, low, kind.value_size()]
}
