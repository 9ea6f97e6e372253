// MPPE's keys (RFC 3079, section 3; RFC 3078, section 7.3).
#![tactic(auto, using(crate::proofs::InnerLaws::placed_reduced, crate::proofs::Laws::new_key_length), unfolding(crate::specs::Answers::master_key_answer, crate::specs::Answers::start_key_answer, crate::specs::Answers::new_key_answer, crate::specs::Answers::initial_key_answer, crate::specs::Answers::reduce_answer, crate::specs::Answers::key_changes_answer, crate::specs::Answers::key_answer, answer::specs::Answer::one_code, answer::specs::Answer::two_code, crate::specs::Keys::master_key, crate::specs::Keys::start_key, crate::specs::Keys::new_key, crate::specs::Keys::initial_key))]

ghost use Rattle.std.specs.Prelude.{◌≡◌, true, false, ◌++◌, ◌+◌, ◌≤◌, length, take, drop};
ghost use Rattle.answer.specs.Answer.{one_code, result_of};
ghost use Rattle.octets.specs.Octets.{written, longest_text};
ghost use Rattle.sha_1.specs.Sha1.{sha1 as digest_of};
ghost use Rattle.rc4.specs.Cipher.{key_schedule};
ghost use Rattle.mppe_keys.specs.Keys.{key_length, by_mode, mode_if, magic1, from_client, phrase, key_text, head_of, begins, reduced, rc4, changes, placed as placed_key};
ghost use Rattle.mppe_keys.specs.Answers.{master_key_answer, start_key_answer, new_key_answer, initial_key_answer, reduce_answer, key_change_answer, key_changes_answer, placed_changes, placed_cipher};
ghost use Rattle.mppe_keys.specs.Inner.{Changed};

use answer::Refusal;
use rc4::{Rc4, apply};

// The octets of a hash, of a master key, and of the places that every key has.
pub const KEY_PLACES: usize = 16;
// The octets of an NT-Response.
const RESPONSE_OCTETS: usize = 24;

// The strengths of a key, by its bits.
#[derive(Clone, Copy, Debug, PartialEq, Eq)]
pub enum Strength {
    Bits40,
    Bits56,
    Bits128,
}

// When the session key changes: with each packet, or with each 256th.
#[derive(Clone, Copy, Debug, PartialEq, Eq)]
pub enum Mode {
    Stateless,
    Stateful,
}

// Which end of the link asks.
#[derive(Clone, Copy, Debug, PartialEq, Eq)]
pub enum Role {
    Client,
    Server,
}

// Which way its packets go.
#[derive(Clone, Copy, Debug, PartialEq, Eq)]
pub enum Direction {
    Send,
    Receive,
}

// How many octets a key of a strength has.
pub fn key_length(strength: Strength) -> usize
    ensures { result ≡ key_length strength }
{
    match strength {
        Strength::Bits40 => 8,
        Strength::Bits56 => 8,
        Strength::Bits128 => 16,
    }
}

// Whether a mode is stateful.
pub fn is_stateful(mode: Mode) -> bool
    ensures { result ≡ by_mode mode false true }
{
    mode == Mode::Stateful
}

// The mode that is stateful, or the other. A `From<bool>` would be no plainer: it does not say which mode a yes is.
pub fn mode_if(stateful: bool) -> Mode
    ensures { result ≡ mode_if stateful }
{
    if stateful {
        Mode::Stateful
    } else {
        Mode::Stateless
    }
}

// The master key of a password's hash-hash, 16 octets, and an NT-Response.
pub fn master_key(hash: &[u8], response: &[u8]) -> Result<[u8; 16], Refusal>
    ensures { result ≡ master_key_answer hash.now response.now }
{
    of_length(KEY_PLACES, hash)?;
    of_length(RESPONSE_OCTETS, response)?;
    Ok(front(KEY_PLACES, digest_of(&master_text(hash, response))))
}

// The start key of a master key, for one direction at one end of the link.
pub fn start_key(
    strength: Strength,
    role: Role,
    direction: Direction,
    master: &[u8],
) -> Result<[u8; 16], Refusal>
    ensures { result ≡ start_key_answer strength role direction master.now }
{
    of_length(KEY_PLACES, master)?;
    let digest = key_digest::<180>(master, phrase(role, direction));
    Ok(front(key_octets(strength), digest))
}

// The new key of a start key and a session key, from which both the initial session key and a key change are made. Strength, start and session
// stay apart in all calls: 01 and RFC 3079 name each of them so.
pub fn new_key(strength: Strength, start: &[u8], session: &[u8]) -> Result<[u8; 16], Refusal>
    ensures { result ≡ new_key_answer strength start.now session.now }
{
    let k = key_octets(strength);
    of_length(k, start)?;
    of_length(k, session)?;
    Ok(front(k, key_digest::<112>(start, session)))
}

// The session key that a start key gives before the first key change.
pub fn initial_session_key(strength: Strength, start: &[u8]) -> Result<[u8; 16], Refusal>
    ensures { result ≡ initial_key_answer strength start.now }
{
    let mut key = new_key(strength, start, start)?;
    reduce_front(strength, &mut key);
    Ok(key)
}

// A key with its first octets fixed at 40 and 56 bits.
pub fn reduce(strength: Strength, key: &[u8]) -> Result<[u8; 16], Refusal>
    ensures { result ≡ reduce_answer strength key.now }
{
    of_length(key_octets(strength), key)?;
    let mut places = placed(key);
    reduce_front(strength, &mut places);
    Ok(places)
}

// Whether a key in 16 places begins as reducing leaves it.
#[tactic(auto, using(crate::proofs::InnerLaws::begins_told))]
pub fn begins_reduced(strength: Strength, key: [u8; 16]) -> bool
    ensures { result ≡ begins (head_of strength) key }
{
    key.starts_with(head(strength))
}

// The session key after one key change.
#[tactic(auto, using(crate::proofs::Laws::changes_one), unfolding(crate::specs::Answers::key_change_answer, crate::specs::Answers::key_changes_answer))]
pub fn key_change(strength: Strength, start: &[u8], session: &[u8]) -> Result<[u8; 16], Refusal>
    ensures { result ≡ key_change_answer strength start.now session.now }
{
    key_changes(strength, start, session, 1)
}

// The session key after n key changes.
pub fn key_changes(
    strength: Strength,
    start: &[u8],
    session: &[u8],
    n: usize,
) -> Result<[u8; 16], Refusal>
    ensures { result ≡ key_changes_answer strength start.now session.now n }
{
    let k = key_octets(strength);
    of_length(k, start)?;
    of_length(k, session)?;
    Ok(changed(strength, start, session, n))
}

// The same for keys in 16 places, of which only the first of the strength's octets are read.
#[tactic(auto, unfolding(crate::specs::Answers::placed_changes))]
pub fn placed_key_changes(
    strength: Strength,
    start: [u8; 16],
    session: [u8; 16],
    n: usize,
) -> [u8; 16]
    ensures { result ≡ placed_changes strength start session n }
{
    let k = key_octets(strength);
    changed(strength, &start[..k], &session[..k], n)
}

// RC4 freshly keyed with a session key in 16 places, of which only the first of the strength's octets are read. A call of its own, as
// `rc4::apply`.
#[inline(never)]
#[tactic(auto, unfolding(crate::specs::Answers::placed_cipher))]
pub fn placed_cipher(strength: Strength, session: [u8; 16]) -> Rc4
    ensures { result ≡ placed_cipher strength session }
{
    let octets = key_octets(strength);
    cipher_of(&session[..octets])
}

// Refuses octets that are not so many.
pub fn of_length(n: usize, octets: &[u8]) -> Result<(), Refusal>
    ensures { result ≡ result_of (one_code n octets.now) tt }
{
    if octets.len() == n {
        Ok(())
    } else {
        Err(Refusal::Size)
    }
}

// How many octets a key has, with the bounds that indices rest on; the contract of `key_length` stays as it is.
#[tactic(auto, using(crate::proofs::Laws::key_least, crate::proofs::Laws::key_most))]
fn key_octets(strength: Strength) -> usize
    ensures { (result ≡ key_length strength) × (8 ≤ result) × (result ≤ 16) }
{
    key_length(strength)
}

// RC4 freshly keyed.
#[tactic(auto, using(rc4::proofs::Laws::keyed_done))]
fn cipher_of(key: &[u8]) -> Rc4
    requires { (1 ≤ length key.now) × (length key.now ≤ 16) }
    ensures { result ≡ key_schedule key.now }
{
    Rc4::keyed(key).unwrap()
}

// What is hashed for a master key.
fn master_text(hash: &[u8], response: &[u8]) -> [u8; 67]
    requires { (length hash.now ≡ 16) × (length response.now ≡ 24) }
    ensures { result ≡ hash.now ++ response.now ++ magic1 }
{
    let mut text = [0u8; 67];
    put(hash, 0, &mut text);
    put(response, 16, &mut text);
    put(b"This is the MPPE Master Key", 40, &mut text);
    text
}

// What is hashed behind a master key.
#[tactic(auto, unfolding(crate::specs::Keys::magic2, crate::specs::Keys::magic3))]
fn phrase(role: Role, direction: Direction) -> &'static [u8]
    ensures { (result.now ≡ phrase role direction) × (length result.now ≤ 84) }
{
    if from_client(role, direction) {
        b"On the client side, this is the send key; on the server side, it is the receive key."
    } else {
        b"On the client side, this is the receive key; on the server side, it is the send key."
    }
}

// Whether it is the client that sends what goes this way.
fn from_client(role: Role, direction: Direction) -> bool
    ensures { result ≡ from_client role direction }
{
    (role == Role::Client) == (direction == Direction::Send)
}

// The digest that a key of two parts is the front of, made in N octets: 112 hold what is hashed of two keys, 180 of a key and a phrase.
fn key_digest<const N: usize>(first: &[u8], second: &[u8]) -> [u8; 20]
    requires { (length first.now + length second.now + 80 ≤ N) × (N ≤ 180) }
    ensures { result ≡ digest_of (key_text first.now second.now) }
{
    let mut text = [0u8; N];
    put_key_text(first, second, &mut text);
    digest_of(&text[..first.len() + second.len() + 80])
}

// Writes what is hashed for a key of two parts into the front of a buffer.
fn put_key_text(first: &[u8], second: &[u8], out: &mut [u8])
    requires { length first.now + length second.now + 80 ≤ length out.old }
    ensures { out.new ≡ written (key_text first.now second.now) out.old }
{
    let middle = first.len() + 40;
    put(first, 0, out);
    put(&[0u8; 40], first.len(), out);
    put(second, middle, out);
    put(&[0xF2u8; 40], middle + second.len(), out);
}

// Writes octets into a buffer.
fn put(octets: &[u8], at: usize, out: &mut [u8])
    requires { at + length octets.now ≤ length out.old }
    ensures { out.new ≡ take at out.old ++ octets.now
        ++ drop (at + length octets.now) out.old }
{
    out[at..at + octets.len()].copy_from_slice(octets);
}

// The digest of a short text.
#[tactic(auto, using(sha_1::specs::Laws::sha1_done))]
fn digest_of(text: &[u8]) -> [u8; 20]
    requires { length text.now ≤ longest_text }
    ensures { result ≡ digest_of text.now }
{
    sha_1::sha1(text).unwrap()
}

// The first octets of a digest, in 16 places.
fn front(n: usize, digest: [u8; 20]) -> [u8; 16]
    requires { n ≤ 16 }
    ensures { result ≡ placed_key (take n digest) }
{
    placed(&digest[..n])
}

// A key in 16 places.
#[tactic(auto, using(octets::specs::Laws::drop_zeros), unfolding(crate::specs::Keys::placed))]
fn placed(key: &[u8]) -> [u8; 16]
    requires { length key.now ≤ 16 }
    ensures { result ≡ placed_key key.now }
{
    let mut places = [0u8; 16];
    places[..key.len()].copy_from_slice(key);
    places
}

// Fixes the first octets of a key in place.
#[tactic(auto, unfolding(crate::specs::Keys::reduced))]
fn reduce_front(strength: Strength, key: &mut [u8])
    requires { 3 ≤ length key.old }
    ensures { key.new ≡ reduced strength key.old }
{
    let fixed = head(strength);
    key[..fixed.len()].copy_from_slice(fixed);
}

// What the first octets of a key are fixed to, three at 40 bits and one at 56.
#[tactic(auto, unfolding(crate::specs::Keys::head_of))]
fn head(strength: Strength) -> &'static [u8]
    ensures { (result.now ≡ head_of strength) × (length result.now ≤ 3) }
{
    match strength {
        Strength::Bits40 => &[0xD1, 0x26, 0x9E],
        Strength::Bits56 => &[0xD1],
        Strength::Bits128 => &[],
    }
}

// The session key after n key changes, in 16 places.
fn changed(strength: Strength, start: &[u8], session: &[u8], n: usize) -> [u8; 16]
    requires { (length start.now ≡ key_length strength) × (length session.now ≡ key_length strength) }
    ensures { result ≡ placed_key (changes strength start.now n session.now) }
{
    let k = key_octets(strength);
    let mut text = [0u8; 112];
    put_key_text(start, session, &mut text);
    change_times(strength, &mut text, n);
    placed(&text[k + 40..2 * k + 40])
}

// n key changes in a text that is hashed.
#[tactic(auto, using(crate::proofs::InnerLaws::changed_none, crate::proofs::InnerLaws::changed_more))]
fn change_times(strength: Strength, text: &mut [u8; 112], n: usize)
    ensures { Changed strength n text.old text.new }
{
    for _ in 0..n {
        change(strength, text);
    }
}

// One key change in a text that is hashed: the next session key is written where the last one stands.
fn change(strength: Strength, text: &mut [u8; 112])
    ensures { Changed strength 1 text.old text.new }
{
    let k = key_octets(strength);
    let digest = digest_of(&text[..2 * k + 80]);
    put_next_key(strength, &digest[..k], &mut text[k + 40..]);
}

// RC4 keyed with the interim key, applied to it and reduced, into the front of a buffer.
fn put_next_key(strength: Strength, interim: &[u8], out: &mut [u8])
    requires { (length interim.now ≡ key_length strength) × (key_length strength ≤ length out.old) }
    ensures { out.new ≡ written (reduced strength (rc4 interim.now interim.now)) out.old }
{
    apply(interim, interim, out).unwrap();
    reduce_front(strength, out);
}
