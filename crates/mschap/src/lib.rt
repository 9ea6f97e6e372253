// MS-CHAPv2's hashes, responses and authenticator string, and the checks of the last two (RFC 2759, sections 8.1 to 8.8).
#![tactic(auto, unfolding(crate::specs::Answers::password_hash_answer, crate::specs::Answers::hash_hash_answer, crate::specs::Answers::challenge_hash_answer, crate::specs::Answers::challenge_response_answer, crate::specs::Answers::nt_response_answer, crate::specs::Answers::authenticator_string_answer, crate::specs::Answers::check_response_answer, crate::specs::Answers::check_authenticator_answer, crate::specs::Mschap::password_hash, crate::specs::Mschap::hash_hash, crate::specs::Mschap::challenge_hash, crate::specs::Mschap::nt_response, crate::specs::Mschap::authenticator_string, crate::specs::Mschap::hex_digit))]

ghost use Rattle.std.specs.Prelude.{◌≡◌, ◌++◌, ◌+◌, ◌<◌, ◌≤◌, length};
ghost use Rattle.octets.specs.Octets.{written, longest_text};
ghost use Rattle.md4.specs.Md4.{md4 as md4_of};
ghost use Rattle.sha_1.specs.Sha1.{sha1 as sha1_of};
ghost use Rattle.des.specs.Des.{encrypted};
ghost use Rattle.mschap.specs.Name.{hashed_name};
ghost use Rattle.mschap.specs.Mschap.{challenge_response, hex_digit, encoded as encoded_of, signature as signature_of};
ghost use Rattle.mschap.specs.Answers.{password_hash_answer, hash_hash_answer, challenge_hash_answer, challenge_response_answer, nt_response_answer, authenticator_string_answer, check_response_answer, check_authenticator_answer};

use answer::Refusal;

// The octets of the longest password.
const LONGEST_PASSWORD: usize = 512;
// The octets of the longest name.
const LONGEST_NAME: usize = 256;
// The octets of a peer's or an authenticator's challenge.
const CHALLENGE_LENGTH: usize = 16;
// The octets of a password's hash, and of the hash of that.
const HASH_LENGTH: usize = 16;
// The octets of a challenge hash.
const CHALLENGE_HASH_LENGTH: usize = 8;
// The octets of an NT-Response.
const RESPONSE_LENGTH: usize = 24;
// The octets of an authenticator string.
const STRING_LENGTH: usize = 42;
// What stands between a domain and a user name.
const BACKSLASH: u8 = 0x5C;

// The hash of a password (8.3).
pub fn password_hash(password: &[u8]) -> Result<[u8; 16], Refusal>
    ensures { result ≡ password_hash_answer password.now }
{
    if LONGEST_PASSWORD < password.len() {
        return Err(Refusal::Size);
    }
    if password.len() % 2 != 0 {
        return Err(Refusal::Size);
    }
    Ok(md4_of(password))
}

// The hash of a password's hash (8.4).
pub fn hash_hash(hash: &[u8]) -> Result<[u8; 16], Refusal>
    ensures { result ≡ hash_hash_answer hash.now }
{
    if hash.len() != HASH_LENGTH {
        return Err(Refusal::Size);
    }
    Ok(md4_of(hash))
}

// The challenge hash of both challenges and a user name (8.2).
pub fn challenge_hash(peer: &[u8], authenticator: &[u8], name: &[u8]) -> Result<[u8; 8], Refusal>
    ensures { result ≡ challenge_hash_answer peer.now authenticator.now name.now }
{
    if peer.len() != CHALLENGE_LENGTH {
        return Err(Refusal::Size);
    }
    if authenticator.len() != CHALLENGE_LENGTH {
        return Err(Refusal::Size);
    }
    if LONGEST_NAME < name.len() {
        return Err(Refusal::Size);
    }
    let digest = sha1_of(peer, authenticator, hashed_name(name));
    let mut hash = [0u8; 8];
    hash.copy_from_slice(&digest[..CHALLENGE_HASH_LENGTH]);
    Ok(hash)
}

// The response to a challenge hash under a password's hash (8.5).
pub fn challenge_response(challenge: &[u8], hash: &[u8]) -> Result<[u8; 24], Refusal>
    ensures { result ≡ challenge_response_answer challenge.now hash.now }
{
    if challenge.len() != CHALLENGE_HASH_LENGTH {
        return Err(Refusal::Size);
    }
    if hash.len() != HASH_LENGTH {
        return Err(Refusal::Size);
    }
    Ok(response_of(challenge, hash))
}

// The NT-Response to both challenges for a user name and a password (8.1).
// Challenges, name and password stay parameters here and below, as `udukemb_nt_response` and the other calls from C hand them on.
pub fn nt_response(
    authenticator: &[u8],
    peer: &[u8],
    name: &[u8],
    password: &[u8],
) -> Result<[u8; 24], Refusal>
    ensures { result ≡ nt_response_answer authenticator.now peer.now name.now password.now }
{
    let hash = password_hash(password)?;
    let challenge = challenge_hash(peer, authenticator, name)?;
    Ok(response_of(&challenge, &hash))
}

// The string by which an authenticator answers an NT-Response (8.7).
pub fn authenticator_string(
    password: &[u8],
    response: &[u8],
    peer: &[u8],
    authenticator: &[u8],
    name: &[u8],
) -> Result<[u8; 42], Refusal>
    ensures { result ≡ authenticator_string_answer password.now response.now peer.now
        authenticator.now name.now }
{
    if response.len() != RESPONSE_LENGTH {
        return Err(Refusal::Size);
    }
    let hash = password_hash(password)?;
    let challenge = challenge_hash(peer, authenticator, name)?;
    Ok(signature(&hash, response, &challenge))
}

// Whether a received NT-Response is the one that the password gives.
pub fn check_response(
    authenticator: &[u8],
    peer: &[u8],
    name: &[u8],
    password: &[u8],
    received: &[u8],
) -> Result<bool, Refusal>
    ensures { result ≡ check_response_answer authenticator.now peer.now name.now
        password.now received.now }
{
    if received.len() != RESPONSE_LENGTH {
        return Err(Refusal::Size);
    }
    let own = nt_response(authenticator, peer, name, password)?;
    Ok(octets::same(&own, received))
}

// Whether a received authenticator string is the one that the password gives (8.8).
pub fn check_authenticator(
    password: &[u8],
    response: &[u8],
    peer: &[u8],
    authenticator: &[u8],
    name: &[u8],
    received: &[u8],
) -> Result<bool, Refusal>
    ensures { result ≡ check_authenticator_answer password.now response.now peer.now
        authenticator.now name.now received.now }
{
    if received.len() != STRING_LENGTH {
        return Err(Refusal::Size);
    }
    let expected = authenticator_string(password, response, peer, authenticator, name)?;
    Ok(octets::same(&expected, received))
}

// The part of a name that is hashed: what follows its first backslash, or all of it where there is none. Every call that hashes a name takes it from here.
fn hashed_name(name: &[u8]) -> &[u8]
    ensures { result.now ≡ hashed_name name.now }
{
    match name.iter().position(|octet| *octet == BACKSLASH) {
        Some(i) => &name[i + 1..],
        None => name,
    }
}

// The three blocks of a response.
fn response_of(challenge: &[u8], hash: &[u8]) -> [u8; 24]
    requires { (length challenge.now ≡ 8) × (length hash.now ≡ 16) }
    ensures { result ≡ challenge_response challenge.now hash.now }
{
    let mut key = [0u8; 21];
    key[..HASH_LENGTH].copy_from_slice(hash);
    let first = encipher(&key[..7], challenge);
    let second = encipher(&key[7..14], challenge);
    let third = encipher(&key[14..], challenge);
    let mut response = [0u8; 24];
    join(&first, &second, &third, &mut response);
    response
}

// The string of a password's hash, an NT-Response and a challenge hash.
fn signature(hash: &[u8; 16], response: &[u8], challenge: &[u8; 8]) -> [u8; 42]
    requires { length response.now ≡ 24 }
    ensures { result ≡ signature_of hash.now response.now challenge.now }
{
    let hash_hash = md4_of(hash);
    let digest = sha1_of(
        &hash_hash,
        response,
        b"Magic server to client signing constant",
    );
    let last = sha1_of(
        &digest,
        challenge,
        b"Pad to make it do more than one iteration",
    );
    encoded(&last)
}

// "S=" and the hexadecimal digits of a digest.
fn encoded(digest: &[u8; 20]) -> [u8; 42]
    ensures { result ≡ encoded_of digest.now }
{
    let mut string = [0u8; 42];
    string[..2].copy_from_slice(b"S=");
    for (i, octet) in digest.iter().enumerate() {
        string[2 * i + 2] = digit(*octet / 16);
        string[2 * i + 3] = digit(*octet % 16);
    }
    string
}

// A hexadecimal digit, in upper case.
fn digit(x: u8) -> u8
    requires { x < 16 }
    ensures { result ≡ hex_digit x }
{
    if x < 10 { b'0' + x } else { b'A' + (x - 10) }
}

// Three texts, one behind the other, into the front of a buffer.
fn join(a: &[u8], b: &[u8], c: &[u8], out: &mut [u8])
    requires { length a.now + length b.now + length c.now ≤ length out.old }
    ensures { out.new ≡ written (a.now ++ b.now ++ c.now) out.old }
{
    let (first, rest) = out.split_at_mut(a.len());
    first.copy_from_slice(a);
    let (second, rest) = rest.split_at_mut(b.len());
    second.copy_from_slice(b);
    rest[..c.len()].copy_from_slice(c);
}

// MD4 of a short text.
#[tactic(auto, using(md4::specs::Laws::md4_done))]
fn md4_of(text: &[u8]) -> [u8; 16]
    requires { length text.now ≤ longest_text }
    ensures { result ≡ md4_of text.now }
{
    md4::md4(text).unwrap()
}

// SHA-1 over three texts, one behind the other: two challenges and a name are the longest.
fn sha1_of(a: &[u8], b: &[u8], c: &[u8]) -> [u8; 20]
    requires { length a.now + length b.now + length c.now ≤ 288 }
    ensures { result ≡ sha1_of (a.now ++ b.now ++ c.now) }
{
    let mut text = [0u8; 288];
    join(a, b, c, &mut text);
    sha_1::sha1(&text[..a.len() + b.len() + c.len()]).unwrap()
}

// A block enciphered under seven octets (8.6).
#[tactic(auto, using(des::specs::Laws::encrypt_done))]
fn encipher(key: &[u8], block: &[u8]) -> [u8; 8]
    requires { (length key.now ≡ 7) × (length block.now ≡ 8) }
    ensures { result ≡ encrypted key.now block.now }
{
    des::encrypt(key, block).unwrap()
}
