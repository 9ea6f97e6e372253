// The binding key of SSTP (MS-SSTP, section 3.2.5.2.4).
#![tactic(auto, unfolding(crate::specs::Binding::base_key_answer, crate::specs::Binding::binding_key_answer, crate::specs::Binding::binding_key, crate::specs::Binding::key_answer, answer::specs::Answer::one_code, answer::specs::Answer::two_code))]

ghost use Rattle.std.specs.Prelude.{◌≡◌, [], ◌∷◌, ◌++◌, length};
ghost use Rattle.sha256.specs.Hmac.{hmac};
ghost use Rattle.sstp.specs.Binding.{fitted as fitted_material, seed, length_octets, base_key_answer, binding_key_answer};

use answer::Refusal;
use mppe_keys::{KEY_PLACES, Role, of_length};
use octets::LONGEST_TEXT;

// The base key of an end's two start keys, 16 octets each; other lengths are refused as `size`.
pub fn base_key(role: Role, send: &[u8], receive: &[u8]) -> Result<[u8; 32], Refusal>
    ensures { result ≡ base_key_answer role send.now receive.now }
{
    of_length(KEY_PLACES, send)?;
    of_length(KEY_PLACES, receive)?;
    Ok(match role {
        Role::Client => both_keys(send, receive),
        Role::Server => both_keys(receive, send),
    })
}

// The binding key of a base key, or of other key material of 0 to 65,535 octets; more are refused as `size`.
pub fn binding_key(material: &[u8]) -> Result<[u8; 32], Refusal>
    ensures { result ≡ binding_key_answer material.now }
{
    if LONGEST_TEXT < material.len() {
        return Err(Refusal::Size);
    }
    Ok(code_of(fitted(material)))
}

// Two start keys, one behind the other.
fn both_keys(first: &[u8], second: &[u8]) -> [u8; 32]
    requires { (length first.now ≡ 16) × (length second.now ≡ 16) }
    ensures { result ≡ first.now ++ second.now }
{
    let mut key = [0u8; 32];
    key[..KEY_PLACES].copy_from_slice(first);
    key[KEY_PLACES..].copy_from_slice(second);
    key
}

// Key material cut to 32 octets, or with zeros at its end.
#[tactic(auto, using(octets::specs::Laws::drop_zeros), unfolding(crate::specs::Binding::fitted))]
fn fitted(material: &[u8]) -> [u8; 32]
    ensures { result ≡ fitted_material material.now }
{
    let mut key = [0u8; 32];
    let n = material.len().min(32);
    key[..n].copy_from_slice(&material[..n]);
    key
}

// The code of the binding key's text: the seed, the length 32 with its low octet first, and the number of this block.
#[tactic(auto, using(sha256::specs::Laws::hmac_done), unfolding(crate::specs::Binding::seed))]
fn code_of(key: [u8; 32]) -> [u8; 32]
    ensures { result ≡ hmac key (seed ++ length_octets ++ 0x01 ∷ []) }
{
    sha256::hmac_sha256(&key, b"SSTP inner method derived CMK\x20\x00\x01").unwrap()
}
