// HMAC over SHA-256 (RFC 2104). No text is copied: each hash goes on from the state after the block of the key and its pad.
ghost use Rattle.std.specs.Prelude.{◌≡◌};
ghost use Rattle.sha256.specs.Hmac.{xored as xored_by, hmac_answer};
ghost use Rattle.sha256.specs.Inner.{block_answer, behind_answer};

use crate::{initial, octets_in, sha256};
use answer::Refusal;
use blocks::BlockState;
use octets::LONGEST_TEXT;

// The inner and the outer pad.
const IPAD: u8 = 0x36;

const OPAD: u8 = 0x5C;

// The code of a key and a text of 0 to 65,535 octets each; longer ones are refused, before any octet is hashed.
pub fn hmac_sha256(key: &[u8], text: &[u8]) -> Result<[u8; 32], Refusal>
    ensures { result ≡ hmac_answer key.now text.now }
{
    if LONGEST_TEXT < text.len() {
        return Err(Refusal::Size);
    }
    let block = key_block(key)?;
    let inner = digest_behind(xored(block, IPAD), text)?;
    digest_behind(xored(block, OPAD), &inner)
}

// The key as one block: hashed first where it is longer, then zeros. By `octets::copy`: with `copy_from_slice` the proof did not close.
fn key_block(key: &[u8]) -> Result<[u8; 64], Refusal>
    ensures { result ≡ block_answer key.now }
{
    let mut block = [0u8; 64];
    if 64 < key.len() {
        octets::copy(&sha256(key)?, &mut block);
    } else {
        octets::copy(key, &mut block);
    }
    Ok(block)
}

// A block, each octet XORed with a pad.
fn xored(block: [u8; 64], pad: u8) -> [u8; 64]
    ensures { result ≡ xored_by pad block }
{
    let mut out = block;
    for octet in out.iter_mut() {
        *octet ^= pad;
    }
    out
}

// The digest of a block and a text behind it.
fn digest_behind(block: [u8; 64], text: &[u8]) -> Result<[u8; 32], Refusal>
    ensures { result ≡ behind_answer block text.now }
{
    Ok(octets_in(blocks::closed(initial().compress(&block), 1, text)?))
}
