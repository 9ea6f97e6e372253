// What the benchmark calls from C: digests, ciphers, keys and packets over numbers and octet slices. A result is cut to the room lent.
#![tactic(auto)]

ghost use Rattle.std.specs.Prelude.{◌≡◌, ◌++◌, ◌≤◌, replicate};
ghost use Rattle.answer.specs.Answer.{done, number_of, value_of};
ghost use Rattle.md4.specs.Md4.{md4_answer};
ghost use Rattle.sha_1.specs.Sha1.{sha1_answer};
ghost use Rattle.sha256.specs.Sha256.{sha256_answer};
ghost use Rattle.sha256.specs.Hmac.{hmac_answer};
ghost use Rattle.des.specs.Des.{encrypt_answer};
ghost use Rattle.rc4.specs.Answers.{apply_answer, apply_out};
ghost use Rattle.mppe_keys.specs.Answers.{key_changes_answer};
ghost use Rattle.mppe_keys.specs.declared.Strength.TheVariants.{Bits128};
ghost use Rattle.mppe.specs.Link.{longest_plain, farthest, seal_result, open_result};
ghost use Rattle.bench.specs.Copied.{copied, strength_of, link_at};
ghost use Rattle.bench.specs.Cut.{Cut};

use answer::Refusal;
use mppe::Link;
use mppe_keys::{Strength, mode_if};
use mppe_pieces::Walk;
use rc4::Rc4;

// Hands over an answer's octets, zeros where it is refused, and its number.
#[tactic(auto, unfolding(crate::specs::Copied::copied))]
fn handed<const N: usize>(given: Result<[u8; N], Refusal>, out: &mut [u8]) -> u8
    ensures { (result ≡ number_of given.entry) × (out.new ≡ copied (value_of (replicate N 0) given.entry) out.old) }
{
    octets::copy(&given.unwrap_or([0; N]), out);
    answer::number_of(&given)
}

// MD4 of a text.
#[unsafe(no_mangle)]
pub extern "C" fn bench_md4(text: &[u8], out: &mut [u8]) -> u8
    ensures { (result ≡ number_of (md4_answer text.now))
        × (out.new ≡ copied (value_of (replicate 16 0) (md4_answer text.now)) out.old) }
{
    handed(md4::md4(text), out)
}

// SHA-1 of a text.
#[unsafe(no_mangle)]
pub extern "C" fn bench_sha1(text: &[u8], out: &mut [u8]) -> u8
    ensures { (result ≡ number_of (sha1_answer text.now))
        × (out.new ≡ copied (value_of (replicate 20 0) (sha1_answer text.now)) out.old) }
{
    handed(sha_1::sha1(text), out)
}

// SHA-256 of a text.
#[unsafe(no_mangle)]
pub extern "C" fn bench_sha256(text: &[u8], out: &mut [u8]) -> u8
    ensures { (result ≡ number_of (sha256_answer text.now))
        × (out.new ≡ copied (value_of (replicate 32 0) (sha256_answer text.now)) out.old) }
{
    handed(sha256::sha256(text), out)
}

// HMAC-SHA256 of a key and a text.
#[unsafe(no_mangle)]
pub extern "C" fn bench_hmac_sha256(key: &[u8], text: &[u8], out: &mut [u8]) -> u8
    ensures { (result ≡ number_of (hmac_answer key.now text.now))
        × (out.new ≡ copied (value_of (replicate 32 0) (hmac_answer key.now text.now)) out.old) }
{
    handed(sha256::hmac_sha256(key, text), out)
}

// DES of a block.
#[unsafe(no_mangle)]
pub extern "C" fn bench_des(key: &[u8], block: &[u8], out: &mut [u8]) -> u8
    ensures { (result ≡ number_of (encrypt_answer key.now block.now))
        × (out.new ≡ copied (value_of (replicate 8 0) (encrypt_answer key.now block.now)) out.old) }
{
    handed(des::encrypt(key, block), out)
}

// RC4 of a text under a fresh key.
#[unsafe(no_mangle)]
pub extern "C" fn bench_rc4(key: &[u8], text: &[u8], out: &mut [u8]) -> u8
    ensures { (result ≡ number_of (apply_answer key.now text.now out.old))
        × (out.new ≡ apply_out key.now text.now out.old) }
{
    answer::number_of(&rc4::apply(key, text, out))
}

// A session key of 128 bits after n key changes.
#[unsafe(no_mangle)]
pub extern "C" fn bench_key_changes(start: &[u8], session: &[u8], n: usize, out: &mut [u8]) -> u8
    ensures { (result ≡ number_of (key_changes_answer Bits128 start.now session.now n))
        × (out.new ≡ copied (value_of (replicate 16 0) (key_changes_answer Bits128 start.now session.now n)) out.old) }
{
    handed(
        mppe_keys::key_changes(Strength::Bits128, start, session, n),
        out,
    )
}

// A plain packet sealed with a link of 40 bits, or of 128.
#[unsafe(no_mangle)]
pub extern "C" fn bench_seal(
    bits40: bool,
    stateful: bool,
    start: &[u8],
    session: &[u8],
    count: u16,
    plain: &[u8],
    out: &mut [u8],
) -> u8
    ensures { (result ≡ (seal_result longest_plain (link_at bits40 stateful start.now session.now count)
        plain.now out.old).outcome.answer)
        × (out.new ≡ (seal_result longest_plain (link_at bits40 stateful start.now session.now count)
        plain.now out.old).buffer) }
{
    let link = link_at(bits40, stateful, start, session, count);
    link.seal(plain, out).answer
}

// A sealed packet opened with a link of 40 bits, or of 128.
#[unsafe(no_mangle)]
pub extern "C" fn bench_open(
    bits40: bool,
    stateful: bool,
    start: &[u8],
    session: &[u8],
    count: u16,
    packet: &[u8],
    out: &mut [u8],
) -> u8
    ensures { (result ≡ (open_result longest_plain farthest (link_at bits40 stateful start.now session.now count)
        packet.now out.old).outcome.answer)
        × (out.new ≡ (open_result longest_plain farthest (link_at bits40 stateful start.now session.now count)
        packet.now out.old).buffer) }
{
    let link = link_at(bits40, stateful, start, session, count);
    link.open(packet, out).answer
}

// A sealed packet opened in pieces of some octets, the last one shorter where they do not divide the data.
#[unsafe(no_mangle)]
pub extern "C" fn bench_pieces(
    bits40: bool,
    stateful: bool,
    start: &[u8],
    session: &[u8],
    count: u16,
    step: usize,
    front: &[u8],
    text: &[u8],
    out: &mut [u8],
) -> u8
    ensures { result ≡ done
        → out.new ≡ (open_result longest_plain farthest (link_at bits40 stateful start.now session.now count)
        (front.now ++ text.now) out.old).buffer }
{
    if step == 0 {
        return answer::SIZE;
    }
    let link = link_at(bits40, stateful, start, session, count);
    let begun = Walk::begin(link, front, text.len(), out.len());
    let last = feed_all(begun.walk, step, text, out);
    last.end().answer
}

// Feeds a text in pieces of some octets.
fn feed_all(first: Walk, step: usize, text: &[u8], out: &mut [u8]) -> Walk
    requires { 1 ≤ step }
    ensures { Cut first out.old text.now result out.new }
{
    let mut walk = first;
    for piece in text.chunks(step) {
        walk = walk.feed(piece, out).walk;
    }
    walk
}

// A link record of its parts, each key cut to 16 places or with zeros behind it; its box is 0 to 255 in order, and it does not wait.
fn link_at(bits40: bool, stateful: bool, start: &[u8], session: &[u8], count: u16) -> Link
    ensures { result ≡ link_at bits40 stateful start.now session.now count }
{
    let strength = strength_of(bits40);
    let mode = mode_if(stateful);
    let mut first = [0u8; 16];
    let mut second = [0u8; 16];
    octets::copy(start, &mut first);
    octets::copy(session, &mut second);
    Link {
        strength,
        mode,
        start: first,
        session: second,
        count,
        state: Rc4::unkeyed(),
        waiting: false,
    }
}

// 40 bits, or 128.
fn strength_of(bits40: bool) -> Strength
    ensures { result ≡ strength_of bits40 }
{
    if bits40 {
        Strength::Bits40
    } else {
        Strength::Bits128
    }
}
