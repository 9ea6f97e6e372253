// SHA-256 (FIPS 180-4) and HMAC over it (RFC 2104) of lent texts.
#![tactic(auto, unfolding(crate::specs::Sha256::sha256_answer, crate::specs::Sha256::sha256, crate::specs::Hmac::hmac_answer, crate::specs::Inner::block_answer, crate::specs::Inner::behind_answer, blocks::specs::Inner::closed_answer))]

mod hmac;

ghost use Rattle.std.specs.Prelude.{◌≡◌, ◌*◌, ◌<◌, ◌≤◌};
ghost use Rattle.blocks.specs.Blocks.{next_word, schedule as words, rounds};
ghost use Rattle.octets.specs.declared.Order.TheVariants.{HighestFirst};
ghost use Rattle.sha256.specs.Sha256.{ch, maj, big_sigma, small_sigma, initial as initial_value, late_word, round as round_of, added as sums, compress as compressed, octets_in, sha256_answer};

use answer::Refusal;
use blocks::BlockState;
pub use hmac::hmac_sha256;
use octets::Order;

// 4.2.2: the constants.
const K: [u32; 64] = [
    0x428a2f98, 0x71374491, 0xb5c0fbcf, 0xe9b5dba5, 0x3956c25b, 0x59f111f1, 0x923f82a4, 0xab1c5ed5,
    0xd807aa98, 0x12835b01, 0x243185be, 0x550c7dc3, 0x72be5d74, 0x80deb1fe, 0x9bdc06a7, 0xc19bf174,
    0xe49b69c1, 0xefbe4786, 0x0fc19dc6, 0x240ca1cc, 0x2de92c6f, 0x4a7484aa, 0x5cb0a9dc, 0x76f988da,
    0x983e5152, 0xa831c66d, 0xb00327c8, 0xbf597fc7, 0xc6e00bf3, 0xd5a79147, 0x06ca6351, 0x14292967,
    0x27b70a85, 0x2e1b2138, 0x4d2c6dfc, 0x53380d13, 0x650a7354, 0x766a0abb, 0x81c2c92e, 0x92722c85,
    0xa2bfe8a1, 0xa81a664b, 0xc24b8b70, 0xc76c51a3, 0xd192e819, 0xd6990624, 0xf40e3585, 0x106aa070,
    0x19a4c116, 0x1e376c08, 0x2748774c, 0x34b0bcb5, 0x391c0cb3, 0x4ed8aa4a, 0x5b9cca4f, 0x682e6ff3,
    0x748f82ee, 0x78a5636f, 0x84c87814, 0x8cc70208, 0x90befffa, 0xa4506ceb, 0xbef9a3f7, 0xc67178f2,
];

// The hash value, and the working variables of a block's rounds.
#[derive(Clone, Copy)]
struct State {
    a: u32,
    b: u32,
    c: u32,
    d: u32,
    e: u32,
    f: u32,
    g: u32,
    h: u32,
}

// The digest of a text of 0 to 65,535 octets; a longer one is refused.
pub fn sha256(text: &[u8]) -> Result<[u8; 32], Refusal>
    ensures { result ≡ sha256_answer text.now }
{
    Ok(octets_in(blocks::closed(initial(), 0, text)?))
}

impl BlockState for State {
    ghost compressed = { compressed };

    ghost order = { HighestFirst };

    fn order() -> Order {
        Order::HighestFirst
    }

    fn compress(self, block: &[u8; 64]) -> State {
        let mut w = [0u32; 64];
        schedule(block, &mut w);
        let s1 = sixteen(self, &w, 0);
        let s2 = sixteen(s1, &w, 1);
        let s3 = sixteen(s2, &w, 2);
        let s4 = sixteen(s3, &w, 3);
        added(self, s4)
    }
}

// The message schedule of a block, into a lent array: a returned one is copied, which takes 2 hundredths longer.
fn schedule(block: &[u8; 64], w: &mut [u32; 64])
    ensures { w.new ≡ words (next_word late_word block.now) 64 }
{
    w[..16].copy_from_slice(&blocks::words_in(Order::HighestFirst, block));
    for t in 16..64 {
        w[t] = late_word(w, t);
    }
}

// Word t of the schedule, from those before it.
fn late_word(w: &[u32; 64], t: usize) -> u32
    requires { (16 ≤ t) × (t < 64) }
    ensures { result ≡ late_word w.now t }
{
    let s0 = small_sigma(7, 18, 3, w[t - 15]);
    let s1 = small_sigma(17, 19, 10, w[t - 2]);
    s1.wrapping_add(w[t - 7])
        .wrapping_add(s0)
        .wrapping_add(w[t - 16])
}

// Sixteen rounds, from round 16 * q on. Not shared with the other digests: md4's round says why.
fn sixteen(s: State, w: &[u32; 64], q: usize) -> State
    requires { q < 4 }
    ensures { result ≡ rounds (round_of w.now) (16 * q) 16 s }
{
    let mut x = s;
    for i in 0..16 {
        x = round(x, w, 16 * q + i);
    }
    x
}

// Round t. What waits longest for the round before is added last.
fn round(s: State, w: &[u32; 64], t: usize) -> State
    requires { t < 64 }
    ensures { result ≡ round_of w.now t s }
{
    let chosen = ch(s.e, s.f, s.g);
    let majority = maj(s.a, s.b, s.c);
    let k = K[t];
    let t1 = s
        .h
        .wrapping_add(k)
        .wrapping_add(w[t])
        .wrapping_add(chosen)
        .wrapping_add(big_sigma(6, 11, 25, s.e));
    let t2 = big_sigma(2, 13, 22, s.a).wrapping_add(majority);
    State {
        a: t1.wrapping_add(t2),
        b: s.a,
        c: s.b,
        d: s.c,
        e: s.d.wrapping_add(t1),
        f: s.e,
        g: s.f,
        h: s.g,
    }
}

// 4.1.2: a bit of y where x has one, and of z elsewhere.
fn ch(x: u32, y: u32, z: u32) -> u32
    ensures { result ≡ ch x y z }
{
    (x & y) ^ (!x & z)
}

// 4.1.2: the bit that most of three have.
fn maj(x: u32, y: u32, z: u32) -> u32
    ensures { result ≡ maj x y z }
{
    (x & y) ^ (x & z) ^ (y & z)
}

// 4.1.2: Σ, three rotations of a word.
fn big_sigma(i: u32, j: u32, n: u32, x: u32) -> u32
    requires { (0 < i) × (i < 32) × (0 < j) × (j < 32) × (0 < n) × (n < 32) }
    ensures { result ≡ big_sigma i j n x }
{
    x.rotate_right(i) ^ x.rotate_right(j) ^ x.rotate_right(n)
}

// 4.1.2: σ, two rotations and a shift.
fn small_sigma(i: u32, j: u32, n: u32, x: u32) -> u32
    requires { (0 < i) × (i < 32) × (0 < j) × (j < 32) × (n < 32) }
    ensures { result ≡ small_sigma i j n x }
{
    x.rotate_right(i) ^ x.rotate_right(j) ^ (x >> n)
}

// The working variables added to the hash value, one by one: each digest has its own.
fn added(h: State, s: State) -> State
    ensures { result ≡ sums h s }
{
    State {
        a: s.a.wrapping_add(h.a),
        b: s.b.wrapping_add(h.b),
        c: s.c.wrapping_add(h.c),
        d: s.d.wrapping_add(h.d),
        e: s.e.wrapping_add(h.e),
        f: s.f.wrapping_add(h.f),
        g: s.g.wrapping_add(h.g),
        h: s.h.wrapping_add(h.h),
    }
}

// The initial hash value.
fn initial() -> State
    ensures { result ≡ initial_value }
{
    State {
        a: 0x6a09e667,
        b: 0xbb67ae85,
        c: 0x3c6ef372,
        d: 0xa54ff53a,
        e: 0x510e527f,
        f: 0x9b05688c,
        g: 0x1f83d9ab,
        h: 0x5be0cd19,
    }
}

// The digest's octets.
fn octets_in(s: State) -> [u8; 32]
    ensures { result ≡ octets_in s }
{
    let words = [s.a, s.b, s.c, s.d, s.e, s.f, s.g, s.h];
    blocks::octets_of(Order::HighestFirst, &words)
}
