// SHA-1 (FIPS 180-4) of a lent text.
#![tactic(auto, unfolding(crate::specs::Sha1::sha1_answer, crate::specs::Sha1::sha1, crate::specs::Sha1::f, crate::specs::Sha1::k, crate::specs::Inner::ring_word, blocks::specs::Inner::closed_answer))]

ghost use Rattle.std.specs.Prelude.{◌≡◌, ◌*◌, ◌<◌};
ghost use Rattle.octets.specs.declared.Order.TheVariants.{HighestFirst};
ghost use Rattle.sha_1.specs.Sha1.{f as choice, k as constant, initial, added as sums, compress as compressed, octets_in, sha1_answer};
ghost use Rattle.sha_1.specs.Inner.{ring_word, Rounds};

use answer::Refusal;
use blocks::BlockState;
use octets::Order;

// The hash value, and the working variables of a block's rounds.
#[derive(Clone, Copy)]
struct State {
    a: u32,
    b: u32,
    c: u32,
    d: u32,
    e: u32,
}

// The digest of a text of 0 to 65,535 octets; a longer one is refused.
pub fn sha1(text: &[u8]) -> Result<[u8; 20], Refusal>
    ensures { result ≡ sha1_answer text.now }
{
    Ok(octets_in(blocks::closed(initial(), 0, text)?))
}

impl BlockState for State {
    ghost compressed = { compressed };

    ghost order = { HighestFirst };

    fn order() -> Order {
        Order::HighestFirst
    }

    fn compress(self, block: &[u8; 64]) -> State {
        let mut w = blocks::words_in(Order::HighestFirst, block);
        let s1 = ten(self, &mut w, 0);
        let s2 = ten(s1, &mut w, 1);
        let s3 = ten(s2, &mut w, 2);
        let s4 = ten(s3, &mut w, 3);
        let s5 = ten(s4, &mut w, 4);
        let s6 = ten(s5, &mut w, 5);
        let s7 = ten(s6, &mut w, 6);
        let s8 = ten(s7, &mut w, 7);
        added(self, s8)
    }
}

// The initial hash value.
fn initial() -> State
    ensures { result ≡ initial }
{
    State {
        a: 0x67452301,
        b: 0xefcdab89,
        c: 0x98badcfe,
        d: 0x10325476,
        e: 0xc3d2e1f0,
    }
}

// Ten rounds, from round 10 * q on. Not shared with the other digests: md4's round says why.
fn ten(s: State, w: &mut [u32; 16], q: usize) -> State
    requires { q < 8 }
    ensures { Rounds (10 * q) 10 s result w.old w.new }
{
    let mut x = s;
    for i in 0..10 {
        x = round(x, w, 10 * q + i);
    }
    x
}

// Round t. Its word takes the place of the one sixteen rounds before. What waits longest for the round before is added last.
fn round(s: State, w: &mut [u32; 16], t: usize) -> State
    requires { t < 80 }
    ensures { Rounds t 1 s result w.old w.new }
{
    let word = ring_word(w, t);
    w[t % 16] = word;
    let sum = s.e.wrapping_add(k(t)).wrapping_add(word);
    State {
        a: sum
            .wrapping_add(f(t, s.b, s.c, s.d))
            .wrapping_add(s.a.rotate_left(5)),
        b: s.a,
        c: s.b.rotate_left(30),
        d: s.c,
        e: s.d,
    }
}

// The word of round t: the block's own, and from round 16 on one made from four of the sixteen before it.
fn ring_word(w: &[u32; 16], t: usize) -> u32
    ensures { result ≡ ring_word w.now t }
{
    if t < 16 {
        return w[t % 16];
    }
    let four = w[(t - 3) % 16] ^ w[(t - 8) % 16] ^ w[(t - 14) % 16] ^ w[t % 16];
    four.rotate_left(1)
}

// The function of round t.
fn f(t: usize, x: u32, y: u32, z: u32) -> u32
    ensures { result ≡ choice t x y z }
{
    if t < 20 {
        return (x & y) ^ (!x & z);
    }
    if t < 40 {
        return x ^ y ^ z;
    }
    if t < 60 {
        return (x & y) ^ (x & z) ^ (y & z);
    }
    x ^ y ^ z
}

// The constant of round t.
fn k(t: usize) -> u32
    ensures { result ≡ constant t }
{
    if t < 20 {
        return 0x5a827999;
    }
    if t < 40 {
        return 0x6ed9eba1;
    }
    if t < 60 {
        return 0x8f1bbcdc;
    }
    0xca62c1d6
}

// The working variables added to the hash value, one by one: each digest has its own.
fn added(h: State, s: State) -> State
    ensures { result ≡ sums h s }
{
    State {
        a: s.a.wrapping_add(h.a),
        b: s.b.wrapping_add(h.b),
        c: s.c.wrapping_add(h.c),
        d: s.d.wrapping_add(h.d),
        e: s.e.wrapping_add(h.e),
    }
}

// The digest's octets.
fn octets_in(h: State) -> [u8; 20]
    ensures { result ≡ octets_in h }
{
    blocks::octets_of(Order::HighestFirst, &[h.a, h.b, h.c, h.d, h.e])
}
