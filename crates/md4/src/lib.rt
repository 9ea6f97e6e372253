// MD4 (RFC 1320) of a lent text.
#![tactic(auto, unfolding(crate::specs::Md4::md4_answer, crate::specs::Md4::md4, crate::specs::Md4::mixed, crate::specs::Md4::constant, crate::specs::Md4::shift, crate::specs::Md4::places, blocks::specs::Inner::closed_answer))]

ghost use Rattle.std.specs.Prelude.{◌≡◌, ◌*◌, ◌<◌, List, ℕ, get_or};
ghost use Rattle.blocks.specs.Blocks.{rounds, words};
ghost use Rattle.octets.specs.declared.Order.TheVariants.{LowestFirst};
ghost use Rattle.md4.specs.Md4.{initial, mixed as mixed_by, constant as constant_of, places, shift as shift_of, operation as operation_of, added as sums, compress as compressed, octets_in, md4_answer};

use answer::Refusal;
use blocks::BlockState;
use octets::Order;

// Which word of the block each operation takes: digits in base 16, from the right, a number a round. As an array MD4 takes 7 hundredths longer.
const PLACES: [u64; 3] = [0xfedcba9876543210, 0xfb73ea62d951c840, 0xf7b3d591e6a2c480];

// By how many places the operations of each round rotate, four in turn.
const SHIFTS: [[u32; 4]; 3] = [[3, 7, 11, 19], [3, 5, 9, 13], [3, 9, 11, 15]];

// The words A, B, C and D.
#[derive(Clone, Copy)]
struct State {
    a: u32,
    b: u32,
    c: u32,
    d: u32,
}

// The digest of a text of 0 to 65,535 octets; a longer one is refused.
pub fn md4(text: &[u8]) -> Result<[u8; 16], Refusal>
    ensures { result ≡ md4_answer text.now }
{
    Ok(octets_in(blocks::closed(initial(), 0, text)?))
}

impl BlockState for State {
    ghost compressed = { compressed };

    ghost order = { LowestFirst };

    fn order() -> Order {
        Order::LowestFirst
    }

    fn compress(self, block: &[u8; 64]) -> State {
        let x = blocks::words_in(Order::LowestFirst, block);
        let s1 = round(self, &x, 0);
        let s2 = round(s1, &x, 1);
        let s3 = round(s2, &x, 2);
        added(self, s3)
    }
}

// The words A, B, C and D at first.
fn initial() -> State
    ensures { result ≡ initial }
{
    State {
        a: 0x67452301,
        b: 0xefcdab89,
        c: 0x98badcfe,
        d: 0x10325476,
    }
}

// Round q, sixteen operations. Its loop is no plainer shared with the other digests: their steps would be closures that ask for t below a bound.
fn round(s: State, x: &[u32; 16], q: usize) -> State
    requires { q < 3 }
    ensures { (block : List ℕ) → x.now ≡ words LowestFirst block 16 → result ≡ rounds (operation_of block) (16 * q) 16 s }
{
    let mut r = s;
    for i in 0..16 {
        r = operation(r, x, 16 * q + i);
    }
    r
}

// Operation t. The words change their names for the next one. The function's result is added last: it waits for the operation before.
fn operation(s: State, x: &[u32; 16], t: usize) -> State
    requires { t < 48 }
    ensures { (block : List ℕ) → x.now ≡ words LowestFirst block 16 → result ≡ operation_of block t s }
{
    let sum = s.a.wrapping_add(x[place(t)]).wrapping_add(constant(t));
    State {
        a: s.d,
        b: sum
            .wrapping_add(mixed(t, s.b, s.c, s.d))
            .rotate_left(shift(t)),
        c: s.b,
        d: s.c,
    }
}

// The function of operation t.
fn mixed(t: usize, x: u32, y: u32, z: u32) -> u32
    ensures { result ≡ mixed_by t x y z }
{
    if t < 16 {
        return (x & y) | (!x & z);
    }
    if t < 32 {
        return (x & y) | (x & z) | (y & z);
    }
    x ^ y ^ z
}

// The number that operation t adds.
fn constant(t: usize) -> u32
    ensures { result ≡ constant_of t }
{
    if t < 16 {
        return 0;
    }
    if t < 32 {
        return 0x5a827999;
    }
    0x6ed9eba1
}

// The word of the block that operation t takes.
fn place(t: usize) -> usize
    requires { t < 48 }
    ensures { (result ≡ get_or places t 0) × (result < 16) }
{
    ((PLACES[t / 16] >> (4 * (t % 16))) % 16) as usize
}

// By how many places operation t rotates.
fn shift(t: usize) -> u32
    requires { t < 48 }
    ensures { result ≡ shift_of t }
{
    SHIFTS[t / 16][t % 4]
}

// The words after a block's rounds added to those before, one by one: each digest has its own.
fn added(before: State, s: State) -> State
    ensures { result ≡ sums before s }
{
    State {
        a: s.a.wrapping_add(before.a),
        b: s.b.wrapping_add(before.b),
        c: s.c.wrapping_add(before.c),
        d: s.d.wrapping_add(before.d),
    }
}

// The digest's octets.
fn octets_in(s: State) -> [u8; 16]
    ensures { result ≡ octets_in s }
{
    blocks::octets_of(Order::LowestFirst, &[s.a, s.b, s.c, s.d])
}
