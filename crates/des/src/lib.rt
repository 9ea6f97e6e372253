// DES as FIPS 46-3 has it, for one block. The key has 56 bits; the parity bits are nowhere in it.
// No branch goes by a bit of the key or the block; the places read from the tables do.
#![tactic(auto)]

mod tables;

ghost use Rattle.std.specs.Prelude.{◌≡◌, [], ◌++◌, map, List, ℕ, ◌+◌, ◌-◌, ◌*◌, ◌/◌, ◌%◌, ◌^◌, ◌<◌, ◌≤◌, length, get_or};
ghost use Rattle.std.specs.Int.Bits.{bit_xor};
ghost use Rattle.std.specs.List.{concat};
ghost use Rattle.octets.specs.Octets.{from_big_endian};
ghost use Rattle.des.specs.Tables.{initial, inverse, permutation, boxes, choice1_c, choice1_d, choice2};
ghost use Rattle.des.specs.Des.{selected, substitution, cipher_function, place, left_shift, iteration, iterated, enciphered, block_octets, encrypt_answer};
ghost use Rattle.des.specs.Inner.{InBlock, Places, Parts, ring};

use answer::Refusal;
use tables::{INITIAL, INVERSE, P_PARTS, PC1, PC2_C_PARTS, PC2_D_PARTS, S_BOXES, SHIFTS};

// Octets in a key.
const KEY_OCTETS: usize = 7;
// Octets in a block.
const BLOCK_OCTETS: usize = 8;

// The halves L and R of a block.
#[derive(Clone, Copy)]
struct Halves {
    left: u32,
    right: u32,
}

// One block enciphered under a key; refused as `Size` where the key is not 7 octets or the block not 8.
#[tactic(auto, unfolding(crate::specs::Des::encrypt_answer, crate::specs::Des::encrypted))]
pub fn encrypt(key: &[u8], block: &[u8]) -> Result<[u8; BLOCK_OCTETS], Refusal>
    ensures { result ≡ encrypt_answer key.now block.now }
{
    if key.len() != KEY_OCTETS || block.len() != BLOCK_OCTETS {
        return Err(Refusal::Size);
    }
    Ok(encipher(join(key), join(block)).to_be_bytes())
}

// The block of bits that octets are.
#[tactic(auto, using(crate::proofs::Joining::join_more, crate::proofs::Joining::join_lt, crate::proofs::Joining::room))]
fn join(octets: &[u8]) -> u64
    requires { length octets.now ≤ block_octets }
    ensures { result ≡ from_big_endian octets.now }
{
    let mut r = 0;
    for octet in octets {
        r = r * 256 + u64::from(*octet);
    }
    r
}

// The block x enciphered.
#[tactic(auto, unfolding(crate::specs::Des::enciphered))]
fn encipher(key: u64, x: u64) -> u64
    ensures { result ≡ enciphered key x }
{
    let last = iterate(key, permute_initial(x));
    permute_inverse(u64::from(last.right) * 0x1_0000_0000 + u64::from(last.left))
}

// The initial permutation IP.
#[tactic(auto, unfolding(crate::specs::Tables::initial))]
fn permute_initial(x: u64) -> u64
    ensures { result ≡ selected 64 initial x }
{
    select(64, &INITIAL, x)
}

// The inverse of the initial permutation.
#[tactic(auto, unfolding(crate::specs::Tables::inverse))]
fn permute_inverse(x: u64) -> u64
    ensures { result ≡ selected 64 inverse x }
{
    select(64, &INVERSE, x)
}

// PC-1: C0 and then D0, by the numbers of the 56 bits without parity.
#[tactic(auto, unfolding(crate::specs::Tables::choice1_c, crate::specs::Tables::choice1_d))]
fn choose_1(key: u64) -> u64
    ensures { result ≡ selected 56 (map place choice1_c ++ map place choice1_d) key }
{
    select(56, &PC1, key)
}

// The bits of x, a block of w bits, that a table names row by row, in its order.
#[tactic(auto, using(crate::proofs::Selection::row_more, crate::proofs::Joining::join_lt, crate::proofs::Joining::room), unfolding(crate::specs::Des::selected))]
fn select(w: u32, table: &[[u32; 8]], x: u64) -> u64
    requires { Places w table.now }
    ensures { result ≡ selected w (concat table.now) x }
{
    let mut r = 0;
    for row in table {
        r = r * 256 + select_row(w, row, x);
    }
    r
}

// The bits that a row names.
#[tactic(auto, using(crate::proofs::Selection::bit_more, crate::proofs::Selection::bits_lt), unfolding(crate::specs::Des::selected))]
fn select_row(w: u32, row: &[u32; 8], x: u64) -> u64
    requires { InBlock w row.now }
    ensures { (result ≡ selected w row.now x) × (result < 256) }
{
    let mut r = 0;
    for n in row {
        r = r * 2 + (x >> (w - *n)) % 2;
    }
    r
}

// The sixteen iterations, each with its subkey, from the permuted block x.
#[tactic(auto, using(crate::proofs::Iterations::start_c, crate::proofs::Iterations::start_d, crate::proofs::Iterations::shift_more, crate::proofs::Iterations::iterated_more), unfolding(crate::specs::Des::iterated, crate::specs::Tables::shifts))]
fn iterate(key: u64, x: u64) -> Halves
    ensures { result ≡ iterated key x 16 }
{
    let cd = choose_1(key);
    let mut c = ((cd >> 28) % 0x1000_0000) as u32;
    let mut d = (cd % 0x1000_0000) as u32;
    let mut h = cut(x);
    for shift in &SHIFTS {
        c = shift_left(c, *shift);
        d = shift_left(d, *shift);
        h = round(h, choose_2(c, d));
    }
    h
}

// The halves of a block.
fn cut(x: u64) -> Halves
    ensures { result ≡ record { left = x / 2 ^ 32; right = x % 2 ^ 32 } }
{
    Halves {
        left: (x >> 32) as u32,
        right: (x % 0x1_0000_0000) as u32,
    }
}

// C or D after s left shifts.
#[tactic(auto, using(crate::proofs::Groups::shift))]
fn shift_left(c: u32, s: u32) -> u32
    requires { (c < 2 ^ 28) × (0 < s) × (s < 3) }
    ensures { (result ≡ left_shift s c) × (result < 2 ^ 28) }
{
    (c << s) % 0x1000_0000 + (c >> (28 - s))
}

// The subkey: PC-2 of C and D.
fn choose_2(c: u32, d: u32) -> u64
    requires { (c < 2 ^ 28) × (d < 2 ^ 28) }
    ensures { result ≡ selected 56 choice2 (c * 2 ^ 28 + d) }
{
    choose_half(&PC2_C_PARTS, c) * 0x100_0000 + choose_half(&PC2_D_PARTS, d)
}

// PC-2 of C, or of D, by its bits in fours.
fn choose_half(parts: &[[u32; 16]; 7], x: u32) -> u64
    requires { x < 2 ^ 28 }
    ensures { (result < 2 ^ 35)
        × ((p q : ℕ) → Parts 56 choice2 7 p q parts.now → result * 2 ^ q ≡ selected 56 choice2 (x * 2 ^ p)) }
{
    let mut r = 0;
    for (i, part) in parts.iter().enumerate() {
        r += u64::from(part[((x >> (24 - 4 * i)) % 16) as usize]);
    }
    r
}

// One iteration, with the subkey k.
fn round(h: Halves, k: u64) -> Halves
    ensures { result ≡ iteration h k }
{
    Halves {
        left: h.right,
        right: h.left ^ cipher(h.right, k),
    }
}

// The cipher function f(R,K).
#[tactic(auto, using(crate::proofs::Groups::box_none, crate::proofs::Groups::box_more, crate::proofs::Groups::box_lt, crate::proofs::Groups::box_all))]
fn cipher(r: u32, k: u64) -> u32
    ensures { result ≡ cipher_function r k }
{
    let ring = ring_of(u64::from(r));
    let mut y = 0;
    for i in 0..8 {
        y += permute_part(i, substitute(i, six(ring, k, i)));
    }
    y
}

// The answer of S-box i to six bits.
fn substitute(i: usize, b: usize) -> usize
    requires { (i < 8) × (b < 64) }
    ensures { (result ≡ substitution (get_or boxes i []) b) × (result < 16) }
{
    usize::from(S_BOXES[i][b])
}

// P of the answer v of S-box i.
fn permute_part(i: usize, v: usize) -> u32
    requires { (i < 8) × (v < 16) }
    ensures { result ≡ selected 32 permutation (v * 2 ^ (4 * (8 - (i + 1)))) }
{
    P_PARTS[i][v]
}

// Group i of the eight groups of six bits of K ⊕ E(R), by the ring of R.
fn six(ring: u64, k: u64, i: usize) -> usize
    requires { i < 8 }
    ensures { (result ≡ bit_xor (ring / 2 ^ (28 - 4 * i)) (k / 2 ^ (42 - 6 * i)) % 64) × (result < 64) }
{
    (((ring >> (28 - 4 * i)) ^ (k >> (42 - 6 * i))) % 64) as usize
}

// R between its last bit and its first, 34 bits: each group of E(R) is six neighbours in it.
fn ring_of(r: u64) -> u64
    requires { r < 2 ^ 32 }
    ensures { result ≡ ring r }
{
    r % 2 * 0x2_0000_0000 + r * 2 + (r >> 31)
}
