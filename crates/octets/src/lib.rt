// Words of 32 bits and octets: sums and rotations of words, words as octets and back, copying, comparing.
#![tactic(auto)]

ghost use Rattle.std.specs.Prelude.{◌≡◌, ◌-◌, min, [], ◌∷◌, length, take};
ghost use Rattle.octets.specs.Octets.{octets_of, from_big_endian, words_of, written, written_at, written_if_room, equal};
ghost use Rattle.octets.specs.Words.{◌⊞◌, rotl as rotated_left, rotr as rotated_right};

// The longest text of a digest, an HMAC or RC4, and the longest key of an HMAC (01, "Lengths").
pub const LONGEST_TEXT: usize = 65535;

// Which octet of a number stands in front.
#[derive(Clone, Copy, Debug, PartialEq, Eq)]
pub enum Order {
    HighestFirst,
    LowestFirst,
}

// The sum of two words, without the carry out of the top.
pub fn add(x: u32, y: u32) -> u32
    ensures { result ≡ x ⊞ y }
{
    x.wrapping_add(y)
}

// A word rotated left.
#[tactic(auto, using(crate::proofs::Laws::rotl_is))]
pub fn rotl(x: u32, n: u32) -> u32
    ensures { result ≡ rotated_left n x }
{
    x.rotate_left(n)
}

// A word rotated right.
#[tactic(auto, using(crate::proofs::Laws::rotr_is))]
pub fn rotr(x: u32, n: u32) -> u32
    ensures { result ≡ rotated_right n x }
{
    x.rotate_right(n)
}

// The word of four octets, the highest first.
pub fn word(a: u8, b: u8, c: u8, d: u8) -> u32
    ensures { result ≡ from_big_endian (a ∷ b ∷ c ∷ d ∷ []) }
{
    // By sums: over from_be_bytes MD4 takes twice its time.
    wide(a) * 0x100_0000 + wide(b) * 0x1_0000 + wide(c) * 0x100 + wide(d)
}

// The number of two octets, the highest first.
pub fn pair(high: u8, low: u8) -> u16
    ensures { result ≡ from_big_endian (high ∷ low ∷ []) }
{
    u16::from_be_bytes([high, low])
}

// An octet as a word.
pub fn wide(x: u8) -> u32
    ensures { result ≡ x }
{
    u32::from(x)
}

// A number of 64 bits as eight octets.
pub fn long_octets(order: Order, x: u64) -> [u8; 8]
    ensures { result ≡ octets_of order 8 x }
{
    match order {
        Order::HighestFirst => x.to_be_bytes(),
        Order::LowestFirst => x.to_le_bytes(),
    }
}

// Writes words as octets into the front of a buffer that has room for them all; otherwise nothing.
#[tactic(auto, using(crate::proofs::Laws::words_none, crate::proofs::Laws::words_all, crate::proofs::Laws::words_more))]
pub fn put_words(order: Order, words: &[u32], out: &mut [u8])
    ensures { out.new ≡ written_if_room (words_of order words.now) out.old }
{
    if out.len() / 4 < words.len() {
        return;
    }
    // By ranges: a proof does not know what chunks_exact_mut leaves behind.
    for (i, word) in words.iter().enumerate() {
        out[4 * i..4 * i + 4].copy_from_slice(&word_octets(order, *word));
    }
}

// Copies octets into the front of a buffer, as many as it has room for.
pub fn copy(from: &[u8], to: &mut [u8])
    ensures { to.new ≡ written (take (length to.old) from.now) to.old }
{
    let n = from.len().min(to.len());
    to[..n].copy_from_slice(&from[..n]);
}

// The same from a place of the buffer on.
#[tactic(auto, using(crate::proofs::Laws::copy_part, crate::proofs::Laws::copy_behind))]
pub fn copy_at(from: &[u8], at: usize, to: &mut [u8])
    ensures { to.new ≡ written_at at (take (length to.old - at) from.now) to.old }
{
    if at <= to.len() {
        copy(from, &mut to[at..]);
    }
}

// Whether two texts are the same. All octets are compared and their differences joined, so that the time does not tell where they are.
#[tactic(auto, using(crate::specs::Laws::equal_lengths, crate::proofs::Laws::compared, crate::proofs::Laws::compared_all))]
pub fn same(a: &[u8], b: &[u8]) -> bool
    ensures { result ≡ equal a.now b.now }
{
    if a.len() != b.len() {
        return false;
    }
    let mut difference = 0;
    for (x, y) in a.iter().zip(b) {
        difference |= x ^ y;
    }
    difference == 0
}

// A word as four octets.
fn word_octets(order: Order, word: u32) -> [u8; 4]
    ensures { result ≡ octets_of order 4 word }
{
    match order {
        Order::HighestFirst => word.to_be_bytes(),
        Order::LowestFirst => word.to_le_bytes(),
    }
}
