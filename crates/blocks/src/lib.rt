// Digests over blocks of 64 octets: a message padded, cut into blocks and run over a state, and a block's words.
#![tactic(auto, unfolding(crate::specs::Inner::closed_answer))]

ghost use Rattle.std.specs.Prelude.{◌≡◌, ◌<◌, ◌*◌, List, ℕ, length, replicate};
ghost use Rattle.blocks.specs.Inner.{closed_answer};
ghost use Rattle.blocks.specs.Blocks.{absorbed as after_blocks, ending, tail_of, word_in, words};
ghost use Rattle.octets.specs.declared.Order.{Order};
ghost use Rattle.octets.specs.Octets.{words_of, written_if_room};

use answer::Refusal;
use octets::{LONGEST_TEXT, Order};

// The state of a digest over blocks of 64 octets.
pub trait BlockState: Copy {
    // What one block makes of a state.
    ghost compressed: { Self → List ℕ → Self };

    // Which octet of a word stands in front.
    ghost order: { Order };

    // The same, for the code.
    fn order() -> Order
        ensures { result ≡ order };

    // The state after one block more.
    fn compress(self, block: &[u8; 64]) -> Self
        ensures { result ≡ compressed self block.now };
}

// The state after a text of 0 to 65,535 octets, padded, that goes on behind `blocks` blocks, which gave s; a longer text is refused.
// Its whole blocks come before the padding: so `mschap::nt_response` takes 16 octets of stack less.
pub fn closed<S: BlockState>(s: S, blocks: u32, text: &[u8]) -> Result<S, Refusal>
    ensures { result ≡ closed_answer S.compressed S.order s (64 * blocks) text.now }
{
    if LONGEST_TEXT < text.len() {
        return Err(Refusal::Size);
    }
    let whole = absorbed(s, text);
    let bits = 8 * (64 * u64::from(blocks) + text.len() as u64);
    let mut last = [0u8; 128];
    let n = padded_tail(S::order(), text, bits, &mut last);
    Ok(absorbed(whole, &last[..n]))
}

// The state after all whole blocks of m.
fn absorbed<S: BlockState>(s: S, m: &[u8]) -> S
    ensures { result ≡ after_blocks S.compressed s m.now }
{
    let (whole, _) = m.as_chunks::<64>();
    let mut h = s;
    for block in whole {
        h = h.compress(block);
    }
    h
}

// Writes a message's last blocks, one or two, into a buffer: the octets behind its last whole block, and the padding. Tells how many octets
// they are: a count beside the buffer, as docs/PROMISES.md names this call. The length's octets are made first: so `sha_1::sha1` takes 16
// octets of stack less.
pub fn padded_tail(order: Order, m: &[u8], bits: u64, out: &mut [u8; 128]) -> usize
    ensures { (result ≡ length (ending order m.now bits)) × (out.new ≡ tail_of order m.now bits) }
{
    let rest = m.len() % 64;
    let from = m.len() - rest;
    let len = rest + 9 + (119 - rest) % 64;
    let at = len - 8;
    let field = octets::long_octets(order, bits);
    *out = [0u8; 128];
    octets::copy(&m[from..], out);
    out[rest] = 0x80;
    octets::copy_at(&field, at, out);
    len
}

// The sixteen words of a block.
pub fn words_in(order: Order, block: &[u8; 64]) -> [u32; 16]
    ensures { result ≡ words order block.now 16 }
{
    let mut w = [0u32; 16];
    for i in 0..16 {
        w[i] = word_at(order, block, i);
    }
    w
}

// Word i of a block. With u32::from_be_bytes SHA-1 takes 4 hundredths longer.
fn word_at(order: Order, block: &[u8; 64], i: usize) -> u32
    requires { i < 16 }
    ensures { result ≡ word_in order block.now (4 * i) }
{
    let a = block[4 * i];
    let b = block[4 * i + 1];
    let c = block[4 * i + 2];
    let d = block[4 * i + 3];
    match order {
        Order::HighestFirst => octets::word(a, b, c, d),
        Order::LowestFirst => octets::word(d, c, b, a),
    }
}

// Words as octets, in an array that has room for them; zeros where it has not.
pub fn octets_of<const N: usize>(order: Order, words: &[u32]) -> [u8; N]
    ensures { result ≡ written_if_room (words_of order words.now) (replicate N 0) }
{
    let mut out = [0u8; N];
    octets::put_words(order, words, &mut out);
    out
}
