// RC4: the key schedule, a draw, a run over a text, and a generator lent by reference (01, "Digests, DES and RC4").
#![tactic(auto, unfolding(crate::specs::Answers::keyed_answer, crate::specs::Answers::run_answer, crate::specs::Answers::run_out, crate::specs::Answers::apply_answer, crate::specs::Answers::apply_out, crate::specs::Answers::within_answer, crate::specs::Answers::within_out))]

ghost use Rattle.std.specs.Prelude.{◌≡◌, true, ◌&&◌, ◌+◌, ◌%◌, ◌^◌, ◌<◌, ◌≤◌, length, get_or, replicate, MatchResult};
ghost use Rattle.answer.specs.Answer.{done, protocol, pick, first_of, result_of};
ghost use Rattle.answer.specs.declared.Refusal.{Refusal};
ghost use Rattle.octets.specs.Octets.{written, longest_text};
ghost use Rattle.rc4.specs.Cipher.{below, permutation, unkeyed, in_order, is_unkeyed, swap, rounds, step, drawn, run, after};
ghost use Rattle.rc4.specs.Answers.{keyed_answer, draw_answer, run_answer, run_out, apply_answer, apply_out, key_code, number, number_code, text_rows, numbered_rows, keyed_if, within_answer, within_out};
ghost use Rattle.rc4.specs.Inner.{wrapped, first_cell, xors, OctetCells, Ready, Finished, Marked};

use answer::Refusal;
use std::array;

// The shortest key (01, "Lengths").
pub const SHORTEST_KEY: usize = 1;
// The longest key.
pub const LONGEST_KEY: usize = 256;
// The octets of a number in front of a text.
const NUMBER: usize = 2;

// Both indices and the box. Any octets are a state. A secret, so no `==`, whose time tells where two differ, and no Debug. The box stands last:
// in a `Result`, what stands first lies where a refusal lies too, and a box there is copied in two parts and kept on the stack once more.
#[derive(Clone, Copy)]
pub struct Rc4 {
    pub i: u8,
    pub j: u8,
    pub cells: [u8; 256],
}

// What a draw gives.
#[derive(Clone, Copy)]
pub struct Drawn {
    pub octet: u8,
    pub state: Rc4,
}

impl Rc4 {
    // The state of a key of 1 to 256 octets.
    pub fn keyed(key: &[u8]) -> Result<Rc4, Refusal>
        ensures { result ≡ keyed_answer key.now }
    {
        check_key(key)?;
        let mut words = ascending();
        key_schedule(key, &mut words);
        Ok(Rc4 {
            cells: narrow(&words),
            i: 0,
            j: 0,
        })
    }

    // One draw.
    pub fn draw(self) -> Drawn
        ensures { result ≡ draw_answer self }
    {
        let mut words = [0; 256];
        widen(self.cells, &mut words);
        let i = usize::from(self.i);
        let x = words[(i + 1) % 256];
        let d = advance(&mut words, i, u32::from(self.j), x);
        let state = Rc4 {
            cells: narrow(&words),
            i: self.i.wrapping_add(1),
            j: (d.j % 256) as u8,
        };
        Drawn {
            octet: d.octet,
            state,
        }
    }

    // A text of up to 65,535 octets, xored with the draws, into the front of a lent buffer; the state after it. A refusal leaves the buffer as it
    // was, and hands no state back: the caller still has its own, which was copied.
    pub fn run(self, text: &[u8], out: &mut [u8]) -> Result<Rc4, Refusal>
        ensures { (result ≡ run_answer self text.now out.old)
            × (out.new ≡ run_out self text.now out.old) }
    {
        check_text(text, out.len())?;
        Ok(run_text(self, text, out))
    }

    // The same with the box of a key where RC4 is keyed afresh, and only where the first two octets that come out are a number within bounds.
    pub fn run_within(
        self,
        fresh: bool,
        key: &[u8],
        lowest: u16,
        highest: u16,
        text: &[u8],
        out: &mut [u8],
    ) -> Result<Rc4, Refusal>
        ensures { (result ≡ within_answer self fresh key.now lowest highest text.now out.old)
            × (out.new ≡ within_out self fresh key.now lowest highest text.now out.old) }
    {
        check_numbered(fresh, key, text, out.len())?;
        let mut words = [0; 256];
        keyed_words(self, fresh, key, &mut words);
        let i = usize::from(start(fresh, self.i));
        let j = u32::from(start(fresh, self.j));
        let last = words_within(&mut words, i, j, lowest, highest, text, out)?;
        Ok(Rc4 {
            cells: narrow(&words),
            i: ((i + text.len()) % 256) as u8,
            j: (last % 256) as u8,
        })
    }

    // Whether the box is a permutation of 0 to 255.
    pub fn is_permutation(self) -> bool
        ensures { result ≡ permutation self.cells }
    {
        marked(self.cells).iter().fold(1, |all, mark| all & mark) == 1
    }

    // The state that a key schedule starts from: 0 to 255 in order, both indices 0.
    pub fn unkeyed() -> Rc4
        ensures { result ≡ unkeyed }
    {
        Rc4 {
            cells: array::from_fn(|n| n as u8),
            i: 0,
            j: 0,
        }
    }

    // Whether it is that state.
    #[tactic(auto, unfolding(crate::specs::Cipher::is_unkeyed))]
    pub fn is_unkeyed(self) -> bool
        ensures { result ≡ is_unkeyed self }
    {
        self.i == 0 && self.j == 0 && in_order(self.cells)
    }
}

// RC4 keyed with a key, applied to a text, into the front of a lent buffer. A call of its own: put into its caller, the box of words would
// stand on the stack under all that the caller calls beside it.
#[inline(never)]
pub fn apply(key: &[u8], text: &[u8], out: &mut [u8]) -> Result<(), Refusal>
    ensures { (result ≡ apply_answer key.now text.now out.old)
        × (out.new ≡ apply_out key.now text.now out.old) }
{
    check_key(key)?;
    check_text(text, out.len())?;
    let mut words = ascending();
    key_schedule(key, &mut words);
    run_words(&mut words, 0, 0, text, out);
    Ok(())
}

// The generator lent by reference: advances in place, and returns the octet drawn.
pub fn draw_next(g: &mut Rc4) -> u8
    ensures { (result ≡ drawn g.old) × (g.new ≡ step g.old) }
{
    let d = g.draw();
    *g = d.state;
    d.octet
}

// Refuses a key of a length that is not allowed.
fn check_key(key: &[u8]) -> Result<(), Refusal>
    ensures { result ≡ result_of (key_code key.now) tt }
{
    if key.len() < SHORTEST_KEY || LONGEST_KEY < key.len() {
        return Err(Refusal::Size);
    }
    Ok(())
}

// Refuses a text that is too long, and a lent buffer with no room for it.
fn check_text(text: &[u8], room: usize) -> Result<(), Refusal>
    ensures { result ≡ result_of (first_of (text_rows (length text.now) room)) tt }
{
    if octets::LONGEST_TEXT < text.len() {
        return Err(Refusal::Size);
    }
    if room < text.len() {
        return Err(Refusal::Room);
    }
    Ok(())
}

// The same with a key where RC4 is keyed afresh, and a text that begins with a number.
fn check_numbered(fresh: bool, key: &[u8], text: &[u8], room: usize) -> Result<(), Refusal>
    ensures { result ≡ result_of (first_of (numbered_rows fresh key.now (length text.now) room)) tt }
{
    if fresh {
        check_key(key)?;
    }
    if text.len() < NUMBER {
        return Err(Refusal::Size);
    }
    check_text(text, room)
}

// The box of a key where RC4 is keyed afresh, else that of a state, over any box. A call of its own, so that what widening keeps on the stack
// doesn't lie there under the run.
#[inline(never)]
fn keyed_words(state: Rc4, fresh: bool, key: &[u8], words: &mut [u32; 256])
    requires { OctetCells words.old × (fresh ≡ true → 1 ≤ length key.now) }
    ensures { (words.new ≡ (keyed_if state fresh key.now).cells) × OctetCells words.new }
{
    if fresh {
        *words = ascending();
        key_schedule(key, words);
        return;
    }
    widen(state.cells, words);
}

// An index of that box.
fn start(fresh: bool, index: u8) -> u8
    ensures { result ≡ pick fresh 0 index }
{
    if fresh { 0 } else { index }
}

// All rounds of a key over a box in place, sixteen in each turn: one in each takes half as long again. j is not wrapped mod 256 between them.
fn key_schedule(key: &[u8], cells: &mut [u32; 256])
    requires { (1 ≤ length key.now) × (cells.old ≡ below 256) }
    ensures { (cells.new ≡ (rounds key.now 256).cells) × OctetCells cells.new }
{
    let mut place = 0;
    let mut j = 0;
    for turn in 0..16 {
        for k in 0..16 {
            j = mix(cells, 16 * turn + k, j, key[place]);
            place = next_place(place, key.len());
        }
    }
}

// The numbers 0 to 255, in order.
fn ascending() -> [u32; 256]
    ensures { result ≡ below 256 }
{
    array::from_fn(|n| n as u32)
}

// One round of the key schedule: the next j, and two cells swapped.
fn mix(cells: &mut [u32; 256], i: usize, j: u32, k: u8) -> u32
    requires { OctetCells cells.old × (i < 256) × (j < 2 ^ 31) }
    ensures { (result ≡ j + get_or cells.old i 0 + k) × (result ≤ j + 510)
        × (cells.new ≡ swap cells.old i (result % 256)) }
{
    let x = cells[i];
    let sum = j + x + u32::from(k);
    swap_cells(cells, i, x, (sum % 256) as usize);
    sum
}

// The place after place k in a key of n octets.
fn next_place(k: usize, n: usize) -> usize
    requires { k < n }
    ensures { (result ≡ (k + 1) % n) × (result < n) }
{
    if k + 1 == n { 0 } else { k + 1 }
}

// A text within its limit, xored with the draws, into a buffer with room for it; the state after it.
fn run_text(state: Rc4, text: &[u8], out: &mut [u8]) -> Rc4
    requires { (length text.now ≤ longest_text) × (length text.now ≤ length out.old) }
    ensures { (result ≡ after state text.now)
        × (out.new ≡ written (run state text.now) out.old) }
{
    let mut words = [0; 256];
    widen(state.cells, &mut words);
    let i = usize::from(state.i);
    let j = run_words(&mut words, i, u32::from(state.j), text, out);
    Rc4 {
        cells: narrow(&words),
        i: ((i + text.len()) % 256) as u8,
        j: (j % 256) as u8,
    }
}

// Any text over a box in place; the next j, not wrapped mod 256. One octet at a time up to a place that is a multiple of eight.
// The box and its indices go apart: as one struct, lent, 1,500 octets take an eighth longer.
fn run_words(cells: &mut [u32; 256], i: usize, j: u32, text: &[u8], out: &mut [u8]) -> u32
    requires { Ready cells.old i j text.now out.old }
    ensures { Finished cells.old i j text.now out.old cells.new result out.new }
{
    let m = before_eights(i, text.len());
    let next = run_ones(cells, i, j, &text[..m], out);
    run_rest(cells, i + m, next, &text[m..], &mut out[m..])
}

// A text over a box in place, once the first two octets that come out are found to be a number within bounds; the next j, not wrapped mod 256.
fn words_within(
    cells: &mut [u32; 256],
    i: usize,
    j: u32,
    lowest: u16,
    highest: u16,
    text: &[u8],
    out: &mut [u8],
) -> Result<u32, Refusal>
    requires { Ready cells.old i j text.now out.old × (number ≤ length text.now) }
    ensures { MatchResult result
        (λ last. (number_code lowest highest (run (wrapped cells.old i j) text.now) ≡ done) × Finished cells.old i j text.now out.old cells.new last out.new)
        (λ refusal. (number_code lowest highest (run (wrapped cells.old i j) text.now) ≡ protocol) × (refusal ≡ Refusal.Protocol) × (out.new ≡ out.old)) }
{
    let mut first = [0; 2];
    let next = run_ones(cells, i, j, &text[..NUMBER], &mut first);
    let number = u16::from_be_bytes(first);
    if number < lowest || highest < number {
        return Err(Refusal::Protocol);
    }
    out[..NUMBER].copy_from_slice(&first);
    let last = run_words(cells, i + NUMBER, next, &text[NUMBER..], &mut out[NUMBER..]);
    Ok(last)
}

// How many of n octets come before the next place that is a multiple of eight.
fn before_eights(i: usize, n: usize) -> usize
    ensures { (result ≤ n) × (result < n → (i + result) % 8 ≡ 0) }
{
    n.min((8 - i % 8) % 8)
}

// A text from a place that is a multiple of eight: whole eights, then what is left.
fn run_rest(cells: &mut [u32; 256], i: usize, j: u32, text: &[u8], out: &mut [u8]) -> u32
    requires { Ready cells.old i j text.now out.old × (0 < length text.now → i % 8 ≡ 0) }
    ensures { Finished cells.old i j text.now out.old cells.new result out.new }
{
    let m = text.len() - text.len() % 8;
    let next = run_eights(cells, i, j, &text[..m], out);
    run_ones(cells, i + m, next, &text[m..], &mut out[m..])
}

// A text of whole eights; the next j, not wrapped mod 256. From a multiple of eight, only the last of eight places has to be wrapped.
fn run_eights(cells: &mut [u32; 256], i: usize, j: u32, text: &[u8], out: &mut [u8]) -> u32
    requires { Ready cells.old i j text.now out.old × (length text.now % 8 ≡ 0) × (0 < length text.now → i % 8 ≡ 0) }
    ensures { Finished cells.old i j text.now out.old cells.new result out.new }
{
    let mut next = j;
    let mut x = cells[(i + 1) % 256];
    for k in 0..text.len() / 8 {
        let n = 8 * k;
        let e = draw_eight(cells, (i + n) / 8 % 32 * 8, next, x);
        next = e.j;
        x = e.x;
        xor_eight(&text[n..n + 8], &e.octets, &mut out[n..n + 8]);
    }
    next
}

// Any text, an octet at a time, over a box in place; the next j, not wrapped mod 256.
fn run_ones(cells: &mut [u32; 256], i: usize, j: u32, text: &[u8], out: &mut [u8]) -> u32
    requires { Ready cells.old i j text.now out.old }
    ensures { Finished cells.old i j text.now out.old cells.new result out.new }
{
    let mut next = j;
    for (n, octet) in text.iter().enumerate() {
        let x = cells[(i + n + 1) % 256];
        let d = advance(cells, i + n, next, x);
        next = d.j;
        out[n] = *octet ^ d.octet;
    }
    next
}

// Eight octets of keystream, the next j, not wrapped mod 256, and the cell that the next draw reads first.
#[derive(Clone, Copy)]
struct Eight {
    octets: [u8; 8],
    j: u32,
    x: u32,
}

// Eight draws over a box in place: what a text of eight zeros gives.
fn draw_eight(cells: &mut [u32; 256], i: usize, j: u32, x: u32) -> Eight
    requires { OctetCells cells.old × (i < 2 ^ 31) × (j < 2 ^ 30) × (x ≡ first_cell cells.old i) }
    ensures { (result.octets ≡ run (wrapped cells.old i j) (replicate 8 0))
        × (wrapped cells.new (i + 8) result.j ≡ after (wrapped cells.old i j) (replicate 8 0))
        × OctetCells cells.new × (result.j ≤ j + 2040) × (result.x ≡ first_cell cells.new (i + 8)) }
{
    let mut octets = [0; 8];
    let mut next = j;
    let mut first = x;
    for k in 0..8 {
        let d = advance(cells, i + k, next, first);
        octets[k] = d.octet;
        next = d.j;
        first = d.x;
    }
    Eight {
        octets,
        j: next,
        x: first,
    }
}

// Eight octets of text, xored with eight of keystream. All are read before one is stored: then one load and one store do it.
fn xor_eight(text: &[u8], octets: &[u8; 8], out: &mut [u8])
    requires { (length text.now ≡ 8) × (length out.old ≡ 8) }
    ensures { out.new ≡ xors text.now octets.now }
{
    let both: [u8; 8] = array::from_fn(|k| text[k] ^ octets[k]);
    out.copy_from_slice(&both);
}

// The octet of a draw in place, the next j, not wrapped mod 256, and the cell that the next draw reads first.
#[derive(Clone, Copy)]
struct Advanced {
    octet: u8,
    j: u32,
    x: u32,
}

// One draw over a box in place; x is the cell that it reads first. The next draw's is read before the octet, which nothing waits for.
fn advance(cells: &mut [u32; 256], i: usize, j: u32, x: u32) -> Advanced
    requires { OctetCells cells.old × (i < 2 ^ 32) × (j < 2 ^ 31) × (x ≡ first_cell cells.old i) }
    ensures { (result.octet ≡ drawn (wrapped cells.old i j))
        × (wrapped cells.new (i + 1) result.j ≡ step (wrapped cells.old i j)) × (result.j ≤ j + 255)
        × (result.x ≡ first_cell cells.new (i + 1)) }
{
    let a = (i + 1) % 256;
    let sum = j + x;
    let b = (sum % 256) as usize;
    let y = cells[b];
    swap_cells(cells, a, x, b);
    let next = cells[(i + 2) % 256];
    Advanced {
        octet: (cells[((y + x) % 256) as usize] % 256) as u8,
        j: sum,
        x: next,
    }
}

// The cell x at a and the cell at b change places: `swap` reads x once more, which takes a tenth longer.
fn swap_cells(cells: &mut [u32; 256], a: usize, x: u32, b: usize)
    requires { (a < 256) × (b < 256) × (x ≡ get_or cells.old a 0) }
    ensures { cells.new ≡ swap cells.old a b }
{
    cells[a] = cells[b];
    cells[b] = x;
}

// A box of octets as one of words, which is faster: an octet that is stored and soon loaded again waits. The words are lent: handed back from
// `from_fn` they stood on the stack twice.
fn widen(cells: [u8; 256], words: &mut [u32; 256])
    requires { OctetCells words.old }
    ensures { (words.new ≡ cells) × OctetCells words.new }
{
    for n in 0..256 {
        words[n] = u32::from(cells[n]);
    }
}

// A box of words as one of octets. A call of its own, as `apply`: its code is long, and many callers have it.
#[inline(never)]
fn narrow(words: &[u32; 256]) -> [u8; 256]
    requires { OctetCells words.now }
    ensures { result ≡ words.now }
{
    array::from_fn(|n| (words[n] % 256) as u8)
}

// Whether the cells are the numbers 0 to 255, in order. All are looked at, also behind one that differs: so sixteen are compared at once.
#[tactic(auto, using(crate::proofs::Marks::order_more, crate::proofs::Marks::order_all))]
fn in_order(cells: [u8; 256]) -> bool
    ensures { result ≡ in_order 0 cells }
{
    let mut same = true;
    for n in 0..256 {
        same &= cells[n] == n as u8;
    }
    same
}

// A mark for each number that stands in one of the cells, an octet each: `==` takes twice as long over bools.
fn marked(cells: [u8; 256]) -> [u8; 256]
    ensures { Marked cells result }
{
    let mut marks = [0; 256];
    for n in 0..256 {
        marks[usize::from(cells[n])] = 1;
    }
    marks
}
