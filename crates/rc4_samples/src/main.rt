// Runs RC4 on the vectors of RFC 6229 and at the limits of 01, and prints what it answers.
#![tactic(auto)]

ghost use Rattle.std.specs.Prelude.{◌≡◌, ◌<◌, ◌≤◌, length};
ghost use Rattle.rc4.specs.Answers.{draw_answer};

use answer::number_of;
use rc4::{Drawn, Rc4};
use std::io::{BufWriter, Write};
use std::{array, io};

// How far the vectors reach into the keystream.
const REACH: usize = 4112;

// The keys of RFC 6229's first series are the first octets of this one.
const COUNTED: [u8; 32] = [
    1, 2, 3, 4, 5, 6, 7, 8, 9, 10, 11, 12, 13, 14, 15, 16, 17, 18, 19, 20, 21, 22, 23, 24, 25, 26,
    27, 28, 29, 30, 31, 32,
];

// The keys of its second series are the last octets of this one.
const HASHED: [u8; 32] = [
    0x1A, 0xDA, 0x31, 0xD5, 0xCF, 0x68, 0x82, 0x21, 0xC1, 0x09, 0x16, 0x39, 0x08, 0xEB, 0xE5, 0x1D,
    0xEB, 0xB4, 0x62, 0x27, 0xC6, 0xCC, 0x8B, 0x37, 0x64, 0x19, 0x10, 0x83, 0x32, 0x22, 0x77, 0x2A,
];

// What is shown of the state where a key is refused.
const ZEROS: Rc4 = Rc4 {
    cells: [0; 256],
    i: 0,
    j: 0,
};

// Prints them to standard output, by blocks.
fn main(rt: HostRuntime) -> io::Result<()> {
    let mut writer = BufWriter::new(rt.alloc(), io::writer(&rt))?;
    print_all(&mut writer)?;
    writer.flush()
}

// All cases, in the order of tests/rc4.c.
fn print_all<W: Write>(writer: &mut W) -> io::Result<()> {
    vectors(writer, 5)?;
    vectors(writer, 7)?;
    vectors(writer, 8)?;
    vectors(writer, 10)?;
    vectors(writer, 16)?;
    vectors(writer, 24)?;
    vectors(writer, 32)?;
    keys(writer)?;
    draws(writer)?;
    permutations(writer)?;
    unkeyed(writer)?;
    buffers(writer)?;
    numbers(writer)?;
    lengths(writer)?;
    parts(writer)?;
    twice(writer, &mut [0u8; 32], &mut [0u8; 32])
}

// Both keys of n octets of RFC 6229, section 2.
fn vectors<W: Write>(writer: &mut W, n: usize) -> io::Result<()>
    requires { n ≤ 32 }
{
    vector(writer, b"key 1, bits", n * 8, &COUNTED[0..n])?;
    vector(writer, b"key 2, bits", n * 8, &HASHED[32 - n..32])
}

// The keystream of a key at every offset that is printed.
fn vector<W: Write>(writer: &mut W, label: &[u8], bits: usize, key: &[u8]) -> io::Result<()> {
    let k = Rc4::keyed(key);
    report::numbered(writer, label, bits, number_of(&k), key)?;
    let mut out = [0; REACH];
    let r = k.unwrap_or(ZEROS).run(&[0; REACH], &mut out);
    offsets(writer, number_of(&r), &out)?;
    applied(writer, key)
}

// The keystream by one call, at the last offset.
fn applied<W: Write>(writer: &mut W, key: &[u8]) -> io::Result<()> {
    let mut out = [0u8; REACH];
    let r = rc4::apply(key, &[0u8; REACH], &mut out);
    report::numbered(
        writer,
        b"in one call, offset",
        4096,
        number_of(&r),
        &out[4096..],
    )
}

// A keystream about each offset.
fn offsets<W: Write>(writer: &mut W, answer: u8, out: &[u8]) -> io::Result<()>
    requires { length out.now ≡ 4112 }
{
    around(writer, answer, out, 16)?;
    around(writer, answer, out, 256)?;
    around(writer, answer, out, 512)?;
    around(writer, answer, out, 768)?;
    around(writer, answer, out, 1024)?;
    around(writer, answer, out, 1536)?;
    around(writer, answer, out, 2048)?;
    around(writer, answer, out, 3072)?;
    around(writer, answer, out, 4096)
}

// Prints sixteen octets before an offset and sixteen behind it.
fn around<W: Write>(writer: &mut W, answer: u8, out: &[u8], offset: usize) -> io::Result<()>
    requires { (16 ≤ offset) × (offset ≤ 4096) × (length out.now ≡ 4112) }
{
    report::numbered(
        writer,
        b"offset",
        offset - 16,
        answer,
        &out[offset - 16..offset],
    )?;
    report::numbered(writer, b"offset", offset, answer, &out[offset..offset + 16])
}

// Keys at and beyond the limits of their length; a refusal's box is all zeros.
fn keys<W: Write>(writer: &mut W) -> io::Result<()> {
    box_of(writer, 0)?;
    box_of(writer, 1)?;
    box_of(writer, 256)?;
    box_of(writer, 257)
}

// Prints the box of a key of n octets.
fn box_of<W: Write>(writer: &mut W, n: usize) -> io::Result<()>
    requires { n ≤ 257 }
{
    let key = scattered();
    let k = Rc4::keyed(&key[0..n]);
    report::numbered(
        writer,
        b"key, octets",
        n,
        number_of(&k),
        &k.unwrap_or(ZEROS).cells,
    )
}

// A key of 257 octets, which repeat after 128.
fn scattered() -> [u8; 257] {
    let mut key = [0; 257];
    let mut x: u8 = 7;
    for octet in &mut key {
        *octet = x;
        x = x.wrapping_mul(5).wrapping_add(2);
    }
    key
}

// How a draw is made.
#[derive(Clone, Copy)]
enum Form {
    ByValue,
    ByReference,
}

// Draws from a key's box, and from a box made by hand that is no permutation.
fn draws<W: Write>(writer: &mut W) -> io::Result<()> {
    let s = Rc4::keyed(&COUNTED[..5]).unwrap_or(ZEROS);
    both_draws(writer, b"draws from a key", s)?;
    let mut cells = s.cells;
    cells[0] = 9;
    cells[200] = 9;
    both_draws(
        writer,
        b"draws from a box made by hand",
        Rc4 {
            cells,
            i: 255,
            j: 200,
        },
    )
}

// Draws by value, and from a generator lent by reference.
fn both_draws<W: Write>(writer: &mut W, label: &[u8], state: Rc4) -> io::Result<()> {
    show_draws(writer, label, Form::ByValue, state)?;
    show_draws(writer, b"the same in place", Form::ByReference, state)
}

// Prints the next sixteen draws from a state.
fn show_draws<W: Write>(writer: &mut W, label: &[u8], form: Form, state: Rc4) -> io::Result<()> {
    report::line(writer, label, 0, &sixteen_draws(form, state))
}

// Sixteen draws, one at a time.
fn sixteen_draws(form: Form, state: Rc4) -> [u8; 16] {
    let mut s = state;
    let mut octets = [0; 16];
    for octet in &mut octets {
        let d = one_draw(form, s);
        *octet = d.octet;
        s = d.state;
    }
    octets
}

// One draw.
fn one_draw(form: Form, state: Rc4) -> Drawn {
    match form {
        Form::ByValue => state.draw(),
        Form::ByReference => drawn_in_place(state),
    }
}

// One draw from a generator lent by reference, with the state that it is left in.
fn drawn_in_place(state: Rc4) -> Drawn
    ensures { result ≡ draw_answer state }
{
    let mut g = state;
    let octet = rc4::draw_next(&mut g);
    Drawn { octet, state: g }
}

// Whether boxes are permutations: a key's, one after a draw, one of zeros, and a key's with each number missing in turn.
fn permutations<W: Write>(writer: &mut W) -> io::Result<()> {
    let s = Rc4::keyed(&COUNTED[..16]).unwrap_or(ZEROS);
    report::line(writer, b"box of a key, a permutation", told(s), b"")?;
    let d = s.draw();
    report::line(writer, b"after a draw", told(d.state), b"")?;
    report::line(writer, b"box of zeros", told(ZEROS), b"")?;
    report::line(writer, b"each number missing", 0, &each_missing(s))
}

// 1 for a permutation, and else 0.
fn told(state: Rc4) -> u8 {
    u8::from(state.is_permutation())
}

// What is told of the boxes in which one cell holds what the next one does.
fn each_missing(state: Rc4) -> [u8; 256] {
    array::from_fn(|n| told(with_repeated(state, n)))
}

// A box in which cell n holds what the next one does.
fn with_repeated(state: Rc4, n: usize) -> Rc4
    requires { n < 256 }
{
    let mut cells = state.cells;
    cells[n] = cells[(n + 1) % 256];
    Rc4 { cells, i: 0, j: 0 }
}

// Whether states are unkeyed: that one, with an index that is not 0, with two cells exchanged, with a repeated cell, of a key, of zeros.
fn unkeyed<W: Write>(writer: &mut W) -> io::Result<()> {
    let s = Rc4::unkeyed();
    show_unkeyed(writer, b"unkeyed state", s)?;
    show_unkeyed(writer, b"with another i", with_indices(s, 1, 0))?;
    show_unkeyed(writer, b"with another j", with_indices(s, 0, 128))?;
    show_unkeyed(writer, b"with two cells exchanged", with_last_exchanged(s))?;
    show_unkeyed(writer, b"with a repeated cell", with_repeated(s, 0))?;
    show_unkeyed(
        writer,
        b"state of a key",
        Rc4::keyed(&COUNTED[..16]).unwrap_or(ZEROS),
    )?;
    show_unkeyed(writer, b"state of zeros", ZEROS)
}

// Prints 1 for the unkeyed state and else 0, and a state's cells and indices.
fn show_unkeyed<W: Write>(writer: &mut W, label: &[u8], state: Rc4) -> io::Result<()> {
    let mut octets = [0; 258];
    octets[..256].copy_from_slice(&state.cells);
    octets[256] = state.i;
    octets[257] = state.j;
    report::line(writer, label, u8::from(state.is_unkeyed()), &octets)
}

// A state with other indices.
fn with_indices(state: Rc4, i: u8, j: u8) -> Rc4 {
    Rc4 { i, j, ..state }
}

// A state with its last two cells exchanged.
fn with_last_exchanged(state: Rc4) -> Rc4 {
    let mut cells = state.cells;
    cells.swap(254, 255);
    Rc4 { cells, ..state }
}

// Lent buffers longer than the text, as long, and one octet too short; an empty text.
fn buffers<W: Write>(writer: &mut W) -> io::Result<()> {
    buffer(writer, b"buffer with room left", 9, 12)?;
    buffer(writer, b"buffer as long as the text", 12, 12)?;
    buffer(writer, b"buffer one octet too short", 13, 12)?;
    buffer(writer, b"empty text", 0, 12)?;
    buffer(writer, b"empty text and buffer", 0, 0)
}

// A text of n octets run under one key: the whole buffer after it, and draws from the state that it hands back.
fn buffer<W: Write>(writer: &mut W, label: &[u8], n: usize, room: usize) -> io::Result<()>
    requires { (n ≤ 32) × (room ≤ 32) }
{
    let s = Rc4::keyed(&COUNTED[..16]).unwrap_or(ZEROS);
    let after = ran(writer, label, s, 0, n, room)?;
    show_draws(writer, b"draws after it", Form::ByValue, after)
}

// Runs a part of a text into a buffer, prints all of it, and hands back the state.
fn ran<W: Write>(
    writer: &mut W,
    label: &[u8],
    s: Rc4,
    from: usize,
    to: usize,
    room: usize,
) -> io::Result<Rc4>
    requires { (from ≤ to) × (to ≤ 32) × (room ≤ 32) }
{
    let mut out = [0xEEu8; 32];
    shown(writer, label, s, &COUNTED[from..to], &mut out[0..room])
}

// Runs a text, prints the whole buffer, and hands back the state.
fn shown<W: Write>(
    writer: &mut W,
    label: &[u8],
    s: Rc4,
    text: &[u8],
    out: &mut [u8],
) -> io::Result<Rc4> {
    let r = s.run(text, out);
    report::line(writer, label, number_of(&r), out)?;
    Ok(r.unwrap_or(s))
}

// Texts that are taken only where they begin with a number within bounds; 0x9BC5 comes out under the key of 128 bits.
fn numbers<W: Write>(writer: &mut W) -> io::Result<()> {
    judged(
        writer,
        b"number within bounds",
        false,
        0,
        0x9BC5,
        0x9BC5,
        9,
        12,
    )?;
    judged(
        writer,
        b"number below them",
        false,
        0,
        0x9BC6,
        0xFFFF,
        9,
        12,
    )?;
    judged(
        writer,
        b"number above them",
        false,
        0,
        0x0000,
        0x9BC4,
        9,
        12,
    )?;
    judged(
        writer,
        b"within bounds, keyed afresh",
        true,
        16,
        0x9BC5,
        0x9BC5,
        9,
        12,
    )?;
    judged(
        writer,
        b"above them, keyed afresh",
        true,
        16,
        0x0000,
        0x9BC4,
        9,
        12,
    )?;
    judged(
        writer,
        b"keyed afresh without a key",
        true,
        0,
        0x0000,
        0xFFFF,
        9,
        12,
    )?;
    judged(
        writer,
        b"text that is a number",
        false,
        0,
        0x0000,
        0xFFFF,
        2,
        12,
    )?;
    judged(
        writer,
        b"text too short for one",
        false,
        0,
        0x0000,
        0xFFFF,
        1,
        12,
    )?;
    judged(
        writer,
        b"number without room",
        false,
        0,
        0x0000,
        0xFFFF,
        13,
        12,
    )
}

// Judges a text of n octets by bounds, under the key of 128 bits or one of so many octets: the whole buffer after it, and draws from the state.
fn judged<W: Write>(
    writer: &mut W,
    label: &[u8],
    fresh: bool,
    octets: usize,
    lowest: u16,
    highest: u16,
    n: usize,
    room: usize,
) -> io::Result<()>
    requires { (octets ≤ 32) × (n ≤ 32) × (room ≤ 32) }
{
    let mut out = [0xEEu8; 32];
    show_judged(
        writer,
        label,
        held(fresh),
        fresh,
        &COUNTED[0..octets],
        lowest,
        highest,
        &COUNTED[0..n],
        &mut out[0..room],
    )
}

// The state of the key of 128 bits, or none where RC4 is keyed afresh.
fn held(fresh: bool) -> Rc4 {
    if fresh {
        return Rc4::unkeyed();
    }
    Rc4::keyed(&COUNTED[..16]).unwrap_or(ZEROS)
}

// Prints what is made of it.
fn show_judged<W: Write>(
    writer: &mut W,
    label: &[u8],
    s: Rc4,
    fresh: bool,
    key: &[u8],
    lowest: u16,
    highest: u16,
    text: &[u8],
    out: &mut [u8],
) -> io::Result<()> {
    let r = s.run_within(fresh, key, lowest, highest, text, out);
    report::line(writer, label, number_of(&r), out)?;
    show_draws(writer, b"draws after it", Form::ByValue, r.unwrap_or(s))
}

// Texts at and beyond the limit of their length.
fn lengths<W: Write>(writer: &mut W) -> io::Result<()> {
    let s = Rc4::keyed(&COUNTED[..16]).unwrap_or(ZEROS);
    let t = long(writer, s, 65535, 65536)?;
    let u = long(writer, t, 65536, 65536)?;
    let v = long(writer, u, 65536, 16)?;
    show_draws(writer, b"draws after it", Form::ByValue, v)
}

// Runs a long text of n octets into a long buffer, and hands back the state.
fn long<W: Write>(writer: &mut W, s: Rc4, n: usize, room: usize) -> io::Result<Rc4>
    requires { (n ≤ 65536) × (16 ≤ room) × (room ≤ 65536) }
{
    let text = [0x11u8; 65536];
    let mut out = [0xEEu8; 65536];
    last_sixteen(writer, n, s, &text[0..n], &mut out[0..room])
}

// Runs it, and prints the last sixteen octets of the buffer.
fn last_sixteen<W: Write>(
    writer: &mut W,
    n: usize,
    s: Rc4,
    text: &[u8],
    out: &mut [u8],
) -> io::Result<Rc4>
    requires { 16 ≤ length out.old }
{
    let r = s.run(text, out);
    report::numbered(
        writer,
        b"text, octets",
        n,
        number_of(&r),
        &out[out.len() - 16..],
    )?;
    Ok(r.unwrap_or(s))
}

// A text in one run, and cut into two runs on one box.
fn parts<W: Write>(writer: &mut W) -> io::Result<()> {
    let s = Rc4::keyed(&HASHED).unwrap_or(ZEROS);
    ran(writer, b"text in one run", s, 0, 32, 32)?;
    let t = ran(writer, b"its first 13 octets", s, 0, 13, 13)?;
    ran(writer, b"the rest of them", t, 13, 32, 19)?;
    Ok(())
}

// A text run twice from one state.
fn twice<W: Write>(writer: &mut W, once: &mut [u8], again: &mut [u8]) -> io::Result<()> {
    let s = Rc4::keyed(&HASHED).unwrap_or(ZEROS);
    let _ = s.run(&COUNTED, once);
    shown(writer, b"text run twice", s, once, again)?;
    Ok(())
}
