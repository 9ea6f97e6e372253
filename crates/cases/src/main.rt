// Runs the cases that it reads from standard input and writes what each call gives to standard output, for tests/compare.
//
// A case is its call's number (1 octet), three numbers (2 each) and four lengths (3 each), highest octet first; then three inputs and the
// content of the lent buffer. An answer is the length of its fields (2), that of the lent buffer (3), the number answered (1), the fields,
// and the lent buffer's content at exit. Any octets may come: a case cut short has zeros for the rest, and is the last.
#![tactic(auto)]

mod keys;
mod links;
mod logins;
mod packets;
mod texts;

ghost use Rattle.std.specs.Prelude.{◌≤◌, length, IfOk};

use answer::Refusal;
use std::io;
use std::io::{BufWriter, Read, Write};

// The octets in front of a case's inputs.
const HEAD: usize = 19;

// The most octets of an input or of the lent buffer.
const ROOM: usize = 65536;

// A case: its call's number, three numbers and three inputs.
#[derive(Clone, Copy)]
pub struct Case<'a> {
    pub call: u8,
    pub x: u16,
    pub y: u16,
    pub z: u16,
    pub a: &'a [u8],
    pub b: &'a [u8],
    pub c: &'a [u8],
}

// From standard input to standard output.
fn main(rt: HostRuntime) -> io::Result<()> {
    let mut writer = BufWriter::new(rt.alloc(), io::writer(&rt))?;
    run_all(&mut rt.stdin(), &mut writer)
}

// Cases until the input ends. A proved loop must end and nothing says that the input does, so the turns are counted.
fn run_all<R: Read, W: Write>(reader: &mut R, writer: &mut W) -> io::Result<()> {
    for _ in 0..u64::MAX {
        if !run_case(reader, writer)? {
            break;
        }
    }
    Ok(())
}

// Reads one case, runs it, and sends its answer off; false where there is none.
fn run_case<R: Read, W: Write>(reader: &mut R, writer: &mut W) -> io::Result<bool> {
    let mut head = [0u8; HEAD];
    if read_full(reader, &mut head)? < HEAD {
        return Ok(false);
    }
    run_parts(reader, writer, head)?;
    writer.flush()?;
    Ok(true)
}

// Reads the parts of a case behind its head, and runs it. Apart from the head's reading: behind it, in one function, the buffers are filled
// with zeros twice, and once even where no case comes.
fn run_parts<R: Read, W: Write>(
    reader: &mut R,
    writer: &mut W,
    head: [u8; HEAD],
) -> io::Result<()> {
    let mut a = [0u8; ROOM];
    let mut b = [0u8; ROOM];
    let mut c = [0u8; ROOM];
    let mut lent = [0u8; ROOM];
    let in_a = read_part(reader, [head[7], head[8], head[9]], &mut a)?;
    let in_b = read_part(reader, [head[10], head[11], head[12]], &mut b)?;
    let in_c = read_part(reader, [head[13], head[14], head[15]], &mut c)?;
    let in_lent = read_part(reader, [head[16], head[17], head[18]], &mut lent)?;
    let case = Case {
        call: head[0],
        x: u16::from_be_bytes([head[1], head[2]]),
        y: u16::from_be_bytes([head[3], head[4]]),
        z: u16::from_be_bytes([head[5], head[6]]),
        a: &a[..in_a],
        b: &b[..in_b],
        c: &c[..in_c],
    };
    run_call(writer, case, &mut lent[..in_lent])
}

// Makes the call of a case. A number that is no call's gets no answer.
fn run_call<W: Write>(writer: &mut W, case: Case<'_>, lent: &mut [u8]) -> io::Result<()> {
    match case.call / 16 {
        0 => texts::call(writer, case, lent),
        1 => logins::call(writer, case),
        2 => packets::call(writer, case, lent),
        3 => keys::call(writer, case),
        4 => links::call(writer, case, lent),
        _ => Ok(()),
    }
}

// Writes an answer.
pub fn tell<W: Write>(writer: &mut W, number: u8, fields: &[u8], lent: &[u8]) -> io::Result<()> {
    let f = fields.len();
    let n = lent.len();
    writer.write_all(&[
        low(f / 256),
        low(f),
        low(n / 65536),
        low(n / 256),
        low(n),
        number,
    ])?;
    writer.write_all(fields)?;
    writer.write_all(lent)
}

// Writes the answer of a call that gives a number and octets.
pub fn tell_octets<W: Write, const N: usize>(
    writer: &mut W,
    number: u8,
    octets: [u8; N],
) -> io::Result<()> {
    tell(writer, number, &octets, &[])
}

// Writes the answer of a call that gives octets, zeros where it refuses.
pub fn tell_given<W: Write, const N: usize>(
    writer: &mut W,
    given: Result<[u8; N], Refusal>,
) -> io::Result<()> {
    tell_octets(writer, answer::number_of(&given), given.unwrap_or([0; N]))
}

// Writes the answer of a call that writes into the lent buffer.
pub fn tell_written<W: Write>(
    writer: &mut W,
    written: Result<(), Refusal>,
    lent: &[u8],
) -> io::Result<()> {
    tell(writer, answer::number_of(&written), &[], lent)
}

// The lowest octet of a number.
pub fn low(n: usize) -> u8 {
    (n % 256) as u8
}

// Reads a part into the front of a buffer, and says how long the part is: 0 where the buffer has no room. Its length stands in three octets.
fn read_part<R: Read>(reader: &mut R, size: [u8; 3], space: &mut [u8]) -> io::Result<usize>
    ensures { IfOk result (λ k. k ≤ length space.new) }
{
    let n = u32::from_be_bytes([0, size[0], size[1], size[2]]) as usize;
    if space.len() < n {
        return Ok(0);
    }
    read_full(reader, &mut space[..n])?;
    Ok(n)
}

// Reads until a buffer is full or the input ends, and says how many octets it put into its front. A turn takes as many as come, so it counts
// them by hand.
fn read_full<R: Read>(reader: &mut R, space: &mut [u8]) -> io::Result<usize>
    ensures { IfOk result (λ k. k ≤ length space.new) }
{
    let mut done = 0;
    while done < space.len() {
        let n = reader.read(&mut space[done..])?;
        if n == 0 {
            break;
        }
        done += n;
    }
    Ok(done)
}
