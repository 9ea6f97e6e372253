// Reset-Requests, read and written.
use answer::number_of;
use std::io;
use std::io::Write;

// The identifiers tried.
const IDENTIFIERS: [u8; 3] = [0, 1, 255];

// All cases: with three identifiers, with each bit turned over, and of 0 to 6 octets; written into 0 to 6 octets.
pub fn all<W: Write>(writer: &mut W) -> io::Result<()> {
    for identifier in IDENTIFIERS {
        show_read(writer, &[14, identifier, 0, 4])?;
    }
    for bit in 0..32 {
        show_read(writer, &damaged(bit))?;
    }
    let long = [14, 7, 0, 4, 0, 0];
    for given in 0..7 {
        show_read(writer, &long[..given])?;
    }
    for identifier in IDENTIFIERS {
        for room in 0..7 {
            show_written(writer, identifier, &mut [0xaa; 6][..room])?;
        }
    }
    Ok(())
}

// A request with bit n turned over.
fn damaged(n: usize) -> [u8; 4] {
    let mut request = [14, 7, 0, 4];
    request[n / 8 % 4] ^= 1 << n % 8;
    request
}

// The line of a request read: identifier, number, request.
fn show_read<W: Write>(writer: &mut W, request: &[u8]) -> io::Result<()> {
    let identifier = ccp::read_reset(request);
    let number = number_of(&identifier);
    report::numbered(
        writer,
        b"reset",
        identifier.unwrap_or(0) as usize,
        number,
        request,
    )
}

// The line of a request written: identifier, number, the buffer afterwards.
fn show_written<W: Write>(writer: &mut W, identifier: u8, out: &mut [u8]) -> io::Result<()> {
    let number = number_of(&ccp::write_reset(identifier, out));
    report::numbered(writer, b"reset written", identifier as usize, number, out)
}
