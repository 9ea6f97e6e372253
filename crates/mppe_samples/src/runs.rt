// Runs of a stateful link: packets sealed, lost, repeated, late and damaged, and Reset-Requests.
use crate::shown::{show, show_opened, show_reset};
use crate::{MESSAGE, counted, last_packet};
use mppe::Link;
use std::io;
use std::io::Write;

// Both ends, the packet sealed last, and one that was kept.
#[derive(Clone, Copy)]
struct Ends {
    sender: Link,
    receiver: Link,
    wire: [u8; 18],
    kept: [u8; 18],
}

// A loss of the first packet; three counts that end in 0xFF; a burst lost over such a count, packets with A, and 2,047 in a row. Then every
// way to be refused, and the wrap of the counts.
pub fn all<W: Write>(writer: &mut W, first: Link) -> io::Result<()> {
    run(
        writer,
        first,
        b"ssorrsorsoqsososoqsososoqsososoqxsosorsosoqsossosorssoqsosoXsosorsoXsksol",
    )?;
    run(writer, first, b"sososksoosnspsdolrsaorsnpdoosnpdaoksol")?;
    run(writer, counted(first, 4091), b"sosososososo")
}

// A run of events, from one record at both ends.
fn run<W: Write>(writer: &mut W, link: Link, script: &[u8]) -> io::Result<()> {
    report::numbered(writer, b"cases from", 0, 0, b"")?;
    let mut ends = Ends {
        sender: link,
        receiver: link,
        wire: [0; 18],
        kept: [0; 18],
    };
    for (n, code) in script.iter().enumerate() {
        ends = ends.event(writer, *code, n)?;
    }
    Ok(())
}

impl Ends {
    // One event: `s` seals, `r` is a Reset-Request that the sender takes, `k` keeps the packet sealed last, `q` are packets unseen up
    // to a count that ends in 0xFD, `x` 63 lost and `X` 2,047 lost; any other is an arrival.
    fn event<W: Write>(self, writer: &mut W, code: u8, n: usize) -> io::Result<Ends> {
        match code {
            b's' => {
                let mut wire = [0xEE; 18];
                let made = self.sender.seal(MESSAGE, &mut wire);
                show(writer, b"sealed", n, made, &wire)?;
                Ok(Ends {
                    sender: made.link,
                    wire,
                    ..self
                })
            }
            b'r' => {
                let sender = show_reset(writer, n, self.sender, b"\x0e\x07\x00\x04")?;
                Ok(Ends { sender, ..self })
            }
            b'k' => {
                let kept = self.wire;
                Ok(Ends { kept, ..self })
            }
            b'q' => Ok(self.pass((509 - usize::from(self.sender.count) % 256) % 256)),
            b'x' => Ok(self.lose(63)),
            b'X' => Ok(self.lose(2047)),
            _ => {
                let room = if code == b'n' { 13 } else { 14 };
                let wire = self.arriving(code);
                let receiver = show_opened(writer, b"opened", n, self.receiver, &wire, room)?;
                Ok(Ends { receiver, ..self })
            }
        }
    }

    // Packets are sealed and lost.
    fn lose(self, packets: usize) -> Ends {
        let lost = last_packet(self.sender, packets);
        let wire = lost.wire;
        Ends {
            sender: lost.link,
            wire,
            ..self
        }
    }

    // Packets are sealed and opened, and nothing printed.
    fn pass(self, packets: usize) -> Ends {
        let mut ends = self;
        for _ in 0..packets {
            ends = ends.lose(1);
            ends.receiver = ends.receiver.open(&ends.wire, &mut [0; 14]).link;
        }
        ends
    }

    // The packet that arrives, as it is; `d` without D, `a` with A turned over, `p` with another protocol number, `n` without room; `l` is
    // the one that was kept.
    fn arriving(self, code: u8) -> [u8; 18] {
        let mut wire = self.wire;
        match code {
            b'd' => wire[2] ^= 0x10,
            b'a' => wire[2] ^= 0x80,
            b'p' => wire[4] ^= 0xFF,
            b'l' => {
                let kept = self.kept;
                wire = kept;
            }
            _ => (),
        }
        wire
    }
}
