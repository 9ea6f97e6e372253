// The published samples of MD4, SHA-1, SHA-256 and HMAC, every length about one and two blocks, and the edges of the limit.
#![tactic(auto)]

use answer::{Refusal, number_of};
use report::{line, numbered};
use std::io;
use std::io::{BufWriter, Write};

// A text that no digest takes: one octet beyond the limit.
const TOO_LONG: usize = 65536;

// Prints them to standard output, by blocks.
fn main(rt: HostRuntime) -> io::Result<()> {
    let mut writer = BufWriter::new(rt.alloc(), io::writer(&rt))?;
    print_all(&mut writer)?;
    writer.flush()
}

// Every sample, one after the other.
fn print_all<W: Write>(writer: &mut W) -> io::Result<()> {
    rfc1320(writer, b"")?;
    rfc1320(writer, b"a")?;
    rfc1320(writer, b"abc")?;
    rfc1320(writer, b"message digest")?;
    rfc1320(writer, b"abcdefghijklmnopqrstuvwxyz")?;
    rfc1320(
        writer,
        b"ABCDEFGHIJKLMNOPQRSTUVWXYZabcdefghijklmnopqrstuvwxyz0123456789",
    )?;
    rfc1320(
        writer,
        b"12345678901234567890123456789012345678901234567890123456789012345678901234567890",
    )?;
    fips180(writer, b"")?;
    fips180(writer, b"abc")?;
    fips180(
        writer,
        b"abcdbcdecdefdefgefghfghighijhijkijkljklmklmnlmnomnopnopq",
    )?;
    fips180(
        writer,
        b"abcdefghbcdefghicdefghijdefghijkefghijklfghijklmghijklmnhijklmnoijklmnopjklmnopqklmnopqrlmnopqrsmnopqrstnopqrstu",
    )?;
    rfc4231(writer, &[0x0bu8; 20], b"Hi There")?;
    rfc4231(writer, b"Jefe", b"what do ya want for nothing?")?;
    rfc4231(writer, &[0xaau8; 20], &[0xddu8; 50])?;
    rfc4231(
        writer,
        b"\x01\x02\x03\x04\x05\x06\x07\x08\x09\x0a\x0b\x0c\x0d\x0e\x0f\x10\x11\x12\x13\x14\x15\x16\x17\x18\x19",
        &[0xcdu8; 50],
    )?;
    rfc4231(writer, &[0x0cu8; 20], b"Test With Truncation")?;
    rfc4231(
        writer,
        &[0xaau8; 131],
        b"Test Using Larger Than Block-Size Key - Hash Key First",
    )?;
    rfc4231(
        writer,
        &[0xaau8; 131],
        b"This is a test using a larger than block-size key and a larger than block-size data. The key needs to be hashed before being used by the HMAC algorithm.",
    )?;
    lengths(writer)
}

// A text of RFC 1320's test suite (A.5).
fn rfc1320<W: Write>(writer: &mut W, text: &[u8]) -> io::Result<()> {
    sample(writer, b"rfc1320 md4", md4::md4(text))
}

// A text of the examples of FIPS 180.
fn fips180<W: Write>(writer: &mut W, text: &[u8]) -> io::Result<()> {
    sample(writer, b"fips180 sha1", sha_1::sha1(text))?;
    sample(writer, b"fips180 sha256", sha256::sha256(text))
}

// A test case of RFC 4231.
fn rfc4231<W: Write>(writer: &mut W, key: &[u8], text: &[u8]) -> io::Result<()> {
    sample(
        writer,
        b"rfc4231 hmac-sha256",
        sha256::hmac_sha256(key, text),
    )
}

// Texts of 0 to 130 octets, the longest one, and one that is too long.
fn lengths<W: Write>(writer: &mut W) -> io::Result<()> {
    let mut text = [0u8; TOO_LONG];
    fill(&mut text);
    for n in 0..=130 {
        each(writer, &text[..n])?;
    }
    each(writer, &text[..TOO_LONG - 1])?;
    each(writer, &text)
}

// Octets that repeat only after 256 * 251 places.
fn fill(text: &mut [u8]) {
    for (i, octet) in text.iter_mut().enumerate() {
        *octet = ((7 * (i % 256) + i / 251 % 256 + 3) % 256) as u8;
    }
}

// Every digest of a text, and HMAC with it as key and as text.
fn each<W: Write>(writer: &mut W, text: &[u8]) -> io::Result<()> {
    let n = text.len();
    sized(writer, b"md4", n, md4::md4(text))?;
    sized(writer, b"sha1", n, sha_1::sha1(text))?;
    sized(writer, b"sha256", n, sha256::sha256(text))?;
    sized(
        writer,
        b"hmac-sha256 of text",
        n,
        sha256::hmac_sha256(b"key", text),
    )?;
    sized(
        writer,
        b"hmac-sha256 under key",
        n,
        sha256::hmac_sha256(text, b"text"),
    )
}

// A line of a sample: the number answered, and the digest, or zeros where it is refused.
fn sample<W: Write, const N: usize>(
    writer: &mut W,
    label: &[u8],
    digest: Result<[u8; N], Refusal>,
) -> io::Result<()> {
    line(
        writer,
        label,
        number_of(&digest),
        &digest.unwrap_or([0u8; N]),
    )
}

// The same with the length of the text.
fn sized<W: Write, const N: usize>(
    writer: &mut W,
    label: &[u8],
    n: usize,
    digest: Result<[u8; N], Refusal>,
) -> io::Result<()> {
    numbered(
        writer,
        label,
        n,
        number_of(&digest),
        &digest.unwrap_or([0u8; N]),
    )
}
