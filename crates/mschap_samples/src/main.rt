// Answers the samples of RFC 2759, sections 9.2 and 9.3, and cases at and beyond the limits of 01, and prints what is answered.
#![tactic(auto)]

use answer::Refusal;
use std::io;
use std::io::{BufWriter, Write};

// The lengths of names.
const NAMES: [usize; 5] = [0, 1, 255, 256, 257];

// The lengths of passwords.
const PASSWORDS: [usize; 8] = [0, 1, 2, 510, 511, 512, 513, 514];

// Names with 0x5C once, several times and alone, in front, within and at the end, and one without.
const DOMAINS: [&[u8]; 9] = [
    b"BIGCO\\johndoe",
    b"johndoe",
    b"\\",
    b"\\\\",
    b"\\pump4",
    b"NORTH\\",
    b"A\\B\\c",
    b"B\\c",
    b"\\A\\B\\",
];

// What a login is made from.
#[derive(Clone, Copy)]
struct Login<'a> {
    authenticator: &'a [u8],
    peer: &'a [u8],
    name: &'a [u8],
    password: &'a [u8],
}

impl<'a> Login<'a> {
    // The same login under another name.
    fn named(self, name: &'a [u8]) -> Login<'a> {
        Login { name, ..self }
    }

    // The same login with another password.
    fn with(self, password: &'a [u8]) -> Login<'a> {
        Login { password, ..self }
    }

    // The NT-Response.
    fn response(self) -> Result<[u8; 24], Refusal> {
        mschap::nt_response(self.authenticator, self.peer, self.name, self.password)
    }

    // The string for a response.
    fn string(self, response: &[u8]) -> Result<[u8; 42], Refusal> {
        mschap::authenticator_string(
            self.password,
            response,
            self.peer,
            self.authenticator,
            self.name,
        )
    }

    // Whether a response is this login's.
    fn has_response(self, received: &[u8]) -> Result<bool, Refusal> {
        mschap::check_response(
            self.authenticator,
            self.peer,
            self.name,
            self.password,
            received,
        )
    }

    // Whether a string is the one for a response.
    fn has_string(self, response: &[u8], received: &[u8]) -> Result<bool, Refusal> {
        mschap::check_authenticator(
            self.password,
            response,
            self.peer,
            self.authenticator,
            self.name,
            received,
        )
    }
}

// Prints them to standard output, by blocks.
fn main(rt: HostRuntime) -> io::Result<()> {
    let mut writer = BufWriter::new(rt.alloc(), io::writer(&rt))?;
    print_all(&mut writer)?;
    writer.flush()
}

// All cases, in the order of tests/mschap.c; the challenges are those of section 9.2.
fn print_all<W: Write>(writer: &mut W) -> io::Result<()> {
    let mut text = [0u8; 514];
    fill(&mut text);
    let login = Login {
        authenticator: b"[]|}{?/><,`!2&&(",
        peer: b"!@#$%^&*()_+:3|~",
        name: b"User",
        password: b"p\x00w\x00",
    };
    samples(writer, login)?;
    names(writer, login, &text)?;
    domains(writer, login)?;
    backslashes(writer, login)?;
    passwords(writer, login, &text)?;
    received(writer, login, &text)?;
    challenges(writer, login, &text)?;
    responses(writer, &text)
}

// Sections 9.2, also with a domain in front of its user, and 9.3.
fn samples<W: Write>(writer: &mut W, login: Login) -> io::Result<()> {
    let client = login.with(b"c\x00l\x00i\x00e\x00n\x00t\x00P\x00a\x00s\x00s\x00");
    all(writer, client)?;
    others(writer, client)?;
    all(writer, client.named(b"NORTH\\User"))?;
    keys(writer, b"M\x00y\x00P\x00w\x00")
}

// Octets that are not all the same, none of them 0x5C.
fn fill(text: &mut [u8]) {
    for (i, octet) in text.iter_mut().enumerate() {
        *octet = (7 * (i % 89) % 89 + 1) as u8;
    }
}

// The first n octets of a text; the whole text where it has no more.
fn front(text: &[u8], n: usize) -> &[u8] {
    &text[..n.min(text.len())]
}

// What every call answers to one login.
fn all<W: Write>(writer: &mut W, login: Login) -> io::Result<()> {
    report::numbered(writer, b"name", login.name.len(), 0, login.name)?;
    report::numbered(writer, b"password", login.password.len(), 0, login.password)?;
    parts(writer, login)?;
    answers(writer, login)
}

// The hashes, and the response that they give.
fn parts<W: Write>(writer: &mut W, login: Login) -> io::Result<()> {
    let hash = shown(
        writer,
        b"password hash",
        mschap::password_hash(login.password),
    )?;
    shown(writer, b"hash-hash", mschap::hash_hash(&hash))?;
    let challenge = shown(
        writer,
        b"challenge hash",
        mschap::challenge_hash(login.peer, login.authenticator, login.name),
    )?;
    shown(
        writer,
        b"response",
        mschap::challenge_response(&challenge, &hash),
    )?;
    Ok(())
}

// The NT-Response, the authenticator string, and the checks of both.
fn answers<W: Write>(writer: &mut W, login: Login) -> io::Result<()> {
    let response = shown(writer, b"response", login.response())?;
    let string = shown(writer, b"string", login.string(&response))?;
    shown_check(writer, b"response", 24, login.has_response(&response))?;
    shown_check(writer, b"string", 42, login.has_string(&response, &string))
}

// The checks of a response and a string with each of their octets another.
fn others<W: Write>(writer: &mut W, login: Login) -> io::Result<()> {
    let response = shown(writer, b"response", login.response())?;
    let string = shown(writer, b"string", login.string(&response))?;
    each_other(writer, b"response, other at", response, 1, |other| {
        login.has_response(other)
    })?;
    each_other(writer, b"string, other at", string, 128, |other| {
        login.has_string(&response, other)
    })
}

// What a check says of octets of which each in turn has some of its bits turned.
fn each_other<W: Write, F: Fn(&[u8]) -> Result<bool, Refusal>, const N: usize>(
    writer: &mut W,
    label: &[u8],
    octets: [u8; N],
    bits: u8,
    check: F,
) -> io::Result<()>
    requires { F.IsAlwaysCallable check }
{
    for i in 0..N {
        let mut other = octets;
        other[i] ^= bits;
        shown_check(writer, label, i, check(&other))?;
    }
    Ok(())
}

// The hash of a password, and the first two DES keys that it gives, without parity bits.
fn keys<W: Write>(writer: &mut W, password: &[u8]) -> io::Result<()> {
    let hash = shown(writer, b"password hash", mschap::password_hash(password))?;
    report::line(writer, b"first key", 0, &hash[..7])?;
    report::line(writer, b"both keys", 0, &hash[..14])?;
    shown(
        writer,
        b"response",
        mschap::challenge_response(&hash[..8], &hash),
    )?;
    Ok(())
}

// Names of all lengths.
fn names<W: Write>(writer: &mut W, login: Login, text: &[u8]) -> io::Result<()> {
    for n in NAMES {
        all(writer, login.named(front(text, n)))?;
    }
    Ok(())
}

// The names with domains, and one of them with a password of odd length.
fn domains<W: Write>(writer: &mut W, login: Login) -> io::Result<()> {
    for name in DOMAINS {
        all(writer, login.named(name))?;
    }
    all(writer, login.named(b"BIGCO\\johndoe").with(b"p\x00w"))
}

// Names of 256 octets, and of 257, which are refused whatever follows a 0x5C: all octets 0x5C, and those of one place or two.
fn backslashes<W: Write>(writer: &mut W, login: Login) -> io::Result<()> {
    all(writer, login.named(&[0x5Cu8; 256]))?;
    all(writer, login.named(&[0x5Cu8; 257]))?;
    for (a, b) in [(0, 0), (128, 128), (255, 255), (256, 256), (100, 200)] {
        let name = with_backslashes(a, b);
        all(writer, login.named(front(&name, 256)))?;
        all(writer, login.named(&name))?;
    }
    Ok(())
}

// 257 octets of the text with 0x5C in two places.
fn with_backslashes(a: usize, b: usize) -> [u8; 257] {
    let mut name = [0u8; 257];
    fill(&mut name);
    for (i, octet) in name.iter_mut().enumerate() {
        if i == a || i == b {
            *octet = 0x5C;
        }
    }
    name
}

// Passwords of all lengths.
fn passwords<W: Write>(writer: &mut W, login: Login, text: &[u8]) -> io::Result<()> {
    for n in PASSWORDS {
        all(writer, login.with(front(text, n)))?;
    }
    Ok(())
}

// Challenges of 15 to 17 octets, each with each.
fn challenges<W: Write>(writer: &mut W, login: Login, text: &[u8]) -> io::Result<()> {
    for n in 15..18 {
        for m in 15..18 {
            let authenticator = front(text, n);
            let peer = front(b"0123456789ABCDEFG", m);
            all(
                writer,
                Login {
                    authenticator,
                    peer,
                    ..login
                },
            )?;
        }
    }
    Ok(())
}

// Challenge hashes of 7 to 9 octets, and hashes of 15 to 17, each with each.
fn responses<W: Write>(writer: &mut W, text: &[u8]) -> io::Result<()> {
    for n in 7..10 {
        for m in 15..18 {
            let hash = front(text, m);
            shown(writer, b"hash-hash", mschap::hash_hash(hash))?;
            shown(
                writer,
                b"response",
                mschap::challenge_response(front(text, n), hash),
            )?;
        }
    }
    Ok(())
}

// Responses of 23 to 25 octets, and strings of 41 to 43, each with each, for a name with a domain and for one without.
fn received<W: Write>(writer: &mut W, login: Login, text: &[u8]) -> io::Result<()> {
    for n in 23..26 {
        for m in 41..44 {
            let response = front(text, n);
            let string = front(text, m);
            checks(writer, login.named(b"BIGCO\\johndoe"), response, string)?;
            checks(writer, login, response, string)?;
        }
    }
    Ok(())
}

// The string for a response, and both checks of what was received.
fn checks<W: Write>(
    writer: &mut W,
    login: Login,
    response: &[u8],
    string: &[u8],
) -> io::Result<()> {
    shown(writer, b"string", login.string(response))?;
    shown_check(
        writer,
        b"response of length",
        response.len(),
        login.has_response(response),
    )?;
    shown_check(
        writer,
        b"string of length",
        string.len(),
        login.has_string(response, string),
    )
}

// Prints what a call gives, and hands back its octets: zeros where it refuses.
fn shown<W: Write, const N: usize>(
    writer: &mut W,
    label: &[u8],
    given: Result<[u8; N], Refusal>,
) -> io::Result<[u8; N]> {
    let octets = given.unwrap_or([0u8; N]);
    report::line(writer, label, answer::number_of(&given), &octets)?;
    Ok(octets)
}

// Prints what a check says: 01 is a yes.
fn shown_check<W: Write>(
    writer: &mut W,
    label: &[u8],
    n: usize,
    given: Result<bool, Refusal>,
) -> io::Result<()> {
    let yes = given.unwrap_or(false);
    report::numbered(
        writer,
        label,
        n,
        answer::number_of(&given),
        &[u8::from(yes)],
    )
}
