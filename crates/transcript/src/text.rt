//! The texts that calls read as files.

use crate::fault::Fault;
use knx_model::Octets;
use std::alloc::Global;

/// A text under its file's name.
#[derive(Drop)]
pub struct TextFile {
    pub name: String,
    pub content: Octets,
}

impl TextFile {
    /// An empty text.
    pub fn new(alloc: Global, name: &str) -> Result<TextFile, Fault> {
        Ok(TextFile {
            name: String::from_str(alloc, name)?,
            content: Octets::new(alloc),
        })
    }

    fn put_one(&mut self, line: &str) -> Result<(), Fault> {
        self.content.append(line.as_bytes())?;
        self.content.push(b'\n')?;
        Ok(())
    }

    /// Adds a line, or the lines that a repeated line stands for.
    pub fn put(&mut self, alloc: Global, line: &str) -> Result<(), Fault> {
        let Some((count, line)) = repeated(line) else {
            return self.put_one(line);
        };
        for before in 0..count {
            let line = numbered(alloc, line, before + 1)?;
            self.put_one(line.as_str())?;
        }
        Ok(())
    }
}

/// The number of lines and the line of `* N TEXT`.
fn repeated(line: &str) -> Option<(u32, &str)> {
    let (count, line) = line.strip_prefix("* ")?.split_once(' ')?;
    let count = count.parse::<u32>().ok()?;
    Some((count, line))
}

/// The line of this number of a repeated line.
fn numbered(alloc: Global, line: &str, number: u32) -> Result<String, Fault> {
    let group = format!(in alloc; "{}/{}/{}", number / 2048, number / 256 % 8, number % 256)?;
    let device = format!(in alloc; "1.1.{number}")?;
    let number = format!(in alloc; "{number}")?;
    let line = line.replace(alloc, "{ga}", group.as_str())?;
    let line = line.replace(alloc, "{ia}", device.as_str())?;
    let line = line.replace(alloc, "{n}", number.as_str())?;
    Ok(line)
}

/// The value of two hexadecimal digits, and what follows them.
fn hex_octet(octets: &[u8]) -> Option<(u8, &[u8])> {
    let [high, low, rest @ ..] = octets else {
        return None;
    };
    let high = char::from(*high).to_digit(16)?;
    let low = char::from(*low).to_digit(16)?;
    Some(((high * 16 + low) as u8, rest))
}

/// The octets of a word of hexadecimal digits, two each.
pub fn hex_octets(alloc: Global, word: &str) -> Result<Octets, Fault> {
    let mut out = Octets::new(alloc);
    let mut rest = word.as_bytes();
    for _ in 0..word.len() / 2 {
        let (octet, after) = hex_octet(rest).ok_or(Fault::Words)?;
        out.push(octet)?;
        rest = after;
    }
    if rest.is_empty() {
        Ok(out)
    } else {
        Err(Fault::Words)
    }
}

/// The next octet of a text with escapes, and what follows it.
fn next_octet(octets: &[u8]) -> Option<(u8, &[u8])> {
    match octets {
        [] => None,
        [b'\\', b'n', rest @ ..] => Some((b'\n', rest)),
        [b'\\', b'r', rest @ ..] => Some((b'\r', rest)),
        [b'\\', b't', rest @ ..] => Some((b'\t', rest)),
        [b'\\', b'\\', rest @ ..] => Some((b'\\', rest)),
        [b'\\', b'x', rest @ ..] => hex_octet(rest),
        [octet, rest @ ..] => Some((*octet, rest)),
    }
}

/// The octets of a text with escapes.
pub fn unescaped(alloc: Global, text: &str) -> Result<Octets, Fault> {
    let mut out = Octets::new(alloc);
    let mut rest = text.as_bytes();
    for _ in 0..text.len() {
        let Some((octet, after)) = next_octet(rest) else {
            break;
        };
        out.push(octet)?;
        rest = after;
    }
    Ok(out)
}
