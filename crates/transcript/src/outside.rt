//! What a call meets outside: the link that it dials, the port that it binds, and which reads and writes fail.

ghost use Rattle.std.specs.Prelude.{IfOk};
ghost use Rattle.line_fixed.specs.Dialling.{IsUnusedLink, IsUnusedPort};

use crate::fault::Fault;
use crate::text::hex_octets;
use knx_model::{MemoryFiles, MemorySink, Octets};
use line_fixed::{FixedDialer, FixedLink, FixedPort, List, PortItem};
use std::alloc::Global;

/// The words of the lines that state it.
#[derive(Drop)]
pub struct Outside {
    link: Option<String>,
    port: Option<String>,
    reads: String,
    writes: String,
}

impl Outside {
    /// There is no link and no port, and nothing fails.
    pub fn new(alloc: Global) -> Outside {
        Outside {
            link: None,
            port: None,
            reads: String::new(alloc),
            writes: String::new(alloc),
        }
    }

    /// Takes a line in that states something of it.
    pub fn take_in(&mut self, alloc: Global, line: &str) -> Result<(), Fault> {
        if let Some(words) = line.strip_prefix("link ") {
            self.link = Some(String::from_str(alloc, words)?);
        } else if let Some(words) = line.strip_prefix("port") {
            self.port = Some(String::from_str(alloc, words)?);
        } else if let Some(words) = line.strip_prefix("failing reads ") {
            self.reads = String::from_str(alloc, words)?;
        } else if let Some(words) = line.strip_prefix("failing writes ") {
            self.writes = String::from_str(alloc, words)?;
        }
        Ok(())
    }

    /// Lets the reads fail that are stated.
    pub fn fail_reads(&self, files: &mut MemoryFiles) -> Result<(), Fault> {
        put_numbers(self.reads.as_str(), &mut files.failing)
    }

    /// Lets the writes fail that are stated.
    pub fn fail_writes(&self, sink: &mut MemorySink) -> Result<(), Fault> {
        put_numbers(self.writes.as_str(), &mut sink.failing)
    }

    /// A dialer of the link and of the port.
    pub fn dialer(&self, alloc: Global) -> Result<FixedDialer, Fault> {
        let link = match &self.link {
            Some(words) => Some(link_of(alloc, words.as_str())?),
            None => None,
        };
        let port = match &self.port {
            Some(words) => Some(port_of(alloc, words.as_str())?),
            None => None,
        };
        Ok(FixedDialer::new(link, port))
    }
}

/// The number of a word.
fn number_of(word: &str) -> Result<u64, Fault> {
    word.parse::<u64>().ok().ok_or(Fault::Words)
}

/// The number of a client, or of milliseconds.
fn short_number_of(word: &str) -> Result<u32, Fault> {
    word.parse::<u32>().ok().ok_or(Fault::Words)
}

/// Adds the numbers that stand between spaces.
fn put_numbers(words: &str, numbers: &mut Vec<u64>) -> Result<(), Fault> {
    for word in words.split_whitespace() {
        numbers.push(number_of(word)?)?;
    }
    Ok(())
}

/// A datagram that comes once, before the others, or the one that comes for ever.
fn take_datagram(
    alloc: Global,
    word: &str,
    gives: &mut List<Octets>,
    last: &mut Option<Octets>,
) -> Result<(), Fault> {
    match word.strip_prefix("first:") {
        Some(first) => gives.push(hex_octets(alloc, first)?)?,
        None => *last = Some(hex_octets(alloc, word)?),
    }
    Ok(())
}

/// A link by the words of a `link` line: it gives the datagrams that come first, then the one that is stated for ever, fails in the calls that are stated,
/// and its polls last as they are stated.
fn link_of(alloc: Global, words: &str) -> Result<FixedLink, Fault>
    ensures { IfOk result IsUnusedLink }
{
    let mut gives = List::new(alloc);
    let mut last = None;
    let mut fails = List::new(alloc);
    let mut lasting = List::new(alloc);
    for word in words.split_whitespace() {
        if let Some(number) = word.strip_prefix("fail:") {
            fails.push(number_of(number)?)?;
        } else if let Some(ms) = word.strip_prefix("lasts:") {
            lasting.push(short_number_of(ms)?)?;
        } else {
            take_datagram(alloc, word, &mut gives, &mut last)?;
        }
    }
    Ok(FixedLink::new(alloc, gives, last, fails).with_polls(lasting))
}

/// The client that a word names before its datagram, 0 where it names none; and the datagram.
fn sent_by(alloc: Global, word: &str) -> Result<(u32, Octets), Fault> {
    match word.split_once(':') {
        Some((number, datagram)) => Ok((short_number_of(number)?, hex_octets(alloc, datagram)?)),
        None => Ok((0, hex_octets(alloc, word)?)),
    }
}

/// A port by the words of a `port` line: it gives the datagrams that are stated, and fails in the calls that are stated.
fn port_of(alloc: Global, words: &str) -> Result<FixedPort, Fault>
    ensures { IfOk result IsUnusedPort }
{
    let mut gives = List::new(alloc);
    let mut fails = List::new(alloc);
    for word in words.split_whitespace() {
        match word.strip_prefix("fail:") {
            Some(number) => fails.push(number_of(number)?)?,
            None => gives.push(sent_by(alloc, word)?)?,
        }
    }
    Ok(FixedPort::new(alloc, gives, fails))
}

/// Adds a datagram that a client was given.
fn put_datagram(alloc: Global, out: &mut String, to: u32, octets: &[u8]) -> Result<(), Fault> {
    out.push_str(format!(in alloc; "gave {to} ")?.as_str())?;
    for octet in octets {
        out.push_str(format!(in alloc; "{octet:02X}")?.as_str())?;
    }
    out.push('\n')?;
    Ok(())
}

/// Adds that the link was handed back, and what the port that was handed back was given.
pub fn put_back(alloc: Global, out: &mut String, dial: &FixedDialer) -> Result<(), Fault> {
    if dial.link_back().is_some() {
        out.push_str("link back\n")?;
    }
    let Some(port) = dial.port_back() else {
        return Ok(());
    };
    for item in port.items.as_slice() {
        if let PortItem::Gave { to, octets } = item {
            put_datagram(alloc, out, *to, octets.as_slice())?;
        }
    }
    Ok(())
}
