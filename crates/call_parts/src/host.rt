//! The address of a gateway, as a word spells it.

ghost use Rattle.std.specs.Prelude.{◌≡◌, ◌≤◌, ◌==◌, position};
ghost use Rattle.std.specs.List.{list_all};
ghost use Rattle.std.specs.Option.{option_map};
ghost use Rattle.knx_model.specs.Numbers.{is_digit, numeral, part_value};
ghost use Rattle.call_parts.specs.Host.{address_value, cut, host_value, port_value};
ghost use Rattle.call_parts.specs.Names.{address_of, both_sides};

use knx_model::number_in;

/// The port number where a word has none, which is registered for KNXnet/IP.
const REGISTERED_PORT: u16 = 3671;

/// A gateway's host and port number.
#[derive(Clone, Copy)]
pub struct GatewayAddress {
    pub host: [u8; 4],
    pub port: u16,
}

fn place_of(word: &[u8], mark: u8) -> Option<usize>
    ensures { result ≡ position (λ octet. octet == mark) word.now }
{
    word.iter().position(|octet| *octet == mark)
}

/// What stands before the first mark, and behind it.
#[tactic(auto, using(knx_model::proofs::Cutting::cut_found), unfolding(crate::specs::Host::cut))]
fn cut(word: &[u8], mark: u8) -> Option<(&[u8], &[u8])>
    ensures { option_map both_sides result ≡ cut mark word.now }
{
    let place = place_of(word, mark)?;
    let (front, rest) = word.split_at(place);
    let (_, behind) = rest.split_at(1);
    Some((front, behind))
}

fn is_digit(octet: u8) -> bool
    ensures { result ≡ is_digit 10 octet }
{
    octet.is_ascii_digit()
}

pub fn are_digits(word: &[u8]) -> bool
    ensures { result ≡ list_all (is_digit 10) word.now }
{
    word.iter().all(|octet| is_digit(*octet))
}

/// The number that 1 to `most` decimal digits write.
#[tactic(auto, using(crate::proofs::Hosts::digits_read, crate::proofs::Hosts::no_digits))]
fn digits(word: &[u8], most: usize) -> Option<u32>
    requires { most ≤ 5 }
    ensures { result ≡ numeral 10 most word.now }
{
    if word.len() <= most && are_digits(word) {
        number_in(word)
    } else {
        None
    }
}

/// A part of a host: 1 to 3 digits, up to 255.
#[tactic(auto, unfolding(knx_model::specs::Numbers::part_value))]
fn part(word: &[u8]) -> Option<u8>
    ensures { result ≡ part_value 255 word.now }
{
    u8::try_from(digits(word, 3)?).ok()
}

/// A port number: 1 to 5 digits, from 1 to 65,535.
#[tactic(auto, unfolding(crate::specs::Host::port_value))]
fn port(word: &[u8]) -> Option<u16>
    ensures { result ≡ port_value word.now }
{
    match u16::try_from(digits(word, 5)?) {
        Ok(port) if port != 0 => Some(port),
        _ => None,
    }
}

/// A host: four parts joined by dots.
#[tactic(auto, unfolding(crate::specs::Host::host_value))]
fn host(word: &[u8]) -> Option<[u8; 4]>
    ensures { result ≡ host_value word.now }
{
    let (first, rest) = cut(word, b'.')?;
    let (second, rest) = cut(rest, b'.')?;
    // A dot in what comes behind the third one is no digit.
    let (third, fourth) = cut(rest, b'.')?;
    Some([part(first)?, part(second)?, part(third)?, part(fourth)?])
}

/// The address that a word spells; none for another word.
#[tactic(auto, unfolding(crate::specs::Host::address_value))]
pub fn address_in(word: &str) -> Option<GatewayAddress>
    ensures { option_map address_of result ≡ address_value word.now }
{
    let word = word.as_bytes();
    let (host, port) = match cut(word, b':') {
        Some((front, behind)) => (host(front)?, port(behind)?),
        None => (host(word)?, REGISTERED_PORT),
    };
    Some(GatewayAddress { host, port })
}
