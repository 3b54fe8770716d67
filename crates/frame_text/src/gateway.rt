//! What a gateway tells of itself as words, and the lines of what was found and of frames of discovery (ISO 22510, Core).

ghost use Rattle.std.specs.Prelude.{◌≡◌, ◌∷◌, [], ◌++◌, OnOk, codes, map};
ghost use Rattle.frame_text.specs.Spaced.{spaced};
ghost use Rattle.frame_text.specs.GatewayText.{about_words, address_words, family_text, family_words, find_line, find_words, found_line, found_text, name_text, printed, printed_octet, service_words};

use crate::pieces::put_octets;
use discovery::{About, Families, FindFrame};
use knx_model::{NoMemory, Octets, put_device_word, put_number, put_word};
use report_text::put_digits;
use std::alloc::Global;

fn printed_octet(octet: u8) -> u8
    ensures { result ≡ printed_octet octet }
{
    match octet {
        0x20..=0x7E => octet,
        _ => b'?',
    }
}

/// Appends what is printed of a name.
fn put_printed(out: &mut Octets, name: &[u8]) -> Result<(), NoMemory>
    ensures { OnOk result (out.new ≡ out.old ++ printed name.now) }
{
    let mut rest = name;
    while let [octet, behind @ ..] = rest {
        if *octet == 0 {
            return Ok(());
        }
        out.push(printed_octet(*octet))?;
        rest = behind;
    }
    Ok(())
}

/// Appends a name, or `-` for an empty one.
fn put_name(out: &mut Octets, name: &[u8]) -> Result<(), NoMemory>
    ensures { OnOk result (out.new ≡ out.old ++ 32 ∷ name_text name.now) }
{
    out.push(b' ')?;
    match name {
        [] | [0, ..] => out.push(b'-'),
        _ => put_printed(out, name),
    }
}

fn put_family(alloc: Global, out: &mut Octets, pair: &(u8, u8)) -> Result<(), NoMemory>
    ensures { OnOk result (out.new ≡ out.old ++ 32 ∷ family_text pair.now) }
{
    out.push(b' ')?;
    put_digits(out, pair.0)?;
    out.push(b'.')?;
    put_number(alloc, out, u64::from(pair.1))
}

/// Appends families, each behind a space.
fn put_pairs(alloc: Global, out: &mut Octets, pairs: &[(u8, u8)]) -> Result<(), NoMemory>
    ensures { OnOk result (out.new ≡ out.old ++ spaced (map family_text pairs.now)) }
{
    let mut rest = pairs;
    while let [pair, behind @ ..] = rest {
        put_family(alloc, out, pair)?;
        rest = behind;
    }
    Ok(())
}

/// Appends families, or `-` for none.
fn put_families(alloc: Global, out: &mut Octets, families: &Families) -> Result<(), NoMemory>
    ensures { OnOk result (out.new ≡ out.old ++ spaced (family_words families.now)) }
{
    let pairs = families.as_slice();
    match pairs {
        [] => put_word(out, b"-"),
        _ => put_pairs(alloc, out, pairs),
    }
}

fn put_addresses(alloc: Global, out: &mut Octets, about: &About) -> Result<(), NoMemory>
    ensures { OnOk result (out.new ≡ out.old ++ spaced (address_words about.now)) }
{
    put_device_word(alloc, out, about.address)?;
    put_word(out, b"serial")?;
    put_octets(out, &about.serial)?;
    put_word(out, b"mac")?;
    put_octets(out, &about.mac)
}

fn put_all_families(alloc: Global, out: &mut Octets, families: &Families) -> Result<(), NoMemory>
    ensures { OnOk result (out.new ≡ out.old ++ spaced (codes "families" ∷ family_words families.now)) }
{
    put_word(out, b"families")?;
    put_families(alloc, out, families)
}

fn put_named(out: &mut Octets, name: &[u8]) -> Result<(), NoMemory>
    ensures { OnOk result (out.new ≡ out.old ++ spaced (codes "name" ∷ name_text name.now ∷ [])) }
{
    put_word(out, b"name")?;
    put_name(out, name)
}

fn put_services(alloc: Global, out: &mut Octets, about: &About) -> Result<(), NoMemory>
    ensures { OnOk result (out.new ≡ out.old ++ spaced (service_words about.now)) }
{
    put_all_families(alloc, out, &about.families)?;
    put_named(out, &about.name)
}

/// Appends what a gateway tells of itself.
#[tactic(auto, using(crate::proofs::GatewayLines::spaced_both), unfolding(crate::specs::GatewayText::about_words))]
fn put_about(alloc: Global, out: &mut Octets, about: &About) -> Result<(), NoMemory>
    ensures { OnOk result (out.new ≡ out.old ++ spaced (about_words about.now)) }
{
    put_addresses(alloc, out, about)?;
    put_services(alloc, out, about)
}

/// Appends the line of a gateway that was found.
fn put_found(alloc: Global, out: &mut Octets, about: &About) -> Result<(), NoMemory>
    ensures { OnOk result (out.new ≡ out.old ++ found_line about.now) }
{
    out.append(b"found")?;
    put_about(alloc, out, about)?;
    out.push(b'\n')
}

/// Appends the lines of all gateways that were found.
pub fn put_findings(alloc: Global, out: &mut Octets, found: &[About]) -> Result<(), NoMemory>
    ensures { OnOk result (out.new ≡ out.old ++ found_text found.now) }
{
    let mut rest = found;
    while let [about, behind @ ..] = rest {
        put_found(alloc, out, about)?;
        rest = behind;
    }
    Ok(())
}

/// Appends the word of a response and what it tells.
fn put_response(alloc: Global, out: &mut Octets, name: &[u8], about: &About) -> Result<(), NoMemory>
    ensures { OnOk result (out.new ≡ out.old ++ spaced (name.now ∷ about_words about.now)) }
{
    put_word(out, name)?;
    put_about(alloc, out, about)
}

/// Appends the word of a service and what it tells.
fn put_service(alloc: Global, out: &mut Octets, frame: &FindFrame) -> Result<(), NoMemory>
    ensures { OnOk result (out.new ≡ out.old ++ spaced (find_words frame.now)) }
{
    match frame {
        FindFrame::SearchRequest => put_word(out, b"search-request"),
        FindFrame::SearchResponse(about) => put_response(alloc, out, b"search-response", about),
        FindFrame::DescriptionRequest => put_word(out, b"description-request"),
        FindFrame::DescriptionResponse(about) => put_response(
            alloc,
            out,
            b"description-response",
            about,
        ),
    }
}

/// Appends the line of a frame of discovery.
pub fn put_line(alloc: Global, out: &mut Octets, frame: &FindFrame) -> Result<(), NoMemory>
    ensures { OnOk result (out.new ≡ out.old ++ find_line frame.now) }
{
    out.append(b"ip")?;
    put_service(alloc, out, frame)?;
    out.push(b'\n')
}
