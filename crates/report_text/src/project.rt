//! What is told of a checked project.

ghost use Rattle.std.specs.Prelude.{◌≡◌, ◌++◌, ◌∷◌, [], OnOk, IfOk, codes, map};
ghost use Rattle.std.specs.Fmt.{decimal};
ghost use Rattle.std.specs.List.{flat_map, join_with_byte, zip};
ghost use Rattle.knx_model.specs.Addresses.{device_text};
ghost use Rattle.call_words.specs.ReportText.{counts_line, counts_words, image_lines, list_line, tables_lines};
ghost use Rattle.knx_model.specs.TextLines.{line};

use crate::pieces::put_hex;
use knx_model::{Counts, Image, IndAddr, List, NoMemory, Octets, put_device_word, put_number_word};
use rayon::prelude::*;
use std::alloc::Global;
use std::thread::Threads;

/// How few devices are worth a thread of their own.
const LEAST_PIECE: usize = 4;

/// Appends how many devices, objects and links a project has.
pub fn put_counts(alloc: Global, out: &mut Octets, counts: Counts) -> Result<(), NoMemory>
    ensures { OnOk result (out.new ≡ out.old ++ join_with_byte 32 (counts_words counts)) }
{
    out.append(b"devices")?;
    put_number_word(alloc, out, u64::from(counts.devices))?;
    out.append(b" objects")?;
    put_number_word(alloc, out, u64::from(counts.objects))?;
    out.append(b" links")?;
    put_number_word(alloc, out, u64::from(counts.links))
}

/// How many devices, objects and links a project has, as the line `ok devices N objects N links N`.
pub fn counts_text(alloc: Global, counts: Counts) -> Result<Octets, NoMemory>
    ensures { IfOk result (λ text. text ≡ counts_line counts) }
{
    let mut out = Octets::new(alloc);
    out.append(b"ok ")?;
    put_counts(alloc, &mut out, counts)?;
    out.push(b'\n')?;
    Ok(out)
}

/// Appends a line of a word and octets in hexadecimal.
#[tactic(auto, unfolding(call_words::specs::ReportText::list_line))]
fn put_list(out: &mut Octets, word: &str, octets: &Octets) -> Result<(), NoMemory>
    ensures { OnOk result (out.new ≡ out.old ++ list_line word.now octets.now) }
{
    out.append(word.as_bytes())?;
    out.push(b' ')?;
    put_hex(out, octets.as_slice())?;
    out.push(b'\n')
}

/// Appends the line of a device.
fn put_device_line(alloc: Global, out: &mut Octets, device: IndAddr) -> Result<(), NoMemory>
    ensures { OnOk result (out.new ≡ out.old ++ line (codes "device" ∷ device_text device ∷ [])) }
{
    out.append(b"device")?;
    put_device_word(alloc, out, device)?;
    out.push(b'\n')
}

/// Appends the tables and the parameter memory of an image, in four lines.
fn put_image(out: &mut Octets, image: &Image) -> Result<(), NoMemory>
    ensures { OnOk result (out.new ≡ out.old ++ image_lines image.now) }
{
    put_list(out, "address", &image.addr)?;
    put_list(out, "association", &image.assoc)?;
    put_list(out, "objects", &image.objs)?;
    put_list(out, "params", &image.params)
}

/// The tables and the parameter memory of a device, in five lines.
fn tables_of(alloc: Global, device: IndAddr, image: &Image) -> Result<Octets, NoMemory>
    ensures { IfOk result (λ text. text ≡ tables_lines device image.now) }
{
    let mut out = Octets::new(alloc);
    put_device_line(alloc, &mut out, device)?;
    put_image(&mut out, image)?;
    Ok(out)
}

/// The tables of each device, each of its image. Pieces of the devices are told in threads of their own.
fn each_tables<R: Threads + Sync>(
    rt: &R,
    alloc: Global,
    devices: &[IndAddr],
    images: &[Image],
) -> Result<List<Octets>, NoMemory>
    ensures { IfOk result (λ texts. texts ≡ map (λ c. tables_lines c.0 c.1) (zip devices.now images.now)) }
{
    let texts: Result<Vec<Octets>, NoMemory> = devices
        .par_iter()
        .zip(images)
        .with_min_len(LEAST_PIECE)
        .map(
            |c: (&IndAddr, &Image)| -> Result<Octets, NoMemory>
                ensures { IfOk result (λ text. text ≡ tables_lines c.entry.0.now c.entry.1.now) }
            { tables_of(alloc, *c.0, c.1) },
        )
        .collect(rt, alloc)?;
    Ok(List::from_vec(texts?))
}

/// The texts, one after another.
fn joined(alloc: Global, texts: &[Octets]) -> Result<Octets, NoMemory>
    ensures { IfOk result (λ text. text ≡ flat_map (λ each. each) texts.now) }
{
    let mut out = Octets::new(alloc);
    for text in texts {
        out.append(text.as_slice())?;
    }
    Ok(out)
}

/// The tables of devices, each of its image: as many as both lists have. They are told in as many threads as there are processors.
pub fn tables_text<R: Threads + Sync>(
    rt: &R,
    alloc: Global,
    devices: &[IndAddr],
    images: &[Image],
) -> Result<Octets, NoMemory>
    ensures { IfOk result (λ text. text ≡ flat_map (λ c. tables_lines c.0 c.1) (zip devices.now images.now)) }
{
    let texts = each_tables(rt, alloc, devices, images)?;
    joined(alloc, texts.as_slice())
}
