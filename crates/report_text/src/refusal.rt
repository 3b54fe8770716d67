//! What is printed where a call stops before its report, and the status that goes with it.

ghost use Rattle.std.specs.Prelude.{◌≡◌, ◌≢◌, ◌++◌, ◌∷◌, [], codes, OnOk, IfOk};
ghost use Rattle.std.specs.Fmt.{decimal};
ghost use Rattle.std.specs.List.{join_with_byte};
ghost use Rattle.knx_model.specs.Refusal.{catalogue_number, catalogue_word, why_number, why_word};
ghost use Rattle.call_words.specs.ReportText.{catalogue_line, catalogue_words, file_word, limit_of, optional_number, read_fault_line, refusal_line, refusal_status, stop_status, stop_text};

use call_words::{InputFile, Status, Stop};
use knx_model::{
    CatRefused, NoMemory, Octets, Refused, Why, put_number, put_number_word, put_word,
};
use std::alloc::Global;

/// The line for words that are no command.
pub const USAGE: &[u8] =
    b"usage: knx check, tables, migrate, sim, download, gateway, decode, find, assign or big, with their words\n";

/// The line for want of memory.
pub const NO_MEMORY: &[u8] = b"no memory\n";

fn file_word(place: InputFile) -> &'static str
    ensures { result.now ≡ file_word place }
{
    match place {
        InputFile::Catalogue => "catalogue",
        InputFile::New => "new",
        InputFile::Old => "old",
        InputFile::Script => "script",
    }
}

fn refusal_status(place: InputFile) -> Status
    ensures { result ≡ refusal_status place }
{
    match place {
        InputFile::Catalogue => Status::Catalogue,
        InputFile::New | InputFile::Old => Status::Project,
        InputFile::Script => Status::Script,
    }
}

/// The status of a stop.
pub fn stop_status(stop: &Stop) -> Status
    ensures { result ≡ stop_status stop.now }
{
    match stop {
        Stop::Usage => Status::Usage,
        Stop::NotThere(_) | Stop::ReadFailed(_) => Status::Read,
        Stop::CatalogueRefused(_) => Status::Catalogue,
        Stop::Refused(place, _) => refusal_status(*place),
        Stop::NoMemory(want) => Status::NoMemory(*want),
    }
}

fn read_fault(alloc: Global, name: &Octets, why: &str) -> Result<Octets, NoMemory>
    ensures { IfOk result (λ text. text ≡ read_fault_line name.now why.now) }
{
    let mut out = Octets::new(alloc);
    out.append(b"read fault")?;
    put_word(&mut out, name.as_slice())?;
    put_word(&mut out, why.as_bytes())?;
    out.push(b'\n')?;
    Ok(out)
}

/// Appends a refusal's number, its word and its limit.
fn put_why(alloc: Global, out: &mut Octets, why: &Why) -> Result<(), NoMemory>
    ensures { OnOk result (out.new ≡ out.old ++ join_with_byte 32 (optional_number (why_number why.now) ++ (why_word why.now ∷ optional_number (limit_of why.now)))) }
{
    if let Some(number) = why.number() {
        put_number(alloc, out, u64::from(number))?;
        out.push(b' ')?;
    }
    out.append(why.word().as_bytes())?;
    if let Why::TooMany { limit } = why {
        put_number_word(alloc, out, u64::from(*limit))?;
    }
    Ok(())
}

fn refusal_text(alloc: Global, place: InputFile, refused: &Refused) -> Result<Octets, NoMemory>
    ensures { IfOk result (λ text. text ≡ refusal_line place refused.now) }
{
    let mut out = Octets::new(alloc);
    out.append(file_word(place).as_bytes())?;
    out.append(b" line")?;
    put_number_word(alloc, &mut out, u64::from(refused.line))?;
    out.append(b": ")?;
    put_why(alloc, &mut out, &refused.why)?;
    out.push(b'\n')?;
    Ok(out)
}

/// Appends the number and the word of a catalogue's refusal.
fn put_catalogue_why(alloc: Global, out: &mut Octets, refused: &CatRefused) -> Result<(), NoMemory>
    ensures { OnOk result (out.new ≡ out.old ++ join_with_byte 32 (optional_number (catalogue_number refused.now) ++ catalogue_word refused.now ∷ [])) }
{
    if let Some(number) = refused.number() {
        put_number(alloc, out, u64::from(number))?;
        out.push(b' ')?;
    }
    out.append(refused.word().as_bytes())
}

/// Appends the number and the word of a catalogue's refusal, and the model and the parameter where it has them.
fn put_catalogue_words(
    alloc: Global,
    out: &mut Octets,
    refused: &CatRefused,
) -> Result<(), NoMemory>
    ensures { OnOk result (out.new ≡ out.old ++ join_with_byte 32 (catalogue_words refused.now)) }
{
    put_catalogue_why(alloc, out, refused)?;
    match refused {
        CatRefused::Shape { model } => put_word(out, model.as_slice()),
        CatRefused::Overlap { model, parameter } | CatRefused::Range { model, parameter } => {
            put_word(out, model.as_slice())?;
            put_word(out, parameter.as_slice())
        }
        CatRefused::NoMemory(_) | CatRefused::Toml | CatRefused::Long => Ok(()),
    }
}

fn catalogue_refusal(alloc: Global, refused: &CatRefused) -> Result<Octets, NoMemory>
    ensures { IfOk result (λ text. text ≡ catalogue_line refused.now) }
{
    let mut out = Octets::new(alloc);
    out.append(b"catalogue: ")?;
    put_catalogue_words(alloc, &mut out, refused)?;
    out.push(b'\n')?;
    Ok(out)
}

/// The text of a stop.
pub fn stop_text(alloc: Global, stop: &Stop) -> Result<Octets, NoMemory>
    ensures { IfOk result (λ text. text ≡ stop_text stop.now) }
{
    match stop {
        Stop::Usage => Octets::from_slice(alloc, USAGE),
        Stop::NotThere(name) => read_fault(alloc, name, "NotThere"),
        Stop::ReadFailed(name) => read_fault(alloc, name, "Failed"),
        Stop::CatalogueRefused(refused) => catalogue_refusal(alloc, refused),
        Stop::Refused(place, refused) => refusal_text(alloc, *place, refused),
        Stop::NoMemory(_) => Octets::from_slice(alloc, NO_MEMORY),
    }
}
