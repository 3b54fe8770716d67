//! The images of devices, in order: those of many devices are compiled in pieces, side by side.

ghost use Rattle.std.specs.Prelude.{◌≡◌, ◌<◌, ◌+◌, ◌++◌, None, length, map, All, IfOk};
ghost use Rattle.std.specs.List.{AllZip};
ghost use Rattle.std.specs.List.Sorted.{IsStrictlyIncreasing};
ghost use Rattle.std.specs.Thread.{IsSync};
ghost use Rattle.knx_model.specs.Meaning.{Installation};
ghost use Rattle.knx_model.specs.Rules.{first_broken};
ghost use Rattle.project_check.specs.Devices.{raw_of};
ghost use Rattle.table_compiler.specs.Drafts.{IsSoundDraft};
ghost use Rattle.table_compiler.specs.Images.{IsImage, IsImageOfDraft};

use crate::compiler::compile_draft;
use crate::drafts::{Draft, drafts_of};
use knx_model::{Catalogue, Image, IndAddr, List, NoMemory, Statement};
use rayon::current_num_threads;
use std::alloc::Global;
use std::thread::{Threads, join};

/// How few devices are worth a thread of their own.
const LEAST_PIECE: usize = 4;

/// How many pieces there are for each processor, since one may have other work.
const PIECES: usize = 2;

/// The image of each draft, in order.
fn compile_drafts(
    alloc: Global,
    catalogue: &Catalogue,
    drafts: &[Draft<'_>],
) -> Result<Vec<Image>, NoMemory>
    requires sound { All (IsSoundDraft catalogue.now) drafts.now }
    ensures { IfOk result (λ images. AllZip (IsImageOfDraft catalogue.now) drafts.now images.items) }
{
    let mut images = Vec::with_capacity(alloc, drafts.len())?;
    for draft in drafts {
        let image = compile_draft(alloc, catalogue, draft)?;
        images.push(image)?;
    }
    Ok(images)
}

/// What compiles devices. It is a trait so that the type which threads share names no lifetime: else nothing would be known of what
/// they make.
trait Compiles {
    /// The project that the devices are of.
    ghost project: { Self → Installation };

    /// The images of these devices.
    fn images(&self, alloc: Global, devices: &[IndAddr]) -> Result<Vec<Image>, NoMemory>
        requires sound { first_broken (project self.now).catalogue (project self.now).statements ≡ None }
        requires ascending { IsStrictlyIncreasing (map raw_of devices.now) }
        ensures { IfOk result (λ images. AllZip (IsImage (project self.now)) devices.now images.items) };
}

/// The statements of a project, and its catalogue.
#[derive(Clone, Copy)]
struct Text<'c, 'a> {
    catalogue: &'c Catalogue,
    statements: &'c [Statement<'a>],
}

impl Compiles for Text<'_, '_> {
    ghost project = { λ text. record { statements = text.statements.now; catalogue = text.catalogue.now } };

    /// What their lines say is gathered in one pass over the text.
    fn images(&self, alloc: Global, devices: &[IndAddr]) -> Result<Vec<Image>, NoMemory> {
        let drafts = drafts_of(alloc, devices, self.statements)?;
        compile_drafts(alloc, self.catalogue, drafts.as_slice())
    }
}

/// Ascending devices cut in two.
fn halves(devices: &[IndAddr]) -> (&[IndAddr], &[IndAddr])
    requires ascending { IsStrictlyIncreasing (map raw_of devices.now) }
    requires several { 1 < length devices.now }
    ensures all { devices.now ≡ result.0.now ++ result.1.now }
    ensures whole { length devices.now ≡ length result.0.now + length result.1.now }
    ensures front { 0 < length result.0.now }
    ensures back { 0 < length result.1.now }
    ensures front_ascends { IsStrictlyIncreasing (map raw_of result.0.now) }
    ensures back_ascends { IsStrictlyIncreasing (map raw_of result.1.now) }
{
    devices.split_at(devices.len() / 2)
}

/// The same as `images`. More devices than `most` are cut in two, and each half is compiled in a thread of its own.
#[cycle(halves)]
fn images_in_halves<R: Threads + Sync, C: Compiles + Sync>(
    rt: &R,
    alloc: Global,
    compiler: &C,
    most: usize,
    devices: &[IndAddr],
) -> Result<Vec<Image>, NoMemory>
    requires sound { first_broken (C.project compiler.now).catalogue (C.project compiler.now).statements ≡ None }
    requires ascending { IsStrictlyIncreasing (map raw_of devices.now) }
    requires some { 0 < most }
    ensures { IfOk result (λ images. AllZip (IsImage (C.project compiler.now)) devices.now images.items) }
{
    if devices.len() <= most {
        return compiler.images(alloc, devices);
    }
    let (front, back) = halves(devices);
    let (images, later) = join(
        rt,
        || -> Result<Vec<Image>, NoMemory>
            requires { IsSync R.row × IsSync C.row × (first_broken (C.project compiler.now).catalogue (C.project compiler.now).statements ≡ None) × IsStrictlyIncreasing (map raw_of front.now) × (0 < most) }
            ensures { IfOk result (λ images. AllZip (IsImage (C.project compiler.entry.now)) front.entry.now images.items) }
        { images_in_halves(rt, alloc, compiler, most, front) },
        || -> Result<Vec<Image>, NoMemory>
            requires { IsSync R.row × IsSync C.row × (first_broken (C.project compiler.now).catalogue (C.project compiler.now).statements ≡ None) × IsStrictlyIncreasing (map raw_of back.now) × (0 < most) }
            ensures { IfOk result (λ images. AllZip (IsImage (C.project compiler.entry.now)) back.entry.now images.items) }
        { images_in_halves(rt, alloc, compiler, most, back) },
    );
    let mut all = images?;
    let mut more = later?;
    all.append(&mut more)?;
    Ok(all)
}

/// The images of these devices of a text that breaks no rule. There are some pieces of them for each processor.
pub fn compile_devices<R: Threads + Sync>(
    rt: &R,
    alloc: Global,
    catalogue: &Catalogue,
    statements: &[Statement<'_>],
    devices: &[IndAddr],
) -> Result<List<Image>, NoMemory>
    requires sound { first_broken catalogue.now statements.now ≡ None }
    requires ascending { IsStrictlyIncreasing (map raw_of devices.now) }
    ensures { IfOk result (λ images. AllZip (IsImage (record { statements = statements.now; catalogue = catalogue.now })) devices.now images) }
{
    let text = Text {
        catalogue,
        statements,
    };
    let most = devices.len() / PIECES / current_num_threads(rt) + 1;
    let images = images_in_halves(rt, alloc, &text, most.max(LEAST_PIECE), devices)?;
    Ok(List::from_vec(images))
}
