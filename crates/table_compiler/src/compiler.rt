//! The image of a device, from the statements of a sound project.

ghost use Rattle.std.specs.Prelude.{◌≡◌, ◌≤◌, None, length, List as Seq, map, All, IsPermutation, IfOk};
ghost use Rattle.std.specs.List.{AllZip};
ghost use Rattle.std.specs.List.Sorted.{IsStrictlyIncreasing};
ghost use Rattle.knx_model.specs.declared.address.IndAddr.{IndAddr as Device};
ghost use Rattle.knx_model.specs.Acts.{IsInRange};
ghost use Rattle.knx_model.specs.Device.{Fits};
ghost use Rattle.knx_model.specs.Meaning.{meaning};
ghost use Rattle.knx_model.specs.Rules.{first_broken, devices_of};
ghost use Rattle.knx_model.specs.Tables.{StandsFor};
ghost use Rattle.project_check.specs.Devices.{raw_of};
ghost use Rattle.table_compiler.specs.Drafts.{IsSoundDraft};
ghost use Rattle.table_compiler.specs.Images.{IsImageOfDraft};

use crate::drafts::{Draft, draft_of};
use crate::links::links_of;
use crate::models::{inline, model_of};
use crate::objects::objects_of;
use crate::parameters::settings;
use crate::pieces::compile_devices;
use crate::tables::image_of;
use knx_model::{Catalogue, Image, IndAddr, List, NoMemory};
use parameter_memory::lay;
use project_check::Checked;
use std::alloc::Global;
use std::thread::Threads;

/// The tables and the parameter memory of a device of the project; one that the project doesn't have has no objects.
pub fn compile(alloc: Global, checked: &Checked<'_, '_>, device: IndAddr) -> Result<Image, NoMemory>
    ensures stands { IfOk result (λ image. StandsFor image (meaning checked.now device)) }
    ensures fits { IfOk result (λ image. Fits image) }
    ensures in_range { IfOk result (λ _. IsInRange (meaning checked.now device)) }
    ensures few_objects { IfOk result (λ _. length (meaning checked.now device).objects ≤ 255) }
{
    let draft = draft_of(alloc, device, checked.statements())?;
    compile_draft(alloc, checked.catalogue(), &draft)
}

/// The tables and the parameter memories of the devices of the project, in their ascending order. They are compiled in as many threads
/// as there are processors.
pub fn compile_all<R: Threads + Sync>(
    rt: &R,
    alloc: Global,
    checked: &Checked<'_, '_>,
) -> Result<List<Image>, NoMemory>
    ensures stands { IfOk result (λ images. (devices : Seq Device) → IsPermutation (devices_of checked.now.statements) devices → IsStrictlyIncreasing (map raw_of devices) → AllZip (λ image device. StandsFor image (meaning checked.now device)) images devices) }
    ensures fits { IfOk result (λ images. All Fits images) }
    ensures in_range { IfOk result (λ _. All (λ device. IsInRange (meaning checked.now device)) (devices_of checked.now.statements)) }
{
    compile_devices(
        rt,
        alloc,
        checked.catalogue(),
        checked.statements(),
        checked.devices(),
    )
}

/// The image of a device, from what its lines say.
pub fn compile_draft(
    alloc: Global,
    catalogue: &Catalogue,
    draft: &Draft<'_>,
) -> Result<Image, NoMemory>
    requires { IsSoundDraft catalogue.now draft.now }
    ensures { IfOk result (IsImageOfDraft catalogue.now draft.now) }
{
    let inline = inline(alloc);
    let model = model_of(catalogue, &inline, draft.model);
    let links = links_of(alloc, &draft.sends, draft.links.as_slice())?;
    let objects = objects_of(alloc, model, draft)?;
    let settings = settings(alloc, model, &draft.values)?;
    let params = lay(alloc, model, settings.as_slice())?;
    image_of(alloc, links.as_slice(), objects.as_slice(), params)
}
