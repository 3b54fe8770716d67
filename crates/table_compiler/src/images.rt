//! The images of the devices of a project that are wanted, each compiled once.

ghost use Rattle.std.specs.Prelude.{◌≡◌, ◌&&◌, false, true, filter, IfOk, IfSome, IfNone};
ghost use Rattle.knx_model.specs.declared.address.IndAddr.{IndAddr as Address};
ghost use Rattle.knx_model.specs.Meaning.{Installation};
ghost use Rattle.knx_model.specs.Rules.{has_device};
ghost use Rattle.table_compiler.specs.Images.{AreImagesOf, IsImage, is_among};

use crate::compiler::compile;
use crate::devices::place_of;
use crate::pieces::compile_devices;
use knx_model::{Image, IndAddr, List, NoMemory, Octets};
use project_check::Checked;
use std::alloc::{AllocError, Global};
use std::marker::Model;
use std::thread::Threads;

/// Devices of a project, ascending, and the image of each.
#[derive(Drop)]
pub struct Images {
    devices: Vec<IndAddr>,
    images: List<Image>,
}

impl Model for Images {
    ghost use Rattle.std.specs.Prelude.{List};
    ghost use Rattle.knx_model.specs.declared.address.IndAddr.{IndAddr};
    ghost use Rattle.knx_model.specs.declared.config.Image.{Image};
    ghost use Rattle.table_compiler.specs.Images.{ArePaired};

    ghost Value = { List IndAddr × List Image };

    ghost view = { λ i. (i.devices.items, i.images) };

    ghost invariant = { λ i. ArePaired i.devices.items i.images };
}

/// Those of some devices that are wanted.
fn those_wanted(
    alloc: Global,
    devices: &[IndAddr],
    wanted: &[IndAddr],
) -> Result<Vec<IndAddr>, AllocError>
    ensures { IfOk result (λ found. found.items ≡ filter (is_among wanted.now) devices.now) }
{
    devices
        .iter()
        .copied()
        .filter(|device| device.is_among(wanted))
        .collect(alloc)
}

/// The same image.
fn copy_of(alloc: Global, image: &Image) -> Result<Image, NoMemory>
    ensures { IfOk result (λ copy. copy ≡ image.now) }
{
    Ok(Image {
        addr: Octets::from_slice(alloc, image.addr.as_slice())?,
        assoc: Octets::from_slice(alloc, image.assoc.as_slice())?,
        objs: Octets::from_slice(alloc, image.objs.as_slice())?,
        params: Octets::from_slice(alloc, image.params.as_slice())?,
    })
}

impl Images {
    /// The images of those of a project's devices that are wanted, each compiled once, however often it is wanted.
    pub fn of<R: Threads + Sync>(
        rt: &R,
        alloc: Global,
        checked: &Checked<'_, '_>,
        wanted: &[IndAddr],
    ) -> Result<Images, NoMemory>
        ensures images { IfOk result (λ images. AreImagesOf checked.now images) }
        ensures wanted { IfOk result (λ images. (device : Address) → is_among images.0 device ≡ (is_among wanted.now device && has_device checked.now.statements device.raw)) }
    {
        let devices = those_wanted(alloc, checked.devices(), wanted)?;
        let images = compile_devices(
            rt,
            alloc,
            checked.catalogue(),
            checked.statements(),
            devices.as_slice(),
        )?;
        Ok(Images { devices, images })
    }

    /// The image of a device; none where it isn't one of those.
    pub fn image(&self, device: IndAddr) -> Option<&Image>
        ensures there { IfSome result (λ _. is_among self.now.0 device ≡ true) }
        ensures some { IfSome result (λ image. (project : Installation) → AreImagesOf project self.now → IsImage project device image.now) }
        ensures none { IfNone result (is_among self.now.0 device ≡ false) }
    {
        let place = place_of(self.devices.as_slice(), device)?;
        Some(&self.images.as_slice()[place])
    }

    /// A copy of the image of a device of the project; one that isn't here yet is compiled now.
    pub fn copied(
        &self,
        alloc: Global,
        checked: &Checked<'_, '_>,
        device: IndAddr,
    ) -> Result<Image, NoMemory>
        requires { AreImagesOf checked.now self.now }
        ensures { IfOk result (λ image. IsImage checked.now device image) }
    {
        match self.image(device) {
            Some(image) => copy_of(alloc, image),
            None => compile(alloc, checked, device),
        }
    }
}
