//! A project that breaks no rule, or the least line that breaks one.

ghost use Rattle.std.specs.Prelude.{◌≡◌, ◌≢◌, None, Some, IfOk, IfErr, OnOk, map, slice_get, IsPermutation};
ghost use Rattle.std.specs.List.Sorted.{IsStrictlyIncreasing};
ghost use Rattle.knx_model.specs.declared.refusal.Why.TheVariants.{NoMemory as OutOfMemory};
ghost use Rattle.knx_model.specs.Counts.{counts_of};
ghost use Rattle.knx_model.specs.Rules.{first_broken, devices_of, has_device};
ghost use Rattle.project_check.specs.Devices.{raw_of, AreDevices};

use crate::counted::totals_of;
use crate::devices::{ascending_devices, first_device};
use crate::gathering::gathered_in_threads;
use crate::links::sorted_links;
use crate::named_models::NamedModels;
use crate::parts::{first_between, first_in_threads};
use crate::rules::{Gathered, Whole};
use knx_model::{Catalogue, Counts, IndAddr, NoMemory, Refused, Statement, Why};
use project_text::Project;
use std::alloc::{AllocError, Global};
use std::marker::Model;
use std::thread::Threads;

/// A project that breaks no rule, with its catalogue and its devices, ascending.
#[derive(Drop)]
pub struct Checked<'b, 'a> {
    project: &'b Project<'a>,
    catalogue: &'b Catalogue,
    devices: Vec<IndAddr>,
}

impl<'b, 'a> Model for Checked<'b, 'a> {
    ghost use Rattle.knx_model.specs.Meaning.{Installation};
    ghost use Rattle.project_check.specs.Devices.{IsChecked};

    ghost Value = { Installation };

    ghost view = { λ c. record { statements = c.project.now.statements; catalogue = c.catalogue.now } };

    ghost invariant = { λ c. IsChecked c.project.now.statements c.catalogue.now c.devices.items };
}

impl<'b, 'a> Checked<'b, 'a> {
    /// Its statements, in the order of the text.
    pub fn statements(&self) -> &'b [Statement<'a>]
        ensures value { result.now ≡ self.now.statements }
        ensures sound { first_broken self.now.catalogue self.now.statements ≡ None }
    {
        self.project.statements.as_slice()
    }

    /// The catalogue that it is read with.
    pub fn catalogue(&self) -> &Catalogue
        ensures value { result.now ≡ self.now.catalogue }
    {
        self.catalogue
    }

    /// Its devices, ascending.
    pub fn devices(&self) -> &[IndAddr]
        ensures all { IsPermutation (devices_of self.now.statements) result.now }
        ensures ascending { IsStrictlyIncreasing (map raw_of result.now) }
    {
        self.devices.as_slice()
    }

    /// The device of the first `device` line; none where there is no such line.
    pub fn first(&self) -> Option<IndAddr>
        ensures value { result ≡ slice_get (devices_of self.now.statements) 0 }
    {
        first_device(self.statements())
    }

    /// Whether it has the device.
    pub fn has(&self, device: IndAddr) -> bool
        ensures value { result ≡ has_device self.now.statements device.raw }
    {
        device.is_among(self.devices.as_slice())
    }

    /// How many devices, objects and links it has; the objects of the devices' models count too.
    pub fn counts(&self) -> Counts
        ensures value { result ≡ counts_of self.now }
    {
        let totals = totals_of(self.catalogue, self.project.statements.as_slice());
        Counts {
            devices: self.devices.len() as u32,
            objects: totals.object_lines as u32 + totals.model_objects,
            links: totals.links as u32,
        }
    }
}

/// The first statement that breaks a rule, and the devices.
fn judged(
    alloc: Global,
    catalogue: &Catalogue,
    statements: &[Statement<'_>],
) -> Result<(Option<Refused>, Vec<IndAddr>), AllocError>
    ensures found { IfOk result (λ judged. judged.0 ≡ first_broken catalogue.now statements.now) }
    ensures devices { IfOk result (λ judged. AreDevices judged.1.items statements.now) }
{
    let devices = ascending_devices(alloc, statements)?;
    let models = NamedModels::of(alloc, catalogue, statements)?;
    let gathered = Gathered::of(alloc, &models, statements)?;
    let links = sorted_links(alloc, statements)?;
    let whole = Whole::of(gathered, links);
    let found = first_between(alloc, &whole, statements, 0, statements.len())?;
    Ok((found, devices))
}

/// The same as `judged`, in threads.
fn judged_in_threads<R: Threads + Sync>(
    rt: &R,
    alloc: Global,
    catalogue: &Catalogue,
    statements: &[Statement<'_>],
) -> Result<(Option<Refused>, Vec<IndAddr>), AllocError>
    ensures found { IfOk result (λ judged. judged.0 ≡ first_broken catalogue.now statements.now) }
    ensures devices { IfOk result (λ judged. AreDevices judged.1.items statements.now) }
{
    let models = NamedModels::of(alloc, catalogue, statements)?;
    let (gathered, devices, links) = gathered_in_threads(rt, alloc, &models, statements);
    let gathered = gathered?;
    let devices = devices?;
    let links = links?;
    let whole = Whole::of(gathered, links);
    let found = first_in_threads(rt, alloc, &whole, statements)?;
    Ok((found, devices))
}

/// The project, where the first statement that breaks a rule is known, and the devices are.
fn checked_by<'b, 'a>(
    project: &'b Project<'a>,
    catalogue: &'b Catalogue,
    judged: Result<(Option<Refused>, Vec<IndAddr>), AllocError>,
) -> Result<Checked<'b, 'a>, Refused>
    requires found { IfOk judged (λ judged. judged.0 ≡ first_broken catalogue.now project.now.statements) }
    requires devices { IfOk judged (λ judged. AreDevices judged.1.items project.now.statements) }
    ensures checked { IfOk result (λ c. c ≡ record { statements = project.now.statements; catalogue = catalogue.now }) }
    ensures sound { OnOk result (first_broken catalogue.now project.now.statements ≡ None) }
    ensures refused { IfErr result (λ e. e.why ≢ OutOfMemory tt → first_broken catalogue.now project.now.statements ≡ Some e) }
    ensures memory { IfErr result (λ e. e.why ≡ OutOfMemory tt → e.line ≡ 0) }
{
    match judged {
        Ok((found, devices)) => match found {
            Some(refused) => Err(refused),
            None => Ok(Checked {
                project,
                catalogue,
                devices,
            }),
        },
        Err(error) => Err(out_of_memory(error)),
    }
}

/// Checks the rules that look at the whole text and at the catalogue. At `Err` it gives the least line that breaks one, with its
/// rule of the least number, or line 0 where memory runs out.
pub fn check<'b, 'a>(
    alloc: Global,
    project: &'b Project<'a>,
    catalogue: &'b Catalogue,
) -> Result<Checked<'b, 'a>, Refused>
    ensures checked { IfOk result (λ c. c ≡ record { statements = project.now.statements; catalogue = catalogue.now }) }
    ensures sound { OnOk result (first_broken catalogue.now project.now.statements ≡ None) }
    ensures refused { IfErr result (λ e. e.why ≢ OutOfMemory tt → first_broken catalogue.now project.now.statements ≡ Some e) }
    ensures memory { IfErr result (λ e. e.why ≡ OutOfMemory tt → e.line ≡ 0) }
{
    let judged = judged(alloc, catalogue, project.statements.as_slice());
    checked_by(project, catalogue, judged)
}

/// The same as `check`, where the rules are judged and the links sorted in threads.
pub fn check_in_threads<'b, 'a, R: Threads + Sync>(
    rt: &R,
    alloc: Global,
    project: &'b Project<'a>,
    catalogue: &'b Catalogue,
) -> Result<Checked<'b, 'a>, Refused>
    ensures checked { IfOk result (λ c. c ≡ record { statements = project.now.statements; catalogue = catalogue.now }) }
    ensures sound { OnOk result (first_broken catalogue.now project.now.statements ≡ None) }
    ensures refused { IfErr result (λ e. e.why ≢ OutOfMemory tt → first_broken catalogue.now project.now.statements ≡ Some e) }
    ensures memory { IfErr result (λ e. e.why ≡ OutOfMemory tt → e.line ≡ 0) }
{
    let judged = judged_in_threads(rt, alloc, catalogue, project.statements.as_slice());
    checked_by(project, catalogue, judged)
}

/// The refusal for want of memory.
fn out_of_memory(error: AllocError) -> Refused
    ensures { result ≡ record { line = 0; why = OutOfMemory tt } }
{
    Refused {
        line: 0,
        why: Why::NoMemory(NoMemory::from(error)),
    }
}
