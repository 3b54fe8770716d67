//! The jobs of a run.

ghost use Rattle.std.specs.Prelude.{◌≡◌, ◌≤◌, IfOk, length, map};
ghost use Rattle.std.specs.List.{list_all};
ghost use Rattle.call_parts.specs.Jobs.{AreJobs, ArePlanned, IsPlanned, LoadsEach, PlansImage, load_of, seen_job};
ghost use Rattle.call_parts.specs.OptionValues.{most_jobs};
ghost use Rattle.call_parts.specs.Stops.{is_known};
ghost use Rattle.knx_model.specs.Device.{Fits};
ghost use Rattle.table_compiler.specs.Images.{AreImagesOf};

use call_words::{JobKind, JobWord};
use hub_work::{CheckPlan, HubJob, JobPlan, LoadPlan};
use knx_model::{Image, IndAddr, List, NoMemory};
use project_check::Checked;
use std::alloc::Global;
use std::thread::Threads;
use table_compiler::Images;

/// Whether each job's device is one of the project's.
pub fn are_known(project: &Checked<'_, '_>, jobs: &[JobWord]) -> bool
    ensures { result ≡ list_all (is_known project.now) jobs.now }
{
    jobs.iter().all(|job| project.has(job.device))
}

/// A load of each of these devices.
fn loads_of(alloc: Global, devices: &[IndAddr]) -> Result<List<JobWord>, NoMemory>
    ensures { IfOk result (λ jobs. jobs ≡ map load_of devices.now) }
{
    let mut jobs = List::new(alloc);
    for device in devices {
        jobs.push(JobWord {
            device: *device,
            kind: JobKind::Load,
        })?;
    }
    Ok(jobs)
}

/// A load of each device of a project, which has at most 255, since it breaks no rule.
fn all_loads(alloc: Global, project: &Checked<'_, '_>) -> Result<List<JobWord>, NoMemory>
    ensures loads { IfOk result (λ jobs. LoadsEach project.now jobs) }
    ensures few { IfOk result (λ jobs. length jobs ≤ most_jobs) }
{
    let _statements = project.statements();
    let jobs = loads_of(alloc, project.devices())?;
    Ok(jobs)
}

/// The jobs of the run: those that are named, or else a load of each device of the project.
pub fn jobs_of(
    alloc: Global,
    named: &[JobWord],
    project: &Checked<'_, '_>,
) -> Result<List<JobWord>, NoMemory>
    ensures are { IfOk result (λ jobs. AreJobs named.now project.now jobs) }
    ensures few { IfOk result (λ jobs. length named.now ≤ most_jobs → length jobs ≤ most_jobs) }
{
    if named.is_empty() {
        all_loads(alloc, project)
    } else {
        Ok(List::from_vec(Vec::from_slice(alloc, named)?))
    }
}

/// The images of the jobs' devices.
pub fn images_for<R: Threads + Sync>(
    rt: &R,
    alloc: Global,
    project: &Checked<'_, '_>,
    jobs: &[JobWord],
) -> Result<Images, NoMemory>
    ensures { IfOk result (AreImagesOf project.now) }
{
    let devices: Vec<IndAddr> = jobs.iter().map(|job| job.device).collect(alloc)?;
    let images = Images::of(rt, alloc, project, devices.as_slice())?;
    Ok(images)
}

/// The plan by which a job loads or checks an image.
fn plan_of(kind: JobKind, image: Image) -> JobPlan
    requires { Fits image }
    ensures { PlansImage kind image result }
{
    match kind {
        JobKind::Load => JobPlan::Load(LoadPlan::of(image)),
        JobKind::Check => JobPlan::Check(CheckPlan::of(image)),
    }
}

/// A job with the plan of the project's image.
fn planned(
    alloc: Global,
    project: &Checked<'_, '_>,
    images: &Images,
    job: JobWord,
) -> Result<HubJob, NoMemory>
    requires { AreImagesOf project.now images.now }
    ensures { IfOk result (λ planned. IsPlanned project.now (seen_job planned) job) }
{
    let image = images.copied(alloc, project, job.device)?;
    Ok(HubJob {
        device: job.device,
        plan: plan_of(job.kind, image),
    })
}

/// The jobs, each with its plan, by images of the project's devices.
pub fn all_planned(
    alloc: Global,
    project: &Checked<'_, '_>,
    images: &Images,
    jobs: &[JobWord],
) -> Result<List<HubJob>, NoMemory>
    requires { AreImagesOf project.now images.now }
    ensures { IfOk result (λ planned. ArePlanned project.now (map seen_job planned) jobs.now) }
{
    let mut all = List::new(alloc);
    for job in jobs {
        all.push(planned(alloc, project, images, *job)?)?;
    }
    Ok(all)
}
