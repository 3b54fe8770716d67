//! A job of a run.

use download_core::JobPlan;
use knx_model::IndAddr;

/// A job of a run: a device, and the plan that is gone through with it.
#[derive(Drop)]
pub struct HubJob {
    pub device: IndAddr,
    pub plan: JobPlan,
}
