//! What stands between taking a job and starting it.

/// Passes jobs, numbered from 1. Main's returns at once.
pub trait Gate {
    /// Called between taking and starting a job.
    fn pass(&self, job: u32);
}

/// Lets each job through at once.
pub struct Open;

impl Gate for Open {
    fn pass(&self, _job: u32) {}
}
