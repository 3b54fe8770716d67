//! What a reservation means for the log of a run.

ghost use Rattle.std.specs.Prelude.{◌≡◌, ◌≢◌, ℕ, List, None, ◌↔◌, Some};
ghost use Rattle.line_model.specs.declared.log.LogEntry.{LogEntry};
ghost use Rattle.line_model.specs.Log.{Job as LogJob, job_of, state_of, Untaken, Held as LogHeld, OneDownloaderPerDevice, TakenInOrder, IsFree as IsFreeInLog};
ghost use Rattle.device_reservation.specs.Reservation.{IsFree, stage_of};
ghost use Rattle.device_reservation.specs.declared.stage.Stage.TheVariants.{Held as StageHeld};
ghost use Rattle.device_reservation.specs.Reserved.{IsReserved, reservation_after};

/// Where jobs are taken and ended through one reservation, there is one downloader for each device, and each job that is taken is the first that is free;
/// a job that is held in the reservation is held by the log; and the jobs that are free by the log are those that are free in the reservation.
pub fn one_downloader_per_device()
    ensures alone { (jobs : List LogJob) (log : List LogEntry) → IsReserved jobs log → OneDownloaderPerDevice jobs log }
    ensures in_order { (jobs : List LogJob) (log : List LogEntry) → IsReserved jobs log → TakenInOrder jobs log }
    ensures held { (jobs : List LogJob) (log : List LogEntry) (job worker : ℕ) → IsReserved jobs log → stage_of (reservation_after jobs log) job ≡ Some (StageHeld worker)
        → (since : ℕ) × (state_of job log ≡ LogHeld worker since) }
    ensures free { (jobs : List LogJob) (log : List LogEntry) (job : ℕ) → IsReserved jobs log
        → IsFree (reservation_after jobs log) job ↔ ((job_of jobs job ≢ None) × (state_of job log ≡ Untaken) × IsFreeInLog jobs log job) }
{}
