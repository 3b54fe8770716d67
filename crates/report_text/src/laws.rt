//! Laws of the status of a run, and of its text.

ghost use Rattle.report_text.specs.LineStatus.{DoneExactly};
ghost use Rattle.report_text.specs.ReadBack.{FaultIsTold, WholeIsTold, LogIsTold};

/// A run over the line, whose jobs are over where it ended without a fault, is done exactly where it ended so and its log tells done of each job.
pub fn a_run_is_done_where_each_job_is()
    ensures { DoneExactly }
{}

/// Runs whose text is the same ended for the same reason. Where the whole report is printed, they have the same jobs and group telegrams with the same
/// ends, and the same devices; where the log is asked for, the same log, but for how long a silence was.
pub fn a_run_is_read_from_its_text()
    ensures fault { FaultIsTold }
    ensures whole { WholeIsTold }
    ensures log { LogIsTold }
{}
