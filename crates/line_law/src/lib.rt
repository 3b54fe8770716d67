//! The law of the whole line: what the devices keep while a client commissions them through a tunnel, whatever is lost, repeated, cut, torn or
//! worn.
#![tactic(auto)]

ghost use Rattle.line_model.specs.Headline.{EveryInterleaving};
ghost use Rattle.line_law.specs.Safe.{EverySafeInterleaving};

/// Over every fresh start, every legal list of events and every disciplined record and log: at every moment each device keeps its starting content,
/// or is stopped, or runs the image of a load job of it; it is untouched before its first load job is taken, and from done to its next load job what
/// it keeps stays; done is told only where the device runs the job's image; each group telegram acts on exactly the objects that the running
/// configuration links; and no tunnelling request acts twice.
pub fn every_interleaving()
    ensures { EveryInterleaving }
{}

/// The same where the client keeps to all but promptness and acknowledgements.
pub fn every_safe_interleaving()
    ensures { EverySafeInterleaving }
{}
