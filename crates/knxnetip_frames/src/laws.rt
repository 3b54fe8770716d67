//! The laws of the grammar of KNXnet/IP (ISO 22510).

ghost use Rattle.std.specs.Prelude.{◌≡◌, List, ℕ};
ghost use Rattle.knx_model.specs.declared.frames.ip.IpFrame.{IpFrame};
ghost use Rattle.knx_model.specs.declared.frames.ip.IpRefused.{IpRefused};
ghost use Rattle.knx_model.specs.KnxNetIp.{Reads, Written, IsInRange, Breaks};

/// What is written is read as the frame that was written.
#[tactic(auto, using(crate::proofs::Written::written_reads))]
pub fn written_reads()
    ensures { (frame : IpFrame) → IsInRange frame → Reads (Written frame) frame }
{}

/// Octets are read as one frame.
#[tactic(auto, using(crate::proofs::Once::reads_once))]
pub fn reads_once()
    ensures { (octets : List ℕ) (one other : IpFrame) → Reads octets one → Reads octets other → one ≡ other }
{}

/// Octets that are read break no rule.
#[tactic(auto, using(crate::proofs::Once::reads_breaks))]
pub fn read_breaks_none()
    ensures { (octets : List ℕ) (frame : IpFrame) (why : IpRefused) → Reads octets frame → ¬ Breaks why octets }
{}
