//! The laws of the grammar of L_Data (KNX standard 3/6/3, common EMI).

ghost use Rattle.std.specs.Prelude.{◌≡◌, List, ℕ};
ghost use Rattle.knx_model.specs.declared.frames.cemi.Ldata.{Ldata};
ghost use Rattle.knx_model.specs.declared.frames.cemi.CemiRefused.{CemiRefused};
ghost use Rattle.knx_model.specs.Cemi.{Reads, Written, IsInRange, Breaks};

/// What is written is read as the frame that was written.
#[tactic(auto, using(crate::proofs::Written::written_reads))]
pub fn written_reads()
    ensures { (frame : Ldata) → IsInRange frame → Reads (Written frame) frame }
{}

/// Octets are read as one frame.
#[tactic(auto, using(crate::proofs::Once::reads_once))]
pub fn reads_once()
    ensures { (octets : List ℕ) (one other : Ldata) → Reads octets one → Reads octets other → one ≡ other }
{}

/// Octets that are read break no rule.
#[tactic(auto, using(crate::proofs::Once::reads_breaks))]
pub fn read_breaks_none()
    ensures { (octets : List ℕ) (frame : Ldata) (why : CemiRefused) → Reads octets frame → ¬ Breaks why octets }
{}
