//! The laws of the grammar (ISO/IEC 14543-3-2 and 3-1, transport and application layer).

ghost use Rattle.std.specs.Prelude.{◌≡◌, List, ℕ, Some, ◌↔◌};
ghost use Rattle.knx_model.specs.declared.frames.tpdu.Tpdu.{Tpdu};
ghost use Rattle.knx_model.specs.declared.frames.tpdu.TpduRefused.{TpduRefused};
ghost use Rattle.knx_model.specs.Apdu.{Reads, Written, IsInRange, Breaks};
ghost use Rattle.knx_model.specs.ApduReading.{tpdu_in};

/// What is written is read as the frame that was written.
pub fn written_reads()
    ensures { (frame : Tpdu) → IsInRange frame → Reads (Written frame) frame }
{}

/// Octets are read as one frame.
pub fn reads_once()
    ensures { (octets : List ℕ) (one other : Tpdu) → Reads octets one → Reads octets other → one ≡ other }
{}

/// Octets that are read break no rule.
#[tactic(auto, using(crate::proofs::Refusals::reads_breaks))]
pub fn read_breaks_none()
    ensures { (octets : List ℕ) (frame : Tpdu) (why : TpduRefused) → Reads octets frame → ¬ Breaks why octets }
{}

/// The grammar as a function is the grammar as a relation.
pub fn reads_as_function()
    ensures { (octets : List ℕ) (frame : Tpdu) → (tpdu_in octets ≡ Some frame) ↔ Reads octets frame }
{}
