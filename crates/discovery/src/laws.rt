//! The laws of the grammar of discovery (ISO 22510, Core). A frame that a law speaks of is one of the type: its fields have their octets.

ghost use Rattle.std.specs.Prelude.{◌≡◌, List, ℕ};
ghost use Rattle.discovery.specs.declared.about.About.{About};
ghost use Rattle.discovery.specs.declared.find_frame.FindFrame.{FindFrame};
ghost use Rattle.discovery.specs.declared.inquiry.Inquiry.{Inquiry};
ghost use Rattle.knx_model.specs.declared.frames.ip.IpRefused.{IpRefused};
ghost use Rattle.discovery.specs.Discovery.{Reads, Written, FitsADatagram, IsFrame, Breaks};
ghost use Rattle.discovery.specs.Finding.{Finds};

/// What is written is read as the frame that was written.
#[tactic(auto, using(crate::proofs::Written::written_reads))]
pub fn written_reads()
    ensures { (frame : FindFrame) → IsFrame frame → FitsADatagram frame → Reads (Written frame) frame }
{}

/// Octets are read as one frame.
#[tactic(auto, using(crate::proofs::Once::reads_once))]
pub fn reads_once()
    ensures { (octets : List ℕ) (one other : FindFrame) → Reads octets one → Reads octets other → one ≡ other }
{}

/// Octets that are read break no rule.
#[tactic(auto, using(crate::proofs::Once::reads_breaks))]
pub fn read_breaks_none()
    ensures { (octets : List ℕ) (frame : FindFrame) (why : IpRefused) → Reads octets frame → ¬ Breaks why octets }
{}

/// Of datagrams one list of gateways is found.
pub fn finds_once()
    ensures { (inquiry : Inquiry) (datagrams : List (List ℕ)) (one other : List About) → Finds inquiry datagrams one → Finds inquiry datagrams other → one ≡ other }
{}
