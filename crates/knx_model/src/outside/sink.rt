//! Where the program writes.

ghost use Rattle.std.specs.Prelude.{◌≡◌, OnOk, OnErr};
ghost use Rattle.knx_model.specs.Outside.{SinkNow, Wrote, WroteFront, Rose, one_more};

/// A write failed.
#[derive(Clone, Copy, Debug, Drop, PartialEq, Eq)]
pub struct SinkFailed;

/// Takes what is written.
pub trait Sink: Drop {
    /// What it tells. The counts never fall.
    ghost now: { Self → SinkNow };

    /// Writes octets: all are taken, or the count rises and a front of them is taken.
    fn write(&mut self, octets: &[u8]) -> Result<(), SinkFailed>
        ensures all { OnOk result (Wrote octets.now (now self.old).taken (now self.new).taken) }
        ensures front { OnErr result (WroteFront octets.now (now self.old).taken (now self.new).taken) }
        ensures failed { OnErr result (Rose (now self.old).faults (now self.new).faults) }
        ensures still { OnOk result ((now self.new).faults ≡ (now self.old).faults) }
        ensures counted { (now self.new).writes ≡ one_more (now self.old).writes };
}
