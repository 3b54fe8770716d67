//! What dials links and binds ports.

ghost use Rattle.std.specs.Prelude.{◌≡◌, IfOk};
ghost use Rattle.knx_model.specs.Outside.{one_more};
ghost use Rattle.line_model.specs.Dialled.{DialerNow, Tells, after_dial, with_link, with_port};
ghost use Rattle.line_model.specs.LinkStory.{IsNewLink};
ghost use Rattle.line_model.specs.Polled.{none_failed};
ghost use Rattle.line_model.specs.PortStory.{IsNewPort};

use crate::outside::link::Link;
use crate::outside::port::Port;

/// A host wasn't reached, or a port not bound.
#[derive(Clone, Copy, Debug, Drop, PartialEq, Eq)]
pub struct DialFailed;

/// Dials gateways and binds ports, and takes both back.
pub trait Dialer {
    ghost use Rattle.line_model.specs.Dialled.{DialerNow};

    type L: Link + Send;

    type P: Port;

    /// What it tells.
    ghost now: { Self → DialerNow };

    /// Dials a gateway. The link has no events, or an empty record, and no fault.
    fn dial(&mut self, host: [u8; 4], port: u16) -> Result<Self::L, DialFailed>
        ensures fresh { IfOk result (λ l. IsNewLink (Self.L.story l)) }
        ensures sound { IfOk result (λ l. Self.L.faults l ≡ none_failed) }
        ensures counts { (now self.new).counts ≡ after_dial result (now self.old).counts }
        ensures tells { Tells host port (now self.new).given }
        ensures dials { (now self.new).dials ≡ one_more (now self.old).dials }
        ensures link_stays { (now self.new).link_back ≡ (now self.old).link_back }
        ensures port_stays { (now self.new).port_back ≡ (now self.old).port_back };

    /// Binds a port.
    fn bind(&mut self, host: [u8; 4], port: u16) -> Result<Self::P, DialFailed>
        ensures fresh { IfOk result (λ p. IsNewPort (Self.P.story p)) }
        ensures sound { IfOk result (λ p. Self.P.faults p ≡ 0) }
        ensures counts { (now self.new).counts ≡ after_dial result (now self.old).counts }
        ensures tells { Tells host port (now self.new).given }
        ensures dials { (now self.new).dials ≡ one_more (now self.old).dials }
        ensures link_stays { (now self.new).link_back ≡ (now self.old).link_back }
        ensures port_stays { (now self.new).port_back ≡ (now self.old).port_back };

    /// Takes a link back. Each count rises exactly where that of the link isn't 0.
    fn hang(&mut self, line: Self::L)
        ensures counts { (now self.new).counts ≡ with_link (Self.L.faults line) (now self.old).counts }
        ensures told { (now self.new).link_back ≡ Self.L.story line }
        ensures given { (now self.new).given ≡ (now self.old).given }
        ensures dials { (now self.new).dials ≡ (now self.old).dials };

    /// Takes a port back.
    fn shut(&mut self, door: Self::P)
        ensures counts { (now self.new).counts ≡ with_port (Self.P.faults door) (now self.old).counts }
        ensures told { (now self.new).port_back ≡ Self.P.story door }
        ensures given { (now self.new).given ≡ (now self.old).given }
        ensures dials { (now self.new).dials ≡ (now self.old).dials };
}
