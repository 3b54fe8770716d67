//! How a fault of the client's end of the tunnel is told.

ghost use Rattle.std.specs.Prelude.{◌≡◌, IfErr, Some};
ghost use Rattle.tunnel_link.specs.Rights.{IsOfTunnel, WhereTold};
ghost use Rattle.address_commission.specs.Calls.{CausedBy, ToldAs, fault_of};

use address_talk::AssignFault;
use line_model::{HubFault, Link};
use tunnel_link::Tunnel;

/// What a call of the client's end of the tunnel came to.
pub fn told<L: Link, X>(tunnel: &Tunnel<L>, call: Result<X, HubFault>) -> Result<X, AssignFault>
    requires fault { IfErr call (λ fault. tunnel.now.known.fault ≡ Some fault) }
    requires by_tunnel { IfErr call IsOfTunnel }
    ensures same { ToldAs call result }
    ensures cause { WhereTold (CausedBy result) (L.story tunnel.now.link) }
{
    tunnel.keeps();
    match call {
        Ok(x) => Ok(x),
        Err(fault) => Err(fault_of(fault)),
    }
}

/// The fault of the client's end of the tunnel. That comes to none of a wrong line.
fn fault_of(fault: HubFault) -> AssignFault
    ensures { result ≡ fault_of fault }
{
    match fault {
        HubFault::NoMemory(no_memory) => AssignFault::NoMemory(no_memory),
        HubFault::LinkFailed => AssignFault::LinkFailed,
        HubFault::GatewayRefused(tries) => AssignFault::GatewayRefused(tries),
        HubFault::Flooded | HubFault::WrongLine { .. } => AssignFault::Flooded,
    }
}
