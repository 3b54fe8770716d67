//! The law of tunnelling requests: whatever the network does, none acts twice, neither one of the client at the gateway nor one of the gateway at
//! the client.
#![tactic(auto)]

ghost use Rattle.std.specs.Prelude.{List};
ghost use Rattle.knx_model.specs.declared.address.IndAddr.{IndAddr as Address};
ghost use Rattle.line_model.specs.ActedOnce.{IsActedOnce, ActedOnce};
ghost use Rattle.line_model.specs.Fresh.{IsFresh};
ghost use Rattle.line_model.specs.Legal.{IsLegal};
ghost use Rattle.line_model.specs.Record.{record_of, tunnel_record};
ghost use Rattle.line_model.specs.Renews.{RenewsRightly};
ghost use Rattle.line_model.specs.Sendings.{SendsRightly};
ghost use Rattle.line_model.specs.Tunnel.{TunnelEvent, Commissions, fresh, IsLegal as IsLegalInTunnel, replay as tunnel_replay};
ghost use Rattle.line_model.specs.World.{World, Event};

/// In a tunnel, over all that may happen to its datagrams: in each channel the requests that the gateway acted on are the first of those that the
/// client put there, each once, and those that the client took are the first of those that the gateway put there; in a channel that the client
/// never got nothing is acted on.
pub fn requests_act_once()
    ensures { (me : Address) (events : List TunnelEvent) → IsLegalInTunnel Commissions (fresh me) events → RenewsRightly (tunnel_record (fresh me) events) → SendsRightly (tunnel_record (fresh me) events)
        → IsActedOnce (tunnel_replay (fresh me) events).gateway (tunnel_record (fresh me) events) }
{}

/// The same on the whole line, at every moment, whatever happens on the bus.
pub fn requests_act_once_on_the_line()
    ensures { (start : World) (events : List Event) → IsFresh start → IsLegal Commissions start events → RenewsRightly (record_of start events) → SendsRightly (record_of start events)
        → ActedOnce start events }
{}
