//! The line: one call for each event. A call asks only for what its work needs; what else the event needs, so that it may happen, is told by
//! the questions of a line, and by the law `what_is_allowed_may_happen`.

ghost use Rattle.std.specs.Prelude.{◌≡◌, ◌≢◌, ◌-◌, ◌<◌, None, IfOk, OnOk, OnErr, min, slice_get};
ghost use Rattle.line_model.specs.Gateway.{gateway_expired};
ghost use Rattle.line_model.specs.Network.{OfSent};
ghost use Rattle.line_model.specs.Tunnel.{fresh};
ghost use Rattle.line_model.specs.World.{World, Devices as Known, Send, From, Renew, Up, UpRefused, Down, LoseUp, LoseDown, GwAgain, GwRepeat, GwClose, Pass, step};
ghost use Rattle.tunnel_sim.specs.Gateways.{CanCount, due_of, greatest_count};
ghost use Rattle.line_sim.specs.Line.{IsNow};
ghost use Rattle.line_sim.specs.Places.{AreDevices};
ghost use Rattle.tunnel_sim.specs.Tunnels.{greatest_endpoint};
ghost use Rattle.network_sim.specs.Window.{IsDeliverable};

mod asked;
mod bus;
mod counted;
mod due;

use crate::devices::Devices;
use knx_model::{Datagram, IndAddr, Ldata, NoMemory};
use std::alloc::Global;
use std::marker::Model;
use tunnel_sim::{AtGateway, Due, Tunnel};

/// The line: the tunnel, the devices, and the bus's last frame where a device sent it.
#[derive(Drop)]
pub struct Line {
    tunnel: Tunnel,
    devices: Devices,
    echo: Option<Ldata>,
}

impl Model for Line {
    ghost use Rattle.line_sim.specs.Line.{LineNow};

    ghost Value = { LineNow };

    ghost use Rattle.tunnel_sim.specs.Tunnels.{tunnel_now};

    ghost view = { λ l. record { tunnel = tunnel_now l.tunnel; devices = l.devices; echo = l.echo } };
}

impl Line {
    /// A line with these devices, no channel, nothing sent and no frame that waits.
    pub fn new(alloc: Global, tunnel: IndAddr, devices: Devices) -> Result<Line, NoMemory>
        ensures { IfOk result (λ line. (known : Known) → AreDevices devices known → IsNow line (record { tunnel = fresh tunnel; devices = known; echo = None })) }
    {
        Ok(Line {
            tunnel: Tunnel::new(alloc, tunnel)?,
            devices,
            echo: None,
        })
    }

    // ---- the client

    /// The client sends a datagram.
    pub fn send(&mut self, octets: &[u8])
        ensures { (w : World) → IsNow self.old w → IsNow self.new (step w (Send octets.now)) }
    {
        self.tunnel.send(octets);
    }

    /// A client at this endpoint, from now on the present one, sends a datagram.
    pub fn send_from(&mut self, endpoint: u64, octets: &[u8])
        ensures { (w : World) → IsNow self.old w → IsNow self.new (step w (From endpoint octets.now)) }
    {
        self.tunnel.send_from(endpoint, octets);
    }

    /// The client takes the next endpoint.
    pub fn renew(&mut self)
        requires { self.old.tunnel.present < greatest_endpoint }
        ensures { (w : World) → IsNow self.old w → IsNow self.new (step w Renew) }
    {
        self.tunnel.renew();
    }

    /// The client gets the datagram of an age, which may arrive; its octets.
    pub fn down(&mut self, age: usize) -> Datagram
        requires { OfSent IsDeliverable (slice_get self.old.tunnel.down.kept age) }
        ensures next { (w : World) → IsNow self.old w → IsNow self.new (step w (Down age)) }
        ensures got { (w : World) → IsNow self.old w → OfSent (λ s. s.octets ≡ result) (slice_get w.tunnel.network.down age) }
    {
        self.tunnel.down(age)
    }

    // ---- the network

    /// The datagram of an age, which may arrive, comes to the gateway. Where it makes a channel, one more must be countable. At `Err` nothing
    /// has changed.
    pub fn up(&mut self, age: usize) -> Result<(), NoMemory>
        requires { OfSent IsDeliverable (slice_get self.old.tunnel.up.kept age) }
        ensures next { OnOk result ((w : World) → IsNow self.old w → CanCount self.old.tunnel.gateway → IsNow self.new (step w (Up age))) }
        ensures err { OnErr result (self.new ≡ self.old) }
    {
        self.tunnel.up(age)?;
        Ok(())
    }

    /// The gateway answers the connect request of an age with a status other than 0.
    pub fn up_refused(&mut self, age: usize, status: u8)
        requires deliverable { OfSent IsDeliverable (slice_get self.old.tunnel.up.kept age) }
        requires status { status ≢ 0 }
        ensures { (w : World) → IsNow self.old w → IsNow self.new (step w (UpRefused age status)) }
    {
        self.tunnel.up_refused(age, status);
    }

    /// The client's datagram of an age is lost.
    pub fn lose_up(&mut self, age: usize)
        ensures { (w : World) → IsNow self.old w → IsNow self.new (step w (LoseUp age)) }
    {
        self.tunnel.lose_up(age);
    }

    /// The gateway's datagram of an age is lost.
    pub fn lose_down(&mut self, age: usize)
        ensures { (w : World) → IsNow self.old w → IsNow self.new (step w (LoseDown age)) }
    {
        self.tunnel.lose_down(age);
    }

    // ---- the gateway, and the time

    /// The gateway gets the bus's last frame again, where a device sent it. At `Err` nothing has changed.
    pub fn gateway_again(&mut self) -> Result<(), NoMemory>
        ensures next { OnOk result ((w : World) → IsNow self.old w → IsNow self.new (step w GwAgain)) }
        ensures err { OnErr result (self.new ≡ self.old) }
    {
        self.tunnel.gateway.waiting.reserve(1)?;
        match &self.echo {
            Some(frame) => self.tunnel.hear(AtGateway::Comes, frame.copied()),
            None => self.tunnel.elsewhere(),
        }
        Ok(())
    }

    /// What the gateway has due, it does: it sends its outstanding request again, or closes its channel.
    pub fn gateway_expire(&mut self) -> Due
        ensures answer { (w : World) → IsNow self.old w → result ≡ due_of (gateway_expired w.tunnel.gateway w.tunnel.now) }
        ensures nothing { result ≡ Due.Nothing → (w : World) → IsNow self.old w → IsNow self.new w }
        ensures repeats { result ≡ Due.Repeat → (w : World) → IsNow self.old w → IsNow self.new (step w GwRepeat) }
        ensures closes { result ≡ Due.Closed → (w : World) → IsNow self.old w → IsNow self.new (step w GwClose) }
    {
        self.tunnel.expire()
    }

    /// The gateway closes its channel, where one is open.
    pub fn gateway_close(&mut self)
        ensures { (w : World) → IsNow self.old w → IsNow self.new (step w GwClose) }
    {
        self.tunnel.close();
    }

    /// So many milliseconds pass, but none beyond the greatest time; how many passed.
    pub fn pass(&mut self, ms: u64) -> u64
        ensures value { result ≡ min ms (greatest_count - self.old.tunnel.now) }
        ensures next { (w : World) → IsNow self.old w → IsNow self.new (step w (Pass result)) }
    {
        self.tunnel.pass(ms)
    }
}
