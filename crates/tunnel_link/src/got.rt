//! What is got.

ghost use Rattle.std.specs.Prelude.{◌≡◌, true, Some};
ghost use Rattle.line_model.specs.ClientFrames.{HasTunnelIfUp};
ghost use Rattle.line_model.specs.ChannelLost.{is_alike, is_confirmation_of};
ghost use Rattle.line_model.specs.ClientView.{is_stray, is_to};
ghost use Rattle.line_model.specs.Reading.{ldata_in, is_con};
ghost use Rattle.tunnel_link.specs.Kept.{after_got, got_answer, taken, take_answer, with_heard, what_heard, answers_heartbeat, drops, counts};

use crate::came::{Answer, Loss, What};
use crate::flight::Flight;
use crate::known::Known;
use crate::tries::Tries;
use knx_model::{Datagram, IndAddr, IpFrame, Ldata, LdataCode};
use line_frames::{datagram_in, ldata_in};
use line_model::{ChannelTook, Try};

impl Known {
    /// Takes in a datagram. Where the time has ended what it would act on, it is dropped.
    pub fn got(&mut self, octets: &[u8], now: u64) -> Answer
        ensures answer { result ≡ got_answer self.old octets.now now }
        ensures next { self.new ≡ after_got self.old octets.now now }
    {
        if self.is_over(now) {
            self.counts();
            self.drops();
            return self.lapse(What::Dropped, now);
        }
        match datagram_in(octets) {
            Some(frame) => self.takes(&frame, now),
            None => {
                self.counts();
                self.drops();
                Answer::only(What::Dropped)
            }
        }
    }

    /// Takes a frame of the gateway.
    #[tactic(auto, unfolding(crate::specs::Kept::taken, crate::specs::Kept::take_answer))]
    fn takes(&mut self, frame: &IpFrame, now: u64) -> Answer
        requires { HasTunnelIfUp frame.now }
        ensures answer { result ≡ take_answer self.old frame.now now }
        ensures next { self.new ≡ taken self.old frame.now now }
    {
        let took = self.channel.take(frame, now);
        if !answers_heartbeat(frame, &took) {
            self.counts();
        }
        match took {
            ChannelTook::Dropped => {
                self.drops();
                Answer::only(What::Dropped)
            }
            ChannelTook::Up { tunnel } => {
                self.tries = Tries::Zero;
                self.flight = Flight::none();
                self.tunnel = Some(tunnel);
                self.put = None;
                Answer::only(What::Up { tunnel })
            }
            ChannelTook::RefusedBy { status } => {
                self.tried(Try::Status(status));
                Answer::only(What::Tunnel)
            }
            ChannelTook::Acked => {
                self.flight = self.flight.acknowledged(now);
                Answer::only(What::Tunnel)
            }
            ChannelTook::Cemi { octets, ack } => Answer::with(self.heard(&octets), ack),
            ChannelTook::Again { ack } => Answer::with(What::Tunnel, ack),
            ChannelTook::Gone { answer: None } => self.lost(What::Tunnel),
            ChannelTook::Gone {
                answer: Some(answer),
            } => {
                self.flight = Flight::none();
                Answer {
                    what: What::Tunnel,
                    loss: Loss::Ended,
                    sends: Some(answer),
                }
            }
            ChannelTook::Alive => Answer::only(What::Tunnel),
        }
    }

    /// Takes the cEMI octets of the gateway's next request. A confirmation that isn't that of the request put last is for no one, and so is an
    /// indication to another device than the tunnel.
    fn heard(&mut self, octets: &Datagram) -> What
        ensures answer { result ≡ what_heard self.old.tunnel self.old.put (ldata_in octets.now) }
        ensures next { self.new ≡ with_heard (ldata_in octets.now) self.old }
    {
        let Some(frame) = ldata_in(octets.as_slice()) else {
            self.drops();
            return What::Dropped;
        };
        if frame.code == LdataCode::Con {
            if !is_confirmation_of(&self.put, &frame) {
                return What::Tunnel;
            }
            self.flight = self.flight.confirmed();
        } else if is_stray(&self.tunnel, &frame) {
            return What::Tunnel;
        }
        What::Frame(frame)
    }

    fn drops(&mut self)
        ensures { self.new ≡ drops self.old }
    {
        self.dropped = self.dropped.saturating_add(1);
    }

    fn counts(&mut self)
        ensures { self.new ≡ counts self.old }
    {
        self.taken = self.taken.saturating_add(1);
    }
}

/// Whether a confirmation is that of the frame put last, if one was: it has its destination and its TPDU.
fn is_confirmation_of(put: &Option<Ldata>, con: &Ldata) -> bool
    requires { is_con con.now.code ≡ true }
    ensures { result ≡ is_confirmation_of put.now (Some con.now) }
{
    match put {
        None => false,
        Some(frame) => is_alike(frame, con),
    }
}

fn is_alike(frame: &Ldata, con: &Ldata) -> bool
    ensures { result ≡ is_alike frame.now con.now }
{
    con.group == frame.group
        && con.destination == frame.destination
        && con.tpdu.as_slice() == frame.tpdu.as_slice()
}

/// Whether an indication is to another device than the tunnel.
fn is_stray(tunnel: &Option<IndAddr>, frame: &Ldata) -> bool
    ensures { result ≡ is_stray tunnel.now (Some frame.now) }
{
    matches!(frame.code, LdataCode::Ind) && !frame.group && !is_to(tunnel, frame)
}

fn is_to(tunnel: &Option<IndAddr>, frame: &Ldata) -> bool
    ensures { result ≡ is_to tunnel.now frame.now }
{
    match tunnel {
        None => false,
        Some(own) => frame.destination == own.raw,
    }
}

/// Whether this is an awaited answer to a heartbeat.
fn answers_heartbeat(frame: &IpFrame, took: &ChannelTook) -> bool
    ensures { result ≡ answers_heartbeat frame.now took.now }
{
    matches!(frame, IpFrame::StateResponse { .. }) && !matches!(took, ChannelTook::Dropped)
}
