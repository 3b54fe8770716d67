//! Where the client's end of a tunnel is, and where it goes.

ghost use Rattle.std.specs.Prelude.{◌≡◌, ◌↔◌, IsTrue, is_some};
ghost use Rattle.line_model.specs.ClientEnd.{MayConnect, open_end, put_refused, is_over, channel_expired, after_expired, channel_deadline, with_channel, repeated, beaten, lost, channel_left, after_leave};
ghost use Rattle.line_model.specs.ClientFrames.{channel_took, after_took, acknowledged, delivered, answered, gone, channel_given};
ghost use Rattle.tunnel_channel.specs.Ends.{client_end, MayBeat};

use crate::ends::Ends;
use crate::took::{leaving_took, open_took, seeking_took};
use crate::wait::CONNECT_WAIT_MS;
use knx_model::{Datagram, IpFrame, end_of, has_passed};
use knxnetip_frames::disconnect_request;
use line_model::{ChannelExpired, ChannelTook, PutRefused};
use std::mem;

/// Where the client's end is, with what is known there.
///
/// ```text
///                           status 0, within
///   connect  +---------+       10,000 ms       +------+   leave   +---------+
///    +-----> | Seeking | --------------------> | Open | --------> | Leaving |
///    |       +---------+                       +------+           +---------+
///    |            | another status, or 10,000 ms    |                  |
///    |            | without response                |                  |
///    |            v        disconnect request       |                  |  disconnect request
///    |       +---------+ <--------------------------+                  |  or response
///    +------ |  Idle   | <---------------------------------------------+
///    |       +---------+                            |                  |
///    |            ^ leave                           |  lost otherwise  |
///    |       +----------+                           |                  |
///    +------ | JustLost | <-------------------------+------------------+
///            +----------+
/// ```
#[derive(Drop)]
pub enum State {
    /// There is no channel, and none is sought.
    Idle,
    /// A connect request was sent.
    Seeking { since: u64 },
    Open(Ends),
    /// The channel is open, and its end was asked for.
    Leaving(Ends),
    /// There is no channel, and the gateway isn't told that this one was lost.
    JustLost { channel: u8 },
}

impl State {
    /// Whether the time alone has ended the channel, or the wait for one.
    pub fn is_over(&self, now: u64) -> bool
        ensures { result ≡ is_over (client_end self.now) now }
    {
        match self {
            State::Seeking { since } => has_passed(CONNECT_WAIT_MS, *since, now),
            State::Open(ends) | State::Leaving(ends) => ends.is_over(now),
            State::Idle | State::JustLost { .. } => false,
        }
    }

    /// Whether a channel is open.
    pub fn is_open(&self) -> bool
        ensures { result ≡ is_some (open_end (client_end self.now)) }
    {
        matches!(self, State::Open(_) | State::Leaving(_))
    }

    /// Whether no channel is open and none is sought.
    pub fn may_connect(&self) -> bool
        ensures { IsTrue result ↔ MayConnect (client_end self.now) }
    {
        matches!(self, State::Idle | State::JustLost { .. })
    }

    /// Why a request can't be put now.
    pub fn refuses(&self) -> Option<PutRefused>
        ensures { result ≡ put_refused (client_end self.now) }
    {
        match self {
            State::Open(ends) | State::Leaving(ends) => ends.refuses(),
            State::Idle | State::Seeking { .. } | State::JustLost { .. } => Some(PutRefused::NotUp),
        }
    }

    /// The answer to a frame of the gateway.
    #[tactic(auto, unfolding(line_model::specs::ClientFrames::channel_took))]
    pub fn took(&self, frame: &IpFrame, now: u64) -> ChannelTook
        ensures { result ≡ channel_took (client_end self.now) frame.now now }
    {
        if self.is_over(now) {
            return ChannelTook::Dropped;
        }
        match self {
            State::Seeking { .. } => seeking_took(frame),
            State::Open(ends) => open_took(ends, frame, now),
            State::Leaving(ends) => leaving_took(ends, frame, now),
            State::Idle | State::JustLost { .. } => ChannelTook::Dropped,
        }
    }

    /// Goes on after this answer to a frame.
    #[tactic(auto, unfolding(line_model::specs::ClientFrames::after_took))]
    pub fn after(&mut self, frame: &IpFrame, now: u64, took: &ChannelTook)
        ensures { client_end self.new ≡ after_took (client_end self.old) frame.now now took.now }
    {
        match took {
            ChannelTook::Dropped | ChannelTook::Again { .. } => {}
            ChannelTook::Up { .. } => *self = State::given(frame, now),
            ChannelTook::RefusedBy { .. } | ChannelTook::Gone { answer: Some(_) } => {
                *self = State::Idle
            }
            ChannelTook::Acked => self.acknowledged(),
            ChannelTook::Cemi { .. } => self.delivered(),
            ChannelTook::Gone { answer: None } => self.gone(frame),
            ChannelTook::Alive => self.answered(),
        }
    }

    /// With the channel that a connect response gives.
    fn given(frame: &IpFrame, now: u64) -> State
        ensures { client_end result ≡ channel_given frame.now now }
    {
        match frame {
            IpFrame::ConnectResponse { channel, .. } => State::Open(Ends::new(*channel, now)),
            _ => State::Idle,
        }
    }

    /// The gateway's frame ended the channel: the answer to a disconnect request leaves nothing to tell.
    fn gone(&mut self, frame: &IpFrame)
        ensures { client_end self.new ≡ gone (client_end self.old) frame.now }
    {
        match frame {
            IpFrame::DisconnectResponse { .. } => *self = State::Idle,
            _ => self.lost(),
        }
    }

    /// The channel was lost.
    pub fn lost(&mut self)
        ensures { client_end self.new ≡ lost (client_end self.old) }
    {
        if let State::Open(ends) | State::Leaving(ends) = self {
            let channel = ends.channel;
            *self = State::JustLost { channel };
        }
    }

    fn acknowledged(&mut self)
        ensures { client_end self.new ≡ with_channel acknowledged (client_end self.old) }
    {
        match self {
            State::Open(ends) => ends.acknowledged(),
            State::Leaving(ends) => ends.acknowledged(),
            State::Idle | State::Seeking { .. } | State::JustLost { .. } => {}
        }
    }

    fn delivered(&mut self)
        ensures { client_end self.new ≡ with_channel delivered (client_end self.old) }
    {
        match self {
            State::Open(ends) => ends.delivered(),
            State::Leaving(ends) => ends.delivered(),
            State::Idle | State::Seeking { .. } | State::JustLost { .. } => {}
        }
    }

    fn answered(&mut self)
        ensures { client_end self.new ≡ with_channel answered (client_end self.old) }
    {
        match self {
            State::Open(ends) => ends.answered(),
            State::Leaving(ends) => ends.answered(),
            State::Idle | State::Seeking { .. } | State::JustLost { .. } => {}
        }
    }

    /// What has become due.
    #[tactic(auto, unfolding(line_model::specs::ClientEnd::channel_expired))]
    pub fn expired(&self, now: u64) -> ChannelExpired
        ensures { result ≡ channel_expired (client_end self.now) now }
    {
        match self {
            State::Seeking { since } if has_passed(CONNECT_WAIT_MS, *since, now) => {
                ChannelExpired::NoAnswer
            }
            State::Open(ends) | State::Leaving(ends) => ends.expired(now),
            State::Idle | State::Seeking { .. } | State::JustLost { .. } => ChannelExpired::Nothing,
        }
    }

    /// Goes on after this became due.
    #[tactic(auto, unfolding(line_model::specs::ClientEnd::channel_expired, line_model::specs::ClientEnd::after_expired))]
    pub fn after_expiry(&mut self, now: u64, expired: &ChannelExpired)
        requires { expired.now ≡ channel_expired (client_end self.old) now }
        ensures { client_end self.new ≡ after_expired (client_end self.old) now expired.now }
    {
        match expired {
            ChannelExpired::Nothing => {}
            ChannelExpired::Repeat(_) => self.repeated(now),
            ChannelExpired::Lost | ChannelExpired::Dead => self.lost(),
            ChannelExpired::NoAnswer => *self = State::Idle,
            ChannelExpired::Beat(_) => self.beaten(now),
        }
    }

    fn repeated(&mut self, now: u64)
        ensures { client_end self.new ≡ with_channel (repeated now) (client_end self.old) }
    {
        match self {
            State::Open(ends) => ends.repeated(now),
            State::Leaving(ends) => ends.repeated(now),
            State::Idle | State::Seeking { .. } | State::JustLost { .. } => {}
        }
    }

    fn beaten(&mut self, now: u64)
        requires { MayBeat (client_end self.old) }
        ensures { client_end self.new ≡ with_channel (beaten now) (client_end self.old) }
    {
        match self {
            State::Open(ends) => ends.beaten(now),
            State::Leaving(ends) => ends.beaten(now),
            State::Idle | State::Seeking { .. } | State::JustLost { .. } => {}
        }
    }

    /// The nearest time at which something becomes due.
    #[tactic(auto, unfolding(line_model::specs::ClientEnd::channel_deadline))]
    pub fn deadline(&self) -> Option<u64>
        ensures { result ≡ channel_deadline (client_end self.now) }
    {
        match self {
            State::Seeking { since } => Some(end_of(CONNECT_WAIT_MS, *since)),
            State::Open(ends) | State::Leaving(ends) => Some(ends.deadline()),
            State::Idle | State::JustLost { .. } => None,
        }
    }

    /// The request that asks to end the channel that is open or was just lost.
    pub fn disconnect_request(&self) -> Option<Datagram>
        ensures { result ≡ channel_left (client_end self.now) }
    {
        match self {
            State::Open(ends) | State::Leaving(ends) => Some(disconnect_request(ends.channel)),
            State::JustLost { channel } => Some(disconnect_request(*channel)),
            State::Idle | State::Seeking { .. } => None,
        }
    }

    /// Goes on after that was sent.
    pub fn leave(&mut self)
        ensures { client_end self.new ≡ after_leave (client_end self.old) }
    {
        *self = match mem::replace(self, State::Idle) {
            State::Open(ends) | State::Leaving(ends) => State::Leaving(ends),
            State::JustLost { .. } => State::Idle,
            state => state,
        };
    }
}
