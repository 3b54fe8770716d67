//! The device on the line: the frames that it takes, and those that it sends.

ghost use Rattle.std.specs.Prelude.{◌≡◌, ℕ, nat_lt, true, is_some, Some, IfOk, IfSome, OnOk, OnErr, if◌then◌else◌};
ghost use Rattle.knx_model.specs.declared.device.WriteKind.{WriteKind as Kind};
ghost use Rattle.knx_model.specs.Device.{written_front};
ghost use Rattle.knx_model.specs.Connection.{IsApdu};
ghost use Rattle.knx_model.specs.DeviceFrames.{AreOctets, Whole, Torn, Worn, is_too_long, took_of, takes, after_frame, taken_alone, effect_of_frame, would_write, write_kind, worn_octets, taken_group, sender, connection_took, effect_delivered};
ghost use Rattle.device_sim.specs.Sending.{answered_end, answered_frame};
ghost use Rattle.device_sim.specs.Wear.{outcome};
ghost use Rattle.device_sim.specs.Effects.{meant};

use crate::device::Device;
use crate::effect::{Effect, front_of, worn_octets, writes_octets};
use crate::sending::{frame_to, queue, queue_if};
use crate::served::serve;
use crate::service::effect_in;
use crate::wear::Memory;
use knx_model::{ApduOctets, FrameSupport, IndAddr, Ldata, NoMemory, Octets, Took, WriteKind};
use std::alloc::Global;
use transport_conn::{DeviceConn, DeviceTook};

/// The most octets of a standard frame's TPDU.
const MOST_STANDARD_OCTETS: usize = 16;

impl Device {
    /// Whether the frame is an extended one and the device takes standard frames alone.
    fn is_too_long(&self, frame: &Ldata) -> bool
        ensures { result ≡ is_too_long self.now.frames frame.now }
    {
        match self.frames {
            FrameSupport::Standard => frame.tpdu.len() > MOST_STANDARD_OCTETS,
            FrameSupport::Extended => false,
        }
    }

    /// What `take` of this frame would say.
    pub fn took(&self, frame: &Ldata) -> Took
        ensures { result ≡ took_of self.now frame.now }
    {
        if !self.power {
            Took::Off
        } else if !frame.group && frame.destination != self.address.raw {
            Took::NotMine
        } else if self.is_too_long(frame) {
            Took::TooLong
        } else {
            Took::Taken
        }
    }

    /// A frame comes over the bus at this time, in milliseconds; its source is the sender. It acts by its connection, or as a
    /// group telegram, and what the device has to say to it waits to be sent. Off exactly where it has no power, else NotMine
    /// exactly where the frame is for another device alone, else TooLong exactly where the frame is an extended one and the device a
    /// standard one. At `Err` nothing has changed.
    pub fn take(&mut self, alloc: Global, frame: &Ldata, now: u64) -> Result<Took, NoMemory>
        ensures took { IfOk result (λ took. took ≡ took_of self.old frame.now) }
        ensures next { OnOk result (self.new ≡ takes self.old frame.now now Whole) }
        ensures err { OnErr result (self.new ≡ self.old) }
    {
        match self.took(frame) {
            Took::Taken => {
                self.get(alloc, frame, now)?;
                Ok(Took::Taken)
            }
            took => Ok(took),
        }
    }

    fn get(&mut self, alloc: Global, frame: &Ldata, now: u64) -> Result<(), NoMemory>
        ensures next { OnOk result (self.new ≡ after_frame self.old frame.now now Whole) }
        ensures err { OnErr result (self.new ≡ self.old) }
    {
        if frame.group {
            let brought = self.telegram(alloc, frame)?;
            self.bring(frame, brought);
            Ok(())
        } else {
            self.take_alone(frame, now, Memory::Sound)?;
            self.last = Some(frame.copied());
            Ok(())
        }
    }

    /// Takes a frame for this device alone.
    #[tactic(auto, using(crate::proofs::Answered::with_answer_is, crate::proofs::Answered::queued_if_is))]
    fn take_alone(&mut self, frame: &Ldata, now: u64, memory: Memory) -> Result<(), NoMemory>
        ensures next { OnOk result (self.new ≡ taken_alone self.old frame.now now (outcome memory (effect_delivered (connection_took self.old frame.now)))) }
        ensures err { OnErr result (self.new ≡ self.old) }
    {
        self.unsent.reserve(2)?;
        let from = sender(frame);
        match self.connection.take(from, frame.tpdu.as_slice(), now) {
            DeviceTook::Dropped | DeviceTook::Acked => Ok(()),
            DeviceTook::Connected => {
                self.unsent.clear();
                Ok(())
            }
            DeviceTook::Apdu { apdu, ack } => {
                queue(&mut self.unsent, frame_to(self.address, from, ack));
                let answer = serve(
                    self.frames,
                    &mut self.kept,
                    &mut self.values,
                    &mut self.index,
                    apdu.as_slice(),
                    memory,
                );
                let tpdu = answer_frame(&mut self.connection, answer, now);
                queue_if(&mut self.unsent, self.address, from, tpdu);
                Ok(())
            }
            DeviceTook::Again { ack: tpdu } | DeviceTook::Nak(tpdu) => {
                queue(&mut self.unsent, frame_to(self.address, from, tpdu));
                Ok(())
            }
            DeviceTook::Closed { answer } => {
                queue_if(&mut self.unsent, self.address, from, answer);
                Ok(())
            }
        }
    }

    /// What the service does that this frame would deliver now.
    fn effect_of_frame(&self, frame: &Ldata) -> Effect
        ensures { meant result ≡ effect_of_frame self.now frame.now }
    {
        if !matches!(self.took(frame), Took::Taken) || frame.group {
            return Effect::Nothing;
        }
        match self
            .connection
            .would_take(sender(frame), frame.tpdu.as_slice())
        {
            DeviceTook::Apdu { apdu, .. } => effect_in(apdu.as_slice()),
            _ => Effect::Nothing,
        }
    }

    /// The write of the device that `take` of this frame would do now; None exactly where it would do none.
    pub fn would_write(&self, frame: &Ldata) -> Option<WriteKind>
        ensures value { result ≡ would_write self.now frame.now }
        ensures octets { (k : ℕ) → AreOctets (written_front (effect_of_frame self.now frame.now) k) }
    {
        let effect = self.effect_of_frame(frame);
        writes_octets(&effect);
        if self.kept.is_write(&effect) {
            write_kind(&effect)
        } else {
            None
        }
    }

    /// The octets that stand new in memory where power is cut in the write that this frame would be now, after the first `k` ones.
    pub fn torn_octets(&self, alloc: Global, frame: &Ldata, k: u32) -> Result<Octets, NoMemory>
        ensures value { IfOk result (λ octets. octets ≡ written_front (effect_of_frame self.now frame.now) k) }
        ensures range { IfOk result AreOctets }
    {
        let effect = self.effect_of_frame(frame);
        writes_octets(&effect);
        front_of(alloc, &effect, k)
    }

    /// The octets that worn memory keeps of the write that this frame would be now.
    pub fn worn_octets(&self, frame: &Ldata) -> ApduOctets
        ensures { result ≡ worn_octets (effect_of_frame self.now frame.now) }
    {
        worn_octets(&self.effect_of_frame(frame))
    }

    /// The frame is taken, and power is cut in the write that it asks for, after the first `k` octets that are written. The
    /// load state and the segment length that it asks for are new but where `k` is 0.
    #[tactic(auto, using(crate::proofs::Written::takes_torn))]
    pub fn take_torn(&mut self, frame: &Ldata, k: u32, _now: u64)
        requires { is_some (would_write self.old frame.now) ≡ true }
        ensures { self.new ≡ takes self.old frame.now _now (Torn (nat_lt 0 k) (written_front (effect_of_frame self.old frame.now) k)) }
    {
        let effect = self.effect_of_frame(frame);
        self.tear(&effect, k);
    }

    /// The frame is taken, and worn memory keeps the complement of each octet that it writes. At `Err` nothing has changed.
    #[tactic(auto, using(crate::proofs::Written::takes_worn))]
    pub fn take_worn(&mut self, _alloc: Global, frame: &Ldata, now: u64) -> Result<(), NoMemory>
        requires { would_write self.old frame.now ≡ Some Kind.Memory }
        ensures next { OnOk result (self.new ≡ takes self.old frame.now now (Worn (worn_octets (effect_of_frame self.old frame.now)))) }
        ensures err { OnErr result (self.new ≡ self.old) }
    {
        self.take_alone(frame, now, Memory::Worn)?;
        self.last = Some(frame.copied());
        Ok(())
    }
}

fn sender(frame: &Ldata) -> IndAddr
    ensures { result ≡ sender frame.now }
{
    IndAddr { raw: frame.source }
}

/// The octets that bring an answer, where there is one, to the partner.
fn answer_frame(
    connection: &mut DeviceConn,
    answer: Option<ApduOctets>,
    now: u64,
) -> Option<ApduOctets>
    requires { IfSome answer IsApdu }
    ensures next { connection.new ≡ answered_end connection.old answer now }
    ensures frame { result ≡ answered_frame connection.old answer }
{
    match answer {
        Some(apdu) => connection.answer(apdu.as_slice(), now).ok(),
        None => None,
    }
}

fn write_kind(effect: &Effect) -> Option<WriteKind>
    ensures { result ≡ write_kind (meant effect.now) }
{
    match effect {
        Effect::Loads(_, _) => Some(WriteKind::Load),
        Effect::Stores { .. } => Some(WriteKind::Memory),
        Effect::Nothing => None,
    }
}
