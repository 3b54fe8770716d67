//! Group telegrams.

ghost use Rattle.std.specs.Prelude.{◌≡◌, ℕ, ◌∷◌, ◌++◌, [], true, Some, IfOk, IfSome};
ghost use Rattle.knx_model.specs.Apdu.{IsValueInRange};
ghost use Rattle.knx_model.specs.Acts.{is_written, answerer};
ghost use Rattle.knx_model.specs.Device.{all_loaded, segments};
ghost use Rattle.knx_model.specs.DeviceState.{value_of};
ghost use Rattle.knx_model.specs.DeviceFrames.{Whole, takes, taken_group, telegram_acted, answered_by, response_octets, IsServiceInRange};
ghost use Rattle.device_tables.specs.Objects.{holds};
ghost use Rattle.device_sim.specs.Brought.{brought_to};

use crate::brought::Brought;
use crate::device::Device;
use crate::sending::frame_to_group;
use apdu_frames::{group_service_in, service_octets};
use device_tables::{Acts, object_in_table};
use knx_model::{
    Apdu, ApduOctets, GroupAddr, GroupService, Ldata, LoadableObject, NoMemory, Took, Value,
};
use std::alloc::Global;
use std::collections::VecDeque;

impl Device {
    /// The value of an object; None exactly where the device doesn't run or lacks the object.
    pub fn value(&self, object: u8) -> Option<Value>
        ensures value { result ≡ value_of self.now object }
        ensures range { IfSome result IsValueInRange }
    {
        if !self.runs() {
            return None;
        }
        let spec = object_in_table(self.kept.group_objects.octets(), object)?;
        Some(self.values.value(object, spec.size))
    }

    /// What a frame to a group would bring it, with the memory that this takes: what it takes of the frame, once `bring` is called.
    pub fn brought(&self, alloc: Global, frame: &Ldata) -> Result<Brought, NoMemory>
        requires { frame.now.group ≡ true }
        ensures { IfOk result (λ brought. (now : ℕ) → brought_to self.now frame.now brought ≡ takes self.now frame.now now Whole) }
    {
        match self.took(frame) {
            Took::Taken => self.telegram(alloc, frame),
            Took::NotMine | Took::TooLong | Took::Off => Ok(Brought::NotTaken),
        }
    }

    /// A frame to a group has come, and brings it this.
    pub fn bring(&mut self, frame: &Ldata, brought: Brought)
        ensures { self.new ≡ brought_to self.old frame.now brought }
    {
        match brought {
            Brought::NotTaken => {}
            Brought::Nothing => self.last = Some(frame.copied()),
            Brought::NewValues(values) => {
                self.values = values;
                self.last = Some(frame.copied());
            }
            Brought::Unsent(frames) => {
                self.unsent = frames;
                self.last = Some(frame.copied());
            }
        }
    }

    /// What a frame to a group brings it, where it takes the frame.
    pub(crate) fn telegram(&self, alloc: Global, frame: &Ldata) -> Result<Brought, NoMemory>
        ensures { IfOk result (λ brought. brought_to self.now frame.now brought ≡ record (taken_group self.now frame.now) { last = Some frame.now }) }
    {
        if !self.runs() {
            return Ok(Brought::Nothing);
        }
        let Some(service) = group_service_in(frame.tpdu.as_slice()) else {
            return Ok(Brought::Nothing);
        };
        self.told(alloc, frame, &service)
    }

    /// What a device that runs does at a telegram, by the index of its tables.
    fn acts(&self, group: GroupAddr, service: &GroupService) -> Acts
        requires { all_loaded self.now.kept ≡ true }
        ensures written { (o : ℕ) → holds result.written o ≡ is_written (segments self.now.kept) group.raw service.now o }
        ensures answers { result.answers ≡ answerer (segments self.now.kept) group.raw service.now }
    {
        let objs = self.kept.octets(LoadableObject::GroupObjects);
        self.index.acts(objs, group, service)
    }

    /// What a telegram brings a device that runs.
    fn told(
        &self,
        alloc: Global,
        frame: &Ldata,
        service: &GroupService,
    ) -> Result<Brought, NoMemory>
        requires runs { all_loaded self.now.kept ≡ true }
        requires service { IsServiceInRange service.now }
        ensures { IfOk result (λ brought. brought_to self.now frame.now brought
            ≡ record (telegram_acted self.now (segments self.now.kept) frame.now.destination service.now) { last = Some frame.now }) }
    {
        let group = GroupAddr {
            raw: frame.destination,
        };
        let acts = self.acts(group, service);
        match service {
            GroupService::Read => self.response(alloc, frame, group, acts.answers),
            GroupService::Write(value) | GroupService::Response(value) => Ok(Brought::NewValues(
                self.values.written(alloc, &acts.written, value)?,
            )),
        }
    }

    /// The value of the object that answers, where one does, waits to be sent as a response.
    fn response(
        &self,
        alloc: Global,
        frame: &Ldata,
        group: GroupAddr,
        object: Option<u8>,
    ) -> Result<Brought, NoMemory>
        ensures { IfOk result (λ brought. brought_to self.now frame.now brought ≡ record (answered_by self.now group.raw object) { last = Some frame.now }) }
    {
        let Some(object) = object else {
            return Ok(Brought::Nothing);
        };
        let Some(value) = self.value(object) else {
            return Ok(Brought::Nothing);
        };
        let answer = frame_to_group(self.address, group, response_octets(value));
        Ok(Brought::Unsent(with_frame(alloc, &self.unsent, answer)?))
    }
}

/// The same frames, and one behind them, as a queue of its own: the device stays as it is until all memory that a frame takes on the line
/// was given, and then the queue takes the place of the device's own without any.
fn with_frame(
    alloc: Global,
    frames: &VecDeque<Ldata>,
    last: Ldata,
) -> Result<VecDeque<Ldata>, NoMemory>
    ensures { IfOk result (λ all. all.items ≡ frames.now.items ++ last ∷ []) }
{
    let mut all = VecDeque::new(alloc);
    for place in 0..frames.len() {
        all.push_back(frames[place].copied())?;
    }
    all.push_back(last)?;
    Ok(all)
}

fn response_octets(value: Value) -> ApduOctets
    requires { IsValueInRange value }
    ensures { result ≡ response_octets value }
{
    service_octets(Apdu::GroupResponse(value))
}
