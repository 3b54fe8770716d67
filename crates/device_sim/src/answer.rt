//! What a service is answered.

ghost use Rattle.std.specs.Prelude.{◌≡◌, ◌≤◌, IfSome, Some, None, ◌==◌, if◌then◌else◌};
ghost use Rattle.knx_model.specs.Apdu.{word, most_octets, IsApduInRange};
ghost use Rattle.knx_model.specs.ApduReading.{option_map};
ghost use Rattle.knx_model.specs.Device.{object_type, object_of_index, load_state, table_reference, property_value, property_response, where_one, greatest_length, reads_at_once, read_octets, whole, taken_over, effect_of, effect_in, answer, answer_in};
ghost use Rattle.knx_model.specs.Connection.{IsApdu};
ghost use Rattle.knx_model.specs.DeviceFrames.{worn_octets};
ghost use Rattle.device_sim.specs.Wear.{served_kept};

use crate::effect::{Effect, effect_of, is_load_control};
use crate::memory_map::object_of_index;
use crate::non_volatile::NonVolatile;
use crate::service::effect_in;
use crate::wear::Memory;
use apdu_frames::{service_in, service_octets};
use knx_model::{
    Apdu, ApduOctets, DEVICE_DESCRIPTOR, FrameSupport, LOAD_CONTROL, NO_DESCRIPTOR, TABLE_REFERENCE,
};

/// How many octets of memory a standard frame has room for.
const MOST_IN_STANDARD_FRAME: u8 = 12;

/// The property that tells the type of an object.
const OBJECT_TYPE: u8 = 1;

/// The property of the device that tells the greatest length of an APDU.
const GREATEST_LENGTH: u8 = 56;

fn word_octets(n: u16) -> ApduOctets
    ensures { result ≡ word n }
{
    ApduOctets::from_slice(&n.to_be_bytes())
}

/// The type of the object of an index: device, address table, association table, group objects, application.
fn object_type(index: u8) -> Option<u16>
    ensures { result ≡ object_type index }
{
    match index {
        0 => Some(0),
        1 => Some(1),
        2 => Some(2),
        3 => Some(9),
        4 => Some(3),
        _ => None,
    }
}

/// The greatest length of an APDU, in octets without the first.
fn greatest_length(frames: FrameSupport) -> u16
    ensures { result ≡ greatest_length frames }
{
    match frames {
        FrameSupport::Standard => 0x0F,
        FrameSupport::Extended => 0x3F,
    }
}

/// Whether so many octets of memory can be read at once.
fn reads_at_once(frames: FrameSupport, count: u8) -> bool
    ensures { result ≡ reads_at_once frames count }
{
    match frames {
        FrameSupport::Standard => count <= MOST_IN_STANDARD_FRAME,
        FrameSupport::Extended => true,
    }
}

/// The base of the object of an index, in four octets.
fn table_reference(index: u8) -> Option<ApduOctets>
    ensures { result ≡ option_map table_reference (object_of_index index) }
{
    let base = object_of_index(index)?.base();
    let mut octets = ApduOctets::from_slice(&[0, 0]);
    octets.extend(&base.to_be_bytes());
    Some(octets)
}

/// The device has a descriptor of type 0 alone.
fn descriptor(kind: u8) -> Apdu
    ensures value { result ≡ (if kind == 0 then Apdu.DescriptorResponse 0 (Some 0x07B0) else Apdu.DescriptorResponse 0x3F None) }
    ensures range { IsApduInRange result }
{
    if kind == 0 {
        Apdu::DescriptorResponse {
            kind: 0,
            value: Some(DEVICE_DESCRIPTOR),
        }
    } else {
        Apdu::DescriptorResponse {
            kind: NO_DESCRIPTOR,
            value: None,
        }
    }
}

fn property_response(object: u8, property: u8, start: u16, value: Option<ApduOctets>) -> Apdu
    ensures { result ≡ property_response object property start value }
{
    match value {
        Some(octets) => Apdu::PropertyResponse {
            object,
            property,
            count: 1,
            start,
            octets,
        },
        None => Apdu::PropertyResponse {
            object,
            property,
            count: 0,
            start,
            octets: ApduOctets::new(),
        },
    }
}

impl NonVolatile {
    /// The load state of the object of an index.
    fn load_state(&self, index: u8) -> Option<ApduOctets>
        ensures { result ≡ option_map (load_state self.now) (object_of_index index) }
    {
        let object = object_of_index(index)?;
        let state = self.object(object).state();
        Some(ApduOctets::from_slice(&[state.number()]))
    }

    fn property_value(&self, frames: FrameSupport, index: u8, property: u8) -> Option<ApduOctets>
        ensures { result ≡ property_value frames self.now index property }
    {
        match property {
            OBJECT_TYPE => Some(word_octets(object_type(index)?)),
            LOAD_CONTROL => self.load_state(index),
            TABLE_REFERENCE => table_reference(index),
            GREATEST_LENGTH if index == 0 => Some(word_octets(greatest_length(frames))),
            _ => None,
        }
    }

    /// A property has one element, which is number 1.
    fn read_property(
        &self,
        frames: FrameSupport,
        index: u8,
        property: u8,
        count: u8,
        start: u16,
    ) -> Option<ApduOctets>
        ensures { result ≡ where_one count start (property_value frames self.now index property) }
    {
        if count == 1 && start == 1 {
            self.property_value(frames, index, property)
        } else {
            None
        }
    }

    /// So many octets from an address on; none where these don't lie within one segment, or are too many to be read at once.
    fn read_memory(&self, frames: FrameSupport, address: u16, count: u8) -> ApduOctets
        requires { count ≤ most_octets }
        ensures { result ≡ read_octets frames self.now address count }
    {
        if reads_at_once(frames, count) {
            ApduOctets::from_slice(self.range(address, count as usize))
        } else {
            ApduOctets::new()
        }
    }

    /// Takes the service that the octets ask for, with transport bits 0, and answers it. Octets that are no service do nothing.
    pub fn serve(
        &mut self,
        frames: FrameSupport,
        octets: &[u8],
        memory: Memory,
    ) -> Option<ApduOctets>
        ensures next { self.new ≡ served_kept self.old octets.now memory }
        ensures answer { result ≡ answer_in frames self.old octets.now }
        ensures apdu { IfSome result IsApdu }
    {
        match memory {
            Memory::Sound => self.serve_sound(frames, octets),
            Memory::Worn => self.serve_worn(frames, octets),
        }
    }

    #[tactic(auto, using(crate::proofs::Answers::answer_at_is))]
    fn serve_sound(&mut self, frames: FrameSupport, octets: &[u8]) -> Option<ApduOctets>
        ensures next { self.new ≡ whole self.old (effect_in octets.now) }
        ensures answer { result ≡ answer_in frames self.old octets.now }
        ensures apdu { IfSome result IsApdu }
    {
        let service = service_in(octets)?;
        let answer = self.take_service(frames, &service)?;
        Some(service_octets(answer))
    }

    #[tactic(auto, using(crate::proofs::Answers::stores_unanswered))]
    fn serve_worn(&mut self, frames: FrameSupport, octets: &[u8]) -> Option<ApduOctets>
        ensures next { self.new ≡ taken_over self.old (effect_in octets.now) (Some (worn_octets (effect_in octets.now))) }
        ensures answer { result ≡ answer_in frames self.old octets.now }
        ensures apdu { IfSome result IsApdu }
    {
        let effect = effect_in(octets);
        match &effect {
            Effect::Stores { .. } => {
                self.take_worn(&effect);
                None
            }
            Effect::Loads(_, _) => self.serve_sound(frames, octets),
            Effect::Nothing => self.serve_sound(frames, octets),
        }
    }

    /// Takes a service whole, and answers it.
    fn take_service(&mut self, frames: FrameSupport, apdu: &Apdu) -> Option<Apdu>
        requires { IsApduInRange apdu.now }
        ensures next { self.new ≡ whole self.old (effect_of apdu.now) }
        ensures answer { result ≡ answer frames self.old apdu.now }
        ensures range { IfSome result (λ response. IsApduInRange response) }
    {
        self.take(&effect_of(apdu));
        match apdu {
            Apdu::DescriptorRead(kind) => Some(descriptor(*kind)),
            Apdu::MemoryRead { count, address } => Some(Apdu::MemoryResponse {
                address: *address,
                octets: self.read_memory(frames, *address, *count),
            }),
            Apdu::PropertyRead {
                object,
                property,
                count,
                start,
            } => {
                let value = self.read_property(frames, *object, *property, *count, *start);
                Some(property_response(*object, *property, *start, value))
            }
            Apdu::PropertyWrite {
                object,
                property,
                count,
                start,
                octets,
            } => {
                let value = if is_load_control(*property, *count, *start, octets.as_slice()) {
                    self.load_state(*object)
                } else {
                    None
                };
                Some(property_response(*object, *property, *start, value))
            }
            _ => None,
        }
    }
}
