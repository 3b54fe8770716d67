//! The values of a device's group objects.

ghost use Rattle.std.specs.Prelude.{◌≡◌, ◌<◌, length, IfOk, IfSome, if◌then◌else◌};
ghost use Rattle.knx_model.specs.Apdu.{IsValueInRange};
ghost use Rattle.knx_model.specs.Acts.{zero_value};
ghost use Rattle.knx_model.specs.DeviceState.{slot, value_or_zero, written_values, zero_values};
ghost use Rattle.device_tables.specs.Objects.{holds};

use device_tables::{Objects, zero_value};
use knx_model::{NoMemory, Value};
use std::alloc::Global;
use std::marker::Model;

fn copied_slot(slot: &Option<Value>) -> Option<Value>
    ensures { result ≡ slot.now }
{
    Some(slot.as_ref()?.copied())
}

/// How many object numbers there are, from 0.
const OBJECTS: usize = 256;

/// What was written to each object number. It holds no slots where nothing was written, and takes memory only with the first value.
#[derive(Drop)]
pub struct Values {
    slots: Vec<Option<Value>>,
}

impl Model for Values {
    ghost use Rattle.std.specs.Prelude.{List, Option, ℕ, IfSome, map};
    ghost use Rattle.std.specs.List.{range_with_len};
    ghost use Rattle.knx_model.specs.declared.frames.value.Value.{Value as GroupValue};
    ghost use Rattle.knx_model.specs.Apdu.{IsValueInRange};
    ghost use Rattle.knx_model.specs.DeviceState.{slot};

    ghost Value = { List (Option GroupValue) };

    ghost view = { λ v. map (slot v.slots.items) (range_with_len 0 256) };

    ghost invariant = { λ v. (k : ℕ) → IfSome (slot v.slots.items k) IsValueInRange };
}

impl Values {
    /// All are zero. It takes no memory.
    #[tactic(auto, using(crate::proofs::Slots::no_slots))]
    pub fn zero(alloc: Global) -> Values
        ensures { result ≡ zero_values }
    {
        Values {
            slots: Vec::new(alloc),
        }
    }

    /// All become zero.
    #[tactic(auto, using(crate::proofs::Slots::no_slots))]
    pub fn reset(&mut self)
        ensures { self.new ≡ zero_values }
    {
        self.slots.clear();
    }

    /// What was written to an object.
    #[tactic(auto, using(crate::proofs::Slots::slot_of_padded))]
    fn slot(&self, object: usize) -> Option<Value>
        requires { object < 256 }
        ensures value { result ≡ slot self.now object }
        ensures range { IfSome result IsValueInRange }
    {
        if object < self.slots.len() {
            copied_slot(&self.slots[object])
        } else {
            None
        }
    }

    /// A law of the type: there is a slot for each object number. It does nothing.
    #[tactic(auto, using(crate::proofs::Slots::padded_length))]
    pub fn keeps(&self)
        ensures { length self.now ≡ 256 }
    {
        // The proof sees the slots once the field is read.
        let _ = &self.slots;
    }

    /// The value of an object of a size code.
    pub fn value(&self, object: u8, size: u8) -> Value
        ensures value { result ≡ value_or_zero (slot self.now object) size }
        ensures range { IsValueInRange result }
    {
        match self.slot(object as usize) {
            Some(value) => value,
            None => zero_value(size),
        }
    }

    /// The values after this one was written to these objects.
    #[tactic(auto, unfolding(knx_model::specs::DeviceState::written_values))]
    pub fn written(
        &self,
        alloc: Global,
        objects: &Objects,
        value: &Value,
    ) -> Result<Values, NoMemory>
        requires { IsValueInRange value.now }
        ensures { IfOk result (λ made. made ≡ written_values (λ o. holds objects.now o) value.now self.now) }
    {
        let mut slots = Vec::with_capacity(alloc, OBJECTS)?;
        for object in 0..OBJECTS {
            slots.push(self.slot_after(objects, value, object))?;
        }
        Ok(Values { slots })
    }

    fn slot_after(&self, objects: &Objects, value: &Value, object: usize) -> Option<Value>
        requires range { IsValueInRange value.now }
        requires object { object < 256 }
        ensures slot { result ≡ (if holds objects.now object then Some value.now else slot self.now object) }
        ensures range { IfSome result IsValueInRange }
    {
        if objects.has(object as u8) {
            Some(value.copied())
        } else {
            self.slot(object)
        }
    }
}
