//! The laws of the device on the line (ISO/IEC 14543-3-2 and 3-1, transport and application layer): what a frame leaves of it.

ghost use Rattle.std.specs.Prelude.{◌≡◌, ◌<◌, ◌++◌, ◌∷◌, [], ℕ, List, Some, None, true, false, if◌then◌else◌};
ghost use Rattle.knx_model.specs.declared.config.Image.{Image};
ghost use Rattle.knx_model.specs.declared.connection.DeviceTook.TheVariants as said;
ghost use Rattle.knx_model.specs.declared.device.Took.TheVariants.{Taken};
ghost use Rattle.knx_model.specs.declared.device.WriteKind.TheVariants as kind;
ghost use Rattle.knx_model.specs.declared.frames.cemi.Ldata.{Ldata};
ghost use Rattle.knx_model.specs.declared.frames.value.Value.{Value};
ghost use Rattle.knx_model.specs.declared.loading.LoadEvent.{LoadEvent};
ghost use Rattle.knx_model.specs.declared.loading.LoadableObject.{LoadableObject};
ghost use Rattle.knx_model.specs.declared.script.GroupService.{GroupService};
ghost use Rattle.knx_model.specs.declared.script.GroupService.TheVariants as service;
ghost use Rattle.knx_model.specs.Acts.{is_written, answerer};
ghost use Rattle.knx_model.specs.ApduReading.{service_in};
ghost use Rattle.knx_model.specs.Device.{NonVolatile, Effect, Loads, Stores, HasCapacities, runs, effect_in};
ghost use Rattle.knx_model.specs.DeviceState.{DeviceState, IsDevice, same_states, zero_values, value_of};
ghost use Rattle.knx_model.specs.DeviceFrames.{Outcome, Whole, took_of, takes, kept_after, connection_took, group_service, effect_of_frame, would_write, own_frame, response_octets};
ghost use Rattle.device_sim.specs.Delivery.{Delivers, Joins, IsTelegram, carried};

/// A frame that the device doesn't take, since it has no power, or the frame is for another device alone or too long, changes nothing.
#[tactic(auto, using(crate::proofs::Taken::not_taken))]
pub fn what_is_not_taken_changes_nothing()
    ensures { (d : DeviceState) (frame : Ldata) (now : ℕ) (outcome : Outcome) → ¬ (took_of d frame ≡ Taken) → takes d frame now outcome ≡ d }
{}

/// However an effect is taken, each object's memory keeps the capacity of its segment.
pub fn capacities_stay()
    ensures { (nv : NonVolatile) (effect : Effect) (outcome : Outcome) → HasCapacities nv → HasCapacities (kept_after nv effect outcome) }
{}

/// A group telegram leaves what the device keeps without power, its power and its connection as they were.
pub fn group_telegrams_load_nothing()
    ensures kept { (d : DeviceState) (frame : Ldata) (now : ℕ) → frame.group ≡ true → (takes d frame now Whole).kept ≡ d.kept }
    ensures power { (d : DeviceState) (frame : Ldata) (now : ℕ) → frame.group ≡ true → (takes d frame now Whole).power ≡ d.power }
    ensures connection { (d : DeviceState) (frame : Ldata) (now : ℕ) → frame.group ≡ true → (takes d frame now Whole).connection ≡ d.connection }
{}

/// What the device keeps without power changes only where its connection delivers a service, and then as the effect of that
/// service says: whole, torn by a power cut, or over worn memory.
#[tactic(auto, using(crate::proofs::Leaving::delivered, crate::proofs::Leaving::undelivered))]
pub fn only_delivered_services_load()
    ensures delivered { (d : DeviceState) (frame : Ldata) (now : ℕ) (outcome : Outcome) (apdu : List ℕ) → Delivers d frame apdu → (takes d frame now outcome).kept ≡ kept_after d.kept (effect_in apdu) outcome }
    ensures undelivered { (d : DeviceState) (frame : Ldata) (now : ℕ) (outcome : Outcome) → ((apdu : List ℕ) → ¬ Delivers d frame apdu) → (takes d frame now outcome).kept ≡ d.kept }
{}

/// What `would_write` tells is what a frame then does: no write leaves all that is kept; a memory write stores octets, and a load
/// write is a load event, and what is kept becomes what that effect says.
pub fn writes_are_told()
    ensures none { (d : DeviceState) (frame : Ldata) (now : ℕ) → would_write d frame ≡ None → (takes d frame now Whole).kept ≡ d.kept }
    ensures kept { (d : DeviceState) (frame : Ldata) (now : ℕ) (outcome : Outcome) → (takes d frame now outcome).kept ≡ kept_after d.kept (effect_of_frame d frame) outcome }
    ensures memory { (d : DeviceState) (frame : Ldata) → would_write d frame ≡ Some kind.Memory → (address : ℕ) × ((octets : List ℕ) × (effect_of_frame d frame ≡ Stores address octets)) }
    ensures load { (d : DeviceState) (frame : Ldata) → would_write d frame ≡ Some kind.Load → (object : LoadableObject) × ((event : LoadEvent) × (effect_of_frame d frame ≡ Loads object event)) }
{}

/// A frame for the device alone leaves all values, but a change of a load state makes all zero.
#[tactic(auto, using(crate::proofs::Waiting::alone_values))]
pub fn load_states_zero_the_values()
    ensures { (d : DeviceState) (frame : Ldata) (now : ℕ) → frame.group ≡ false → (takes d frame now Whole).values ≡ (if same_states d.kept (takes d frame now Whole).kept then d.values else zero_values) }
{}

/// At a group service the value of an object becomes the one that the service carries exactly where the tables of the image that the
/// device runs say that it is written, and else stays. Where none is written, nothing of the device changes.
pub fn telegrams_write_by_the_tables()
    ensures value { (d : DeviceState) (frame : Ldata) (now : ℕ) (image : Image) (service : GroupService) (object : ℕ) → IsTelegram d frame image service → object < 256 → value_of (takes d frame now Whole) object ≡ (if is_written image frame.destination service object then carried service else value_of d object) }
    ensures none { (d : DeviceState) (frame : Ldata) (now : ℕ) (image : Image) (service : GroupService) (value : Value) → IsTelegram d frame image service → carried service ≡ Some value → IsDevice d → ((object : ℕ) → object < 256 → is_written image frame.destination service object ≡ false) → takes d frame now Whole ≡ record d { last = Some frame } }
    ensures stopped { (d : DeviceState) (frame : Ldata) (now : ℕ) → took_of d frame ≡ Taken → frame.group ≡ true → runs d.kept ≡ None → takes d frame now Whole ≡ record d { last = Some frame } }
{}

/// To a read the object that the tables say answers: its value joins the frames that wait as a response, and nothing else changes.
pub fn reads_are_answered_by_the_tables()
    ensures none { (d : DeviceState) (frame : Ldata) (now : ℕ) (image : Image) → IsTelegram d frame image service.Read → answerer image frame.destination service.Read ≡ None → takes d frame now Whole ≡ record d { last = Some frame } }
    ensures answered { (d : DeviceState) (frame : Ldata) (now : ℕ) (image : Image) (object : ℕ) (value : Value) → IsTelegram d frame image service.Read → answerer image frame.destination service.Read ≡ Some object → value_of d object ≡ Some value → takes d frame now Whole ≡ record d { unsent = d.unsent ++ own_frame d.address true frame.destination (response_octets value) ∷ []; last = Some frame } }
{}

/// Frames that wait keep their order: what a frame makes the device send joins behind them, but T_Connect drops them all.
pub fn waiting_frames_keep_their_order()
    ensures joins { (d : DeviceState) (frame : Ldata) (now : ℕ) → ¬ ((frame.group ≡ false) × (connection_took d frame ≡ said.Connected)) → Joins d.unsent (takes d frame now Whole).unsent }
    ensures dropped { (d : DeviceState) (frame : Ldata) (now : ℕ) → took_of d frame ≡ Taken → frame.group ≡ false → connection_took d frame ≡ said.Connected → (takes d frame now Whole).unsent ≡ [] }
{}
