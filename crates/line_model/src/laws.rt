//! Laws of the definitions, each a function without a body whose contract is the law.

ghost use Rattle.std.specs.Prelude.{◌≡◌, ◌≢◌, ◌⊎◌, ℕ, ◌+◌, ◌<◌, ◌≤◌, ◌++◌, [], ◌∷◌, List, Option, Some, None, length, slice_get, ◌↔◌, true, false, not};
ghost use Rattle.knx_model.specs.Cemi.{Reads as ReadsLdata};
ghost use Rattle.knx_model.specs.DeviceConnection.{Closed};
ghost use Rattle.knx_model.specs.ApduReading.{option_map};
ghost use Rattle.knx_model.specs.Device.{NonVolatile};
ghost use Rattle.knx_model.specs.DeviceFrames.{takes};
ghost use Rattle.knx_model.specs.DeviceSending.{pops, repeats, shut};
ghost use Rattle.knx_model.specs.DeviceState.{DeviceState, cut, framed, switched_on, zero_values};
ghost use Rattle.knx_model.specs.KnxNetIp.{Reads as ReadsDatagram};
ghost use Rattle.knx_model.specs.Meaning.{Installation, meaning};
ghost use Rattle.knx_model.specs.Promises.{StartOf};
ghost use Rattle.knx_model.specs.declared.config.Image.{Image};
ghost use Rattle.knx_model.specs.declared.device.FrameSupport.TheVariants.{Extended};
ghost use Rattle.knx_model.specs.declared.script.GroupService.{GroupService};
ghost use Rattle.knx_model.specs.declared.frames.cemi.Ldata.{Ldata};
ghost use Rattle.knx_model.specs.declared.frames.ip.IpFrame.{IpFrame};
ghost use Rattle.knx_model.specs.declared.frames.ip.IpFrame.TheVariants.{ConnectResponse, DisconnectRequest, DisconnectResponse, TunnellingAck};
ghost use Rattle.line_model.specs.Arrives.{arrives, taken_as};
ghost use Rattle.line_model.specs.Concerns.{Concerns, IsOwn};
ghost use Rattle.line_model.specs.ChannelLost.{Own, acknowledges, expected, is_lost};
ghost use Rattle.line_model.specs.Lapses.{IsLostSo};
ghost use Rattle.line_model.specs.Gateway.{Gateway, Channel, Request, Nothing, Closing, number_of, next_number, names, connects, took, answers, next_put, channel_expired, closed};
ghost use Rattle.line_model.specs.Legal.{DevicesAllow, IsLegal};
ghost use Rattle.line_model.specs.Lines.{Script, is_off, is_standard};
ghost use Rattle.line_model.specs.Network.{Sent, MayArrive, new_datagram};
ghost use Rattle.line_model.specs.Reading.{RequestFrame, AckFrame, datagram_in, ldata_in};
ghost use Rattle.line_model.specs.Record.{Entry, is_poll, record_of, tunnel_record};
ghost use Rattle.line_model.specs.Renews.{calls_for};
ghost use Rattle.line_model.specs.StartOf.{BeginsAs, frames_for, nothing_kept, powered};
ghost use Rattle.line_model.specs.Telegrams.{ActsByConfig, ActsByProject};
ghost use Rattle.line_model.specs.Tunnel.{Mode, IsLegal as IsLegalInTunnel, replay as tunnel_replay};
ghost use Rattle.line_model.specs.World.{World, Event, AtGateway, Cut, DevClose, DevRepeat, DevSend, On, now, takes_it, is_among, confirmation, step, replay, tunnel_events};

/// The frame that a datagram is, and the frame of the link layer that a request's octets are, are those that the octets read as.
pub fn frames_are_read()
    ensures datagrams { (octets : List ℕ) (frame : IpFrame) → (datagram_in octets ≡ Some frame) ↔ ReadsDatagram octets frame }
    ensures frames { (octets : List ℕ) (frame : Ldata) → (ldata_in octets ≡ Some frame) ↔ ReadsLdata octets frame }
{}

/// What the network delivers: a datagram with 127 younger ones may arrive and one with 128 may not, nor one that was delivered twice, nor one
/// since which 255 channels were made.
pub fn datagrams_arrive()
    ensures young { (made : ℕ) (younger older : List Sent) (octets : List ℕ) (endpoint : ℕ) → length younger ≡ 127 → MayArrive made (younger ++ new_datagram octets endpoint made ∷ older) 127 }
    ensures old { (made : ℕ) (sent : List Sent) (age : ℕ) → 128 ≤ age → ¬ MayArrive made sent age }
    ensures twice { (made : ℕ) (sent : List Sent) (age : ℕ) (s : Sent) → slice_get sent age ≡ Some s → 2 ≤ s.delivered → ¬ MayArrive made sent age }
    ensures late { (made : ℕ) (sent : List Sent) (age : ℕ) (s : Sent) → slice_get sent age ≡ Some s → s.made + 255 ≤ made → ¬ MayArrive made sent age }
{}

/// The number of a channel comes again after 255 channels, and not before; it is 1 to 255.
pub fn channel_numbers_come_again()
    ensures again { (place : ℕ) → number_of (place + 255) ≡ number_of place }
    ensures before { (place later : ℕ) → 0 < later → later < 255 → number_of (place + later) ≢ number_of place }
    ensures least { (place : ℕ) → 1 ≤ number_of place }
    ensures greatest { (place : ℕ) → number_of place ≤ 255 }
{}

/// The tunnel's part of a run of the line is a run of the tunnel, legal where the line's is, with the same record.
pub fn the_tunnel_runs_in_the_line()
    ensures runs { (start : World) (events : List Event) → (replay start events).tunnel ≡ tunnel_replay start.tunnel (tunnel_events start events) }
    ensures legal { (mode : Mode) (start : World) (events : List Event) → IsLegal mode start events → IsLegalInTunnel mode start.tunnel (tunnel_events start events) }
    ensures records { (start : World) (events : List Event) → record_of start events ≡ tunnel_record start.tunnel (tunnel_events start events) }
{}

/// The confirmation of a frame shows an error exactly where the frame is for one device that doesn't take it: it is lost for that device, or
/// there is no such device, or the device isn't one that takes it.
pub fn confirmations_are_true()
    ensures group { (w : World) (left_out : List ℕ) (frame : Ldata) → frame.group ≡ true → (confirmation w left_out frame).error ≡ false }
    ensures lost { (w : World) (left_out : List ℕ) (frame : Ldata) → frame.group ≡ false → is_among left_out frame.destination ≡ true → (confirmation w left_out frame).error ≡ true }
    ensures came { (w : World) (left_out : List ℕ) (frame : Ldata) → frame.group ≡ false → is_among left_out frame.destination ≡ false → (confirmation w left_out frame).error ≡ not (takes_it frame (w.devices frame.destination)) }
{}

/// A cut takes the device's connection, its power, its objects' values and its unsent frames, and leaves what it keeps.
pub fn a_cut_ends_the_connection()
    ensures closed { (w : World) (device : ℕ) (d : DeviceState) → (step w (Cut device)).devices device ≡ Some d → d.connection ≡ Closed }
    ensures stopped { (w : World) (device : ℕ) (d : DeviceState) → (step w (Cut device)).devices device ≡ Some d → d.power ≡ false }
    ensures kept { (w : World) (device : ℕ) (old d : DeviceState) → w.devices device ≡ Some old → (step w (Cut device)).devices device ≡ Some d → d.kept ≡ old.kept }
    ensures emptied { (w : World) (device : ℕ) (d : DeviceState) → (step w (Cut device)).devices device ≡ Some d → (d.values ≡ zero_values) × (d.unsent ≡ []) }
{}

/// A device to which power comes back has it. Without power before, it has no connection, no values and no unsent frames, and keeps what it kept; with
/// power it stays as it was.
pub fn power_comes_back()
    ensures power { (w : World) (device : ℕ) (d : DeviceState) → (step w (On device)).devices device ≡ Some d → d.power ≡ true }
    ensures emptied { (w : World) (device : ℕ) (old d : DeviceState) → w.devices device ≡ Some old → old.power ≡ false → (step w (On device)).devices device ≡ Some d → (d.kept ≡ old.kept) × (d.connection ≡ Closed) × (d.values ≡ zero_values) × (d.unsent ≡ []) }
    ensures same { (w : World) (device : ℕ) (old : DeviceState) → w.devices device ≡ Some old → old.power ≡ true → (step w (On device)).devices device ≡ Some old }
{}

/// A device that closes its connection has none, and keeps its values and all that it keeps without power.
pub fn a_device_closes_its_connection()
    ensures closed { (w : World) (device : ℕ) (d : DeviceState) → (step w (DevClose device)).devices device ≡ Some d → d.connection ≡ Closed }
    ensures values { (w : World) (device : ℕ) (old d : DeviceState) → w.devices device ≡ Some old → (step w (DevClose device)).devices device ≡ Some d → (d.kept ≡ old.kept) × (d.values ≡ old.values) }
{}

/// What reaches a device makes of it what it is after the event: a frame that comes to it is taken, in the way that the event says; one of its own that
/// it sends or repeats, a closing, a cut and power that comes back each change it so, and nothing else does.
pub fn a_device_changes_by_what_reaches_it()
    ensures nothing { (w : World) (device : ℕ) (e : Event) → DevicesAllow w e → arrives w device e ≡ None → ¬ IsOwn device e → (step w e).devices device ≡ w.devices device }
    ensures frame { (w : World) (device : ℕ) (e : Event) (frame : Ldata) → arrives w device e ≡ Some frame → (step w e).devices device ≡ option_map (λ d. takes d frame (now w) (taken_as e)) (w.devices device) }
    ensures sends { (w : World) (device : ℕ) (gateway : AtGateway) (left_out : List ℕ) → (step w (DevSend device gateway left_out)).devices device ≡ option_map pops (w.devices device) }
    ensures repeats { (w : World) (device : ℕ) (gateway : AtGateway) → (step w (DevRepeat device gateway)).devices device ≡ option_map (λ d. repeats d (now w)) (w.devices device) }
    ensures closes { (w : World) (device : ℕ) → (step w (DevClose device)).devices device ≡ option_map shut (w.devices device) }
    ensures cut { (w : World) (device : ℕ) → (step w (Cut device)).devices device ≡ option_map cut (w.devices device) }
    ensures on { (w : World) (device : ℕ) → (step w (On device)).devices device ≡ option_map switched_on (w.devices device) }
{}

/// A device changes only by a frame that comes to it, and by events of its own; one that sends keeps its values, and what it keeps without power.
pub fn what_comes_to_no_device_changes_none()
    ensures apart { (w : World) (device : ℕ) (e : Event) → DevicesAllow w e → ¬ Concerns w device e → (step w e).devices device ≡ w.devices device }
    ensures sender { (w : World) (device : ℕ) (gateway : AtGateway) (left_out : List ℕ) (old d : DeviceState) → w.devices device ≡ Some old → (step w (DevSend device gateway left_out)).devices device ≡ Some d → (d.kept ≡ old.kept) × (d.values ≡ old.values) }
{}

/// A device of the simulated line begins with power but where the script switches it off, and takes extended frames but where the script says that
/// it is a standard one. Where it is told what it kept, it keeps just that; else it is loaded or blank, as its old project says.
pub fn devices_begin_as_the_script_says()
    ensures power { (old : Installation) (script : Script) (device : ℕ) (had : Option NonVolatile) (d : DeviceState) → BeginsAs old script device had d → d.power ≡ not (is_off script device) }
    ensures frames { (old : Installation) (script : Script) (device : ℕ) (had : Option NonVolatile) (d : DeviceState) → BeginsAs old script device had d → d.frames ≡ frames_for (is_standard script device) }
    ensures kept { (old : Installation) (script : Script) (device : ℕ) (kept : NonVolatile) (d : DeviceState) → BeginsAs old script device (Some kept) d → (d.kept ≡ kept) × (d.address.raw ≡ device) }
    ensures loaded { (old : Installation) (script : Script) (device : ℕ) (d : DeviceState) → BeginsAs old script device (nothing_kept device) d → StartOf old (record { raw = device }) (framed Extended (powered true d)) }
{}

/// A device of which it is told what it kept acts by these octets only while it keeps them, and then by its new project alone; one of which nothing is
/// told acts by its old project or its new one.
pub fn a_device_acts_as_it_began_or_by_its_new_project()
    ensures told { (had : ℕ → Option NonVolatile) (before after : Installation) (group : ℕ) (service : GroupService) (image : Image) (kept : NonVolatile) (old new : DeviceState) → had old.address.raw ≡ Some kept → old.kept ≢ kept → ActsByProject had before after group (Some service) (Some image) old new → ActsByConfig (meaning after old.address) image group service old new }
    ensures untold { (before after : Installation) (group : ℕ) (service : GroupService) (image : Image) (old new : DeviceState) → ActsByProject nothing_kept before after group (Some service) (Some image) old new → ActsByConfig (meaning before old.address) image group service old new ⊎ ActsByConfig (meaning after old.address) image group service old new }
{}

/// The gateway answers another connect request of its client with the channel that is open, and puts no request while one is outstanding. It closes
/// when 120,000 ms have passed without a datagram of its client, not before, and what waits for the bus and for the client is dropped then. A
/// disconnect request of no open channel is answered with status 21 (hexadecimal).
pub fn a_gateway_keeps_its_channel()
    ensures same { (g : Gateway) (c : Channel) (now : ℕ) → connects g c.endpoint now (Some c) ≡ answers (ConnectResponse c.number 0 (Some g.tunnel)) g }
    ensures one { (c : Channel) (r : Request) (frames : List Ldata) → c.outstanding ≡ Some r → next_put (Some c) frames ≡ None }
    ensures waits { (c : Channel) (now : ℕ) → c.outstanding ≡ None → now < c.heard + 120000 → channel_expired (Some c) now ≡ Nothing }
    ensures closes { (c : Channel) (now : ℕ) → c.heard + 120000 ≤ now → channel_expired (Some c) now ≡ Closing (DisconnectRequest c.number) }
    ensures drops { (g : Gateway) (c : Channel) → g.channel ≡ Some c → ((closed g).bus ≡ []) × ((closed g).waiting ≡ []) }
    ensures unknown { (g : Gateway) (from now number : ℕ) → names from number g.channel ≡ false → took g from now (DisconnectRequest number) ≡ answers (DisconnectResponse number 0x21) g }
{}

/// The client's own acknowledgement is called for by a request with the number before the expected one too; that of the gateway counts only
/// with status 0.
pub fn a_client_counts_what_it_gets()
    ensures again { (c : ℕ) (l : List Entry) (r : RequestFrame) → r.channel ≡ c → next_number r.number ≡ expected c l → calls_for c l (Some r) ≡ Some (TunnellingAck r.channel r.number 0) }
    ensures agreed { (c : ℕ) (o : Own) (ack : AckFrame) → acknowledges c o (Some ack) ≡ true → ack.status ≡ 0 }
{}

/// The client's channel is lost exactly at a poll by which one of these holds: a disconnect request for it was got; an awaited state response with a
/// status other than 0 was got; the response to the client's own disconnect request was got; a request was sent twice and 1,000 ms passed after
/// each; 3,000 ms passed after an acknowledgement without the confirmation; three heartbeats in turn had 10,000 ms each.
pub fn a_channel_is_lost_in_its_ways()
    ensures { (c : ℕ) (l : List Entry) (x : Entry) → (is_lost c l x ≡ true) ↔ ((is_poll x.what ≡ true) × IsLostSo c l x) }
{}
