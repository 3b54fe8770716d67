//! The laws of the gateway's end (ISO 22510, Core and Tunnelling).

ghost use Rattle.std.specs.Prelude.{◌≡◌, ◌≢◌, ℕ, ◌+◌, ◌<◌, ◌%◌, ◌↔◌, false, List, length, Option, Some, None};
ghost use Rattle.knx_model.specs.declared.address.IndAddr.{IndAddr as Address};
ghost use Rattle.knx_model.specs.declared.frames.ip.IpFrame.{IpFrame as Frame};
ghost use Rattle.knx_model.specs.declared.frames.ip.IpFrame.TheVariants.{ConnectRequest, ConnectResponse, DisconnectRequest, DisconnectResponse, TunnellingRequest, TunnellingAck};
ghost use Rattle.knx_model.specs.Connection.{last_time};
ghost use Rattle.knx_model.specs.ConnectionLaws.{Reached};
ghost use Rattle.line_model.specs.Gateway.{Gateway, Channel, Request, Nothing, Repeat, Closing, at_rest, number_of, next_number, is_of, names, hears, new_channel, gateway_took, gateway_expired, channel_expired};
ghost use Rattle.line_model.specs.GatewayEnd.{GatewayEnd, IsEnd, end_of, gateway_of, told, after_due, channel_deadline};
ghost use Rattle.line_model.specs.Tunnel.{Tunnel, Mode, MayHappen, Repeat as RepeatEvent, Close as CloseEvent, after, repeated, sends_down, with_gateway};

/// Every end is that of a gateway.
pub fn every_end_is_a_gateways()
    ensures { (e : GatewayEnd) → IsEnd e → end_of (gateway_of e) ≡ e }
{}

/// Gateways with the same end answer each frame alike, and have the same end afterwards: what an end answers doesn't depend on which of
/// them it stands for.
pub fn gateways_of_one_end_answer_alike()
    ensures answer { (g h : Gateway) (from now : ℕ) (frame : Frame) → end_of g ≡ end_of h → told (gateway_took g from now frame) ≡ told (gateway_took h from now frame) }
    ensures next { (g h : Gateway) (from now : ℕ) (frame : Frame) → end_of g ≡ end_of h → end_of (gateway_took g from now frame).after ≡ end_of (gateway_took h from now frame).after }
{}

/// The gateway acts exactly on a request of the open channel's endpoint with the channel's number and the expected one, and acknowledges it.
#[tactic(auto, unfolding(line_model::specs::Gateway::gateway_took))]
pub fn acts_on_the_expected_number()
    ensures only { (g : Gateway) (from now : ℕ) (frame : Frame) (cemi : List ℕ) → (gateway_took g from now frame).acted ≡ Some cemi
        → (c : Channel) × (g.channel ≡ Some c) × (c.endpoint ≡ from) × (frame ≡ TunnellingRequest c.number c.expected cemi) }
    ensures each { (g : Gateway) (c : Channel) (now : ℕ) (cemi : List ℕ) → g.channel ≡ Some c → (gateway_took g c.endpoint now (TunnellingRequest c.number c.expected cemi)).acted ≡ Some cemi }
    ensures acknowledges { (g : Gateway) (c : Channel) (now : ℕ) (cemi : List ℕ) → g.channel ≡ Some c
        → (gateway_took g c.endpoint now (TunnellingRequest c.number c.expected cemi)).send ≡ Some (TunnellingAck c.number c.expected 0) }
{}

/// The number before the expected one is acknowledged too. A request with another number, of another channel or of another endpoint isn't
/// answered.
#[tactic(auto, unfolding(line_model::specs::Gateway::gateway_took))]
pub fn acknowledges_the_number_before()
    ensures before { (g : Gateway) (c : Channel) (number now : ℕ) (cemi : List ℕ) → number < 256 → g.channel ≡ Some c → next_number number ≡ c.expected
        → (gateway_took g c.endpoint now (TunnellingRequest c.number number cemi)).send ≡ Some (TunnellingAck c.number number 0) }
    ensures another { (g : Gateway) (c : Channel) (number now : ℕ) (cemi : List ℕ) → g.channel ≡ Some c → number ≢ c.expected → next_number number ≢ c.expected
        → (gateway_took g c.endpoint now (TunnellingRequest c.number number cemi)).send ≡ None }
    ensures strange { (g : Gateway) (from channel number now : ℕ) (cemi : List ℕ) → names from channel g.channel ≡ false
        → (gateway_took g from now (TunnellingRequest channel number cemi)).send ≡ None }
{}

/// A request that comes once more is acknowledged once more and not acted on.
#[tactic(auto, unfolding(line_model::specs::Gateway::gateway_took))]
pub fn acts_once()
    ensures sends { (g : Gateway) (c : Channel) (now later : ℕ) (cemi : List ℕ) → c.expected < 256 → g.channel ≡ Some c
        → (gateway_took (gateway_took g c.endpoint now (TunnellingRequest c.number c.expected cemi)).after c.endpoint later (TunnellingRequest c.number c.expected cemi)).send
        ≡ Some (TunnellingAck c.number c.expected 0) }
    ensures acts { (g : Gateway) (c : Channel) (now later : ℕ) (cemi : List ℕ) → c.expected < 256 → g.channel ≡ Some c
        → (gateway_took (gateway_took g c.endpoint now (TunnellingRequest c.number c.expected cemi)).after c.endpoint later (TunnellingRequest c.number c.expected cemi)).acted ≡ None }
{}

/// A connect request of the open channel's endpoint is answered with that channel, and changes nothing but when its client was heard. Any
/// other is answered with the next channel and opens it, with both counters 0.
#[tactic(auto, unfolding(line_model::specs::Gateway::gateway_took))]
pub fn keeps_the_channel_of_its_client()
    ensures answer { (g : Gateway) (c : Channel) (now : ℕ) → g.channel ≡ Some c → (gateway_took g c.endpoint now ConnectRequest).send ≡ Some (ConnectResponse c.number 0 (Some g.tunnel)) }
    ensures next { (g : Gateway) (c : Channel) (now : ℕ) → g.channel ≡ Some c → (gateway_took g c.endpoint now ConnectRequest).after ≡ record g { channel = Some (record c { heard = now }) } }
    ensures another_answer { (g : Gateway) (from now : ℕ) → is_of from g.channel ≡ false → (gateway_took g from now ConnectRequest).send ≡ Some (ConnectResponse (number_of (length g.makers)) 0 (Some g.tunnel)) }
    ensures another { (g : Gateway) (from now : ℕ) → is_of from g.channel ≡ false → (gateway_took g from now ConnectRequest).after.channel ≡ Some (new_channel from (number_of (length g.makers)) now) }
{}

/// A disconnect request of no open channel is answered with status 21 (hexadecimal), and changes nothing but when the client was heard.
#[tactic(auto, unfolding(line_model::specs::Gateway::gateway_took))]
pub fn tells_that_there_is_no_such_channel()
    ensures answer { (g : Gateway) (from channel now : ℕ) → names from channel g.channel ≡ false → (gateway_took g from now (DisconnectRequest channel)).send ≡ Some (DisconnectResponse channel 0x21) }
    ensures next { (g : Gateway) (from channel now : ℕ) → names from channel g.channel ≡ false → (gateway_took g from now (DisconnectRequest channel)).after ≡ record g { channel = hears g.channel from now } }
{}

/// Channels have the numbers 1 to 255, one after another, and then 1 again.
#[tactic(auto, unfolding(line_model::specs::Gateway::gateway_took))]
pub fn channels_have_numbers_from_1_to_255()
    ensures first { (tunnel : Address) → IsEnd (end_of (at_rest tunnel)) }
    ensures stay { (g : Gateway) (from now : ℕ) (frame : Frame) → IsEnd (end_of g) → IsEnd (end_of (gateway_took g from now frame).after) }
    ensures following { (g : Gateway) (from now : ℕ) → is_of from g.channel ≡ false → (end_of (gateway_took g from now ConnectRequest).after).next ≡ 1 + (end_of g).next % 255 }
{}

/// A request that was sent again isn't sent a third time.
pub fn repeats_once()
    ensures { (c : Channel) (r : Request) (now later : ℕ) (frame : Frame) → channel_expired (Some (repeated c r now)) later ≢ Repeat frame }
{}

/// Below the last time something is due exactly where the deadline is reached.
pub fn deadline_is_nearest()
    ensures { (channel : Option Channel) (now : ℕ) → now < last_time → Reached (channel_deadline channel) now ↔ (channel_expired channel now ≢ Nothing) }
{}

/// What becomes due is an event of the tunnel that may happen then: the gateway sends its request again, or closes its channel.
#[tactic(auto, unfolding(line_model::specs::Gateway::gateway_expired))]
pub fn what_is_due_happens_in_the_tunnel()
    ensures may_repeat { (mode : Mode) (t : Tunnel) (frame : Frame) → gateway_expired t.gateway t.now ≡ Repeat frame → MayHappen mode t RepeatEvent }
    ensures may_close { (mode : Mode) (t : Tunnel) (frame : Frame) → gateway_expired t.gateway t.now ≡ Closing frame → MayHappen mode t CloseEvent }
    ensures repeats { (t : Tunnel) (c : Channel) (frame : Frame) → t.gateway.channel ≡ Some c → gateway_expired t.gateway t.now ≡ Repeat frame
        → after t RepeatEvent ≡ sends_down (with_gateway t (after_due t.gateway t.now (Repeat frame))) c.endpoint frame }
    ensures closes { (t : Tunnel) (c : Channel) (frame : Frame) → t.gateway.channel ≡ Some c → gateway_expired t.gateway t.now ≡ Closing frame
        → after t CloseEvent ≡ sends_down (with_gateway t (after_due t.gateway t.now (Closing frame))) c.endpoint frame }
{}
