//! The laws of both ends (ISO/IEC 14543-3-2, transport layer).

ghost use Rattle.std.specs.Prelude.{◌≡◌, ◌≢◌, ℕ, ◌+◌, ◌<◌, ◌⊎◌, List, Bool, true, false, Option, Some, None, ◌↔◌};
ghost use Rattle.knx_model.specs.declared.address.IndAddr.{IndAddr as Address};
ghost use Rattle.knx_model.specs.declared.frames.tpdu.Apdu.{Apdu as Service};
ghost use Rattle.knx_model.specs.declared.frames.tpdu.Tpdu.TheVariants as tpdu;
ghost use Rattle.knx_model.specs.declared.connection.TransportFrame.{TransportFrame};
ghost use Rattle.knx_model.specs.declared.connection.TransportFrame.TheVariants.{Connect, Nak, Numbered, Other};
ghost use Rattle.knx_model.specs.declared.connection.DeviceTook.TheVariants as took;
ghost use Rattle.knx_model.specs.declared.connection.DeviceExpired.TheVariants as expired;
ghost use Rattle.knx_model.specs.declared.connection.ClientTook.TheVariants as heard;
ghost use Rattle.knx_model.specs.declared.connection.ClientExpired.TheVariants as over;
ghost use Rattle.knx_model.specs.Apdu.{Written};
ghost use Rattle.knx_model.specs.ApduReading.{apdu_octets};
ghost use Rattle.knx_model.specs.Connection.{Session, frame_in, numbered_data};
ghost use Rattle.knx_model.specs.DeviceConnection.{DeviceEnd as Device, Idle, IsDeviceEnd, device_took, device_after, device_answered, after_answer, device_expired, after_expiry, device_deadline};
ghost use Rattle.knx_model.specs.ClientConnection.{ClientEnd as Client, Asked, Up, IsClientEnd, after_confirmed, client_sent, after_send, client_took, client_after, client_expired, after_overdue, client_deadline};
ghost use Rattle.knx_model.specs.ConnectionLaws.{Carries, Reached, Delivers, Repeats, ClosesDevice, IsIdle, Hears, ClosesClient, AsksAgain, IsUnacknowledged, IsUnanswered, DeviceCall, ClientCall, IsOpen, HasSession, HasSameNumbers, HasDeviceCounted, HasClientCounted, DeviceCarries, ClientCarries, after_device_call, after_client_call, device_after_calls, client_after_calls, IsSentAtMostFourTimes, IsAskedAtMostFourTimes};

/// Octets that carry a frame are read as this frame, and octets that carry none as no frame.
pub fn frames_are_read()
    ensures read { (octets : List ℕ) (frame : TransportFrame) → Carries octets frame → frame_in octets ≡ frame }
    ensures carried { (octets : List ℕ) → (frame_in octets ≡ Other) ⊎ Carries octets (frame_in octets) }
{}

/// A service that is numbered here is the grammar's numbered data.
pub fn numbered_is_grammatical()
    ensures { (number : ℕ) (apdu : Service) → numbered_data number (apdu_octets apdu) ≡ Written (tpdu.Numbered number apdu) }
{}

/// A device's end delivers a service exactly where it comes from the partner with the expected number and no answer is outstanding.
pub fn delivers_exactly()
    ensures only { (e : Device) (from : Address) (frame : TransportFrame) (apdu ack : List ℕ) → device_took e from frame ≡ took.Apdu apdu ack → Delivers e from frame apdu ack }
    ensures each { (e : Device) (from : Address) (frame : TransportFrame) (apdu ack : List ℕ) → Delivers e from frame apdu ack → device_took e from frame ≡ took.Apdu apdu ack }
{}

/// The number that was just delivered is acknowledged again and isn't delivered again.
pub fn delivers_once()
    ensures { (e : Device) (from : Address) (number now : ℕ) (apdu other ack : List ℕ) → number < 16
        → device_took e from (Numbered number apdu) ≡ took.Apdu apdu ack
        → device_took (device_after e from now (took.Apdu apdu ack)) from (Numbered number other) ≡ took.Again ack }
{}

/// A T_NAK acts on nothing.
pub fn nak_is_ignored()
    ensures device { (e : Device) (from : Address) (number : ℕ) → device_took e from (Nak number) ≡ took.Dropped }
    ensures client { (e : Client) (number : ℕ) → client_took e (Nak number) ≡ heard.Dropped }
{}

/// A device's end sends again exactly an outstanding answer that was sent fewer than four times, after its wait.
pub fn repeats_exactly()
    ensures only { (e : Device) (now : ℕ) (frame : List ℕ) → device_expired e now ≡ expired.Repeat frame → Repeats e now frame }
    ensures each { (e : Device) (now : ℕ) (frame : List ℕ) → Repeats e now frame → device_expired e now ≡ expired.Repeat frame }
{}

/// A device's end closes the connection with a sender exactly at its T_Disconnect, at its T_ACK that is neither of the outstanding
/// number nor of the number before, at the T_Connect of another sender, and at numbered data where no connection is open.
pub fn device_closes_exactly()
    ensures only { (e : Device) (from : Address) (frame : TransportFrame) (answer : Option (List ℕ)) → device_took e from frame ≡ took.Closed answer → ClosesDevice e from frame answer }
    ensures each { (e : Device) (from : Address) (frame : TransportFrame) (answer : Option (List ℕ)) → ClosesDevice e from frame answer → device_took e from frame ≡ took.Closed answer }
{}

/// Of itself a device's end closes exactly an open connection in which 6,000 ms passed without a frame, by a T_Disconnect.
pub fn device_expires_exactly()
    ensures only { (e : Device) (now : ℕ) (answer : List ℕ) → device_expired e now ≡ expired.Closed answer → (answer ≡ Written tpdu.Disconnect) × IsIdle e now }
    ensures each { (e : Device) (now : ℕ) → IsIdle e now → device_expired e now ≡ expired.Closed (Written tpdu.Disconnect) }
{}

/// Below the greatest time something is due exactly where the deadline is reached.
pub fn deadline_is_nearest()
    ensures device { (e : Device) (now : ℕ) → now < 0xFFFFFFFFFFFFFFFF → Reached (device_deadline e) now ↔ (device_expired e now ≢ expired.Nothing) }
    ensures client { (e : Client) (now : ℕ) → now < 0xFFFFFFFFFFFFFFFF → Reached (client_deadline e) now ↔ (client_expired e now ≢ over.Nothing) }
{}

/// A client's end tells an answer exactly where its connection is up and the answer has the expected number.
pub fn hears_exactly()
    ensures only { (e : Client) (frame : TransportFrame) (apdu ack : List ℕ) → client_took e frame ≡ heard.Answer apdu ack → Hears e frame apdu ack }
    ensures each { (e : Client) (frame : TransportFrame) (apdu ack : List ℕ) → Hears e frame apdu ack → client_took e frame ≡ heard.Answer apdu ack }
{}

/// The number that was just told is acknowledged again and isn't told again.
pub fn hears_once()
    ensures { (e : Client) (number now : ℕ) (apdu other ack : List ℕ) → number < 16
        → client_took e (Numbered number apdu) ≡ heard.Answer apdu ack
        → client_took (client_after e now (heard.Answer apdu ack)) (Numbered number other) ≡ heard.Again ack }
{}

/// A client's end closes exactly at a T_Disconnect, and at a T_ACK that is neither of the outstanding number nor of the number before.
pub fn client_closes_exactly()
    ensures only { (e : Client) (frame : TransportFrame) (answer : Option (List ℕ)) → client_took e frame ≡ heard.Closed answer → ClosesClient e frame answer }
    ensures each { (e : Client) (frame : TransportFrame) (answer : Option (List ℕ)) → ClosesClient e frame answer → client_took e frame ≡ heard.Closed answer }
{}

/// A client's end sends again exactly a service that was sent fewer than four times, 3,000 ms after its last confirmation.
pub fn asks_again_exactly()
    ensures only { (e : Client) (now : ℕ) (frame : List ℕ) → client_expired e now ≡ over.Repeat frame → AsksAgain e now frame }
    ensures each { (e : Client) (now : ℕ) (frame : List ℕ) → AsksAgain e now frame → client_expired e now ≡ over.Repeat frame }
{}

/// A client's end is silent exactly after a service was sent four times without its T_ACK, or where an answer is awaited too long.
pub fn silent_exactly()
    ensures only { (e : Client) (now ms : ℕ) → client_expired e now ≡ over.Silent ms → ((ms ≡ 3000) × IsUnacknowledged e now) ⊎ ((ms ≡ 6000) × IsUnanswered e now) }
    ensures unacknowledged { (e : Client) (now : ℕ) → IsUnacknowledged e now → client_expired e now ≡ over.Silent 3000 }
    ensures unanswered { (e : Client) (now : ℕ) → IsUnanswered e now → client_expired e now ≡ over.Silent 6000 }
{}

/// Whatever calls come, at no moment was the outstanding frame of an end sent more than four times.
pub fn sent_at_most_four_times()
    ensures device { (calls : List DeviceCall) → IsSentAtMostFourTimes (device_after_calls calls) }
    ensures client { (device : Address) (calls : List ClientCall) → IsAskedAtMostFourTimes (client_after_calls device calls) }
{}

/// A T_Connect that is taken begins both numbers at 0, at either end; nothing else connects a device.
pub fn connects_anew()
    ensures device { (e : Device) (from : Address) (frame : TransportFrame) (now : ℕ) → device_took e from frame ≡ took.Connected
        → (frame ≡ Connect) × (device_after e from now took.Connected ≡ Idle (record { partner = from; expected = 0; number = 0; last = now })) }
    ensures client { (device : Address) (now : ℕ) → after_confirmed (Asked device) false now ≡ Up (record { partner = device; expected = 0; number = 0; last = now }) }
{}

/// While a connection stays open, each service that is delivered raises the expected number by one of four bits, each T_ACK of what is
/// outstanding raises the own number so, and no other frame changes either.
pub fn frames_count()
    ensures device { (e : Device) (from : Address) (frame : TransportFrame) (now : ℕ) (s t : Session) → IsOpen e s → IsOpen (device_after e from now (device_took e from frame)) t → HasDeviceCounted (device_took e from frame) s t }
    ensures client { (e : Client) (frame : TransportFrame) (now : ℕ) (s t : Session) → HasSession e s → HasSession (client_after e now (client_took e frame)) t → HasClientCounted (client_took e frame) s t }
{}

/// Nothing else changes the numbers of a connection that stays open: no service that is sent, no confirmation, no time.
pub fn other_calls_keep_numbers()
    ensures device_answers { (e : Device) (apdu : List ℕ) (now : ℕ) (s t : Session) → IsOpen e s → IsOpen (after_answer e apdu now) t → HasSameNumbers s t }
    ensures device_waits { (e : Device) (now : ℕ) (s t : Session) → IsOpen e s → IsOpen (after_expiry e now (device_expired e now)) t → HasSameNumbers s t }
    ensures client_confirms { (e : Client) (error : Bool) (now : ℕ) (s t : Session) → HasSession e s → HasSession (after_confirmed e error now) t → HasSameNumbers s t }
    ensures client_sends { (e : Client) (apdu : List ℕ) (now : ℕ) (s t : Session) → HasSession e s → HasSession (after_send e apdu now) t → HasSameNumbers s t }
    ensures client_waits { (e : Client) (now : ℕ) (s t : Session) → HasSession e s → HasSession (after_overdue e now (client_expired e now)) t → HasSameNumbers s t }
{}

/// Every call keeps the numbers of an end within four bits.
pub fn numbers_have_four_bits()
    ensures device { (e : Device) (call : DeviceCall) → IsDeviceEnd e → IsDeviceEnd (after_device_call e call) }
    ensures client { (e : Client) (call : ClientCall) → IsClientEnd e → IsClientEnd (after_client_call e call) }
{}

/// A service that is sent carries the own number, and so does what is outstanding after any call.
pub fn sent_carries_number()
    ensures device { (e : Device) (s : Session) (apdu frame : List ℕ) → IsOpen e s → device_answered e apdu ≡ Some frame → frame ≡ numbered_data s.number apdu }
    ensures client { (e : Client) (s : Session) (apdu frame : List ℕ) → HasSession e s → client_sent e apdu ≡ Some frame → frame ≡ numbered_data s.number apdu }
    ensures device_keeps { (e : Device) (call : DeviceCall) → DeviceCarries e → DeviceCarries (after_device_call e call) }
    ensures client_keeps { (e : Client) (call : ClientCall) → ClientCarries e → ClientCarries (after_client_call e call) }
{}
