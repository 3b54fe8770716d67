//! Runs that compute.

ghost use Rattle.std.specs.Prelude.{◌≡◌, [], ◌∷◌, true};
ghost use Rattle.knx_model.specs.ClientConnection.{Up};
ghost use Rattle.knx_model.specs.Device.{NonVolatile};
ghost use Rattle.session_law.specs.Events.{replay, IsLegal};
ghost use Rattle.session_law.specs.Promises.{InOrder};
ghost use Rattle.session_law.specs.Runs.{start, lossy, descriptor_read, descriptor_response, unconfirmed, hasty};

/// A descriptor is read over a connection in which T_Connect, T_ACKs and the answer are lost and come again, and then the device loses its power: the
/// service was delivered once, and its answer accepted once.
pub fn a_descriptor_is_read_through_losses()
    ensures legal { (kept : NonVolatile) → IsLegal (start kept) lossy }
    ensures delivered { (kept : NonVolatile) → (replay (start kept) lossy).delivered ≡ descriptor_read ∷ [] }
    ensures accepted { (kept : NonVolatile) → (replay (start kept) lossy).client.accepted ≡ descriptor_response ∷ [] }
    ensures up { (kept : NonVolatile) → (replay (start kept) lossy).client.end ≡ Up (record { partner = record { raw = 0x1105 }; expected = 1; number = 1; last = 3000 }) }
{}

/// A client that puts a T_Connect while the confirmation of its last frame is still to come may take that for the T_Connect's own, and then a service
/// that it sends isn't delivered and the next one is: that it puts one frame at a time can't be left out.
pub fn one_frame_at_a_time()
    ensures legal { (kept : NonVolatile) → IsLegal (start kept) unconfirmed }
    ensures pending { (kept : NonVolatile) → (replay (start kept) unconfirmed).client.pending ≡ true }
    ensures not_in_order { (kept : NonVolatile) → ¬ InOrder (replay (start kept) hasty) }
{}
