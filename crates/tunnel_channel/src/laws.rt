//! The laws of the client's end (ISO 22510, Core and Tunnelling), each a function without a body whose contract is the law.

ghost use Rattle.std.specs.Prelude.{◌≡◌, ◌≢◌, ℕ, ◌<◌, ◌↔◌};
ghost use Rattle.knx_model.specs.Connection.{last_time};
ghost use Rattle.knx_model.specs.ConnectionLaws.{Reached};
ghost use Rattle.line_model.specs.declared.client_end.ChannelExpired.TheVariants as due;
ghost use Rattle.line_model.specs.ClientEnd.{ClientEnd, channel_expired, channel_deadline};
ghost use Rattle.tunnel_channel.specs.Follows.{QuietFollows, RenewalFollows, PollsAreCurrent, SendingsStayCurrent};

/// A poll that gets nothing, or a datagram that doesn't read, leaves the client's end knowing what the record says.
pub fn quiet_polls_change_nothing()
    ensures { QuietFollows }
{}

/// On a new endpoint there is no channel.
pub fn new_endpoints_have_no_channel()
    ensures { RenewalFollows }
{}

/// After a poll the record has come to its time: what has lapsed by then is lost there. A sending at that time leaves it so.
pub fn records_come_to_their_time()
    ensures polls { PollsAreCurrent }
    ensures sendings { SendingsStayCurrent }
{}

/// Something becomes due exactly when the deadline is reached.
pub fn deadline_is_nearest()
    ensures reached { (end : ClientEnd) (now : ℕ) → now < last_time → Reached (channel_deadline end) now ↔ (channel_expired end now ≢ due.Nothing) }
{}
