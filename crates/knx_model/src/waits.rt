//! Waits on a clock that counts milliseconds: whether one has passed, and when it will have.

ghost use Rattle.std.specs.Prelude.{◌≡◌};
ghost use Rattle.knx_model.specs.Connection.{has_passed, wait_end, earlier_time, nearer};

/// Whether a wait has passed that began at `since`.
pub fn has_passed(wait: u64, since: u64, now: u64) -> bool
    ensures { result ≡ has_passed wait since now }
{
    now.saturating_sub(since) >= wait
}

/// The time at which a wait has passed that began at `since`.
pub fn end_of(wait: u64, since: u64) -> u64
    ensures { result ≡ wait_end wait since }
{
    since.saturating_add(wait)
}

/// The nearer of two times.
pub fn earlier(one: u64, other: u64) -> u64
    ensures { result ≡ earlier_time one other }
{
    one.min(other)
}

/// The nearer of two times, where there are any.
pub fn nearer(one: Option<u64>, other: Option<u64>) -> Option<u64>
    ensures { result ≡ nearer one other }
{
    match (one, other) {
        (Some(one), Some(other)) => Some(one.min(other)),
        (Some(time), None) | (None, Some(time)) => Some(time),
        (None, None) => None,
    }
}
