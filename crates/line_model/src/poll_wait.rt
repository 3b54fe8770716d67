//! How long a poll lasts.

ghost use Rattle.std.specs.Prelude.{◌≡◌, Some};
ghost use Rattle.line_model.specs.Waiting.{LastsUntil};

/// How long it lasts at most, in milliseconds.
pub const LONGEST_POLL_MS: u32 = 100;

/// At most so many milliseconds, not past a deadline that isn't reached yet, and not past the last time that there is.
pub fn until(deadline: Option<u64>, now: u64, longest_ms: u32) -> u32
    ensures { LastsUntil longest_ms (λ time. deadline ≡ Some time) now result }
{
    let left = match deadline {
        Some(time) if now < time => time - now,
        _ => u64::MAX - now,
    };
    if left < u64::from(longest_ms) {
        left as u32
    } else {
        longest_ms
    }
}
