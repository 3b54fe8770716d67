//! The place in flight.

ghost use Rattle.std.specs.Prelude.{◌≡◌, Some, None, true, false};
ghost use Rattle.tunnel_link.specs.Kept.{none_in_flight, one_in_flight, confirmation_end, is_late};

/// How long a confirmation is awaited after its request was acknowledged, in milliseconds.
const CONFIRMATION_WAIT_MS: u64 = 3_000;

/// What the client knows of the request that it put last in its channel: when it was acknowledged, and whether it is confirmed. Before
/// the first one all is confirmed.
#[derive(Clone, Copy, Drop)]
pub struct Flight {
    pub acknowledged: Option<u64>,
    pub confirmed: bool,
}

impl Flight {
    /// No request was put.
    pub fn none() -> Flight
        ensures { result ≡ none_in_flight }
    {
        Flight {
            acknowledged: None,
            confirmed: true,
        }
    }

    /// A request was put.
    pub fn put() -> Flight
        ensures { result ≡ one_in_flight }
    {
        Flight {
            acknowledged: None,
            confirmed: false,
        }
    }

    /// Its acknowledgement came.
    pub fn acknowledged(self, now: u64) -> Flight
        ensures { result ≡ record self { acknowledged = Some now } }
    {
        Flight {
            acknowledged: Some(now),
            ..self
        }
    }

    /// Its confirmation came.
    pub fn confirmed(self) -> Flight
        ensures { result ≡ record self { confirmed = true } }
    {
        Flight {
            confirmed: true,
            ..self
        }
    }

    /// Whether the wait for its confirmation has passed.
    pub fn is_late(self, now: u64) -> bool
        ensures { result ≡ is_late self now }
    {
        match self.acknowledged {
            Some(since) if !self.confirmed => now.saturating_sub(since) >= CONFIRMATION_WAIT_MS,
            _ => false,
        }
    }

    /// When that wait has passed.
    pub fn deadline(self) -> Option<u64>
        ensures { result ≡ confirmation_end self.acknowledged self.confirmed }
    {
        match self.acknowledged {
            Some(since) if !self.confirmed => Some(since.saturating_add(CONFIRMATION_WAIT_MS)),
            _ => None,
        }
    }
}
