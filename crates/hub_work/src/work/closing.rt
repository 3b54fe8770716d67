//! How the work of a hub closes.

ghost use Rattle.std.specs.Prelude.{◌≡◌, is_some, Some};
ghost use Rattle.line_model.specs.Closing.{Closing as ClosingOfLine, Leaving};
ghost use Rattle.hub_work.specs.Closes.{after_datagram, Begins, GoesOnAs};

use super::Work;
use crate::closing::Closing;

impl Work {
    /// Whether the closing has begun.
    pub fn is_closing(&self) -> bool
        ensures { result ≡ is_some self.now.closing }
    {
        self.closing.is_some()
    }

    /// How far the closing is; where it hasn't begun, it begins at this time.
    pub fn closing_at(&mut self, now: u64) -> Closing
        ensures is { self.new.closing ≡ Some result }
        ensures begins { Begins now self.old.closing self.new.closing }
        ensures rest { self.new ≡ record self.old { closing = self.new.closing } }
    {
        match self.closing {
            Some(closing) => closing,
            None => {
                let closing = Closing::begin(now);
                self.closing = Some(closing);
                closing
            }
        }
    }

    /// A datagram was got: a closing that has begun goes on with it.
    pub fn got(&mut self, now: u64)
        ensures closing { GoesOnAs (after_datagram now) self.old.closing self.new.closing }
        ensures rest { self.new ≡ record self.old { closing = self.new.closing } }
    {
        let Some(closing) = self.closing else {
            return;
        };
        self.closing = Some(closing.got(now));
    }

    /// The gateway was asked to end the channel: a closing that has begun waits for the answer from this time on.
    pub fn asked_to_leave(&mut self, now: u64)
        ensures closing { GoesOnAs (λ (c : ClosingOfLine). Leaving now 0) self.old.closing self.new.closing }
        ensures rest { self.new ≡ record self.old { closing = self.new.closing } }
    {
        if self.closing.is_none() {
            return;
        }
        self.closing = Some(Closing::asked(now));
    }
}
