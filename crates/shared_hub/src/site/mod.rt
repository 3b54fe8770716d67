//! A hub as it travels among its callers.

mod group;
mod poll;
mod worker;

ghost use Rattle.std.specs.Prelude.{◌≡◌, List};
ghost use Rattle.hub_work.specs.Books.{AreJobsOf};
ghost use Rattle.line_model.specs.Log.{IsLog, Job};
ghost use Rattle.shared_hub.specs.Sites.{IsOpening, SiteKeeps};
ghost use Rattle.shared_hub.specs.Watchers.{IsWatchedAt};
ghost use Rattle.telegram_router.specs.Ends.{first_feed};

use crate::item::Item;
use crate::relay::Relay;
use crate::watching::Watching;
use hub_core::Hub;
use line_model::{Link, Watcher};
use std::marker::Model;
use std::snapshot::Snapshot;
use telegram_router::Feed;
use turn_cell::Logged;

/// What a turn came to.
#[derive(Clone, Copy, Drop)]
pub enum Step {
    /// The worker holds this job from now on.
    Took(u32),
    /// A job has ended, or a group telegram is told.
    Told,
    /// Something was done.
    Moved,
    /// Nothing could be done before something comes, or before another caller's turn.
    Waits,
    /// Nothing is left for this caller.
    Ready,
    /// Nothing more is done on the link, for anybody.
    Failed,
}

/// What a site is made of, once no caller has a seat any more.
#[derive(Drop)]
pub struct Parts<L: Link, W: Watcher> {
    pub hub: Hub<L>,
    pub feed: Feed,
    pub watching: Watching<W>,
}

/// A hub as it travels among its callers, with the feed of the relay into which all goes that is heard, and with who watches.
#[derive(Drop)]
pub struct Site<L: Link, W: Watcher> {
    hub: Hub<L>,
    feed: Feed,
    watching: Watching<W>,
    /// The hub as it began.
    opening: Snapshot<Hub<L>>,
    /// The relay of the feed.
    relay: Snapshot<Relay>,
    /// Who watched as it began.
    watched: Snapshot<W>,
}

impl<L: Link, W: Watcher> Model for Site<L, W> {
    ghost use Rattle.shared_hub.specs.Sites.{SiteSeen, SiteKeeps};
    ghost use Rattle.shared_hub.specs.Watchers.{IsWatchedAt};

    ghost Value = { SiteSeen L W };

    ghost view = { λ s. record { hub = s.hub; feed = s.feed; watching = s.watching; opening = s.opening; relay = s.relay; watched = s.watched } };

    ghost invariant = { λ s. SiteKeeps L.story L.script L.faults s.hub s.opening.value s.feed s.relay.value × IsWatchedAt L.story s.hub s.hub.log (W.watch s.watched.value) s.watching };
}

impl<L: Link, W: Watcher> Logged for Site<L, W> {
    ghost use Rattle.std.specs.Prelude.{◌≡◌, ◌+◌, length};
    ghost use Rattle.shared_hub.specs.Sites.{items_of};

    type Entry = Item<L, W>;

    ghost list = { items_of };

    fn entries(&self) -> u64 {
        let told = self.hub.entries();
        if self.hub.fault().is_some() {
            told + 1
        } else {
            told
        }
    }
}

impl<L: Link, W: Watcher> Site<L, W> {
    /// A hub that begins, over whose link nothing was heard, the new feed of this relay, and who watches, who was told nothing of it yet.
    pub fn new(
        hub: Hub<L>,
        relay: &Relay,
        feed: Feed,
        watching: Watching<W>,
        watched: Snapshot<W>,
    ) -> Site<L, W>
        requires opening { IsOpening L.story hub }
        requires feed { feed ≡ first_feed relay.now }
        requires watched { IsWatchedAt L.story hub hub.log (W.watch watched.value) watching }
        ensures hub { result.hub ≡ hub }
        ensures opening { result.opening.value ≡ hub }
        ensures relay { result.relay.value ≡ relay.now }
        ensures watched { result.watched ≡ watched }
    {
        let opening = Snapshot::of(&hub);
        let relay = Snapshot::of(relay);
        Site {
            hub,
            feed,
            watching,
            opening,
            relay,
            watched,
        }
    }

    /// What its type keeps, and that the hub's log is one of its jobs and telegrams.
    pub(crate) fn keeps(&self)
        ensures form { (jobs : List Job) → AreJobsOf self.now.hub.devices jobs → IsLog jobs self.now.hub.turns (L.place self.now.hub.link) self.now.hub.log }
        ensures keeps { SiteKeeps L.story L.script L.faults self.now.hub self.now.opening.value self.now.feed self.now.relay.value }
    {
        self.hub.keeps();
    }

    /// The hub, the feed, and who watches.
    pub fn apart(self) -> Parts<L, W>
        ensures hub { result.hub ≡ self.hub }
        ensures feed { result.feed ≡ self.feed }
        ensures watching { result.watching ≡ self.watching }
        ensures keeps { SiteKeeps L.story L.script L.faults self.hub self.opening.value self.feed self.relay.value }
        ensures watches { IsWatchedAt L.story self.hub self.hub.log (W.watch self.watched.value) self.watching }
    {
        let Site {
            hub,
            feed,
            watching,
            opening: _,
            relay: _,
            watched: _,
        } = self;
        Parts {
            hub,
            feed,
            watching,
        }
    }
}
