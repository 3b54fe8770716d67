//! The queue, and its calls.

ghost use Rattle.std.specs.Prelude.{◌≡◌, ◌+◌, ◌<◌, ◌≤◌, length, OnOk, OnErr, IfOk, IfErr, IfSome, IfNone};
ghost use mathlib.Core.List.{IsPrefix};
ghost use Rattle.telegram_router.specs.Ends.{first_feed, first_ear, with_pushed, with_popped, with_feed, IsInOrder, HasHeardAll, WereWaiting};

use crate::ends::{Ear, Feed};
use crate::full::Full;
use crate::rule::{Ends, InOrder, Pop, Push};
use crate::view::View;
use crossbeam_queue::RuledArrayQueue;
use knx_model::NoMemory;
use line_model::Indication;
use std::alloc::Global;
use std::marker::Model;
use std::sync::Wait;

/// How many indications may wait.
const PLACES: usize = 4096;

/// A queue of indications between two threads.
#[derive(Drop)]
pub struct Router {
    queue: RuledArrayQueue<Indication, View<Indication>, InOrder>,
}

impl Model for Router {
    ghost use Rattle.std.specs.Prelude.{◌≡◌};
    ghost use Rattle.atomic_table.specs.Seated.{TableId, table_id_coded};

    ghost Value = { TableId };

    ghost coded = { table_id_coded };

    ghost view = { λ router. router.queue.table.shared.table_id };

    ghost invariant = { λ router. router.queue.cap ≡ 4096 };
}

impl Router {
    /// An empty queue and its two ends. It takes all memory that its calls need.
    pub fn new(alloc: Global) -> Result<(Router, Feed, Ear), NoMemory>
        ensures feed { IfOk result (λ made. made.1 ≡ first_feed made.0) }
        ensures ear { IfOk result (λ made. made.2 ≡ first_ear made.0) }
    {
        let (queue, mut feed) = RuledArrayQueue::ruled(alloc, PLACES)?;
        let ear = queue.another::<Ends>(&mut feed);
        Ok((Router { queue }, Feed { pass: feed }, Ear { pass: ear }))
    }

    /// Pushes an indication. Full exactly where 4,096 waited at the push's step.
    pub fn push<R: Wait>(&self, rt: &R, feed: &mut Feed, heard: Indication) -> Result<(), Full>
        requires { feed.old.router ≡ self.now }

        // At the step of a push that went in, `feed.new.popped` had been popped, and of the others fewer than 4,096 waited.
        ensures pushed { OnOk result (feed.new ≡ with_pushed heard feed.new.popped feed.old) }
        ensures later { OnOk result (feed.old.popped ≤ feed.new.popped) }
        ensures room { OnOk result (length feed.old.put < feed.new.popped + 4096) }

        ensures full { OnErr result (WereWaiting 4096 feed.old) }
        ensures back { IfErr result (λ full. full.heard ≡ heard) }
        ensures same { OnErr result (feed.new ≡ feed.old) }
    {
        match self.queue.push_as::<Push, R>(rt, &mut feed.pass, heard) {
            Ok(()) => Ok(()),
            Err(heard) => Err(Full { heard }),
        }
    }

    /// Pops the next indication. Once the ear has the feed, there is none exactly where all that was pushed has been popped.
    pub fn pop<R: Wait>(&self, rt: &R, ear: &mut Ear) -> Option<Indication>
        requires { ear.old.router ≡ self.now }
        ensures popped { IfSome result (λ heard. ear.new ≡ with_popped heard ear.old) }
        ensures same { IfNone result (ear.new ≡ ear.old) }
        ensures in_order { IsInOrder ear.new }
        ensures all { IfNone result (HasHeardAll ear.old) }
    {
        self.queue.pop_as::<Pop, R>(rt, &mut ear.pass)
    }

    /// Takes the feed in. What was popped is the beginning of what was pushed, and no fewer than the feed was told.
    pub fn join(&self, ear: &mut Ear, feed: Feed)
        requires ear { ear.old.router ≡ self.now }
        requires feed { feed.router ≡ self.now }
        ensures joined { ear.new ≡ with_feed feed ear.old }
        ensures in_order { IsInOrder ear.new }
        ensures popped { feed.popped ≤ length ear.old.got }
    {
        let Feed { pass } = feed;
        self.queue.absorb::<Ends>(&mut ear.pass, pass);
        self.queue.learn_as::<Pop>(&mut ear.pass);
    }
}
