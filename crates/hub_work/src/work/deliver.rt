//! What comes for the jobs and the group telegrams.

ghost use Rattle.std.specs.Prelude.{◌≡◌, ◌==◌, ◌&&◌, Some, ℕ};
ghost use Rattle.line_model.specs.ClientView.{Loses, indication_of};
ghost use Rattle.hub_work.specs.Follows.{FrameFollows, LossFollows};
ghost use Rattle.hub_work.specs.Books.{held_at};
ghost use Rattle.hub_work.specs.Came.{RisesWhere};
ghost use Rattle.hub_work.specs.CameFor.{Comes, ComesFrom, Counts, CountsFrame, IsConfirmed, LossComes, is_connect, runs, runs_at};
ghost use Rattle.hub_work.specs.Comes.{ConfirmationFollows, HearingFollows, lost_for};
ghost use Rattle.hub_work.specs.Crew.{holdings};
ghost use Rattle.hub_work.specs.Downloaders.{states};
ghost use Rattle.hub_work.specs.Polls.{next_of_job};
ghost use Rattle.hub_work.specs.Works.{SameBooks};

use super::{Sender, Work};
use crate::laws::of_a_downloader;
use crate::requests::indication_of;
use download_core::Did;
use knx_model::{IndAddr, Ldata, LdataCode};
use line_model::Indication;
use std::mem;

impl Work {
    /// A frame came. A group telegram that it tells of is given.
    pub fn deliver(&mut self, frame: &Ldata, now: u64) -> Option<Indication>
        ensures heard { result ≡ indication_of (Some frame.now) }
        ensures books { SameBooks self.old self.new }
        ensures follows { FrameFollows self.old self.new frame.now now }
        ensures came { Comes frame.now self.old self.new.crew }
        ensures counts { CountsFrame self.old self.new.crew frame.now }
    {
        of_a_downloader();
        match frame.code {
            LdataCode::Con => self.confirmed(frame.error, now),
            LdataCode::Ind if !frame.group => self.heard(frame, now),
            LdataCode::Ind => {}
            LdataCode::Req => {}
        }
        indication_of(frame)
    }

    /// The confirmation of the request that was put last came.
    fn confirmed(&mut self, error: bool, now: u64)
        ensures books { SameBooks self.old self.new }
        ensures follows { ConfirmationFollows self.old self.new error now }
        ensures came { IsConfirmed self.old.sender self.old.crew self.new.crew }
    {
        of_a_downloader();
        match mem::replace(&mut self.sender, Sender::Nobody) {
            Sender::Nobody => {}
            Sender::GroupThread => self.telegrams.confirmed(),
            Sender::Worker(worker) => {
                if let Some(held) = self.crew.held(worker) {
                    self.downloaders.confirmed(held.job, error, now);
                    self.crew.came(worker);
                }
            }
        }
    }

    /// A frame of a device came.
    fn heard(&mut self, frame: &Ldata, now: u64)
        ensures books { SameBooks self.old self.new }
        ensures follows { HearingFollows self.old self.new frame.now now }
        ensures came { ComesFrom (record { raw = frame.now.source }) self.old.crew self.new.crew }
    {
        of_a_downloader();
        let device = IndAddr { raw: frame.source };
        if let Some(place) = self.crew.of_device(device) {
            if let Some(held) = self.crew.at(place) {
                self.downloaders.take(held.job, frame.tpdu.as_slice(), now);
                self.crew.came_at(place);
            }
        }
    }

    /// The channel was lost.
    pub fn lost(&mut self, now: u64)
        ensures books { SameBooks self.old self.new }
        ensures follows { (then : ℕ) → LossFollows self.old self.new then }
        ensures came { LossComes now self.old self.new.crew }
        ensures counts { Counts self.old self.new.crew Loses }
    {
        of_a_downloader();
        self.sender = Sender::Nobody;
        self.telegrams.lost();
        for place in 0..self.crew.len() {
            self.lost_for(place, now);
        }
    }

    /// The channel was lost for the worker at a place, from 0.
    fn lost_for(&mut self, place: usize, now: u64)
        ensures books { SameBooks self.old self.new }
        ensures lost { states self.new.downloaders ≡ lost_for (held_at self.old.crew place) (states self.old.downloaders) }
        ensures held { holdings self.new.crew ≡ holdings self.old.crew }
        ensures came { RisesWhere (λ other. (other == place) && runs_at self.old now other) self.old.crew self.new.crew }
        ensures telegrams { self.new.telegrams ≡ self.old.telegrams }
        ensures sender { self.new.sender ≡ self.old.sender }
    {
        let Some(held) = self.crew.at(place) else {
            return;
        };
        let ran = self.runs(held.job, now);
        self.downloaders.lost(held.job);
        if ran {
            self.crew.came_at(place);
        }
    }

    /// Whether an attempt of a job runs.
    fn runs(&self, job: u32, now: u64) -> bool
        ensures { result ≡ runs (next_of_job (states self.now.downloaders) now job) }
    {
        match self.downloaders.next(job, now) {
            Some(Did::Wait) => true,
            Some(Did::Send(tpdu)) => !is_connect(tpdu.as_slice()),
            Some(Did::Done | Did::Failed { .. } | Did::Refused { .. }) | None => false,
        }
    }
}

/// Whether a TPDU is a T_Connect (ISO/IEC 14543-3-2, transport layer).
fn is_connect(tpdu: &[u8]) -> bool
    ensures { result ≡ is_connect tpdu.now }
{
    matches!(tpdu, [0x80])
}
