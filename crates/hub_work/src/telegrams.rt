//! The group telegrams of a run.

ghost use Rattle.std.specs.Prelude.{◌≡◌, ◌+◌, ◌<◌, length, min, None, IfSome};
ghost use Rattle.std.specs.List.{AllByRecursion};
ghost use Rattle.line_model.specs.ClientEnd.{IsCemi};
ghost use Rattle.hub_work.specs.Requests.{IsTurnInRange};
ghost use Rattle.hub_work.specs.Telegrams.{after_confirmation, after_loss, next_of, IsNextRequest, IsInTime, IsHeldForJobs};

use crate::requests::to_group;
use knx_model::{Datagram, List};
use line_model::GroupTurn;
use std::marker::Model;

/// How far the next telegram is.
///
/// ```text
///   Unput ---> UnderWay ---> Confirmed ---> told, and the next one is Unput
///                  +-------> Lost --------> told, and the next one is Unput
/// ```
#[derive(Clone, Copy, Drop)]
pub enum Stage {
    Unput,
    /// It was put, and neither its confirmation came nor was its channel lost.
    UnderWay,
    Confirmed,
    /// The channel was lost before its confirmation.
    Lost,
}

/// The group telegrams of a run, told one after another.
#[derive(Drop)]
pub struct Telegrams {
    turns: List<GroupTurn>,
    /// How many are told.
    told: u32,
    /// How far the next one is.
    stage: Stage,
}

impl Model for Telegrams {
    ghost use Rattle.std.specs.Prelude.{◌<◌, length};
    ghost use Rattle.std.specs.List.{AllByRecursion};
    ghost use Rattle.hub_work.specs.Requests.{IsTurnInRange};
    ghost use Rattle.hub_work.specs.Telegrams.{Telling};

    ghost Value = { Telling };

    ghost view = { λ t. record { turns = t.turns; told = t.told; stage = t.stage } };

    ghost invariant = { λ t. AllByRecursion IsTurnInRange t.turns × (length t.turns < 4294967296) };
}

impl Telegrams {
    /// None of them is told.
    pub fn new(turns: List<GroupTurn>) -> Telegrams
        requires sendable { AllByRecursion IsTurnInRange turns }
        requires few { length turns < 4294967296 }
        ensures { result ≡ record { turns = turns; told = 0; stage = Stage.Unput } }
    {
        Telegrams {
            turns,
            told: 0,
            stage: Stage::Unput,
        }
    }

    /// How far the next one is.
    pub fn stage(&self) -> Stage
        ensures { result ≡ self.now.stage }
    {
        self.stage
    }

    /// The next one, from 1; None exactly where all are told.
    pub fn next(&self) -> Option<u32>
        ensures { result ≡ next_of self.now }
    {
        if (self.told as usize) < self.turns.len() {
            self.told.checked_add(1)
        } else {
            None
        }
    }

    /// The octets of the next one's request, where it may be put while jobs are unfinished or not.
    pub fn request(&self, jobs_unfinished: bool) -> Option<Datagram>
        ensures cemi { IfSome result IsCemi }
        ensures next { IfSome result (IsNextRequest self.now) }
        ensures in_time { IfSome result (λ cemi. IsInTime jobs_unfinished self.now) }
        ensures none { result ≡ None → IsHeldForJobs jobs_unfinished self.now }
    {
        let turns = self.turns.as_slice();
        let place = self.told as usize;
        if place >= turns.len() {
            return None;
        }
        let turn = &turns[place];
        if turn.after && jobs_unfinished {
            return None;
        }
        Some(to_group(turn))
    }

    /// It was put.
    pub fn put(&mut self)
        ensures { self.new ≡ record self.old { stage = Stage.UnderWay } }
    {
        self.stage = Stage::UnderWay;
    }

    /// The confirmation came of what the group thread had put.
    pub fn confirmed(&mut self)
        ensures { self.new ≡ record self.old { stage = after_confirmation self.old.stage } }
    {
        self.stage = match self.stage {
            Stage::UnderWay => Stage::Confirmed,
            stage => stage,
        };
    }

    /// The channel was lost.
    pub fn lost(&mut self)
        ensures { self.new ≡ record self.old { stage = after_loss self.old.stage } }
    {
        self.stage = match self.stage {
            Stage::UnderWay => Stage::Lost,
            stage => stage,
        };
    }

    /// It was told.
    pub fn told(&mut self)
        ensures few { length self.old.turns < 4294967296 }
        ensures next { self.new ≡ record self.old { told = min (self.old.told + 1) 4294967295; stage = Stage.Unput } }
    {
        self.told = self.told.saturating_add(1);
        self.stage = Stage::Unput;
    }
}
