//! The two ends of a router.

use crate::view::View;
use crossbeam_queue::Pass;
use line_model::Indication;
use std::marker::Model;

/// The end that pushes. It has no bytes, and each router has one.
#[derive(Drop)]
pub struct Feed {
    pub(crate) pass: Pass<Indication, View<Indication>>,
}

impl Model for Feed {
    ghost use Rattle.std.specs.Prelude.{◌≡◌, [], true};
    ghost use Rattle.telegram_router.specs.Ends.{Feeding};

    ghost Value = { Feeding };

    ghost use Rattle.telegram_router.specs.Relayed.{feeding};

    ghost view = { λ feed. feeding feed.pass.table_id feed.pass.me.0.client };

    ghost invariant = { λ feed. (feed.pass.me.0.client.pushes ≡ true) × (feed.pass.me.1 ≡ []) };
}

/// The end that pops. It has no bytes, and each router has one.
#[derive(Drop)]
pub struct Ear {
    pub(crate) pass: Pass<Indication, View<Indication>>,
}

impl Model for Ear {
    ghost use Rattle.std.specs.Prelude.{◌≡◌, [], true};
    ghost use Rattle.telegram_router.specs.Ends.{Hearing};

    ghost Value = { Hearing };

    ghost use Rattle.telegram_router.specs.Relayed.{hearing};

    ghost view = { λ ear. hearing ear.pass.table_id ear.pass.me.0.client };

    ghost invariant = { λ ear. (ear.pass.me.0.client.pops ≡ true) × (ear.pass.me.1 ≡ []) };
}
