//! Up to eight downloaders and the group thread at one hub, each in a thread of its own. The hub travels among them in a turn cell: who has the turn makes
//! calls of it and gives it back.
#![tactic(auto)]

mod crew;
mod ending;
mod heard;
mod item;
mod listener;
mod relay;
mod run;
mod seated;
mod site;
mod watching;

pub use heard::Heard;
pub use item::Item;
pub use listener::Listener;
pub use relay::Relay;
pub use run::commission;
pub use seated::{listen, send_groups, work};
pub use site::{Site, Step};
pub use watching::Watching;
