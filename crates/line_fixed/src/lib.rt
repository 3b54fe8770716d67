//! A line of fixed data, for tests: a link and a port that give what they were given and fail where they were told to, a link that passes all
//! calls on until one fails, dialers that hand them out, and a watcher that keeps what it is told. Each tells what was
//! done.
#![tactic(auto)]

mod dialer;
mod entries;
mod failing;
mod item;
mod line_dialer;
mod link;
mod next;
mod port;
mod port_items;
mod watcher;

pub use dialer::{Address, FixedDialer};
pub use entries::Entries;
pub use failing::FailingLink;
pub use item::{Item, Stretch};
pub use knx_model::{List, NoMemory, Octets};
pub use line_dialer::LineDialer;
pub use line_model::{DialFailed, Dialer, Link, LinkFault, Polled, Port, PortFault, PortPolled};
pub use link::FixedLink;
pub use port::FixedPort;
pub use port_items::{PortItem, PortItems};
pub use watcher::{FixedWatcher, Place};
