//! The edge of the program: files on disk, the output, the words of the command line, UDP sockets, and the terminal that shows a run, each as the trait that the
//! top call takes.
#![tactic(auto)]

mod clients;
mod dial;
mod disk;
mod link;
mod output;
mod port;
mod screen;
mod socket;
#[cfg(test)]
mod stops;
mod words;

pub use dial::UdpDialer;
pub use disk::Disk;
pub use link::UdpLink;
pub use output::{Output, Steady};
pub use port::UdpPort;
pub use screen::Screen;
pub use socket::Datagrams;
pub use words::words_of;
