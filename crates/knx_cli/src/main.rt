//! The program `knx`: its arguments are the words of the top call, its standard output takes what that writes, its links are UDP
//! sockets, and its exit status is that call's. To standard error goes how far a run has come, where that is a terminal, and else nothing.
#![tactic(auto)]

mod ended;

use crate::ended::status_of;
use knx_edge::{Disk, Output, Screen, UdpDialer, words_of};
use knx_top::{AddressBus, SimBus};
use line_model::Open;
use std::env;
use std::io::{self, IsTerminal};
use std::process::ExitCode;

fn main(rt: HostRuntime) -> ExitCode {
    let alloc = rt.alloc();
    let mut files = Disk::new(alloc, &rt);
    let mut out = Output::new(io::writer(&rt));
    let mut sim = SimBus::empty(alloc);
    let mut units = AddressBus::empty(alloc);
    let mut dial = UdpDialer::new(&rt, alloc);
    let stderr = rt.stderr();
    let mut watch = if stderr.is_terminal() {
        Some(Screen::new(stderr))
    } else {
        None
    };
    let mut last = None;
    let words = words_of(alloc, env::args(&rt));
    ExitCode::from(status_of(
        &rt, alloc, &words, &mut files, &mut out, &mut sim, &mut units, &mut dial, &Open,
        &mut watch, &mut last,
    ))
}
