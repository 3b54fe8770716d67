//! The whole line: network, gateway, bus and devices, the client's view of it, and what is promised of it.
#![tactic(auto)]

mod client_end;
mod fault;
mod gateway_end;
mod group;
mod laws;
mod log;
mod outside;
mod poll_wait;
mod put_refused;
mod runs;

pub use client_end::{ChannelExpired, ChannelTook};
pub use fault::{HubFault, Try};
pub use gateway_end::{GatewayExpired, GatewayTook};
pub use group::{GroupTurn, Indication};
pub use laws::{
    a_channel_is_lost_in_its_ways, a_client_counts_what_it_gets, a_cut_ends_the_connection,
    a_device_acts_as_it_began_or_by_its_new_project, a_device_changes_by_what_reaches_it,
    a_device_closes_its_connection, a_gateway_keeps_its_channel, channel_numbers_come_again,
    confirmations_are_true, datagrams_arrive, devices_begin_as_the_script_says, frames_are_read,
    power_comes_back, the_tunnel_runs_in_the_line, what_comes_to_no_device_changes_none,
};
pub use log::{LogEntry, LogWhat, Report};
pub use outside::{
    DialFailed, Dialer, FaultCounts, Gate, JobProgress, Link, LinkFault, Open, Polled, Port,
    PortFault, PortPolled, Watcher,
};
pub use poll_wait::{LONGEST_POLL_MS, until};
pub use put_refused::PutRefused;
pub use runs::{
    a_channel_dies, a_channel_follows_another, a_frame_comes_again_at_the_gateway,
    a_job_fails_by_three_signs, a_line_begins, a_load_ends_done, a_minute_passes,
    a_session_reads_the_descriptor, a_telegram_is_sent, a_worker_waits_for_its_confirmation,
    datagrams_are_lost_and_repeated, the_other_lines_have_their_events, writes_are_torn_and_worn,
};
