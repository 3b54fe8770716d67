//! What is done on the link, each call with what the client knows then.

ghost use Rattle.std.specs.Prelude.{◌≡◌, ◌≤◌, Some, None};
ghost use Rattle.line_model.specs.ClientEnd.{MayConnect};
ghost use Rattle.tunnel_link.specs.Calls.{SendsSo, ConnectsSo, PollsSo, AnswersSo, ListensSo};
ghost use Rattle.tunnel_link.specs.Rights.{IsOfTries, after_result};

use crate::came::{Answer, Came, What};
use crate::known::Known;
use knx_model::Datagram;
use line_model::{HubFault, Link, Polled};

/// The most octets that a link gives of a datagram.
const LONGEST: usize = 512;

/// Sends a datagram.
pub fn sent<L: Link>(link: &mut L, known: &mut Known, datagram: &Datagram) -> Result<(), HubFault>
    ensures so { SendsSo result datagram.now known.old known.new (L.story link.old) (L.story link.new) }
    ensures time { L.clock link.old ≤ L.clock link.new }
    ensures events { L.place link.old ≤ L.place link.new }
    ensures script { L.script link.new ≡ L.script link.old }
    ensures counts { L.faults link.new ≡ after_result result (L.faults link.old) }
{
    match link.send(datagram.as_slice()) {
        Ok(()) => Ok(()),
        Err(fault) => Err(known.failed(fault)),
    }
}

/// Takes a new endpoint, and asks for a channel there.
pub fn connected<L: Link>(link: &mut L, known: &mut Known) -> Result<(), HubFault>
    requires { MayConnect known.old.channel }
    ensures so { ConnectsSo result known.old known.new (L.story link.old) (L.story link.new) }
    ensures time { L.clock link.old ≤ L.clock link.new }
    ensures events { L.place link.old ≤ L.place link.new }
    ensures script { L.script link.new ≡ L.script link.old }
    ensures counts { L.faults link.new ≡ after_result result (L.faults link.old) }
{
    if let Err(fault) = link.renew() {
        return Err(known.failed(fault));
    }
    let now = link.now();
    let request = known.connects(now);
    sent(link, known, &request)
}

/// One poll, and what is to be answered.
pub fn polled<L: Link>(link: &mut L, known: &mut Known, wait_ms: u32) -> Result<Answer, HubFault>
    ensures so { PollsSo result wait_ms known.old known.new (L.story link.old) (L.story link.new) }
    ensures time { L.clock link.old ≤ L.clock link.new }
    ensures events { L.place link.old ≤ L.place link.new }
    ensures script { L.script link.new ≡ L.script link.old }
    ensures counts { L.faults link.new ≡ after_result result (L.faults link.old) }
{
    let mut into = [0; LONGEST];
    match link.poll(&mut into, wait_ms) {
        Ok(Polled::Got(len)) => {
            let now = link.now();
            Ok(known.got(&into[..len], now))
        }
        Ok(Polled::Quiet) => {
            let now = link.now();
            Ok(known.lapse(What::Quiet, now))
        }
        Err(fault) => Err(known.failed(fault)),
    }
}

/// Sends the answer, where there is one. Where the client has ended, its fault is told.
pub fn answered<L: Link>(
    link: &mut L,
    known: &mut Known,
    sends: Option<Datagram>,
) -> Result<(), HubFault>
    ensures so { AnswersSo result sends known.old known.new (L.story link.old) (L.story link.new) }
    ensures time { L.clock link.old ≤ L.clock link.new }
    ensures events { L.place link.old ≤ L.place link.new }
    ensures script { L.script link.new ≡ L.script link.old }
    ensures counts { IsOfTries known.old.fault → L.faults link.new ≡ after_result result (L.faults link.old) }
{
    match sends {
        Some(datagram) => {
            sent(link, known, &datagram)?;
            known.standing()
        }
        None => known.standing(),
    }
}

/// One poll, and the answer to what was got.
pub fn listened<L: Link>(link: &mut L, known: &mut Known, wait_ms: u32) -> Result<Came, HubFault>
    ensures so { ListensSo result wait_ms known.old known.new (L.story link.old) (L.story link.new) }
    ensures time { L.clock link.old ≤ L.clock link.new }
    ensures events { L.place link.old ≤ L.place link.new }
    ensures script { L.script link.new ≡ L.script link.old }
    ensures counts { known.old.fault ≡ None → L.faults link.new ≡ after_result result (L.faults link.old) }
{
    let Answer { what, loss, sends } = polled(link, known, wait_ms)?;
    let sent = sends.is_some();
    answered(link, known, sends)?;
    Ok(Came { what, loss, sent })
}
