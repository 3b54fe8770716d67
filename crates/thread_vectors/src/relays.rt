//! What is heard while nobody listens.

ghost use Rattle.std.specs.Prelude.{◌≡◌};

use hub_core::Hub;
use knx_model::{GroupAddr, GroupService, IndAddr, List};
use line_fixed::FixedLink;
use line_model::{Indication, Link};
use shared_hub::{Listener, Relay};
use std::sync::Wait;
use std::test::Fail;
use telegram_router::Feed;

const PLACES: u16 = 4096;

fn numbered(number: u16) -> Indication {
    Indication {
        from: IndAddr { raw: number },
        group: GroupAddr { raw: 0x0A03 },
        service: GroupService::Read,
    }
}

/// Hears the telegrams with the numbers from 0 up to `end`, and counts those that find no place.
fn hear_all<R: Wait, L: Link>(
    rt: &R,
    relay: &Relay,
    mut feed: Feed,
    hub: &mut Hub<L>,
    end: u16,
) -> Feed
    requires { feed.router ≡ relay.now }
    ensures { result.router ≡ feed.router }
{
    for number in 0..end {
        relay.hear(rt, &mut feed, hub, numbered(number));
    }
    feed
}

/// The first have a place each, in their order, and three more are missed.
#[test]
fn what_finds_no_place_is_missed(rt: HostRuntime) -> Result<(), Fail> {
    let alloc = rt.alloc();
    let (relay, feed, ear) = Relay::new(alloc)?;
    let listener = Listener::new(alloc, ear)?;
    let link = FixedLink::new(alloc, List::new(alloc), None, List::new(alloc));
    let Ok(mut hub) = Hub::begin(alloc, List::new(alloc), List::new(alloc), 1, link) else {
        return Err(Fail::from("a hub"));
    };
    let feed = hear_all(&rt, &relay, feed, &mut hub, PLACES + 3);
    let heard = listener.close(&rt, &relay, feed, &mut hub).into_list();
    assert_eq!(rt; heard.len(), PLACES as usize);
    let mut number = 0;
    for one in heard.as_slice() {
        assert!(rt; number < PLACES);
        assert_eq!(rt; one.from.raw, number);
        number += 1;
    }
    assert_eq!(rt; hub.close().missed, 3);
    Ok(())
}
