//! A router's two ends in one thread and in two.

ghost use Rattle.std.specs.Prelude.{◌≡◌};

use knx_model::{GroupAddr, GroupService, IndAddr};
use line_model::Indication;
use std::process::Abort;
use std::sync::Wait;
use std::test::Fail;
use std::thread;
use std::thread::join;
use telegram_router::{Ear, Feed, Router};

const PLACES: u16 = 4096;

const MANY: u16 = 20_000;

fn numbered(number: u16) -> Indication {
    Indication {
        from: IndAddr { raw: number },
        group: GroupAddr { raw: number },
        service: GroupService::Read,
    }
}

/// Pushes one, and says whether it went in.
fn push_one<R: Wait>(rt: &R, router: &Router, feed: &mut Feed, number: u16) -> bool
    requires { feed.old.router ≡ router.now }
    ensures { feed.new.router ≡ feed.old.router }
{
    match router.push(rt, feed, numbered(number)) {
        Ok(()) => true,
        Err(full) => full.heard.from.raw != number,
    }
}

/// Pushes the numbers up to `end`, each until it goes in.
fn push_all<R: Wait>(rt: &R, router: &Router, mut feed: Feed, end: u16) -> Feed
    requires { feed.router ≡ router.now }
    ensures { result.router ≡ feed.router }
{
    let mut next = 0;
    for _ in rt.forever() {
        if next >= end {
            break;
        }
        if push_one(rt, router, &mut feed, next) {
            next += 1;
        } else {
            thread::yield_now();
        }
    }
    feed
}

/// Pops the numbers up to `end`, each as it comes, and looks that none is missing.
fn pop_all<R: Wait + Abort>(rt: &R, router: &Router, mut ear: Ear, end: u16) -> Ear
    requires { ear.router ≡ router.now }
    ensures { result.router ≡ ear.router }
{
    let mut next = 0;
    for _ in rt.forever() {
        if next >= end {
            break;
        }
        if let Some(heard) = router.pop(rt, &mut ear) {
            assert!(rt; heard.from.raw == next);
            next += 1;
        } else {
            thread::yield_now();
        }
    }
    ear
}

#[test]
fn one_more_than_the_places(rt: HostRuntime) -> Result<(), Fail> {
    let (router, feed, mut ear) = Router::new(rt.alloc())?;
    let mut feed = push_all(&rt, &router, feed, PLACES);
    match router.push(&rt, &mut feed, numbered(PLACES)) {
        Ok(()) => return Err(Fail::from("there was room")),
        Err(full) => assert_eq!(rt; full.heard.from.raw, PLACES),
    }
    router.join(&mut ear, feed);
    let mut ear = pop_all(&rt, &router, ear, PLACES);
    assert!(rt; router.pop(&rt, &mut ear).is_none());
    Ok(())
}

#[test]
fn one_thread_pushes_and_one_pops(rt: HostRuntime) -> Result<(), Fail> {
    let (router, feed, ear) = Router::new(rt.alloc())?;
    let (feed, mut ear) = join(
        &rt,
        || push_all(&rt, &router, feed, MANY),
        || pop_all(&rt, &router, ear, MANY),
    );
    router.join(&mut ear, feed);
    assert!(rt; router.pop(&rt, &mut ear).is_none());
    Ok(())
}
