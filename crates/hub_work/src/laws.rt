//! The laws of a hub's work over the record of a link, each a function without a body whose contract is the law.

ghost use Rattle.hub_work.specs.Laws.{Laws};
ghost use Rattle.hub_work.specs.Follows.{AsideFollows, StaysFitting, PlaceIsFree};

use download_core::{flights_are_known, follows_the_record, steps_are_turns, steps_exactly};

/// What is nothing to any job changes nothing but the time, and there may be more events that the record doesn't tell.
pub fn moments_go_on()
    ensures aside { AsideFollows }
    ensures later { StaysFitting }
{
    of_a_downloader();
}

/// Where the place in flight is free, no request is unconfirmed, if the channels were renewed rightly.
pub fn places_are_free()
    ensures { PlaceIsFree }
{}

/// All laws of a downloader.
pub(crate) fn of_a_downloader()
    ensures { Laws }
{
    follows_the_record();
    flights_are_known();
    steps_are_turns();
    steps_exactly();
}
