// Document 01, 'The millisecond machine', and the third demand. The crate has statements; its functions compute nothing.
#![tactic(auto)]

ghost use Rattle.std.specs.Prelude.{◌<◌};
ghost use Rattle.power.specs.Power.{or_zero};
ghost use Rattle.machine.specs.Banded.{UnderBand};
ghost use Rattle.machine.specs.Samples.{Samples};
ghost use Rattle.machine.specs.ThirdDemand.{ThirdDemand, PiecesAtOnce, CuttingsAgree, RefusedStays, SecondsEitherWay};

// The third demand: after each call of a list, cut as one likes, the record and the events are the millisecond machine's.
pub fn third_demand()
    ensures { ThirdDemand }
{}

// A ride's pieces one by one are the milliseconds of those that aren't refused at once.
pub fn pieces_at_once()
    ensures { PiecesAtOnce }
{}

// Two cuttings of one list in which nothing is refused, the list as it stands among them, give the same machine.
pub fn cuttings_agree()
    ensures { CuttingsAgree }
{}

// A refused call leaves the player and gives no events.
pub fn refused_stays()
    ensures { RefusedStays }
{}

// The best minute is the same with the newest second first or last.
pub fn seconds_either_way()
    ensures { SecondsEitherWay }
{}

// Targeted and unread time is all the time ridden under a band: of the machine, of the player, and of each part of a ride.
pub fn under_band()
    ensures { UnderBand }
{}

// What the machine makes of some rides.
pub fn sample_rides()
    ensures { Samples }
{}

// Every reading in memory has the 16 bits that the third demand supposes of it. (`codec::workout_fits` has a workout's twelve places.)
pub fn reading_fits(reading: Option<u16>)
    ensures { or_zero reading < 65536 }
{
    match reading {
        None => {}
        Some(_watts) => {}
    }
}
