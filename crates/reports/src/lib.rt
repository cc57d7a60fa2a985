// player.rs: the calls that report, and `until_end`. Each asks question 20 first, of any player value.
#![tactic(auto)]

ghost use Rattle.std.specs.Prelude.{◌≡◌};
ghost use Rattle.state.specs.State.{part};
ghost use Rattle.screen.specs.Screen.{no_now};
ghost use Rattle.reports.specs.Reports.{summary_of, remaining_secs, distance_of, until_of, places_of, now_of};

use order::NO_PLAYED;
use readings::ComplianceOption;
use refusal::Refusal;
use screen::{Left, Now, TestReadout, is_distance, now_in, remaining};
use standing::is_standing;
use start::no_summary;
use state::{Mm, Ms, Part, Player, Summary};
use zones::TrainingProfile;

// Structs and no `Result`: what stands beside a refusal is part of each contract (`summary_of` to `now_of`), as document 01 has it
// ("reports give nothing and `until_end` 0 and 0").

#[derive(Clone, Copy, Drop)]
pub struct SummaryRead {
    pub answer: Result<(), Refusal>,
    pub summary: Summary,
}

#[derive(Clone, Copy, Drop)]
pub struct RemainingRead {
    pub answer: Result<(), Refusal>,
    pub secs: Option<u32>,
}

#[derive(Clone, Copy, Drop)]
pub struct DistanceRead {
    pub answer: Result<(), Refusal>,
    pub distance: bool,
}

#[derive(Clone, Copy, Drop)]
pub struct PartRead {
    pub answer: Result<(), Refusal>,
    pub part: Part,
}

#[derive(Clone, Copy, Drop)]
pub struct PlacesRead {
    pub answer: Result<(), Refusal>,
    pub places: usize,
}

#[derive(Clone, Copy, Drop)]
pub struct NowRead {
    pub answer: Result<(), Refusal>,
    pub now: Now,
}

pub fn summary(player: Player) -> SummaryRead
    ensures { result ≡ summary_of player }
{
    if is_standing(player) {
        let core = player.core;
        let summary = core.summary;
        return SummaryRead {
            answer: Ok(()),
            summary,
        };
    }
    SummaryRead {
        answer: Err(Refusal::Standing),
        summary: no_summary(0),
    }
}

// Seconds of ride the workout still plans, when all of it is timed and not yet done.
pub fn remaining_secs(player: Player) -> RemainingRead
    ensures { result ≡ remaining_secs player }
{
    if is_standing(player) {
        let workout = player.workout;
        let core = player.core;
        return RemainingRead {
            answer: Ok(()),
            secs: remaining(workout, core),
        };
    }
    RemainingRead {
        answer: Err(Refusal::Standing),
        secs: None,
    }
}

// The step on now lasts a distance, so its lap ends by distance.
pub fn distance_step(player: Player) -> DistanceRead
    ensures { result ≡ distance_of player }
{
    if is_standing(player) {
        let core = player.core;
        let on = core.on;
        let length = on.length;
        return DistanceRead {
            answer: Ok(()),
            distance: is_distance(length),
        };
    }
    DistanceRead {
        answer: Err(Refusal::Standing),
        distance: false,
    }
}

fn no_part(refusal: Refusal) -> PartRead
    ensures { result ≡ record { answer = Err refusal; part = part 0 0 } }
{
    PartRead {
        answer: Err(refusal),
        part: Part {
            ms: Ms(0),
            mm: Mm(0),
        },
    }
}

// The part of `ms` over `mm` that the step on now still holds; all of it once the workout is done.
pub fn until_end(player: Player, ms: Ms, mm: Mm) -> PartRead
    ensures { result ≡ until_of player ms.0 mm.0 }
{
    if is_standing(player) {
        if (ms.0 <= 86400000) & (mm.0 <= 1000000000) {
            let core = player.core;
            return PartRead {
                answer: Ok(()),
                part: core.until_end(ms, mm),
            };
        }
        return no_part(Refusal::Update);
    }
    no_part(Refusal::Standing)
}

// How many places the next `add`, ride or skip wants in each of the two event arrays that it is lent (question 14).
pub fn event_places(player: Player) -> PlacesRead
    ensures { result ≡ places_of player }
{
    if is_standing(player) {
        let core = player.core;
        return PlacesRead {
            answer: Ok(()),
            places: core.event_places(),
        };
    }
    PlacesRead {
        answer: Err(Refusal::Standing),
        places: 0,
    }
}

fn no_now(refusal: Refusal) -> NowRead
    ensures { result ≡ record { answer = Err refusal; now = no_now } }
{
    NowRead {
        answer: Err(refusal),
        now: Now {
            position: 0,
            steps: 0,
            played: NO_PLAYED,
            band: None,
            ramp_watts: None,
            reading: None,
            compliance: ComplianceOption::NoBand,
            left: Left::Open(0),
            progress: 0,
            next: None,
            test: TestReadout::None,
        },
    }
}

// The step on now, for the screen.
pub fn now(player: Player, profile: TrainingProfile) -> NowRead
    ensures { result ≡ now_of player profile }
{
    if is_standing(player) {
        let answer = profile.check();
        return match answer {
            Ok(()) => NowRead {
                answer: Ok(()),
                now: now_in(player, profile),
            },
            Err(refusal) => no_now(refusal),
        };
    }
    no_now(Refusal::Standing)
}
