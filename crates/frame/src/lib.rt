// Request l: the players of four bikes, and how many watts of the supply that their brakes share one of them may draw.
#![tactic(auto)]

ghost use Rattle.std.specs.Prelude.{◌≡◌, [], ◌∷◌};
ghost use Rattle.screen.specs.Screen.{ReportFits};
ghost use Rattle.frame.specs.Frame.{band_watts, want_of, bikes_answer, grant_of, GrantsShared};

use model::{Band, Metric};
use refusal::Refusal;
use screen::band_now;
use standing::is_standing;
use state::Player;
use supply::share;
use zones::TrainingProfile;

// A player, and the profile of its rider.
#[derive(Clone, Copy, Drop)]
pub struct Bike {
    pub player: Player,
    pub profile: TrainingProfile,
}

// What a bike's brake may draw: 0 where the call is refused, as request l has it, so a struct and no `Result` (`grant_of`).
#[derive(Clone, Copy, Drop)]
pub struct Granted {
    pub answer: Result<(), Refusal>,
    pub watts: u16,
}

// The high end of a power band; a heart rate or a cadence wants no watts.
fn band_watts(band: Option<Band>) -> u16
    ensures { result ≡ band_watts band }
{
    match band {
        Some(found) if matches!(found.metric, Metric::Power) => found.high,
        _ => 0,
    }
}

// The watts that a bike wants now.
fn want(bike: Bike) -> u16
    requires { ReportFits bike.player.core }
    ensures { result ≡ want_of bike }
{
    let player = bike.player;
    let core = player.core;
    let profile = bike.profile;
    band_watts(band_now(core, profile))
}

// Questions 20 and 10 of one bike.
fn bike_answer(bike: Bike) -> Result<(), Refusal>
    ensures { result ≡ bikes_answer (bike ∷ []) }
{
    let player = bike.player;
    let profile = bike.profile;
    if !is_standing(player) {
        return Err(Refusal::Standing);
    }
    profile.check()
}

fn no_grant(refusal: Refusal) -> Granted
    ensures { result ≡ record { answer = Err refusal; watts = 0 } }
{
    Granted {
        answer: Err(refusal),
        watts: 0,
    }
}

// What bike `bike`, 0 to 3, gets of a supply of so many watts, as the four stand now. All four are asked, whichever is named.
pub fn grant(bikes: [Bike; 4], supply: u32, bike: u32) -> Granted
    ensures { result ≡ grant_of bikes supply bike }
{
    if 3 < bike {
        return no_grant(Refusal::BikeNumber);
    }
    let mut wants: [u16; 4] = [0; 4];
    for (i, one) in bikes.iter().enumerate() {
        if let Err(refusal) = bike_answer(*one) {
            return no_grant(refusal);
        }
        wants[i] = want(*one);
    }
    Granted {
        answer: Ok(()),
        watts: share(wants, supply, bike as usize),
    }
}

// The rule of sharing, of the call's answers for the four bikes.
pub fn grants_shared()
    ensures { GrantsShared }
{}
