// player.rs's ride, `add` and `skip` once nothing is left to be asked: what they suppose stands in their `requires`, so that a run of
// calls can go without asking question 20 at each.
#![tactic(auto)]

ghost use Rattle.std.specs.Prelude.{◌≡◌, true, length};
ghost use Rattle.rounds.specs.Contracted.{Ridden};
ghost use Rattle.standing.specs.Standing.{cadence_in};
ghost use Rattle.outcomes.specs.Outcomes.{Answers};
ghost use Rattle.updates.specs.Updates.{begun, ride_now, skip_now, add_now, Supposes};

use model::Workout;
use outcomes::{Update, add_totals, plain, player_of, with_core};
use readings::Sample;
use rounds::{Ride, ride_rounds};
use state::{Core, Mm, Ms, Player};
use step_end::next;
use zones::TrainingProfile;

// The loop of a ride of which nothing is to be asked any more, on the core and its minute.
fn ride_core(
    workout: Workout,
    core: Core,
    ms: Ms,
    mm: Mm,
    profile: TrainingProfile,
    minute: &mut [u16; 60],
    kinds: &mut [u8],
    values: &mut [u16],
) -> Ride
    requires { Supposes workout core ms.0 mm.0 (length kinds.old) (length values.old) × (length minute.old ≡ 60) }
    ensures { Ridden workout profile minute.old minute.new kinds.old values.old kinds.new values.new (begun core ms.0 mm.0) result }
{
    let start = Ride {
        core: add_totals(core, ms, mm),
        ms,
        mm,
        count: 0,
        parts: 0,
    };
    ride_rounds(workout, profile, start, minute, kinds, values)
}

// A ride of which nothing is to be asked any more.
pub fn ride_now(
    player: Player,
    ms: Ms,
    mm: Mm,
    profile: TrainingProfile,
    kinds: &mut [u8],
    values: &mut [u16],
) -> Update
    requires { Supposes player.workout player.core ms.0 mm.0 (length kinds.old) (length values.old) }
    ensures { Answers kinds.old values.old kinds.new values.new result (ride_now player ms.0 mm.0 profile) }
{
    if ms.0 == 0 {
        return plain(player, Ok(()));
    }
    let workout = player.workout;
    let core = player.core;
    let mut minute = player.minute;
    let ride = ride_core(workout, core, ms, mm, profile, &mut minute, kinds, values);
    let after = ride.core;
    let ridden = player_of(workout, after, minute);
    Update {
        answer: Ok(()),
        player: ridden,
        events: ride.count,
        parts: ride.parts,
    }
}

// An `add` of which nothing is to be asked any more.
pub fn add_now(
    player: Player,
    ms: Ms,
    mm: Mm,
    sample: Sample,
    profile: TrainingProfile,
    kinds: &mut [u8],
    values: &mut [u16],
) -> Update
    requires { Supposes player.workout player.core ms.0 mm.0 (length kinds.old) (length values.old) × (cadence_in sample.cadence_tenths ≡ true) }
    ensures { Answers kinds.old values.old kinds.new values.new result (add_now player ms.0 mm.0 sample profile) }
{
    if ms.0 == 0 {
        return plain(player, Ok(()));
    }
    let core = player.core;
    let taken = with_core(player, core.read(sample));
    ride_now(taken, ms, mm, profile, kinds, values)
}

// A skip of which nothing is to be asked any more.
pub fn skip_now(player: Player, kinds: &mut [u8], values: &mut [u16]) -> Update
    requires { Supposes player.workout player.core 0 0 (length kinds.old) (length values.old) }
    ensures { Answers kinds.old values.old kinds.new values.new result (skip_now player) }
{
    let core = player.core;
    if core.done {
        return plain(player, Ok(()));
    }
    let workout = player.workout;
    let minute = player.minute;
    let moved = next(workout, core, true, kinds, values, 0);
    let after = moved.core;
    let ended = player_of(workout, after, minute);
    Update {
        answer: Ok(()),
        player: ended,
        events: moved.count,
        parts: 0,
    }
}
