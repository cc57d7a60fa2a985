// player.rs's `account` and the loop of `add`: an update's parts, each of which ends a step or uses the update up.
#![tactic(auto)]

ghost use Rattle.std.specs.Prelude.{◌≡◌, false, ◌+◌, ◌≤◌, ◌<◌, length};
ghost use Rattle.state.specs.State.{SmallEnergy};
ghost use Rattle.step_end.specs.StepEnd.{NextFits, next_of};
ghost use Rattle.rounds.specs.Rounds.{riding, advanced, is_stopped};
ghost use Rattle.rounds.specs.Contracted.{AdvanceFits, Rides, TurnFits, Turned, Ended, Round, Ridden};

use measure::measure;
use model::{Test, Workout};
use state::{Core, Lap, Mm, Ms};
use step_end::{countdown, is_over, next};
use zones::TrainingProfile;

// An update on its way: the core, what is left of the time and the way, the events so far and the rounds that rode.
#[derive(Clone, Copy, Drop)]
pub struct Ride {
    pub core: Core,
    pub ms: Ms,
    pub mm: Mm,
    pub count: usize,
    pub parts: usize,
}

// `ms` over `mm` of the step on now, but for its end.
fn advance(
    core: Core,
    test: Test,
    profile: TrainingProfile,
    ms: u64,
    mm: u64,
    minute: &mut [u16; 60],
) -> Core
    requires { AdvanceFits core ms mm × (length minute.old ≡ 60) }
    ensures { (riding result minute.new ≡ advanced test profile ms mm (riding core minute.old)) × SmallEnergy result.measured }
{
    let on = core.on;
    let target = on.target;
    let before = core.lap;
    let readings = core.readings;
    let summary = core.summary;
    let measured = core.measured;
    let band = target.band(profile, (before.step_ms / 1000) as u32);
    let tallied = summary.tally(readings.compliance(target, band, profile), ms);
    let step_ms = before.step_ms + ms;
    let step_mm = before.step_mm + mm;
    let after = measure(measured, test, on, readings, profile, step_ms, ms, minute);
    let lap = Lap {
        step_ms,
        step_mm,
        extra_s: before.extra_s,
        extra_m: before.extra_m,
    };
    let mut q = core;
    q.lap = lap;
    q.measured = after;
    q.summary = tallied;
    q
}

// The part of a round until the step's end. It needs no workout, so that a loop that owns one need not hand it on.
pub fn turn(
    ride: Ride,
    test: Test,
    profile: TrainingProfile,
    minute: &mut [u16; 60],
    kinds: &mut [u8],
    values: &mut [u16],
) -> Ride
    requires { TurnFits ride (length kinds.old) (length values.old) × (length minute.old ≡ 60) }
    ensures { Turned test profile minute.old minute.new kinds.old values.old kinds.new values.new ride result }
{
    let core = ride.core;
    let before = core.lap;
    let ms = ride.ms;
    let mm = ride.mm;
    let part = core.until_end(ms, mm);
    let ridden = advance(core, test, profile, part.ms.0, part.mm.0, minute);
    let on = ridden.on;
    let lasts = on.length;
    let lap = ridden.lap;
    let counted = countdown(lasts, lap, before.step_ms, kinds, values, ride.count);
    Ride {
        core: ridden,
        ms: Ms(ms.0 - part.ms.0),
        mm: Mm(mm.0 - part.mm.0),
        count: counted,
        parts: ride.parts + 1,
    }
}

// The end of a step that has come to it.
pub fn end_step(workout: Workout, ride: Ride, kinds: &mut [u8], values: &mut [u16]) -> Ride
    requires { NextFits ride.core × (ride.count + 2 ≤ length kinds.old) × (ride.count + 2 ≤ length values.old) }
    ensures { Ended kinds.old values.old kinds.new values.new ride result (next_of workout false ride.core) }
{
    let core = ride.core;
    let ms = ride.ms;
    let mm = ride.mm;
    let moved = next(workout, core, false, kinds, values, ride.count);
    let after = moved.core;
    Ride {
        core: after,
        ms,
        mm,
        count: moved.count,
        parts: ride.parts,
    }
}

// One round: the part until the step's end, and the end, if it has come.
fn round(
    workout: Workout,
    profile: TrainingProfile,
    ride: Ride,
    minute: &mut [u16; 60],
    kinds: &mut [u8],
    values: &mut [u16],
) -> Ride
    requires { Rides workout ride (length kinds.old) (length values.old) × (is_stopped ride.core.done ride.ms.0 ≡ false) × (length minute.old ≡ 60) × (ride.parts < 97) }
    ensures { Round workout profile minute.old minute.new kinds.old values.old kinds.new values.new ride result }
{
    let test = workout.test;
    let turned = turn(ride, test, profile, minute, kinds, values);
    let core = turned.core;
    if is_over(core, profile) {
        return end_step(workout, turned, kinds, values);
    }
    turned
}

// The workout is done, or the update is used up.
pub fn is_stopped(ride: Ride) -> bool
    ensures { result ≡ is_stopped ride.core.done ride.ms.0 }
{
    let core = ride.core;
    core.done | (ride.ms.0 == 0)
}

// The loop of `add`. Each round ends a step or uses up the update, so 97 are enough for 96 steps.
pub fn ride_rounds(
    workout: Workout,
    profile: TrainingProfile,
    start: Ride,
    minute: &mut [u16; 60],
    kinds: &mut [u8],
    values: &mut [u16],
) -> Ride
    requires { Rides workout start (length kinds.old) (length values.old) × (length minute.old ≡ 60) × (start.count ≡ 0) × (start.parts ≡ 0) }
    ensures { Ridden workout profile minute.old minute.new kinds.old values.old kinds.new values.new start result }
{
    let mut ride = start;
    for _ in 0..97usize {
        if is_stopped(ride) {
            return ride;
        }
        ride = round(workout, profile, ride, minute, kinds, values);
    }
    ride
}
