// player.rs's `next`: a step's last seconds, its end, and the step after it, with their events.
#![tactic(auto)]

ghost use Rattle.std.specs.Prelude.{◌≡◌, cond, [], ◌∷◌, ◌++◌, ◌+◌, ◌≤◌, length};
ghost use Rattle.events.specs.Events.{Wrote};
ghost use Rattle.step_end.specs.StepEnd.{due_at, countdowns_to, countdowns_of, is_over, step_after, measured_after, arrived, next_of, NextFits, Moves};

use events::{COUNTDOWN, FINISHED, FTP, STARTED, push, push_if};
use measure::{ramp_failed, result};
use model::{Length, Workout};
use order::{Played, played_at};
use state::{Core, Lap, Measured, StepNow, Summary, fresh_measured, step_now};
use zones::TrainingProfile;

// The mark `secs` before the end was passed, and the end was not.
fn is_due(secs: u64, end: u64, before: u64, after: u64) -> bool
    requires { secs ≤ 3 }
    ensures { result ≡ due_at secs end before after }
{
    let at = end.saturating_sub(secs * 1000);
    (before < at) & (at <= after) & (after < end)
}

// The last three seconds before `end`, those that were passed from `before` to `after`.
fn countdown_to(
    end: u64,
    before: u64,
    after: u64,
    kinds: &mut [u8],
    values: &mut [u16],
    count: usize,
) -> usize
    requires { (count + 3 ≤ length kinds.old) × (count + 3 ≤ length values.old) }
    ensures { Wrote kinds.old values.old count kinds.new values.new result (countdowns_to end before after) }
{
    let a = push_if(
        is_due(3, end, before, after),
        kinds,
        values,
        count,
        COUNTDOWN,
        3,
    );
    let b = push_if(
        is_due(2, end, before, after),
        kinds,
        values,
        a,
        COUNTDOWN,
        2,
    );
    push_if(
        is_due(1, end, before, after),
        kinds,
        values,
        b,
        COUNTDOWN,
        1,
    )
}

// The countdown of a step that had lasted `before` ms and now has lasted as long as `lap` says.
pub fn countdown(
    lasts: Length,
    lap: Lap,
    before: u64,
    kinds: &mut [u8],
    values: &mut [u16],
    count: usize,
) -> usize
    requires { (count + 3 ≤ length kinds.old) × (count + 3 ≤ length values.old) }
    ensures { Wrote kinds.old values.old count kinds.new values.new result (countdowns_of lasts lap before) }
{
    match lasts {
        Length::Time(secs) => countdown_to(
            lap.duration_ms(secs),
            before,
            lap.step_ms,
            kinds,
            values,
            count,
        ),
        Length::Distance(_) => count,
        Length::Open => count,
    }
}

// The step on now has come to its end.
pub fn is_over(core: Core, profile: TrainingProfile) -> bool
    ensures { result ≡ is_over profile core }
{
    let on = core.on;
    let length = on.length;
    let target = on.target;
    let lap = core.lap;
    let measured = core.measured;
    match length {
        Length::Time(secs) => lap.duration_ms(secs) <= lap.step_ms,
        Length::Distance(metres) => lap.distance_mm(metres) <= lap.step_mm,
        Length::Open => ramp_failed(target.ramp(profile), lap.step_ms, measured.ramp_low_ms),
    }
}

fn bit(skipped: bool) -> u16
    ensures { (result ≡ cond skipped 1 0) × (result ≤ 1) }
{
    if skipped { 1 } else { 0 }
}

// The step looked up next, or the one that was on, which stays after the last.
fn step_after(found: Option<Played>, on: StepNow) -> StepNow
    ensures { result ≡ step_after found on }
{
    match found {
        None => on,
        Some(played) => step_now(played),
    }
}

// What the tests have measured as the next step starts; after the last it stays.
fn measured_after(found: Option<Played>, measured: Measured) -> Measured
    ensures { result ≡ measured_after found measured }
{
    if found.is_some() {
        return fresh_measured(measured.ramp_low_ms);
    }
    measured
}

// The end of the step on now, `found` being what comes next and `ftp` what a test measured.
#[tactic(auto, unfolding(crate::specs::StepEnd::arrived))]
fn arrive(core: Core, found: Option<Played>, ftp: Option<u16>, skipped: bool) -> Core
    requires { NextFits core }
    ensures { result ≡ arrived found skipped ftp core }
{
    let summary = core.summary;
    let before = summary.ftp;
    let on = core.on;
    let measured = core.measured;
    let last = found.is_none();
    Core {
        position: core.position + 1,
        lap: Lap {
            step_ms: 0,
            step_mm: 0,
            extra_s: 0,
            extra_m: 0,
        },
        measured: measured_after(found, measured),
        summary: Summary {
            ftp: ftp.or(before),
            steps_done: summary.steps_done + 1,
            skipped: summary.skipped + bit(skipped),
            finished: last,
            ..summary
        },
        on: step_after(found, on),
        done: last,
        ..core
    }
}

// The core after a call, and its events' count.
#[derive(Clone, Copy, Drop)]
pub struct Moved {
    pub core: Core,
    pub count: usize,
}

// A test result comes from its own step, as that step ends.
pub fn next(
    workout: Workout,
    core: Core,
    skipped: bool,
    kinds: &mut [u8],
    values: &mut [u16],
    count: usize,
) -> Moved
    requires { NextFits core × (count + 2 ≤ length kinds.old) × (count + 2 ≤ length values.old) }
    ensures { Moves kinds.old values.old count kinds.new values.new result (next_of workout skipped core) }
{
    let test = workout.test;
    let on = core.on;
    let lap = core.lap;
    let measured = core.measured;
    let position = core.position + 1;
    let ftp = result(measured, test, on, lap, skipped);
    let found = played_at(workout, position);
    let moved = arrive(core, found, ftp, skipped);
    let measured_count = push_if(ftp.is_some(), kinds, values, count, FTP, ftp.unwrap_or(0));
    if found.is_some() {
        let after = push(kinds, values, measured_count, STARTED, position as u16);
        return Moved {
            core: moved,
            count: after,
        };
    }
    let after = push(kinds, values, measured_count, FINISHED, 0);
    Moved {
        core: moved,
        count: after,
    }
}
