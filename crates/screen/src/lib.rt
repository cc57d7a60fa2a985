// player.rs: what a screen shows of a player: what remains of the workout, and `Now`. A standing player is supposed; the calls ask.
#![tactic(auto)]

ghost use Rattle.std.specs.Prelude.{◌≡◌, ◌+◌, ◌-◌, ◌/◌, ◌≤◌, min};
ghost use Rattle.model.specs.declared.Length.TheVariants.{Time, Distance};
ghost use Rattle.state.specs.State.{duration_ms, SmallEnergy};
ghost use Rattle.screen.specs.Screen.{seconds_up, remaining_in, remaining_of, is_distance, shown_of, ramp_watts_of, shown_reading, readout_by, minute_readout, average_readout, played_now, shown_band, shown_ramp, shown_next, shown_readout, now_in, ReportFits};

use measure::test_in;
use model::{Band, Length, Step, Test, Workout};
use names::Name;
use order::{Played, has_untimed_steps, planned_from, played_at};
use readings::{ComplianceOption, Readings};
use state::{Core, Lap, Measured, Player};
use zones::TrainingProfile;

#[derive(Clone, Copy, Drop)]
pub enum Left {
    Secs(u32),
    Metres(u32),
    // Open step: how long it has run.
    Open(u32),
}

// How much is left of a step, and how far through it the rider is, in thousandths; zero for open steps.
#[derive(Clone, Copy, Drop)]
pub struct Shown {
    pub left: Left,
    pub progress: u16,
}

// A test's running number on screen: three cases and no `Option`, since the two numbers are shown as different things.
#[derive(Clone, Copy, Drop)]
pub enum TestReadout {
    None,
    // Average watts of the twenty minutes so far.
    Average(u16),
    // Best minute of the ramp so far.
    BestMinute(u16),
}

// What a screen needs about the step on now.
#[derive(Clone, Copy, Drop)]
pub struct Now {
    pub position: u8,
    pub steps: u8,
    pub played: Played,
    pub band: Option<Band>,
    // The watts of the ramp's stage on now; its band is wider than that.
    pub ramp_watts: Option<u16>,
    // The reading the band is checked against.
    pub reading: Option<u16>,
    pub compliance: ComplianceOption,
    pub left: Left,
    // How far through the step, in thousandths; zero for open steps.
    pub progress: u16,
    pub next: Option<Played>,
    pub test: TestReadout,
}

// Milliseconds as seconds, rounded up.
fn seconds_up(ms: u64) -> u32
    requires { ms ≤ 604800000 }
    ensures { (result ≡ seconds_up ms) × (result ≤ 604800) }
{
    ((ms + 999) / 1000) as u32
}

// What is left of a timed step, in ms.
fn left_ms(lap: Lap, secs: u16) -> u64
    requires { lap.extra_s ≤ 86400 }
    ensures { (result ≡ duration_ms secs lap - lap.step_ms) × (result ≤ 604800000) }
{
    lap.duration_ms(secs).saturating_sub(lap.step_ms)
}

fn remaining_in(length: Length, lap: Lap, ahead: u32) -> Option<u32>
    requires { (lap.extra_s ≤ 86400) × (ahead ≤ 6291360) }
    ensures { result ≡ remaining_in length lap ahead }
{
    match length {
        Length::Time(secs) => Some(ahead + seconds_up(left_ms(lap, secs))),
        Length::Distance(_) => None,
        Length::Open => None,
    }
}

pub fn remaining(workout: Workout, core: Core) -> Option<u32>
    requires { ReportFits core }
    ensures { result ≡ remaining_of workout core }
{
    let over = core.done | has_untimed_steps(workout);
    if over {
        return None;
    }
    let on = core.on;
    let length = on.length;
    let lap = core.lap;
    remaining_in(length, lap, planned_from(workout, core.position + 1))
}

pub fn is_distance(length: Length) -> bool
    ensures { result ≡ is_distance length }
{
    matches!(length, Length::Distance(_))
}

#[tactic(auto, unfolding(crate::specs::Screen::shown_of))]
fn shown_time(lap: Lap, secs: u16) -> Shown
    requires { (lap.extra_s ≤ 86400) × (lap.step_ms ≤ 604800000) }
    ensures { result ≡ shown_of (Time secs) lap }
{
    Shown {
        left: Left::Secs(seconds_up(left_ms(lap, secs))),
        progress: (lap.step_ms * 1000 / lap.duration_ms(secs).max(1)).min(1000) as u16,
    }
}

#[tactic(auto, unfolding(crate::specs::Screen::shown_of))]
fn shown_distance(lap: Lap, metres: u32) -> Shown
    requires { lap.step_mm ≤ 7000000000 }
    ensures { result ≡ shown_of (Distance metres) lap }
{
    let whole = lap.distance_m(metres);
    Shown {
        left: Left::Metres(whole.saturating_sub(lap.step_mm / 1000) as u32),
        progress: (lap.step_mm / whole.max(1)).min(1000) as u16,
    }
}

fn left_now(length: Length, lap: Lap) -> Shown
    requires { (lap.extra_s ≤ 86400) × (lap.step_ms ≤ 604800000) × (lap.step_mm ≤ 7000000000) }
    ensures { result ≡ shown_of length lap }
{
    match length {
        Length::Time(secs) => shown_time(lap, secs),
        Length::Distance(metres) => shown_distance(lap, metres),
        Length::Open => Shown {
            left: Left::Open((lap.step_ms / 1000) as u32),
            progress: 0,
        },
    }
}

#[tactic(auto, unfolding(crate::specs::Screen::shown_ramp))]
fn ramp_now(core: Core, profile: TrainingProfile) -> Option<u16>
    requires { ReportFits core }
    ensures { result ≡ shown_ramp core profile }
{
    if core.done {
        return None;
    }
    let on = core.on;
    let target = on.target;
    let lap = core.lap;
    target
        .ramp(profile)
        .map(|ramp| ramp.watts((lap.step_ms / 1000) as u32))
}

// The band of the step on now, at its current second.
pub fn band_now(core: Core, profile: TrainingProfile) -> Option<Band>
    requires { ReportFits core }
    ensures { result ≡ shown_band core profile }
{
    if core.done {
        return None;
    }
    let on = core.on;
    let target = on.target;
    let lap = core.lap;
    target.band(profile, (lap.step_ms / 1000) as u32)
}

fn reading_now(band: Option<Band>, readings: Readings) -> Option<u16>
    ensures { result ≡ shown_reading band readings }
{
    match band {
        None => {
            let power = readings.power;
            power.watts()
        }
        Some(found) => {
            let metric = found.metric;
            readings.reading(metric)
        }
    }
}

fn average_readout(measured: Measured) -> TestReadout
    requires { SmallEnergy measured × (measured.test_ms ≤ 604800000) }
    ensures { result ≡ average_readout measured }
{
    let ms = measured.test_ms;
    if ms == 0 {
        return TestReadout::None;
    }
    TestReadout::Average(((measured.test_mj + ms / 2) / ms) as u16)
}

fn minute_readout(best: Option<u16>) -> TestReadout
    ensures { result ≡ minute_readout best }
{
    match best {
        None => TestReadout::None,
        Some(watts) => TestReadout::BestMinute(watts),
    }
}

fn readout(test: Test, measured: Measured) -> TestReadout
    requires { SmallEnergy measured × (measured.test_ms ≤ 604800000) }
    ensures { result ≡ readout_by test measured }
{
    match test {
        Test::None => TestReadout::None,
        Test::Twenty => average_readout(measured),
        Test::Ramp => {
            let ring = measured.ring;
            let best = ring.best_minute;
            minute_readout(best)
        }
    }
}

fn readout_now(core: Core, test: Test) -> TestReadout
    requires { ReportFits core }
    ensures { result ≡ shown_readout core test }
{
    if core.done {
        return TestReadout::None;
    }
    let on = core.on;
    let intensity = on.intensity;
    let measured = core.measured;
    readout(test_in(intensity, test), measured)
}

fn next_now(workout: Workout, core: Core) -> Option<Played>
    requires { ReportFits core }
    ensures { result ≡ shown_next workout core }
{
    if core.done {
        return None;
    }
    played_at(workout, core.position + 1)
}

fn played_now(core: Core, note: Name) -> Played
    ensures { result ≡ played_now core note }
{
    let on = core.on;
    let intensity = on.intensity;
    let length = on.length;
    let target = on.target;
    Played {
        index: on.index,
        repetition: on.repetition,
        of: on.of,
        step: Step {
            intensity,
            length,
            target,
            note,
        },
    }
}

// The position on screen: the last one once the workout is done.
fn position_now(core: Core) -> u8
    requires { ReportFits core }
    ensures { result ≡ min core.position (core.steps - 1) }
{
    core.position.min(core.steps.saturating_sub(1)) as u8
}

pub fn now_in(player: Player, profile: TrainingProfile) -> Now
    requires { ReportFits player.core }
    ensures { result ≡ now_in player profile }
{
    let core = player.core;
    let workout = player.workout;
    let note = player.note;
    let test = workout.test;
    let on = core.on;
    let length = on.length;
    let target = on.target;
    let lap = core.lap;
    let readings = core.readings;
    let band = band_now(core, profile);
    let seen = left_now(length, lap);
    let left = seen.left;
    Now {
        position: position_now(core),
        steps: core.steps as u8,
        played: played_now(core, note),
        band,
        ramp_watts: ramp_now(core, profile),
        reading: reading_now(band, readings),
        compliance: readings.compliance(target, band, profile),
        left,
        progress: seen.progress,
        next: next_now(workout, core),
        test: readout_now(core, test),
    }
}
