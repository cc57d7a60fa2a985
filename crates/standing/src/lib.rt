// Document 01's question 20: whether a player is standing, that is, whether its fields agree with each other and lie within their
// limits. 'Standing' is the paper's word. The test is of any value that a player's types hold.
#![tactic(auto)]

ghost use Rattle.std.specs.Prelude.{◌≡◌, cond, ◌≤◌, length};
ghost use Rattle.standing.specs.Standing.{on_place, counts_ok, fresh, below_end, lap_ok, totals_ok, tallies_ok, measured_ok, cadence_in, readings_ok, core_ok, step_is, standing_of};

use model::Length;
use names::Name;
use order::{NO_PLAYED, Played, played_at, played_len};
use readings::Readings;
use state::{Core, Lap, Measured, Player, StepNow, Summary, step_now};

// The position of the step on now: the player's, or, done, the last step's.
fn on_place(core: Core) -> usize
    ensures { result ≡ on_place core }
{
    if core.done {
        if core.position == 0 {
            return 0;
        }
        return core.position - 1;
    }
    core.position
}

fn counts_ok(core: Core, steps: usize) -> bool
    ensures { result ≡ counts_ok steps core }
{
    let summary = core.summary;
    let position = core.position;
    (core.steps == steps)
        & ((summary.steps as usize) == steps)
        & ((summary.steps_done as usize) == position)
        & ((summary.skipped as usize) <= position)
        & (position <= steps)
        & (core.done == (steps <= position))
        & (summary.finished == core.done)
}

fn is_fresh(lap: Lap) -> bool
    ensures { result ≡ fresh lap }
{
    (lap.step_ms == 0) & (lap.step_mm == 0) & (lap.extra_s == 0) & (lap.extra_m == 0)
}

fn below_end(lasts: Length, lap: Lap) -> bool
    ensures { result ≡ below_end lasts lap }
{
    match lasts {
        Length::Time(secs) => lap.step_ms < lap.duration_ms(secs),
        Length::Distance(metres) => lap.step_mm < lap.distance_mm(metres),
        Length::Open => true,
    }
}

fn lap_ok(done: bool, lasts: Length, lap: Lap) -> bool
    ensures { result ≡ lap_ok done lasts lap }
{
    if done {
        return is_fresh(lap);
    }
    below_end(lasts, lap) & (lap.extra_s <= 86400) & (lap.extra_m <= 1000000)
}

fn totals_ok(core: Core) -> bool
    ensures { result ≡ totals_ok core }
{
    let lap = core.lap;
    (core.total_ms.0 <= 604800000)
        & (core.total_mm.0 <= 7000000000)
        & (lap.step_ms <= core.total_ms.0)
        & (lap.step_mm <= core.total_mm.0)
}

// Unread is asked before it is taken from the total, and the three parts one by one before they are summed, so that nothing wraps.
fn tallies_ok(summary: Summary, total_ms: u64) -> bool
    requires { total_ms ≤ 604800000 }
    ensures { result ≡ tallies_ok summary total_ms }
{
    let targeted = summary.targeted_ms;
    let inside = summary.in_ms;
    let under = summary.under_ms;
    let over = summary.over_ms;
    let unread = summary.unread_ms;
    if total_ms < unread {
        return false;
    }
    if total_ms - unread < targeted {
        return false;
    }
    if targeted < inside {
        return false;
    }
    if targeted < under {
        return false;
    }
    if targeted < over {
        return false;
    }
    inside + under + over == targeted
}

fn measured_ok(measured: Measured, total_ms: u64) -> bool
    requires { total_ms ≤ 604800000 }
    ensures { result ≡ measured_ok measured total_ms }
{
    let ring = measured.ring;
    let test_ms = measured.test_ms;
    if total_ms < test_ms {
        return false;
    }
    (measured.test_mj <= 65535 * test_ms)
        & (measured.ramp_low_ms <= total_ms)
        & (measured.minute_rest_ms < 1000)
        & (ring.minute_at < 60)
        & (ring.minute_len <= 60)
}

// Question 11 of a reading: a cadence of at most 65,530 tenths.
pub fn cadence_in(cadence: Option<u16>) -> bool
    ensures { result ≡ cadence_in cadence }
{
    match cadence {
        None => true,
        Some(tenths) => tenths <= 65530,
    }
}

fn readings_ok(readings: Readings) -> bool
    ensures { result ≡ readings_ok readings }
{
    let sample = readings.last_sample;
    let cadence = sample.cadence_tenths;
    let power = readings.power;
    cadence_in(cadence) & (power.next < 3)
}

// All but the workout, the step on now and its note.
fn core_ok(core: Core, steps: usize) -> bool
    ensures { result ≡ core_ok steps core }
{
    let lap = core.lap;
    let on = core.on;
    let length = on.length;
    let summary = core.summary;
    let measured = core.measured;
    let readings = core.readings;
    if !totals_ok(core) {
        return false;
    }
    if core.total_ms.0 <= 604800000 {
        return counts_ok(core, steps)
            & lap_ok(core.done, length, lap)
            & tallies_ok(summary, core.total_ms.0)
            & measured_ok(measured, core.total_ms.0)
            & readings_ok(readings);
    }
    false
}

// The step on now and its note are those of a played step.
fn step_is(on: StepNow, note: Name, played: Played) -> bool
    ensures { result ≡ step_is on note played }
{
    (on == step_now(played)) & (note == played.step.note)
}

// Question 20.
#[tactic(auto, unfolding(crate::specs::Standing::standing_of))]
pub fn is_standing(player: Player) -> bool
    ensures { result ≡ standing_of player }
{
    let core = player.core;
    let workout = player.workout;
    let note = player.note;
    let on = core.on;
    if validation::check(workout).is_err() {
        return false;
    }
    if !core_ok(core, played_len(workout)) {
        return false;
    }
    let played = played_at(workout, on_place(core)).unwrap_or(NO_PLAYED);
    step_is(on, note, played)
}
