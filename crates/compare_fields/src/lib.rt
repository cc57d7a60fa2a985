// Sets one field of a player by its number, for tests only: so players are made that no list of calls reaches. The numbers stand
// in tests/oracle/fields.rs.
#![tactic(auto)]

ghost use Rattle.std.specs.Prelude.{◌≡◌, ◌%◌};
ghost use Rattle.compare_fields.specs.Fields.{set_number, set_lap, set_measured, set_summary, set_on, set_place, set_readings, set_core, set_workout, set_field};

use model::{Intensity, Length, Target, Workout};
use power::Power3s;
use readings::Readings;
use state::{Core, Lap, Measured, Mm, Ms, Player, Ring, StepNow, Summary};

fn low32(n: u64) -> u32
    ensures { result ≡ n % 4294967296 }
{
    (n % 4294967296) as u32
}

fn low16(n: u64) -> u16
    ensures { result ≡ n % 65536 }
{
    (n % 65536) as u16
}

fn low8(n: u64) -> u8
    ensures { result ≡ n % 256 }
{
    (n % 256) as u8
}

fn set_number(core: Core, at: u32, value: u64) -> Core
    ensures { result ≡ set_number core at value }
{
    let mut q = core;
    match at {
        0 => {
            q.position = value as usize;
            q
        }
        1 => {
            q.steps = value as usize;
            q
        }
        2 => {
            let total = Ms(value);
            q.total_ms = total;
            q
        }
        3 => {
            let total = Mm(value);
            q.total_mm = total;
            q
        }
        _ => {
            q.done = value != 0;
            q
        }
    }
}

fn set_lap(lap: Lap, at: u32, value: u64) -> Lap
    ensures { result ≡ set_lap lap at value }
{
    let mut q = lap;
    match at {
        0 => {
            q.step_ms = value;
            q
        }
        1 => {
            q.step_mm = value;
            q
        }
        2 => {
            q.extra_s = low32(value);
            q
        }
        _ => {
            q.extra_m = low32(value);
            q
        }
    }
}

fn set_measured(measured: Measured, at: u32, value: u64) -> Measured
    ensures { result ≡ set_measured measured at value }
{
    let mut q = measured;
    match at {
        0 => {
            q.test_mj = value;
            q
        }
        1 => {
            q.test_ms = value;
            q
        }
        2 => {
            q.minute_rest_ms = value;
            q
        }
        3 => {
            q.ramp_low_ms = value;
            q
        }
        4 => {
            let number = low8(value);
            q.ring.minute_at = number;
            q
        }
        5 => {
            let number = low8(value);
            q.ring.minute_len = number;
            q
        }
        _ => {
            let ring = measured.ring;
            let best = Ring {
                best_minute: Some(low16(value)),
                ..ring
            };
            q.ring = best;
            q
        }
    }
}

fn set_summary(summary: Summary, at: u32, value: u64) -> Summary
    ensures { result ≡ set_summary summary at value }
{
    let mut q = summary;
    match at {
        0 => {
            q.targeted_ms = value;
            q
        }
        1 => {
            q.in_ms = value;
            q
        }
        2 => {
            q.under_ms = value;
            q
        }
        3 => {
            q.over_ms = value;
            q
        }
        4 => {
            q.steps_done = low16(value);
            q
        }
        5 => {
            q.steps = low16(value);
            q
        }
        6 => {
            q.skipped = low16(value);
            q
        }
        7 => {
            q.finished = value != 0;
            q
        }
        8 => {
            q.unread_ms = value;
            q
        }
        _ => Summary {
            ftp: Some(low16(value)),
            ..summary
        },
    }
}

// Its place in the order; or another length, intensity or target.
fn set_on(on: StepNow, at: u32, value: u64) -> StepNow
    ensures { result ≡ set_on on at value }
{
    let mut q = on;
    match at {
        0 => {
            q.index = low8(value);
            q
        }
        1 => {
            q.repetition = low8(value);
            q
        }
        2 => {
            q.of = low8(value);
            q
        }
        3 => StepNow {
            length: Length::Time(low16(value)),
            ..on
        },
        4 => StepNow {
            length: Length::Distance(low32(value)),
            ..on
        },
        5 => StepNow {
            length: Length::Open,
            ..on
        },
        6 => StepNow {
            intensity: Intensity::Warmup,
            ..on
        },
        _ => StepNow {
            target: Target::HeartZone(low8(value)),
            ..on
        },
    }
}

// Place `at % 3` of the average: its watts, and present from 65,536 on.
fn set_place(power: Power3s, at: u32, value: u64) -> Power3s
    ensures { result ≡ set_place power at value }
{
    let mut q = power;
    let place = (at % 3) as usize;
    q.watts[place] = low16(value);
    q.present[place] = 65535 < value;
    q
}

// The last cadence, present; the average's place; the last heart rate and power, present; or one of the average's places.
fn set_readings(readings: Readings, at: u32, value: u64) -> Readings
    ensures { result ≡ set_readings readings at value }
{
    let mut q = readings;
    match at {
        0 => {
            let last = readings.last_sample;
            let sample = readings::Sample {
                cadence_tenths: Some(low16(value)),
                ..last
            };
            q.last_sample = sample;
            q
        }
        1 => {
            let place = low8(value);
            q.power.next = place;
            q
        }
        2 => {
            let last = readings.last_sample;
            let sample = readings::Sample {
                heart_bpm: Some(low16(value)),
                ..last
            };
            q.last_sample = sample;
            q
        }
        3 => {
            let last = readings.last_sample;
            let sample = readings::Sample {
                power_watts: Some(low16(value)),
                ..last
            };
            q.last_sample = sample;
            q
        }
        _ => {
            let power = readings.power;
            let set = set_place(power, at, value);
            q.power = set;
            q
        }
    }
}

// By the group: numbers, the step's amounts, the tests, the summary, the step on now, the readings.
fn set_core(core: Core, group: u32, at: u32, value: u64) -> Core
    ensures { result ≡ set_core core group at value }
{
    let mut q = core;
    match group {
        0 => set_number(core, at, value),
        1 => {
            let lap = core.lap;
            let set = set_lap(lap, at, value);
            q.lap = set;
            q
        }
        2 => {
            let measured = core.measured;
            let set = set_measured(measured, at, value);
            q.measured = set;
            q
        }
        3 => {
            let summary = core.summary;
            let set = set_summary(summary, at, value);
            q.summary = set;
            q
        }
        4 => {
            let on = core.on;
            let set = set_on(on, at, value);
            q.on = set;
            q
        }
        _ => {
            let readings = core.readings;
            let set = set_readings(readings, at, value);
            q.readings = set;
            q
        }
    }
}

// The counts of steps and of blocks.
fn set_workout(workout: Workout, at: u32, value: u64) -> Workout
    ensures { result ≡ set_workout workout at value }
{
    let mut q = workout;
    match at {
        0 => {
            q.step_count = low8(value);
            q
        }
        _ => {
            q.block_count = low8(value);
            q
        }
    }
}

// Field `field % 16` of group `field / 16`: those of the core, then those of the workout, then the note's length; past those place
// `field % 60` of the ring's watts.
pub fn set_field(player: Player, field: u32, value: u64) -> Player
    ensures { result ≡ set_field player field value }
{
    let mut q = player;
    let group = field / 16;
    let at = field % 16;
    if group < 6 {
        let core = player.core;
        let set = set_core(core, group, at, value);
        q.core = set;
        return q;
    }
    if group == 6 {
        let workout = player.workout;
        let set = set_workout(workout, at, value);
        q.workout = set;
        return q;
    }
    if group == 7 {
        let len = low8(value);
        q.note.len = len;
        return q;
    }
    let place = (field % 60) as usize;
    q.minute[place] = low16(value);
    q
}
