// player.rs's `measure`, `result` and `ramp_failed`: the twenty minutes' energy, the ramp's minutes, whether the rider holds the
// ramp, and the FTP a test gives.
#![tactic(auto)]

ghost use Rattle.std.specs.Prelude.{◌≡◌, cond, ◌+◌, ◌<◌, ◌≤◌, min, max, eqb, length};
ghost use Rattle.common.specs.Lists.{sum};
ghost use Rattle.state.specs.State.{duration_ms, SmallEnergy};
ghost use Rattle.measure.specs.Measure.{above, best_after, minute_of, pushed, pushes, test_in, ramp_target, low_by, with_twenty, meter, ramp_part, measured_of, MeasureFits, kept_ftp, twenty_ftp, twenty_by, ramp_ftp, result_of, ramp_failed};

use model::{Intensity, Length, Ramp, Test};
use readings::Readings;
use state::{Lap, Measured, Ring, StepNow};
use zones::TrainingProfile;

fn minute_sum(minute: &[u16; 60]) -> u32
    requires { length minute.now ≡ 60 }
    ensures { (result ≡ sum minute.now) × (result ≤ 3932100) }
{
    minute.iter().map(|watts| u32::from(*watts)).sum()
}

// The better of the best minute so far and another.
fn better(best: Option<u16>, mean: u16) -> u16
    ensures { result ≡ above best mean }
{
    match best {
        None => mean,
        Some(watts) => watts.max(mean),
    }
}

// The best minute, once the minute is full.
fn best_after(best: Option<u16>, len: u8, minute: &[u16; 60]) -> Option<u16>
    requires { length minute.now ≡ 60 }
    ensures { result ≡ best_after (eqb len 60) 60 best minute.now }
{
    if len == 60 {
        let mean = ((minute_sum(minute) + 30) / 60) as u16;
        return Some(better(best, mean));
    }
    best
}

// One second of `watts` more.
fn push_second(ring: Ring, watts: u16, minute: &mut [u16; 60]) -> Ring
    requires { (ring.minute_at < 60) × (length minute.old ≡ 60) }
    ensures { minute_of result minute.new ≡ pushed 60 watts (minute_of ring minute.old) }
{
    let at = ring.minute_at as usize;
    minute[at] = watts;
    let len = one_more(ring.minute_len);
    let best = ring.best_minute;
    let best_minute = best_after(best, len, minute);
    Ring {
        best_minute,
        minute_at: ((at + 1) % 60) as u8,
        minute_len: len,
    }
}

fn one_more(len: u8) -> u8
    ensures { result ≡ min (len + 1) 60 }
{
    len.min(59) + 1
}

// `count` seconds of `watts` more.
fn push_seconds(ring: Ring, count: u64, watts: u16, minute: &mut [u16; 60]) -> Ring
    requires { (ring.minute_at < 60) × (length minute.old ≡ 60) }
    ensures { minute_of result minute.new ≡ pushes 60 count watts (minute_of ring minute.old) }
{
    let mut r = ring;
    for _ in 0..count {
        r = push_second(r, watts, minute);
    }
    r
}

// The workout's test in a step of `Test` intensity, none elsewhere.
pub fn test_in(intensity: Intensity, test: Test) -> Test
    ensures { result ≡ test_in intensity test }
{
    match intensity {
        Intensity::Warmup => Test::None,
        Intensity::Work => Test::None,
        Intensity::Recovery => Test::None,
        Intensity::Cooldown => Test::None,
        Intensity::Test => test,
    }
}

// The watts a ramp asks for, 0 without a ramp.
fn ramp_target(ramp: Option<Ramp>, secs: u32) -> u16
    ensures { result ≡ ramp_target ramp secs }
{
    match ramp {
        None => 0,
        Some(found) => found.watts(secs),
    }
}

// How long the rider has been under 90 % of the ramp, after `ms` more. Without a power reading there is no evidence either way.
fn low_after(target: u16, average: Option<u16>, ms: u64, low: u64) -> u64
    requires { low + ms ≤ 604800000 }
    ensures { result ≡ low_by target average ms low }
{
    match average {
        None => low,
        Some(watts) => {
            if (target as u32) * 90 <= (watts as u32) * 100 {
                0
            } else {
                low + ms
            }
        }
    }
}

// The twenty minutes' energy and time.
fn twenty(measured: Measured, watts: u16, ms: u64) -> Measured
    requires { SmallEnergy measured × (measured.test_ms + ms ≤ 604800000) }
    ensures { (result ≡ with_twenty watts ms measured) × SmallEnergy result }
{
    let mut q = measured;
    q.test_mj = q.test_mj + (watts as u64) * ms;
    q.test_ms = q.test_ms + ms;
    q
}

// One place of the minute per whole second ridden, however updates fall; more than a minute at once fills it once.
fn ramp_part(measured: Measured, watts: u16, ms: u64, low: u64, minute: &mut [u16; 60]) -> Measured
    requires { (measured.ring.minute_at < 60) × (measured.minute_rest_ms < 1000) × (ms ≤ 604800000) × (length minute.old ≡ 60) }
    ensures { meter result minute.new ≡ ramp_part watts ms low (meter measured minute.old) }
{
    let total = measured.minute_rest_ms + ms;
    let ring = measured.ring;
    let filled = push_seconds(ring, (total / 1000).min(60), watts, minute);
    let mut q = measured;
    q.minute_rest_ms = total % 1000;
    q.ramp_low_ms = low;
    q.ring = filled;
    q
}

// The test's numbers after `ms` of the step on now, which then has lasted `step_ms`.
pub fn measure(
    measured: Measured,
    test: Test,
    on: StepNow,
    readings: Readings,
    profile: TrainingProfile,
    step_ms: u64,
    ms: u64,
    minute: &mut [u16; 60],
) -> Measured
    requires { MeasureFits measured step_ms ms × (length minute.old ≡ 60) }
    ensures { (meter result minute.new ≡ measured_of test on readings profile step_ms ms (meter measured minute.old)) × SmallEnergy result }
{
    let intensity = on.intensity;
    let sample = readings.last_sample;
    let reading = sample.power_watts;
    let watts = reading.unwrap_or(0);
    match test_in(intensity, test) {
        Test::None => measured,
        Test::Twenty => twenty(measured, watts, ms),
        Test::Ramp => {
            let target = on.target;
            let power = readings.power;
            let goal = ramp_target(target.ramp(profile), (step_ms / 1000) as u32);
            let low = low_after(goal, power.watts(), ms, measured.ramp_low_ms);
            ramp_part(measured, watts, ms, low, minute)
        }
    }
}

// An FTP that counts.
fn kept_ftp(watts: u64) -> Option<u16>
    ensures { result ≡ kept_ftp watts }
{
    if watts < 50 {
        return None;
    }
    if 600 < watts {
        return None;
    }
    Some(watts as u16)
}

// 95 % of the average power, of the whole step.
fn twenty_ftp(measured: Measured, end_ms: u64) -> Option<u16>
    requires { SmallEnergy measured × (measured.test_ms ≤ 604800000) }
    ensures { result ≡ twenty_ftp end_ms measured }
{
    let ms = measured.test_ms;
    if ms < end_ms {
        return None;
    }
    if ms == 0 {
        return None;
    }
    let average = (measured.test_mj + ms / 2) / ms;
    kept_ftp((average * 95 + 50) / 100)
}

fn twenty_result(lasts: Length, lap: Lap, measured: Measured) -> Option<u16>
    requires { SmallEnergy measured × (measured.test_ms ≤ 604800000) }
    ensures { result ≡ twenty_by lasts lap measured }
{
    match lasts {
        Length::Time(secs) => twenty_ftp(measured, lap.duration_ms(secs)),
        Length::Distance(_) => None,
        Length::Open => None,
    }
}

// 75 % of the best minute.
fn ramp_result(best: Option<u16>) -> Option<u16>
    ensures { result ≡ ramp_ftp best }
{
    match best {
        None => None,
        Some(watts) => kept_ftp(((watts as u64) * 75 + 50) / 100),
    }
}

// The FTP the step that is ending measured, if it is a test's and counts: the whole twenty minutes, or a ramp with at least one
// full minute.
pub fn result(measured: Measured, test: Test, on: StepNow, lap: Lap, skipped: bool) -> Option<u16>
    requires { SmallEnergy measured × (measured.test_ms ≤ 604800000) }
    ensures { result ≡ result_of test on lap skipped measured }
{
    let intensity = on.intensity;
    let length = on.length;
    let ring = measured.ring;
    let best = ring.best_minute;
    match test_in(intensity, test) {
        Test::None => None,
        Test::Twenty => {
            if skipped {
                return None;
            }
            twenty_result(length, lap, measured)
        }
        Test::Ramp => ramp_result(best),
    }
}

// A ramp ends after the rider stays under it for 10 s, but not in its first stage.
pub fn ramp_failed(ramp: Option<Ramp>, step_ms: u64, low: u64) -> bool
    ensures { result ≡ ramp_failed ramp step_ms low }
{
    match ramp {
        None => false,
        Some(found) => ((found.every as u64) * 1000 <= step_ms) & (10000 <= low),
    }
}
