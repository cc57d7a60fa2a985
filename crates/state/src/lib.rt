// player.rs's state: the summary, the amounts of the step on now, the test's sums, and `until_end`, `read` and `extend` on them; and how
// many places for events an update wants.
// The workout and the minute's watts stand apart in `Player`, so that what a round of riding changes is small (`Core`).
#![tactic(auto)]

ghost use Rattle.std.specs.Prelude.{◌≡◌, ◌+◌, ◌-◌, ◌*◌, ◌≤◌};
ghost use Rattle.state.specs.State.{in_target_pct, duration_ms, distance_m, distance_mm, time_share, way_share, share_of, until_end, tallied, TallyFits, event_places, read_core, fresh_measured, extended_lap, step_now};

use model::{Intensity, Length, Target, Workout};
use names::Name;
use order::Played;
use readings::{Compliance, ComplianceOption, Readings, Sample};

// A time in milliseconds and a way in millimetres, which never stand in each other's place.
#[derive(Clone, Copy, Drop)]
pub struct Ms(pub u64);

#[derive(Clone, Copy, Drop)]
pub struct Mm(pub u64);

// Part of an update: its time and its way.
#[derive(Clone, Copy, Drop)]
pub struct Part {
    pub ms: Ms,
    pub mm: Mm,
}

// How the whole workout went so far, for the ride summary.
#[derive(Clone, Copy, Drop)]
pub struct Summary {
    // Recorded time with a target whose reading was absent. It stands first for the time that a replay takes (docs/TIMES.md).
    pub unread_ms: u64,
    // Recorded time with a target and a reading, and its split.
    pub targeted_ms: u64,
    pub in_ms: u64,
    pub under_ms: u64,
    pub over_ms: u64,
    // What a test measured, saved or not.
    pub ftp: Option<u16>,
    // Played steps finished, skipped ones included.
    pub steps_done: u16,
    pub steps: u16,
    pub skipped: u16,
    pub finished: bool,
}

// The amounts of the step on now, which start afresh with each step: what was ridden of it, and what touches added to it.
#[derive(Clone, Copy, Drop)]
pub struct Lap {
    pub step_ms: u64,
    pub step_mm: u64,
    pub extra_s: u32,
    pub extra_m: u32,
}

// The ramp's last minute of watts, but for the watts: the best full minute, the next place and how many places are filled.
#[derive(Clone, Copy, Drop)]
pub struct Ring {
    pub best_minute: Option<u16>,
    pub minute_at: u8,
    pub minute_len: u8,
}

// What the tests measure, of the step on now alone but for the time under a ramp.
#[derive(Clone, Copy, Drop)]
pub struct Measured {
    // The twenty minutes' energy and time.
    pub test_mj: u64,
    pub test_ms: u64,
    // Time that is no whole second yet.
    pub minute_rest_ms: u64,
    // How long the rider has been under the ramp.
    pub ramp_low_ms: u64,
    pub ring: Ring,
}

// player.rs's `played`, the step on now, but for its note.
#[derive(Clone, Copy, Drop, PartialEq, Eq)]
pub struct StepNow {
    pub length: Length,
    pub target: Target,
    pub intensity: Intensity,
    pub index: u8,
    pub repetition: u8,
    pub of: u8,
}

// What riding changes. The order of the fields leaves no gap between them.
#[derive(Clone, Copy, Drop)]
pub struct Core {
    pub position: usize,
    pub steps: usize,
    pub total_ms: Ms,
    pub total_mm: Mm,
    pub lap: Lap,
    pub measured: Measured,
    pub summary: Summary,
    pub on: StepNow,
    pub readings: Readings,
    pub done: bool,
}

#[derive(Clone, Copy, Drop)]
pub struct Player {
    pub core: Core,
    pub workout: Workout,
    // The note of the step on now.
    pub note: Name,
    // The ramp's last minute of watts.
    pub minute: [u16; 60],
}

impl Summary {
    // Share of targeted time on target, in whole percent.
    #[tactic(auto, unfolding(crate::specs::State::in_target_pct))]
    pub fn in_target_pct(self) -> Option<u8>
        ensures { result ≡ in_target_pct self }
    {
        let targeted = self.targeted_ms;
        let inside = self.in_ms;
        if targeted == 0 {
            return None;
        }
        if targeted < inside {
            return None;
        }
        if 4294967295 < targeted {
            return None;
        }
        Some(((inside * 100 + targeted / 2) / targeted) as u8)
    }

    // `ms` of riding with this compliance: targeted, unread where the band has no reading, and neither without a band.
    #[tactic(auto, unfolding(crate::specs::State::tallied))]
    pub fn tally(self, compliance: ComplianceOption, ms: u64) -> Summary
        requires { TallyFits self ms }
        ensures { result ≡ tallied compliance ms self }
    {
        let mut q = self;
        match compliance {
            ComplianceOption::NoBand => {}
            ComplianceOption::NoReading => q.unread_ms += ms,
            ComplianceOption::Some(how) => {
                q.targeted_ms += ms;
                match how {
                    Compliance::Under => q.under_ms += ms,
                    Compliance::In => q.in_ms += ms,
                    Compliance::Over => q.over_ms += ms,
                }
            }
        }
        q
    }
}

impl Lap {
    // The milliseconds of a timed step, with what touches added.
    pub fn duration_ms(self, secs: u16) -> u64
        ensures { result ≡ duration_ms secs self }
    {
        ((secs as u64) + (self.extra_s as u64)) * 1000
    }

    // The metres of a distance step, with what touches added; they top out at 32 bits.
    pub fn distance_m(self, metres: u32) -> u64
        ensures { (result ≡ distance_m metres self) × (result ≤ 4294967295) }
    {
        ((metres as u64) + (self.extra_m as u64)).min(4294967295)
    }

    pub fn distance_mm(self, metres: u32) -> u64
        ensures { result ≡ distance_mm metres self }
    {
        self.distance_m(metres) * 1000
    }

    // The step on now made longer, by seconds or by metres.
    pub fn extended(self, extra_s: u32, extra_m: u32) -> Lap
        requires { (self.extra_s + extra_s ≤ 86400) × (self.extra_m + extra_m ≤ 1000000) }
        ensures { result ≡ extended_lap extra_s extra_m self }
    {
        let mut q = self;
        q.extra_s += extra_s;
        q.extra_m += extra_m;
        q
    }
}

// What the tests have measured at a step's start: nothing. The time under a ramp is handed on.
pub fn fresh_measured(ramp_low_ms: u64) -> Measured
    ensures { result ≡ fresh_measured ramp_low_ms }
{
    Measured {
        test_mj: 0,
        test_ms: 0,
        minute_rest_ms: 0,
        ramp_low_ms,
        ring: Ring {
            best_minute: None,
            minute_at: 0,
            minute_len: 0,
        },
    }
}

// The part of an update that a step with `left` ms to go still holds.
fn time_share(left: u64, ms: u64, mm: u64) -> Part
    requires { (ms ≤ 86400000) × (mm ≤ 1000000000) }
    ensures { result ≡ time_share left ms mm }
{
    if left < ms {
        return Part {
            ms: Ms(left),
            mm: Mm(mm * left / ms),
        };
    }
    Part {
        ms: Ms(ms),
        mm: Mm(mm),
    }
}

// The part of an update that a step with `left` mm to go still holds.
fn way_share(left: u64, ms: u64, mm: u64) -> Part
    requires { (ms ≤ 86400000) × (mm ≤ 1000000000) }
    ensures { result ≡ way_share left ms mm }
{
    if left < mm {
        return Part {
            ms: Ms((ms * left + (mm - 1)) / mm),
            mm: Mm(left),
        };
    }
    Part {
        ms: Ms(ms),
        mm: Mm(mm),
    }
}

#[tactic(auto, unfolding(crate::specs::State::share_of))]
fn share(length: Length, lap: Lap, ms: u64, mm: u64) -> Part
    requires { (ms ≤ 86400000) × (mm ≤ 1000000000) }
    ensures { result ≡ share_of length lap ms mm }
{
    match length {
        Length::Time(secs) => {
            let left = lap.duration_ms(secs).saturating_sub(lap.step_ms);
            time_share(left, ms, mm)
        }
        Length::Distance(metres) => {
            let left = lap.distance_mm(metres).saturating_sub(lap.step_mm);
            way_share(left, ms, mm)
        }
        Length::Open => Part {
            ms: Ms(ms),
            mm: Mm(mm),
        },
    }
}

impl Core {
    // The part of `ms` over `mm` that the step on now still holds; all of it once the workout is done.
    #[tactic(auto, unfolding(crate::specs::State::until_end))]
    pub fn until_end(self, ms: Ms, mm: Mm) -> Part
        requires { (ms.0 ≤ 86400000) × (mm.0 ≤ 1000000000) }
        ensures { result ≡ until_end self ms.0 mm.0 }
    {
        if self.done {
            return Part { ms, mm };
        }
        share(self.on.length, self.lap, ms.0, mm.0)
    }

    // The places that the next update wants in each of its event arrays: two for each step that hasn't ended and one more, none once
    // the workout is done.
    pub fn event_places(self) -> usize
        requires { self.steps ≤ 96 }
        ensures { result ≡ event_places self }
    {
        if self.done {
            return 0;
        }
        2 * self.steps.saturating_sub(self.position) + 1
    }

    // Take `sample`'s readings, once per update.
    #[tactic(auto, unfolding(crate::specs::State::read_core))]
    pub fn read(self, sample: Sample) -> Core
        ensures { result ≡ read_core sample self }
    {
        let mut q = self;
        q.readings = q.readings.read(sample);
        q
    }
}

// A played step but for its note.
pub fn step_now(played: Played) -> StepNow
    ensures { result ≡ step_now played }
{
    StepNow {
        length: played.step.length,
        target: played.step.target,
        intensity: played.step.intensity,
        index: played.index,
        repetition: played.repetition,
        of: played.of,
    }
}
