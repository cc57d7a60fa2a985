// model.rs: steps with a length and a target, the blocks that repeat some of them, and what a target asks of a rider.
// The rest of model.rs stands in `names` (`Name`), `blocks` (sound blocks), `order` (the playing order) and `validation` (`validate`).
#![tactic(auto)]

ghost use Rattle.std.specs.Prelude.{◌≡◌};
ghost use Rattle.model.specs.Target.{band_of, ramp_option, ramp_band, of_ftp, capped, wrapped, stage_of, stage_watts, watts_at};
ghost use Rattle.model.specs.Workout.{empty_workout};

use names::Name;
use zones::TrainingProfile;

// Distinct steps in one workout, before repeats.
pub const MAX_STEPS: usize = 12;
// Repeated blocks in one workout.
pub const MAX_BLOCKS: usize = 8;
// Steps a played workout can run through, repeats expanded.
pub const MAX_PLAYED: usize = 96;
// The shortest distance step: one update never crosses many of them.
pub const MIN_DISTANCE_M: u32 = 100;

// What a step is for.
#[derive(Clone, Copy, Drop, PartialEq, Eq)]
pub enum Intensity {
    Warmup,
    Work,
    Recovery,
    Cooldown,
    // The measured effort of an FTP test.
    Test,
}

// How long a step lasts.
#[derive(Clone, Copy, Drop, PartialEq, Eq)]
pub enum Length {
    // Recorded (active) seconds; a pause adds none.
    Time(u16),
    // Metres of wheel distance.
    Distance(u32),
    // Until the rider marks a lap, or, for a ramp, until they cannot hold it.
    Open,
}

// What the rider aims for during a step.
#[derive(Clone, Copy, Drop, PartialEq, Eq)]
pub enum Target {
    // Ride as you feel; nothing is checked.
    Free,
    // Power as a percentage range of FTP.
    Ftp { low: u8, high: u8 },
    // Absolute power.
    Watts { low: u16, high: u16 },
    // A heart-rate zone, 1 to 5.
    HeartZone(u8),
    // Heart rate as a percentage range of LTHR.
    Lthr { low: u8, high: u8 },
    // Cadence in rpm.
    Cadence { low: u8, high: u8 },
    // An FTP ramp: `start` watts for the first `every` seconds, then `step` watts more each `every` seconds until the rider fails.
    Ramp { start: u16, step: u16, every: u16 },
    // The same ramp in percent of FTP, so it fits the rider.
    FtpRamp { start: u8, step: u8, every: u16 },
}

// A ramp in watts: `start` for its first `every` seconds, then `step` more each `every` seconds.
#[derive(Clone, Copy, Drop)]
pub struct Ramp {
    pub start: u16,
    pub step: u16,
    pub every: u16,
}

// What a target measures, once resolved against the profile.
#[derive(Clone, Copy, Drop)]
pub enum Metric {
    Power,
    Heart,
    Cadence,
}

// A target as numbers: the band the rider aims for, inclusive.
#[derive(Clone, Copy, Drop)]
pub struct Band {
    pub metric: Metric,
    pub low: u16,
    pub high: u16,
}

#[derive(Clone, Copy, Drop, PartialEq, Eq)]
pub struct Step {
    pub intensity: Intensity,
    pub length: Length,
    pub target: Target,
    // A short cue, such as "HIGH CADENCE"; may be empty.
    pub note: Name,
}

// `count` runs of the `len` steps from `first`.
#[derive(Clone, Copy, Drop, PartialEq, Eq)]
pub struct Block {
    pub first: u8,
    pub len: u8,
    pub count: u8,
}

// FTP tests the player measures.
#[derive(Clone, Copy, Drop)]
pub enum Test {
    None,
    // FTP is 95 % of the average power of the whole `Intensity::Test` step.
    Twenty,
    // FTP is 75 % of the best minute of the ramp step.
    Ramp,
}

#[derive(Clone, Copy, Drop)]
pub struct Workout {
    pub name: Name,
    pub steps: [Step; 12],
    pub step_count: u8,
    pub blocks: [Block; 8],
    pub block_count: u8,
    pub test: Test,
}

// What an unused place of a workout's steps holds.
pub const NO_STEP: Step = Step {
    intensity: Intensity::Work,
    length: Length::Open,
    target: Target::Free,
    note: Name {
        bytes: [0; 20],
        len: 0,
    },
};

// What an unused place of a workout's blocks holds.
pub const NO_BLOCK: Block = Block {
    first: 0,
    len: 0,
    count: 0,
};

// The workout without name, steps, blocks or test.
#[tactic(auto, unfolding(crate::specs::Workout::empty_workout))]
pub fn empty_workout() -> Workout
    ensures { result ≡ empty_workout }
{
    let name = Name::empty();
    Workout {
        name,
        steps: [NO_STEP; 12],
        step_count: 0,
        blocks: [NO_BLOCK; 8],
        block_count: 0,
        test: Test::None,
    }
}

// `pct` percent of `base`, topping out instead of overflowing.
#[tactic(auto, unfolding(crate::specs::Target::capped))]
fn capped_percent(base: u16, pct: u8) -> u16
    ensures { result ≡ capped base pct }
{
    zones::percent(base, pct).min(65535) as u16
}

// The low 16 bits, which `as u16` keeps in the Rust.
fn low_bits(n: u32) -> u16
    ensures { result ≡ wrapped n }
{
    (n % 65536) as u16
}

impl Ramp {
    // The stage `elapsed_s` into the ramp, the first being 0.
    #[tactic(auto, unfolding(crate::specs::Target::stage_of))]
    pub fn stage(self, elapsed_s: u32) -> u32
        ensures { result ≡ stage_of self elapsed_s }
    {
        elapsed_s / (self.every.max(1) as u32)
    }

    // The watts of `stage`, topping out instead of overflowing.
    #[tactic(auto, unfolding(crate::specs::Target::stage_watts))]
    pub fn stage_watts(self, stage: u32) -> u16
        ensures { result ≡ stage_watts self stage }
    {
        let watts = (self.start as u64) + (stage as u64) * (self.step as u64);
        watts.min(65535) as u16
    }

    // The watts `elapsed_s` into the ramp.
    #[tactic(auto, unfolding(crate::specs::Target::watts_at))]
    pub fn watts(self, elapsed_s: u32) -> u16
        ensures { result ≡ watts_at self elapsed_s }
    {
        self.stage_watts(self.stage(elapsed_s))
    }

    // The band around the ramp's watts.
    #[tactic(auto, unfolding(crate::specs::Target::ramp_band))]
    fn band(self, elapsed_s: u32) -> Band
        ensures { result ≡ ramp_band self elapsed_s }
    {
        let watts = self.watts(elapsed_s);
        Band {
            metric: Metric::Power,
            low: capped_percent(watts, 95),
            high: capped_percent(watts, 110),
        }
    }
}

// A ramp in percent of FTP as one in watts.
#[tactic(auto, unfolding(crate::specs::Target::of_ftp))]
fn ftp_ramp(start: u8, step: u8, every: u16, profile: TrainingProfile) -> Ramp
    ensures { result ≡ of_ftp start step every profile }
{
    let ftp = profile.ftp_watts;
    Ramp {
        start: low_bits(zones::percent(ftp, start)),
        step: low_bits(zones::percent(ftp, step)).max(1),
        every,
    }
}

impl Target {
    // The ramp in watts for `profile`; `None` for any other target.
    #[tactic(auto, unfolding(crate::specs::Target::ramp_option))]
    pub fn ramp(self, profile: TrainingProfile) -> Option<Ramp>
        ensures { result ≡ ramp_option self profile }
    {
        match self {
            Target::Ramp { start, step, every } => Some(Ramp { start, step, every }),
            Target::FtpRamp { start, step, every } => {
                Some(ftp_ramp(start, step, every, profile))
            }
            _ => None,
        }
    }

    // The band this target asks for `elapsed_s` into its step; `None` for a free ride.
    #[tactic(auto, unfolding(crate::specs::Target::band_of))]
    pub fn band(self, profile: TrainingProfile, elapsed_s: u32) -> Option<Band>
        ensures { result ≡ band_of self profile elapsed_s }
    {
        match self {
            Target::Free => None,
            Target::Ftp { low, high } => Some(Band {
                metric: Metric::Power,
                low: capped_percent(profile.ftp_watts, low),
                high: capped_percent(profile.ftp_watts, high),
            }),
            Target::Watts { low, high } => Some(Band {
                metric: Metric::Power,
                low,
                high,
            }),
            Target::HeartZone(zone) => {
                let range = profile.heart_range(zone);
                Some(Band {
                    metric: Metric::Heart,
                    low: low_bits(range.low),
                    high: low_bits(range.next - 1),
                })
            }
            Target::Lthr { low, high } => Some(Band {
                metric: Metric::Heart,
                low: capped_percent(profile.lthr_bpm, low),
                high: capped_percent(profile.lthr_bpm, high),
            }),
            Target::Cadence { low, high } => Some(Band {
                metric: Metric::Cadence,
                low: low as u16,
                high: high as u16,
            }),
            Target::Ramp { start, step, every } => {
                let ramp = Ramp { start, step, every };
                Some(ramp.band(elapsed_s))
            }
            Target::FtpRamp { start, step, every } => {
                let ramp = ftp_ramp(start, step, every, profile);
                Some(ramp.band(elapsed_s))
            }
        }
    }
}
