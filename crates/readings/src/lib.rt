// ride/log.rs's `Sample`, of which the workout module uses three readings, and player.rs's `read`, `reading` and `compliance`.
#![tactic(auto)]

ghost use Rattle.std.specs.Prelude.{◌≡◌, ◌≤◌};
ghost use Rattle.readings.specs.Readings.{flag_set, per_minute, reading_of, against, compared, judged, compliance_of, taken, no_readings};

use model::{Band, Metric, Target};
use power::{Power3s, with_reading};
use zones::TrainingProfile;

// The three readings of log.rs's `Sample` that the player uses.
#[derive(Clone, Copy, Drop)]
pub struct Sample {
    pub power_watts: Option<u16>,
    pub heart_bpm: Option<u16>,
    // Tenths of a turn per minute.
    pub cadence_tenths: Option<u16>,
}

// What the rider's sensors say: the last sample, and the average that power is checked as.
#[derive(Clone, Copy, Drop)]
pub struct Readings {
    pub last_sample: Sample,
    pub power: Power3s,
}

// Where the reading sits against the step's band.
#[derive(Clone, Copy, Drop)]
pub enum Compliance {
    Under,
    In,
    Over,
}

// A compliance, or why there is none: the target has no band, or the band's reading is absent. Three cases and no `Option`: `tally`
// counts the second as unread time.
#[derive(Clone, Copy, Drop)]
pub enum ComplianceOption {
    NoBand,
    NoReading,
    Some(Compliance),
}

// Before the first sample.
pub const NO_READINGS: Readings = Readings {
    last_sample: Sample {
        power_watts: None,
        heart_bpm: None,
        cadence_tenths: None,
    },
    power: Power3s {
        watts: [0; 3],
        present: [false; 3],
        next: 0,
    },
};

pub fn no_readings() -> Readings
    ensures { result ≡ no_readings }
{
    NO_READINGS
}

// Whether the flag of this value is among the flags.
pub fn is_set(flags: u16, value: u16) -> bool
    requires { 1 ≤ value }
    ensures { result ≡ flag_set flags value }
{
    flags / value % 2 == 1
}

// Whole turns per minute of a cadence in tenths, rounded half up.
fn per_minute(cadence: Option<u16>) -> Option<u16>
    ensures { result ≡ per_minute cadence }
{
    cadence.map(|tenths| (((tenths as u32) + 5) / 10) as u16)
}

impl Readings {
    // player.rs's `read`: the sample's power joins the average, and the sample is the last one.
    #[tactic(auto, unfolding(crate::specs::Readings::taken))]
    pub fn read(self, sample: Sample) -> Readings
        ensures { result ≡ taken sample self }
    {
        Readings {
            last_sample: sample,
            power: with_reading(self.power, sample.power_watts),
        }
    }

    // The reading a metric is checked by.
    #[tactic(auto, unfolding(crate::specs::Readings::reading_of))]
    pub fn reading(self, metric: Metric) -> Option<u16>
        ensures { result ≡ reading_of metric self }
    {
        match metric {
            Metric::Power => self.power.watts(),
            Metric::Heart => self.last_sample.heart_bpm,
            Metric::Cadence => per_minute(self.last_sample.cadence_tenths),
        }
    }
}

// A number against a range, both ends of which are in it.
#[derive(Clone, Copy, Drop)]
struct Compared {
    low: u16,
    high: u16,
    value: u16,
}

fn against_range(c: Compared) -> Compliance
    ensures { result ≡ against c.low c.high c.value }
{
    if c.value < c.low {
        return Compliance::Under;
    }
    if c.high < c.value {
        return Compliance::Over;
    }
    Compliance::In
}

// What is compared: the reading with the band, but for a heart zone the reading's zone with the target's.
fn to_compare(target: Target, band: Band, profile: TrainingProfile, reading: u16) -> Compared
    ensures { result ≡ compared target band profile reading }
{
    let by_band = Compared {
        low: band.low,
        high: band.high,
        value: reading,
    };
    match target {
        Target::HeartZone(zone) => {
            let at = zone.clamp(1, 5) as u16;
            Compared {
                low: at,
                high: at,
                value: profile.heart_zone(reading) as u16,
            }
        }
        _ => by_band,
    }
}

#[tactic(auto, unfolding(crate::specs::Readings::judged))]
fn judge(
    target: Target,
    band: Band,
    profile: TrainingProfile,
    reading: Option<u16>,
) -> ComplianceOption
    ensures { result ≡ judged target band profile reading }
{
    match reading {
        None => ComplianceOption::NoReading,
        Some(value) => {
            ComplianceOption::Some(against_range(to_compare(target, band, profile, value)))
        }
    }
}

impl Readings {
    // A heart zone target holds the whole zone, open ends included; other targets hold their band.
    #[tactic(auto, unfolding(crate::specs::Readings::compliance_of))]
    pub fn compliance(
        self,
        target: Target,
        band: Option<Band>,
        profile: TrainingProfile,
    ) -> ComplianceOption
        ensures { result ≡ compliance_of target band profile self }
    {
        match band {
            None => ComplianceOption::NoBand,
            Some(found) => judge(target, found, profile, self.reading(found.metric)),
        }
    }
}
