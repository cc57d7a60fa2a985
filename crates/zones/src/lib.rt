// ride/zones.rs: the rider's training profile and the zones it defines, with question 10 of document 01.
// Power uses seven zones in percent of FTP, heart rate five in percent of lactate threshold heart rate (LTHR).
// `ZoneTime`, which nothing of the workout module uses, is left out.
#![tactic(auto)]

ghost use Rattle.std.specs.Prelude.{◌≡◌, ◌≤◌};
ghost use Rattle.zones.specs.Zones.{percent_of, power_zone, heart_zone, power_range, heart_range, profile_answer, new_number, profile_new};
ghost use Rattle.refusal.specs.Number.{answer_number};

use refusal::Refusal;

// Upper bound of power zones 1 to 6, in percent of FTP, and where the open zone 7 stops for a position gauge.
static POWER_UPPER_PCT: [u8; 7] = [55, 75, 90, 105, 120, 150, 200];
// Lower bound of heart zones 2 to 5, in percent of LTHR, with the ends of the outer zones for a position gauge.
static HEART_BOUND_PCT: [u8; 6] = [65, 81, 90, 94, 100, 110];

// Thresholds the zones derive from.
#[derive(Clone, Copy, Drop)]
pub struct TrainingProfile {
    pub ftp_watts: u16,
    pub lthr_bpm: u16,
}

// Where a zone begins and where the next one begins.
#[derive(Clone, Copy, Drop)]
pub struct Range {
    pub low: u32,
    pub next: u32,
}

// `pct` percent of `base`, rounded half up.
#[tactic(auto, unfolding(crate::specs::Zones::percent_of))]
pub fn percent(base: u16, pct: u8) -> u32
    ensures { (result ≡ percent_of base pct) × (result ≤ 167114) }
{
    ((base as u32) * (pct as u32) + 50) / 100
}

impl TrainingProfile {
    // Question 10.
    #[tactic(auto, unfolding(crate::specs::Zones::profile_answer))]
    pub fn check(self) -> Result<(), Refusal>
        ensures { result ≡ profile_answer self }
    {
        let ftp = self.ftp_watts;
        let lthr = self.lthr_bpm;
        if (50 <= ftp) & (ftp <= 600) & (1 <= lthr) & (lthr <= 255) {
            Ok(())
        } else {
            Err(Refusal::Profile)
        }
    }

    // A profile, if both thresholds pass question 10.
    pub fn new(ftp_watts: u16, lthr_bpm: u16) -> Result<TrainingProfile, Refusal>
        ensures value { result ≡ profile_new ftp_watts lthr_bpm }
        ensures result_value { new_number result ≡ answer_number (profile_answer (record { ftp_watts = ftp_watts; lthr_bpm = lthr_bpm })) }
    {
        let profile = TrainingProfile {
            ftp_watts,
            lthr_bpm,
        };
        profile.check()?;
        Ok(profile)
    }

    // Power zone 1 to 7. A sum, which compiles without a jump for each bound, as `filter` with `count` does not.
    pub fn power_zone(self, watts: u16) -> u8
        ensures { result ≡ power_zone self watts }
    {
        let ftp = self.ftp_watts;
        let exceeded: u8 = POWER_UPPER_PCT[..6]
            .iter()
            .map(|pct| u8::from(percent(ftp, *pct) < (watts as u32)))
            .sum();
        1 + exceeded
    }

    // Heart rate zone 1 to 5, summed as the power zone is.
    pub fn heart_zone(self, bpm: u16) -> u8
        ensures { result ≡ heart_zone self bpm }
    {
        let lthr = self.lthr_bpm;
        let reached: u8 = HEART_BOUND_PCT[1..5]
            .iter()
            .map(|pct| u8::from(percent(lthr, *pct) <= (bpm as u32)))
            .sum();
        1 + reached
    }

    // Watts where `zone` begins and where the next one begins. The open top zone ends at twice FTP, for a gauge.
    #[tactic(auto, unfolding(crate::specs::Zones::power_range))]
    pub fn power_range(self, zone: u8) -> Range
        ensures { result ≡ power_range self zone }
    {
        let at = (zone.clamp(1, 7) - 1) as usize;
        let low = if at == 0 {
            0
        } else {
            percent(self.ftp_watts, POWER_UPPER_PCT[at - 1]) + 1
        };
        let next = percent(self.ftp_watts, POWER_UPPER_PCT[at]) + 1;
        Range {
            low,
            next: next.max(low + 1),
        }
    }

    // Beats where `zone` begins and where the next one begins. The open outer zones span 65 % to 110 % of LTHR, for a gauge.
    #[tactic(auto, unfolding(crate::specs::Zones::heart_range))]
    pub fn heart_range(self, zone: u8) -> Range
        ensures { result ≡ heart_range self zone }
    {
        let at = (zone.clamp(1, 5) - 1) as usize;
        let low = percent(self.lthr_bpm, HEART_BOUND_PCT[at]);
        let next = percent(self.lthr_bpm, HEART_BOUND_PCT[at + 1]);
        Range {
            low,
            next: next.max(low + 1),
        }
    }
}
