// player.rs's calls that change the player: `read`, ride (the loop of `add` without its `read`), `add`, `skip` and `extend`, by the
// default or by an amount, with document 01's questions in their order. Each takes the player and gives it back.
#![tactic(auto)]

ghost use Rattle.std.specs.Prelude.{◌≡◌, ◌≤◌, length};
ghost use Rattle.zones.specs.Zones.{profile_ok};
ghost use Rattle.outcomes.specs.Outcomes.{Answers};
ghost use Rattle.player.specs.Calls.{places_ok, update_answer, ride_of, read_of, skip_of, extend_with, extend_of, add_of};

use outcomes::{Extended, Update, extend_by, not_extended, plain, with_core};
use readings::Sample;
use refusal::Refusal;
use standing::{cadence_in, is_standing};
use state::{Core, Mm, Ms, Player};
use updates::{add_now, ride_now, skip_now};
use zones::TrainingProfile;

// What `extend` adds to the step on now (document 02, i; the Rust's are 60 and 500).
pub const EXTEND_S: u32 = 30;

pub const EXTEND_M: u32 = 250;

// Question 10.
fn is_sound(profile: TrainingProfile) -> bool
    ensures { result ≡ profile_ok profile }
{
    profile.check().is_ok()
}

// Question 14.
fn places_ok(core: Core, kinds: usize, values: usize) -> bool
    requires { core.steps ≤ 96 }
    ensures { result ≡ places_ok core kinds values }
{
    let places = core.event_places();
    (places <= kinds) & (places <= values)
}

// Questions 12 to 14, of a core whose totals and steps are within their limits.
pub fn update_answer(core: Core, ms: Ms, mm: Mm, kinds: usize, values: usize) -> Result<(), Refusal>
    requires { (core.total_ms.0 ≤ 604800000) × (core.total_mm.0 ≤ 7000000000) × (core.steps ≤ 96) }
    ensures { result ≡ update_answer core ms.0 mm.0 kinds values }
{
    if 86400000 < ms.0 {
        return Err(Refusal::Update);
    }
    if 1000000000 < mm.0 {
        return Err(Refusal::Update);
    }
    if 604800000 < core.total_ms.0 + ms.0 {
        return Err(Refusal::Totals);
    }
    if 7000000000 < core.total_mm.0 + mm.0 {
        return Err(Refusal::Totals);
    }
    if !places_ok(core, kinds, values) {
        return Err(Refusal::EventPlaces);
    }
    Ok(())
}

// Account `ms` of recorded riding over `mm` under the last reading. Riding past a step's end counts in the steps after it.
pub fn ride(
    player: Player,
    ms: Ms,
    mm: Mm,
    profile: TrainingProfile,
    kinds: &mut [u8],
    values: &mut [u16],
) -> Update
    ensures { Answers kinds.old values.old kinds.new values.new result (ride_of player ms.0 mm.0 profile (length kinds.old) (length values.old)) }
{
    let core = player.core;
    if !is_standing(player) {
        return plain(player, Err(Refusal::Standing));
    }
    if !is_sound(profile) {
        return plain(player, Err(Refusal::Profile));
    }
    match update_answer(core, ms, mm, kinds.len(), values.len()) {
        Ok(()) => ride_now(player, ms, mm, profile, kinds, values),
        Err(refusal) => plain(player, Err(refusal)),
    }
}

// Take `sample`'s readings, once per update.
pub fn read(player: Player, sample: Sample) -> Update
    ensures { result ≡ read_of player sample }
{
    let core = player.core;
    let cadence = sample.cadence_tenths;
    if !is_standing(player) {
        return plain(player, Err(Refusal::Standing));
    }
    if !cadence_in(cadence) {
        return plain(player, Err(Refusal::Cadence));
    }
    plain(with_core(player, core.read(sample)), Ok(()))
}

// Account `ms` of recorded riding over `mm` with `sample`'s readings.
pub fn add(
    player: Player,
    ms: Ms,
    mm: Mm,
    sample: Sample,
    profile: TrainingProfile,
    kinds: &mut [u8],
    values: &mut [u16],
) -> Update
    ensures { Answers kinds.old values.old kinds.new values.new result (add_of player ms.0 mm.0 sample profile (length kinds.old) (length values.old)) }
{
    let core = player.core;
    let cadence = sample.cadence_tenths;
    if !is_standing(player) {
        return plain(player, Err(Refusal::Standing));
    }
    if !is_sound(profile) {
        return plain(player, Err(Refusal::Profile));
    }
    if !cadence_in(cadence) {
        return plain(player, Err(Refusal::Cadence));
    }
    match update_answer(core, ms, mm, kinds.len(), values.len()) {
        Ok(()) => add_now(player, ms, mm, sample, profile, kinds, values),
        Err(refusal) => plain(player, Err(refusal)),
    }
}

// The rider ends the step now, as a lap press does.
pub fn skip(player: Player, kinds: &mut [u8], values: &mut [u16]) -> Update
    ensures { Answers kinds.old values.old kinds.new values.new result (skip_of player (length kinds.old) (length values.old)) }
{
    let core = player.core;
    if !is_standing(player) {
        return plain(player, Err(Refusal::Standing));
    }
    if !places_ok(core, kinds.len(), values.len()) {
        return plain(player, Err(Refusal::EventPlaces));
    }
    skip_now(player, kinds, values)
}

// Add `secs` (or `metres`) to the step on now; open steps need none.
pub fn extend_with(player: Player, secs: u32, metres: u32) -> Extended
    ensures { result ≡ extend_with secs metres player }
{
    let core = player.core;
    if !is_standing(player) {
        return not_extended(player, Err(Refusal::Standing));
    }
    if core.done {
        return not_extended(player, Ok(()));
    }
    extend_by(player, secs, metres)
}

// The handlebar button: the same by the default.
pub fn extend(player: Player) -> Extended
    ensures { result ≡ extend_of player }
{
    extend_with(player, EXTEND_S, EXTEND_M)
}
