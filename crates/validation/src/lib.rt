// model.rs's `validate`: questions 6 to 9 of document 01, and with question 5 before them all that is asked of a workout in memory.
#![tactic(auto)]

ghost use Rattle.std.specs.Prelude.{◌≡◌, take};
ghost use Rattle.validation.specs.Sound.{length_ok, within, target_ok, step_ok, steps_sound, valid_answer, workout_answer};

use blocks::blocks_sound;
use form::{is_open, well_formed};
use model::{Length, MAX_PLAYED, MIN_DISTANCE_M, Step, Target, Workout};
use order::played_len;
use refusal::{Invalid, Refusal};

// Question 8: a step that ends, and a target in range.

fn length_ok(length: Length) -> bool
    ensures { result ≡ length_ok length }
{
    match length {
        Length::Time(secs) => 0 < secs,
        Length::Distance(metres) => MIN_DISTANCE_M <= metres,
        Length::Open => true,
    }
}

// A range that begins above 0 and ends at most at `top`.
fn range_ok(low: u16, high: u16, top: u16) -> bool
    ensures { result ≡ within low high top }
{
    (0 < low) & (low <= high) & (high <= top)
}

fn target_ok(target: Target, untimed: bool) -> bool
    ensures { result ≡ target_ok target untimed }
{
    match target {
        Target::Free => true,
        Target::Ftp { low, high } => range_ok(low as u16, high as u16, 250),
        Target::Watts { low, high } => range_ok(low, high, 2000),
        Target::HeartZone(zone) => (1 <= zone) & (zone <= 5),
        Target::Lthr { low, high } => range_ok(low as u16, high as u16, 250),
        Target::Cadence { low, high } => range_ok(low as u16, high as u16, 255),
        Target::Ramp { start, step, every } => (0 < start) & (0 < step) & (0 < every) & untimed,
        Target::FtpRamp { start, step, every } => {
            (0 < start) & (0 < step) & (start <= 250) & (0 < every) & untimed
        }
    }
}

fn step_ok(step: Step) -> bool
    ensures { result ≡ step_ok step }
{
    length_ok(step.length) & target_ok(step.target, is_open(step.length))
}

// The steps in use are sound.
fn steps_sound(steps: [Step; 12], count: u8) -> bool
    ensures { result ≡ steps_sound (take count steps) }
{
    steps.iter().take(count as usize).all(|step| step_ok(*step))
}

fn invalid(invalid: Invalid) -> Result<(), Refusal>
    ensures { result ≡ Err (Refusal.Invalid invalid) }
{
    Err(Refusal::Invalid(invalid))
}

// Questions 6 to 9.
pub fn validate(workout: Workout) -> Result<(), Refusal>
    ensures { result ≡ valid_answer workout }
{
    let count = workout.step_count;
    if count == 0 {
        return invalid(Invalid::NoSteps);
    }
    if !blocks_sound(
        workout.blocks,
        workout.block_count,
        (count as usize).min(12),
    ) {
        return invalid(Invalid::Block);
    }
    if !steps_sound(workout.steps, count) {
        return invalid(Invalid::Step);
    }
    if MAX_PLAYED < played_len(workout) {
        return invalid(Invalid::TooLong);
    }
    Ok(())
}

// Questions 5 to 9 of a workout in memory.
pub fn check(workout: Workout) -> Result<(), Refusal>
    ensures { result ≡ workout_answer workout }
{
    if well_formed(workout) {
        return validate(workout);
    }
    Err(Refusal::Field)
}
