// codec.rs, both ways: what `encode` writes is what `decode` reads. The crate has statements; its functions compute nothing.
#![tactic(auto)]

ghost use Rattle.codec.specs.Typed.{LengthFits, TargetFits, StepFits, WorkoutFits};
ghost use Rattle.codec.specs.RoundTrip.{WrittenIsRead, ReadIsWritten};

use model::{Length, Step, Target, Workout};

// A workout written and read again is the same, and its file has 26 to 475 bytes.
pub fn written_is_read()
    ensures { WrittenIsRead }
{}

// An accepted file read and written again is the same exactly when its filler values are zero.
pub fn read_is_written()
    ensures { ReadIsWritten }
{}

fn length_fits(length: Length)
    ensures { LengthFits length }
{
    match length {
        Length::Time(_secs) => {}
        Length::Distance(_metres) => {}
        Length::Open => {}
    }
}

fn target_fits(target: Target)
    ensures { TargetFits target }
{
    match target {
        Target::Free => {}
        Target::Ftp { low: _a, high: _b } => {}
        Target::Watts { low: _a, high: _b } => {}
        Target::HeartZone(_a) => {}
        Target::Lthr { low: _a, high: _b } => {}
        Target::Cadence { low: _a, high: _b } => {}
        Target::Ramp {
            start: _a,
            step: _b,
            every: _c,
        } => {}
        Target::FtpRamp {
            start: _a,
            step: _b,
            every: _c,
        } => {}
    }
}

fn step_fits(step: Step)
    ensures { StepFits step }
{
    let length = step.length;
    let target = step.target;
    length_fits(length);
    target_fits(target);
}

// Every workout in memory is one that the round trips speak of.
pub fn workout_fits(workout: Workout)
    ensures { WorkoutFits workout }
{
    for step in &workout.steps {
        step_fits(*step);
    }
}
