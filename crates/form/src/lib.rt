// Question 5 of document 01 for a workout in memory: names, counts and unused places.
#![tactic(auto)]

ghost use Rattle.std.specs.Prelude.{◌≡◌};
ghost use Rattle.form.specs.Form.{is_open, is_no_step, is_no_block, step_slots, block_slots, form_ok, UnusedPlaces};

use model::{Block, Length, NO_BLOCK, NO_STEP, Step, Workout};

pub fn is_open(length: Length) -> bool
    ensures { result ≡ is_open length }
{
    matches!(length, Length::Open)
}

fn is_no_step(step: Step) -> bool
    ensures { result ≡ is_no_step step }
{
    step == NO_STEP
}

fn is_no_block(block: Block) -> bool
    ensures { result ≡ is_no_block block }
{
    block == NO_BLOCK
}

// Used steps have a name for a note, unused ones are NO_STEP.
fn step_slots(steps: [Step; 12], count: u8) -> bool
    ensures { result ≡ step_slots steps count }
{
    let count = count as usize;
    steps.iter().take(count).all(|step| step.note.check())
        & steps.iter().skip(count).all(|step| is_no_step(*step))
}

// Unused blocks are NO_BLOCK.
fn block_slots(blocks: [Block; 8], count: u8) -> bool
    ensures { result ≡ block_slots blocks count }
{
    blocks
        .iter()
        .skip(count as usize)
        .all(|block| is_no_block(*block))
}

// Question 5 of a workout in memory: names, counts and unused places.
pub fn well_formed(workout: Workout) -> bool
    ensures { result ≡ form_ok workout }
{
    (workout.step_count <= 12)
        & (workout.block_count <= 8)
        & workout.name.check()
        & step_slots(workout.steps, workout.step_count)
        & block_slots(workout.blocks, workout.block_count)
}

// What an unused place holds is NO_STEP, NO_BLOCK: the tests pass these and nothing else. It does nothing: its contract is
// the statement.
pub fn unused_places()
    ensures { UnusedPlaces }
{}
