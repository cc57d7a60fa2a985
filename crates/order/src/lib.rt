// model.rs's playing order: `played` as a function from position to place, and what is planned of it.
#![tactic(auto)]

ghost use Rattle.std.specs.Prelude.{◌≡◌, ◌≤◌, ◌<◌, take};
ghost use Rattle.order.specs.Order.{holds, block_at, piece_len, place_in, order, nth, step_at, played_of, seconds, played_seconds, planned_from, timed, all_timed, has_untimed, played_len, PlayingOrder};

use blocks::repeats_of;
use model::{Block, Length, MAX_PLAYED, NO_STEP, Step, Workout};

// A place in the playing order: which step, in which run of its block, of how many.
#[derive(Clone, Copy, Drop)]
pub struct Place {
    pub index: usize,
    pub repetition: u8,
    pub of: u8,
}

// One step as it is played: which step, and which run of its block.
#[derive(Clone, Copy, Drop)]
pub struct Played {
    pub index: u8,
    // Zero-based run of the block the step is in.
    pub repetition: u8,
    // Runs of that block; one outside blocks.
    pub of: u8,
    pub step: Step,
}

// What is taken where there is no played step.
pub const NO_PLAYED: Played = Played {
    index: 0,
    repetition: 0,
    of: 1,
    step: NO_STEP,
};

// Steps played, repeats expanded.
pub fn played_len(workout: Workout) -> usize
    ensures { result ≡ played_len workout }
{
    (workout.step_count as usize).min(12) + repeats_of(workout.blocks, workout.block_count)
}

fn holds_step(block: Block, index: usize) -> bool
    ensures { result ≡ holds block index }
{
    let first = block.first as usize;
    (first <= index) & (index < first + (block.len as usize))
}

// The first of the first `count` blocks that holds the step at `index`.
fn block_at(blocks: [Block; 8], count: u8, index: usize) -> Option<Block>
    ensures { result ≡ block_at (take count blocks) index }
{
    blocks
        .iter()
        .take(count as usize)
        .copied()
        .find(|block| holds_step(*block, index))
}

// How many places of the order come at the step at `index`, `found` being its block.
fn piece_len(found: Option<Block>, index: usize) -> usize
    ensures { result ≡ piece_len found index }
{
    match found {
        None => 1,
        Some(block) => {
            if (block.first as usize) == index {
                (block.len as usize) * (block.count as usize)
            } else {
                0
            }
        }
    }
}

// The place that comes after `before` others at the step at `index`.
fn place_in(found: Option<Block>, index: usize, before: usize) -> Place
    requires { before < piece_len found index }
    ensures { result ≡ place_in found index before }
{
    match found {
        None => Place {
            index,
            repetition: 0,
            of: 1,
        },
        Some(block) => {
            let len = block.len as usize;
            let run = before / len;
            Place {
                index: (block.first as usize) + before % len,
                repetition: run as u8,
                of: block.count,
            }
        }
    }
}

// The place at `position` of the playing order of `steps` steps, if it has one.
fn place_at(blocks: [Block; 8], count: u8, steps: usize, position: usize) -> Option<Place>
    ensures { result ≡ nth (order steps (take count blocks)) position }
{
    let mut before = position;
    for i in 0..steps {
        let found = block_at(blocks, count, i);
        let size = piece_len(found, i);
        if before < size {
            return Some(place_in(found, i, before));
        }
        before -= size;
    }
    None
}

// The step at a place, if the place is one of the first `count` steps.
fn step_at(steps: [Step; 12], count: u8, place: Place) -> Option<Played>
    ensures { result ≡ step_at (take count steps) place }
{
    let index = place.index;
    if index < (count as usize).min(12) {
        let step = steps[index];
        return Some(Played {
            index: index as u8,
            repetition: place.repetition,
            of: place.of,
            step,
        });
    }
    None
}

// The step played at `position`, if there is one.
pub fn played_at(workout: Workout, position: usize) -> Option<Played>
    ensures { result ≡ played_of workout position }
{
    let count = workout.step_count;
    let steps = (count as usize).min(12);
    let place = place_at(workout.blocks, workout.block_count, steps, position)?;
    step_at(workout.steps, count, place)
}

// Seconds of a timed step; distance and open steps count nothing.
fn seconds_of(length: Length) -> u32
    ensures { (result ≡ seconds length) × (result ≤ 65535) }
{
    match length {
        Length::Time(secs) => secs as u32,
        Length::Distance(_) => 0,
        Length::Open => 0,
    }
}

fn played_seconds(played: Option<Played>) -> u32
    ensures { (result ≡ played_seconds played) × (result ≤ 65535) }
{
    match played {
        None => 0,
        Some(one) => seconds_of(one.step.length),
    }
}

// Planned seconds of the timed steps from `position` on, repeats included.
pub fn planned_from(workout: Workout, position: usize) -> u32
    ensures { (result ≡ planned_from workout position) × (result ≤ 6291360) }
{
    (position..MAX_PLAYED)
        .map(|at| played_seconds(played_at(workout, at)))
        .sum()
}

// Planned recorded seconds of the timed steps, repeats included; distance and open steps count nothing.
pub fn planned_secs(workout: Workout) -> u32
    ensures { result ≡ planned_from workout 0 }
{
    planned_from(workout, 0)
}

fn is_timed(length: Length) -> bool
    ensures { result ≡ timed length }
{
    matches!(length, Length::Time(_))
}

fn all_timed(steps: [Step; 12], count: u8) -> bool
    ensures { result ≡ all_timed (take count steps) }
{
    steps
        .iter()
        .take(count as usize)
        .all(|step| is_timed(step.length))
}

// Some step ends only when the rider says so or by distance.
pub fn has_untimed_steps(workout: Workout) -> bool
    ensures { result ≡ has_untimed workout }
{
    !all_timed(workout.steps, workout.step_count)
}

// Of a workout with sound blocks the playing order is as long as `played_len` says, and each of its places has a step.
pub fn playing_order()
    ensures { PlayingOrder }
{}
