// player.rs's `new`: a fresh player of a workout that passes questions 5 to 9.
#![tactic(auto)]

ghost use Rattle.std.specs.Prelude.{◌≡◌, ◌≤◌};
ghost use Rattle.order.specs.Order.{played_len};
ghost use Rattle.start.specs.Start.{no_summary, fresh_core, fresh, new_of};

use model::{Workout, empty_workout};
use order::{NO_PLAYED, Played, played_at, played_len};
use readings::no_readings;
use refusal::Refusal;
use state::{Core, Lap, Mm, Ms, Player, Summary, fresh_measured, step_now};
use validation::check;

// A struct and no `Result`: document 01 has a refused `new` give a player of the empty workout (`new_of`).
#[derive(Clone, Copy, Drop)]
pub struct NewPlayer {
    pub answer: Result<(), Refusal>,
    pub player: Player,
}

pub fn no_summary(steps: u16) -> Summary
    ensures { result ≡ no_summary steps }
{
    Summary {
        targeted_ms: 0,
        in_ms: 0,
        under_ms: 0,
        over_ms: 0,
        unread_ms: 0,
        ftp: None,
        steps_done: 0,
        steps,
        skipped: 0,
        finished: false,
    }
}

fn fresh_core(steps: u16, first: Played) -> Core
    ensures { result ≡ fresh_core steps first }
{
    Core {
        position: 0,
        steps: steps as usize,
        total_ms: Ms(0),
        total_mm: Mm(0),
        lap: Lap {
            step_ms: 0,
            step_mm: 0,
            extra_s: 0,
            extra_m: 0,
        },
        measured: fresh_measured(0),
        summary: no_summary(steps),
        on: step_now(first),
        readings: no_readings(),
        done: false,
    }
}

// A player of a workout with nothing ridden.
fn fresh_player(workout: Workout) -> Player
    requires { played_len workout ≤ 96 }
    ensures { result ≡ fresh workout }
{
    let first = played_at(workout, 0).unwrap_or(NO_PLAYED);
    let step = first.step;
    let note = step.note;
    Player {
        core: fresh_core(played_len(workout) as u16, first),
        workout,
        note,
        minute: [0; 60],
    }
}

// Refused, it is a player of the empty workout, which doesn't stand.
pub fn new(workout: Workout) -> NewPlayer
    ensures { result ≡ new_of workout }
{
    let answer = check(workout);
    match answer {
        Ok(()) => NewPlayer {
            answer: Ok(()),
            player: fresh_player(workout),
        },
        Err(refusal) => NewPlayer {
            answer: Err(refusal),
            player: fresh_player(empty_workout()),
        },
    }
}
