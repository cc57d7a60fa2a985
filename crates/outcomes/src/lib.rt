// player.rs: what the calls give (`Update`, `Extended`), the player that they give it with, and `extend` once only question 15 is left to
// be asked.
#![tactic(auto)]

ghost use Rattle.std.specs.Prelude.{◌≡◌, ◌+◌, ◌≤◌, get_or};
ghost use Rattle.model.specs.Workout.{no_step};
ghost use Rattle.rounds.specs.Rounds.{riding};
ghost use Rattle.outcomes.specs.Outcomes.{eventless_update, player_of, totalled, with_core, not_extended, not_longer, longer_core, extend_core, extend_by, ExtraFits};

use model::{Length, Step, Workout};
use names::Name;
use refusal::Refusal;
use state::{Core, Mm, Ms, Player};

// What a call gives: its answer, the player after it, the number of its events in the lent arrays, and the rounds that rode. A struct
// and no `Result`: a refused call gives the player as it was (`eventless_update`).
#[derive(Clone, Copy, Drop)]
pub struct Update {
    pub answer: Result<(), Refusal>,
    pub player: Player,
    pub events: usize,
    pub parts: usize,
}

// What `extend` gives; `extended` is player.rs's own yes or no, and refused the player is as it was (`not_extended`).
#[derive(Clone, Copy, Drop)]
pub struct Extended {
    pub answer: Result<(), Refusal>,
    pub player: Player,
    pub extended: bool,
}

// The same of a core.
#[derive(Clone, Copy, Drop)]
pub struct ExtendedCore {
    pub answer: Result<(), Refusal>,
    pub core: Core,
    pub extended: bool,
}

// A call without events or parts.
pub fn plain(player: Player, answer: Result<(), Refusal>) -> Update
    ensures { result ≡ eventless_update answer player }
{
    Update {
        answer,
        player,
        events: 0,
        parts: 0,
    }
}

fn note_at(steps: [Step; 12], index: u8) -> Name
    ensures { result ≡ (get_or steps index no_step).note }
{
    let i = index as usize;
    if i < 12 {
        let step = steps[i];
        return step.note;
    }
    Name::empty()
}

// The player of a core and its minute; the note is that of the step on now.
pub fn player_of(workout: Workout, core: Core, minute: [u16; 60]) -> Player
    ensures { result ≡ player_of workout (riding core minute) }
{
    let on = core.on;
    let steps = workout.steps;
    let note = note_at(steps, on.index);
    Player {
        core,
        workout,
        note,
        minute,
    }
}

pub fn with_core(player: Player, core: Core) -> Player
    ensures { result ≡ with_core core player }
{
    let mut q = player;
    q.core = core;
    q
}

// The totals grow by what is then still to be ridden.
pub fn add_totals(core: Core, ms: Ms, mm: Mm) -> Core
    requires { (core.total_ms.0 + ms.0 ≤ 604800000) × (core.total_mm.0 + mm.0 ≤ 7000000000) }
    ensures { result ≡ totalled ms.0 mm.0 core }
{
    let mut q = core;
    let total_ms = Ms(q.total_ms.0 + ms.0);
    let total_mm = Mm(q.total_mm.0 + mm.0);
    q.total_ms = total_ms;
    q.total_mm = total_mm;
    q
}

pub fn not_extended(player: Player, answer: Result<(), Refusal>) -> Extended
    ensures { result ≡ not_extended answer player }
{
    Extended {
        answer,
        player,
        extended: false,
    }
}

fn core_as_before(core: Core, answer: Result<(), Refusal>) -> ExtendedCore
    ensures { result ≡ not_longer answer core }
{
    ExtendedCore {
        answer,
        core,
        extended: false,
    }
}

// The core with `secs` and `metres` more in the step on now.
fn longer(core: Core, secs: u32, metres: u32) -> ExtendedCore
    requires { (core.lap.extra_s + secs ≤ 86400) × (core.lap.extra_m + metres ≤ 1000000) }
    ensures { result ≡ longer_core secs metres core }
{
    let lap = core.lap;
    let more = lap.extended(secs, metres);
    let mut c = core;
    c.lap = more;
    ExtendedCore {
        answer: Ok(()),
        core: c,
        extended: true,
    }
}

// An extend of which only question 15 is to be asked: `secs` more of a timed step, `metres` more of a distance step. What is left to the
// limit is worked out, and no sum, since the amount may be any number of 32 bits.
pub fn extend_core(core: Core, secs: u32, metres: u32) -> ExtendedCore
    requires { ExtraFits core }
    ensures { result ≡ extend_core secs metres core.on.length core }
{
    let lap = core.lap;
    let on = core.on;
    let length = on.length;
    match length {
        Length::Time(_) => {
            if secs <= 86400 - lap.extra_s {
                return longer(core, secs, 0);
            }
            core_as_before(core, Err(Refusal::Extra))
        }
        Length::Distance(_) => {
            if metres <= 1000000 - lap.extra_m {
                return longer(core, 0, metres);
            }
            core_as_before(core, Err(Refusal::Extra))
        }
        Length::Open => core_as_before(core, Ok(())),
    }
}

// The same of a player.
pub fn extend_by(player: Player, secs: u32, metres: u32) -> Extended
    requires { ExtraFits player.core }
    ensures { result ≡ extend_by secs metres player.core.on.length player }
{
    let core = player.core;
    let made = extend_core(core, secs, metres);
    let answer = made.answer;
    let after = made.core;
    Extended {
        answer,
        player: with_core(player, after),
        extended: made.extended,
    }
}
