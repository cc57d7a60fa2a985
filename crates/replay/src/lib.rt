// Document 01: the replay of a ride sheet, with event arrays of its own. It asks the workout file, the sheet and the room for the
// record, then plays act by act (document 01's word for an entry of a sheet) from a fresh player, and writes the record.
#![tactic(auto)]

ghost use Rattle.std.specs.Prelude.{◌≡◌, true, false, ◌+◌, ◌*◌, ◌-◌, ◌≤◌, ◌<◌, length};
ghost use Rattle.zones.specs.Zones.{profile_ok};
ghost use Rattle.rounds.specs.Rounds.{riding};
ghost use Rattle.step_end.specs.StepEnd.{NextFits};
ghost use Rattle.outcomes.specs.Outcomes.{ExtraFits, player_of};
ghost use Rattle.sheet.specs.Sheet.{size_ok, acts_from};
ghost use Rattle.replay.specs.Acts.{act_called, nothing_ridden, play_acts, Ready, Acts, is_quiet, eventless_act, skip_outcome, Skips, extend_act};
ghost use Rattle.replay.specs.Replay.{Fresh, play_sheet, ridden_of, replay_answer, replay_output};

use history::Record;
use machine::reading_fits;
use model::{Test, Workout};
use names::Name;
use outcomes::{add_totals, extend_core};
use player::{EXTEND_M, EXTEND_S, update_answer};
use record_writer::{RECORD_BYTES, encode};
use refusal::Refusal;
use rounds::{Ride, end_step, is_stopped, turn};
use sheet::{Act, ActAnswer, accepted_all, act_at, count_of, profile_at, refused_at, sample_at};
use standing::cadence_in;
use start::no_summary;
use state::{Core, Mm, Ms, Player, Summary};
use step_end::{is_over, next};
use zones::TrainingProfile;

// What the longer extend of a sheet adds to the step on now.
const LONG_S: u32 = 60;

const LONG_M: u32 = 500;

// What a sheet came to: the answer, and what the record takes from workout and player; refused, nothing (`nothing_ridden`, which the
// line and the record are made from).
#[derive(Clone, Copy, Drop)]
pub struct Ridden {
    pub outcome: ActAnswer,
    pub name: Name,
    pub test: Test,
    pub summary: Summary,
}

// What an act gives: its answer, the core after it, also after a refusal (`eventless_act`), and the number of its events.
#[derive(Clone, Copy, Drop)]
struct Acted {
    answer: Result<(), Refusal>,
    core: Core,
    events: usize,
}

fn eventless(core: Core, answer: Result<(), Refusal>) -> Acted
    ensures { result ≡ eventless_act answer core }
{
    Acted {
        answer,
        core,
        events: 0,
    }
}

fn skip_act(workout: Workout, core: Core, kinds: &mut [u8], values: &mut [u16]) -> Acted
    requires { NextFits core × (length kinds.old ≡ 193) × (length values.old ≡ 193) }
    ensures { Skips kinds.old values.old kinds.new values.new result (skip_outcome workout core) }
{
    if core.done {
        return eventless(core, Ok(()));
    }
    let moved = next(workout, core, true, kinds, values, 0);
    let after = moved.core;
    Acted {
        answer: Ok(()),
        core: after,
        events: moved.count,
    }
}

fn extend_act(core: Core, secs: u32, metres: u32) -> Acted
    requires { core.done ≡ false → ExtraFits core }
    ensures { result ≡ extend_act secs metres core }
{
    if core.done {
        return eventless(core, Ok(()));
    }
    let made = extend_core(core, secs, metres);
    let answer = made.answer;
    let after = made.core;
    eventless(after, answer)
}

// One act that neither reads nor rides, as the call that it stands for; `play` has those two itself.
fn quiet_act(
    workout: Workout,
    profile: TrainingProfile,
    core: Core,
    act: Act,
    minute: &mut [u16; 60],
    kinds: &mut [u8],
    values: &mut [u16],
) -> Acted
    requires { Ready workout core minute.old × (is_quiet act ≡ true) × (length kinds.old ≡ 193) × (length values.old ≡ 193) }
    ensures { Acts workout minute.new kinds.old values.old kinds.new values.new result (act_called profile act (player_of workout (riding core minute.old))) × Ready workout result.core minute.new }
{
    // That the last reading has 16 bits is part of what the player after the act stands on.
    let readings = core.readings;
    let sample = readings.last_sample;
    let power = sample.power_watts;
    reading_fits(power);
    match act {
        Act::Profile(_) => eventless(core, Ok(())),
        // The `requires` leaves these two out.
        Act::Read(_) => eventless(core, Ok(())),
        Act::Ride(_, _) => eventless(core, Ok(())),
        Act::Skip => skip_act(workout, core, kinds, values),
        Act::ExtendLong => extend_act(core, LONG_S, LONG_M),
        Act::Extend => extend_act(core, EXTEND_S, EXTEND_M),
    }
}

fn nothing_ridden(outcome: ActAnswer) -> Ridden
    ensures { result ≡ nothing_ridden outcome }
{
    Ridden {
        outcome,
        name: Name::empty(),
        test: Test::None,
        summary: no_summary(0),
    }
}

// The acts from act 1 on. The loop of a ride stands in the loop of the acts, so that the workout is handed on only where a step ends:
// passed by value at each ride or round, its copies took most of a replay's time.
fn play(fresh: Player, profile: TrainingProfile, sheet: &[u8], n: usize) -> Ridden
    requires { Ready fresh.workout fresh.core fresh.minute × (profile_ok profile ≡ true) × (1 ≤ n) × (n ≤ 4096) × (length sheet.now ≡ 2 + 9 * n) }
    ensures { result ≡ play_acts fresh.workout profile (acts_from sheet.now n 1 (n - 1)) 1 (player_of fresh.workout (riding fresh.core fresh.minute)) }
{
    let mut kinds: [u8; 193] = [0; 193];
    let mut values: [u16; 193] = [0; 193];
    let workout = fresh.workout;
    let mut minute = fresh.minute;
    let mut core = fresh.core;
    let test = workout.test;
    for i in 1..n {
        // That the last reading has 16 bits is part of what the player after the act stands on.
        let readings = core.readings;
        let last = readings.last_sample;
        let power = last.power_watts;
        reading_fits(power);
        let kind = sheet[2 + i];
        let at = 2 + n + 8 * i;
        if kind == 2 {
            let ms = Ms(le::get_u32(sheet, at) as u64);
            let mm = Mm(le::get_u32(sheet, at + 4) as u64);
            let asked = update_answer(core, ms, mm, 193, 193);
            if let Err(refusal) = asked {
                return nothing_ridden(refused_at(refusal, Some(i as u16)));
            }
            if ms.0 == 0 {
                continue;
            }
            let mut ride = Ride {
                core: add_totals(core, ms, mm),
                ms,
                mm,
                count: 0,
                parts: 0,
            };
            let mut j: usize = 0;
            while (j < 97) & !is_stopped(ride) {
                ride = turn(ride, test, profile, &mut minute, &mut kinds, &mut values);
                let ridden = ride.core;
                j += 1;
                if is_over(ridden, profile) {
                    // A copy, so that the ride itself never has to lie in memory. (A `continue` here took a quarter more time.)
                    let ended = ride;
                    ride = end_step(workout, ended, &mut kinds, &mut values);
                }
            }
            core = ride.core;
            continue;
        }
        if kind == 1 {
            let sample = sample_at(sheet, at);
            let cadence = sample.cadence_tenths;
            if !cadence_in(cadence) {
                return nothing_ridden(refused_at(Refusal::Cadence, Some(i as u16)));
            }
            core = core.read(sample);
            continue;
        }
        let act = act_at(sheet, n, i);
        // A copy here too.
        let before = core;
        let acted = quiet_act(
            workout,
            profile,
            before,
            act,
            &mut minute,
            &mut kinds,
            &mut values,
        );
        let answer = acted.answer;
        if let Err(refusal) = answer {
            return nothing_ridden(refused_at(refusal, Some(i as u16)));
        }
        core = acted.core;
    }
    let name = workout.name;
    let summary = core.summary;
    Ridden {
        outcome: accepted_all(),
        name,
        test,
        summary,
    }
}

// The profile, then the other acts from a fresh player.
fn play_sheet(fresh: Player, sheet: &[u8]) -> Ridden
    requires { Fresh fresh × (size_ok sheet.now ≡ true) }
    ensures { result ≡ play_sheet fresh sheet.now }
{
    let n = count_of(sheet);
    let profile = profile_at(sheet, 2 + n);
    match profile.check() {
        Ok(()) => play(fresh, profile, sheet, n),
        Err(refusal) => nothing_ridden(refused_at(refusal, Some(0))),
    }
}

// What a workout file and a ride sheet come to, with so much room for the record.
pub fn ride_sheet(file: &[u8], sheet: &[u8], room: usize) -> Ridden
    ensures { result ≡ ridden_of file.now sheet.now room }
{
    let decoded = decode::decode(file);
    let read = decoded.answer;
    if let Err(refusal) = read {
        return nothing_ridden(refused_at(refusal, None));
    }
    let workout = decoded.workout;
    let made = start::new(workout);
    let begun = made.answer;
    if let Err(refusal) = begun {
        return nothing_ridden(refused_at(refusal, None));
    }
    let checked = sheet::check(sheet);
    let acts = checked.answer;
    if let Err(_) = acts {
        return nothing_ridden(checked);
    }
    if room < RECORD_BYTES {
        return nothing_ridden(refused_at(Refusal::Output, None));
    }
    play_sheet(made.player, sheet)
}

// The record of a replay into lent bytes; refused, all bytes stay.
pub fn replay(
    file: &[u8],
    sheet: &[u8],
    journal: u8,
    id: u32,
    start: u64,
    dated: bool,
    out: &mut [u8],
) -> ActAnswer
    ensures value { result ≡ replay_answer file.now sheet.now (length out.old) }
    ensures out_after { out.new ≡ replay_output file.now sheet.now journal id start dated out.old }
{
    let ride = ride_sheet(file, sheet, out.len());
    let outcome = ride.outcome;
    let answer = outcome.answer;
    if let Err(_) = answer {
        return outcome;
    }
    let name = ride.name;
    let test = ride.test;
    let summary = ride.summary;
    let stored = Record {
        journal,
        ride_id: id,
        started_utc_ms: dated.then_some(start),
        name,
        test,
        summary,
    };
    // It can't be refused: the workout's name passed 5, and 19 was asked.
    let _ = encode(stored, out);
    outcome
}
