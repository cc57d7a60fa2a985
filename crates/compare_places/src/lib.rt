// Plays the first calls of a list on the player of a workout file, each with event arrays of its own, and then one call with the
// arrays that the caller lends; answers with the places that were told before that call and with words after it, for tests only
// (tests/oracle/places.rs has the layout).
#![tactic(auto)]

ghost use Rattle.std.specs.Prelude.{◌≡◌, ◌≤◌, min, length};
ghost use Rattle.compare_cut.specs.Cuts.{ride_called};
ghost use Rattle.compare_files.specs.Files.{filled};
ghost use Rattle.events.specs.Events.{kinds_of, values_of};
ghost use Rattle.le.specs.Le.{written};
ghost use Rattle.outcomes.specs.Outcomes.{Answers};
ghost use Rattle.compare_places.specs.Places.{is_yes, add_called, read_update, extended_update, called_of, lent_to, played_lent, player_after, last_called, place_word, word_after};

use common::least;
use compare::refused_number;
use compare_player::{Call, Seen, begin, call_at, look, sample_of, turn_of};
use compare_reports::seen_word;
use outcomes::{Extended, Update, plain};
use player::{extend, extend_with};
use reports::{PlacesRead, event_places};
use state::{Mm, Ms, Player};

fn ride(player: Player, call: Call, kinds: &mut [u8], values: &mut [u16]) -> Update
    ensures { Answers kinds.old values.old kinds.new values.new result (ride_called player call (length kinds.old) (length values.old)) }
{
    let ms = Ms(call.ms as u64);
    let mm = Mm(call.mm as u64);
    let profile = call.profile;
    player::ride(player, ms, mm, profile, kinds, values)
}

fn add(player: Player, call: Call, kinds: &mut [u8], values: &mut [u16]) -> Update
    ensures { Answers kinds.old values.old kinds.new values.new result (add_called player call (length kinds.old) (length values.old)) }
{
    let ms = Ms(call.ms as u64);
    let mm = Mm(call.mm as u64);
    let sample = sample_of(call);
    let profile = call.profile;
    player::add(player, ms, mm, sample, profile, kinds, values)
}

fn extended(made: Extended) -> Update
    ensures { result ≡ extended_update made }
{
    let after = made.player;
    let answer = made.answer;
    plain(after, answer)
}

fn read(player: Player, call: Call) -> Update
    ensures { result ≡ read_update player call }
{
    let taken = player::read(player, sample_of(call));
    let after = taken.player;
    let answer = taken.answer;
    plain(after, answer)
}

// By the call's kind: ride, add, skip, extend by `power` seconds or `heart` metres and by the default, else read. Only the first three
// have the arrays.
fn update(player: Player, call: Call, kinds: &mut [u8], values: &mut [u16]) -> Update
    ensures { Answers kinds.old values.old kinds.new values.new result (called_of player call (length kinds.old) (length values.old)) }
{
    let kind = call.kind;
    match kind {
        1 => ride(player, call, kinds, values),
        2 => add(player, call, kinds, values),
        3 => player::skip(player, kinds, values),
        4 => extended(extend_with(player, call.power, call.heart)),
        5 => extended(extend(player)),
        _ => read(player, call),
    }
}

// How many of its 193 places a call of the list is lent: as many as are told, or all.
fn lent(player: Player, exact: bool) -> usize
    ensures { (result ≡ lent_to player exact) × (result ≤ 193) }
{
    if exact {
        let told = event_places(player);
        return least(told.places, 193);
    }
    193
}

// A call of the list, with arrays of its own.
fn play(player: Player, call: Call, exact: bool) -> Player
    ensures { result ≡ played_lent player call exact }
{
    let mut kinds = [0u8; 193];
    let mut values = [0u16; 193];
    let n = lent(player, exact);
    let given = update(player, call, &mut kinds[..n], &mut values[..n]);
    given.player
}

// The player after the first calls of the list.
fn after(file: &[u8], calls: &[u8], count: u32, exact: bool) -> Player
    requires { count ≤ 12500 }
    ensures { result ≡ player_after file.now calls.now exact count }
{
    let seen = begin(file, calls);
    let mut player = seen.player;
    for i in 0..count {
        player = play(player, call_at(calls, i), exact);
    }
    player
}

// The refusal of `event_places` before the call, the places that it told, then the 80 words after the call.
fn place_word(told: PlacesRead, seen: Seen, place: u32) -> u32
    ensures { result ≡ place_word told seen place }
{
    let answer = told.answer;
    let given = seen.given;
    let reported = seen.reported;
    match place {
        0 => refused_number(answer),
        1 => (told.places % 4294967296) as u32,
        _ => seen_word(given, reported, place - 2),
    }
}

// As many of the 82 words as there are places for.
fn fill(told: PlacesRead, seen: Seen, answer: &mut [u32])
    ensures { answer.new ≡ filled (place_word told seen) answer.old (min (length answer.old) 82) }
{
    let n = least(answer.len(), 82);
    for i in 0..n {
        answer[i] = place_word(told, seen, i as u32);
    }
}

// Call `count` of the list, after those before it; `exact` is 0 where each of them is lent 193 places, any other number where it
// is lent as many as are told.
#[unsafe(no_mangle)]
pub extern "C" fn compare_places(
    file: &[u8],
    calls: &[u8],
    count: u32,
    exact: u32,
    kinds: &mut [u8],
    values: &mut [u16],
    answer: &mut [u32],
)
    ensures kinds_after { kinds.new ≡ written kinds.old 0 (kinds_of (last_called file.now calls.now (min count 12500) (is_yes exact) (length kinds.old) (length values.old)).events) }
    ensures values_after { values.new ≡ written values.old 0 (values_of (last_called file.now calls.now (min count 12500) (is_yes exact) (length kinds.old) (length values.old)).events) }
    ensures answer_after { answer.new ≡ filled (word_after file.now calls.now (min count 12500) (is_yes exact) (length kinds.old) (length values.old)) answer.old (min (length answer.old) 82) }
{
    let k = least(count as usize, 12500) as u32;
    let call = call_at(calls, k);
    let player = after(file, calls, k, exact != 0);
    let told = event_places(player);
    let given = update(player, call, kinds, values);
    fill(told, look(turn_of(given, 7), call), answer);
}
