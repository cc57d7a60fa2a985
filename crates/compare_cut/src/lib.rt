// Plays a list of calls on the player of a workout file, with event arrays of the lengths that the calls name, and answers with words
// after each, for tests only (tests/oracle/cut.rs has the layout).
#![tactic(auto)]

ghost use Rattle.std.specs.Prelude.{◌≡◌, ◌≤◌, ◌<◌, ◌%◌, min, length};
ghost use Rattle.compare_files.specs.Files.{filled};
ghost use Rattle.player.specs.Calls.{skip_of};
ghost use Rattle.compare_cut.specs.Cuts.{joined_one, joined_from, LentTurn, with_check, ride_called, ride_cut, skip_cut, played_cut, turned_cut, next_cut, cut_word, word_after};

use common::least;
use compare_player::{Call, Seen, Turn, begin, call_at, look, mix, turn_of};
use compare_reports::{Given, seen_word};
use state::{Mm, Ms, Player};

// One event more in a check word, unless it is a countdown.
fn join_one(check: u64, kind: u8, value: u16) -> u64
    requires { check < 1000000007 }
    ensures { (result ≡ joined_one check kind value) × (result < 1000000007) }
{
    if kind == 0 {
        return check;
    }
    mix(check, kind, value)
}

// The check word of the events before, with those in the arrays.
fn join(check: u32, kinds: &[u8], values: &[u16], events: usize) -> u32
    ensures { result ≡ joined_from kinds.now values.now 0 (min events (min (length kinds.now) (length values.now))) (check % 1000000007) }
{
    let n = least(events, least(kinds.len(), values.len()));
    let mut joined = (check as u64) % 1000000007;
    for i in 0..n {
        joined = join_one(joined, kinds[i], values[i]);
    }
    joined as u32
}

fn ride_in(player: Player, call: Call, check: u32, kinds: &mut [u8], values: &mut [u16]) -> Turn
    ensures { LentTurn kinds.old values.old kinds.new values.new check result (ride_called player call (length kinds.old) (length values.old)) }
{
    let ms = Ms(call.ms as u64);
    let mm = Mm(call.mm as u64);
    let profile = call.profile;
    let update = player::ride(player, ms, mm, profile, kinds, values);
    turn_of(update, join(check, kinds, values, update.events))
}

// Of 200 places as many as a word of a call names.
fn places_of(word: u32) -> usize
    ensures { result ≡ min word 200 }
{
    least(word as usize, 200)
}

// The call's power and heart are the places of kinds and of values.
fn ride(player: Player, call: Call, check: u32) -> Turn
    ensures { result ≡ ride_cut player call check }
{
    let mut kinds = [0u8; 200];
    let mut values = [0u16; 200];
    let k = places_of(call.power);
    let v = places_of(call.heart);
    ride_in(player, call, check, &mut kinds[..k], &mut values[..v])
}

fn skip_in(player: Player, check: u32, kinds: &mut [u8], values: &mut [u16]) -> Turn
    ensures { LentTurn kinds.old values.old kinds.new values.new check result (skip_of player (length kinds.old) (length values.old)) }
{
    let update = player::skip(player, kinds, values);
    turn_of(update, join(check, kinds, values, update.events))
}

fn skip(player: Player, call: Call, check: u32) -> Turn
    ensures { result ≡ skip_cut player call check }
{
    let mut kinds = [0u8; 200];
    let mut values = [0u16; 200];
    let k = places_of(call.power);
    let v = places_of(call.heart);
    skip_in(player, check, &mut kinds[..k], &mut values[..v])
}

// A call without events leaves the check word.
fn with_check(turn: Turn, check: u32) -> Turn
    ensures { result ≡ with_check turn check }
{
    let player = turn.player;
    let given = turn.given;
    Turn {
        player,
        given: Given {
            number: given.number,
            events: given.events,
            parts: given.parts,
            check,
            extended: given.extended,
        },
    }
}

// By the call's kind: ride, skip, extend by an amount and by the default, else read.
fn play(player: Player, call: Call, check: u32) -> Turn
    ensures { result ≡ played_cut player call check }
{
    let kind = call.kind;
    match kind {
        1 => ride(player, call, check),
        3 => skip(player, call, check),
        4 => with_check(compare_player::extend_with(player, call), check),
        5 => with_check(compare_player::extend(player), check),
        _ => with_check(compare_player::read(player, call), check),
    }
}

// Call k of the list.
fn take_turn(calls: &[u8], k: u32, seen: Seen) -> Seen
    requires { k ≤ 12500 }
    ensures { result ≡ turned_cut calls.now seen k }
{
    let call = call_at(calls, k);
    let player = seen.player;
    let given = seen.given;
    look(play(player, call, given.check), call)
}

// After the last of the 13 words the next call is played.
fn next_cut(calls: &[u8], seen: Seen, i: usize) -> Seen
    requires { i ≤ 137000 }
    ensures { result ≡ next_cut calls.now seen i }
{
    if i % 13 == 12 {
        return take_turn(calls, (i / 13) as u32, seen);
    }
    seen
}

// The call's refusal, the check word so far, and the summary from its targeted time on.
fn cut_word(seen: Seen, place: u32) -> u32
    requires { place ≤ 12 }
    ensures { result ≡ cut_word seen place }
{
    let given = seen.given;
    let reported = seen.reported;
    match place {
        0 => given.number,
        1 => given.check,
        _ => seen_word(given, reported, place + 4),
    }
}

// 13 words of the fresh player, then 13 after each call, as many as there are places for.
pub fn compare_cut(file: &[u8], calls: &[u8], answer: &mut [u32])
    ensures { answer.new ≡ filled (word_after file.now calls.now) answer.old (min (length answer.old) 137000) }
{
    let n = least(answer.len(), 137000);
    let mut seen = begin(file, calls);
    for i in 0..n {
        answer[i] = cut_word(seen, (i % 13) as u32);
        seen = next_cut(calls, seen, i);
    }
}
