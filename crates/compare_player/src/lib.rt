// Plays a list of calls on the player of a workout file by the calls of this repository, and answers with words after each, for
// tests only (tests/oracle/played.rs has the layout).
#![tactic(auto)]

ghost use Rattle.std.specs.Prelude.{◌≡◌, ◌≤◌, ◌<◌, min, length};
ghost use Rattle.compare_files.specs.Files.{filled};
ghost use Rattle.compare_player.specs.Calls.{mixed, check_from, reading_from, call_at, sample_of, turn_of, read_turn, ride_turn, add_turn, skip_turn, extended_turn, extend_with_turn, extend_turn, set_turn, played, looked_at, turned, begun, seen_after, next_seen, word_after, player_word, any_word};

use common::least;
use compare::{refused_number, word_at};
use compare_fields::set_field;
use compare_files::question_word;
use compare_reports::{Given, Reported, report, seen_word};
use decode::decode;
use outcomes::{Extended, Update};
use readings::Sample;
use start::new;
use state::{Mm, Ms, Player};
use zones::TrainingProfile;

// A call of the list, in words.
#[derive(Clone, Copy, Drop)]
pub struct Call {
    pub kind: u32,
    pub ms: u32,
    pub mm: u32,
    pub power: u32,
    pub heart: u32,
    pub cadence: u32,
    pub profile: TrainingProfile,
}

// The player after a call, and what the call gave besides.
#[derive(Clone, Copy, Drop)]
pub struct Turn {
    pub player: Player,
    pub given: Given,
}

// The same with the reports.
#[derive(Clone, Copy, Drop)]
pub struct Seen {
    pub player: Player,
    pub given: Given,
    pub reported: Reported,
}

// One event more in a check word.
pub fn mix(check: u64, kind: u8, value: u16) -> u64
    requires { check < 1000000007 }
    ensures { (result ≡ mixed check kind value) × (result < 1000000007) }
{
    (check * 31 + (kind as u64) * 65536 + (value as u64) + 1) % 1000000007
}

// A check word of the events in the arrays.
fn check_of(kinds: &[u8; 193], values: &[u16; 193], events: usize) -> u32
    ensures { result ≡ check_from kinds.now values.now 0 (min events 193) 7 }
{
    let n = least(events, 193);
    let mut check: u64 = 7;
    for i in 0..n {
        check = mix(check, kinds[i], values[i]);
    }
    check as u32
}

// Kind, FTP, LTHR, ms, mm, power, heart, cadence.
pub fn call_at(calls: &[u8], k: u32) -> Call
    requires { k ≤ 12500 }
    ensures { result ≡ call_at calls.now k }
{
    let at = 8 * k;
    Call {
        kind: word_at(calls, at),
        ms: word_at(calls, at + 3),
        mm: word_at(calls, at + 4),
        power: word_at(calls, at + 5),
        heart: word_at(calls, at + 6),
        cadence: word_at(calls, at + 7),
        profile: TrainingProfile {
            ftp_watts: (word_at(calls, at + 1) % 65536) as u16,
            lthr_bpm: (word_at(calls, at + 2) % 65536) as u16,
        },
    }
}

// 0 is an absent reading, any other word one more than the reading.
fn reading_from(word: u32) -> Option<u16>
    ensures { result ≡ reading_from word }
{
    if word == 0 {
        return None;
    }
    Some(((word - 1) % 65536) as u16)
}

pub fn sample_of(call: Call) -> Sample
    ensures { result ≡ sample_of call }
{
    Sample {
        power_watts: reading_from(call.power),
        heart_bpm: reading_from(call.heart),
        cadence_tenths: reading_from(call.cadence),
    }
}

// What an update gave, with the check word of its events.
pub fn turn_of(update: Update, check: u32) -> Turn
    ensures { result ≡ turn_of update check }
{
    let answer = update.answer;
    let player = update.player;
    Turn {
        player,
        given: Given {
            number: refused_number(answer),
            events: (update.events % 4294967296) as u32,
            parts: (update.parts % 4294967296) as u32,
            check,
            extended: false,
        },
    }
}

pub fn read(player: Player, call: Call) -> Turn
    ensures { result ≡ read_turn player call }
{
    turn_of(player::read(player, sample_of(call)), 7)
}

fn ride(player: Player, call: Call) -> Turn
    ensures { result ≡ ride_turn player call }
{
    let mut kinds = [0u8; 193];
    let mut values = [0u16; 193];
    let ms = Ms(call.ms as u64);
    let mm = Mm(call.mm as u64);
    let profile = call.profile;
    let update = player::ride(player, ms, mm, profile, &mut kinds, &mut values);
    turn_of(update, check_of(&kinds, &values, update.events))
}

fn add(player: Player, call: Call) -> Turn
    ensures { result ≡ add_turn player call }
{
    let mut kinds = [0u8; 193];
    let mut values = [0u16; 193];
    let ms = Ms(call.ms as u64);
    let mm = Mm(call.mm as u64);
    let sample = sample_of(call);
    let profile = call.profile;
    let update = player::add(player, ms, mm, sample, profile, &mut kinds, &mut values);
    turn_of(update, check_of(&kinds, &values, update.events))
}

fn skip(player: Player) -> Turn
    ensures { result ≡ skip_turn player }
{
    let mut kinds = [0u8; 193];
    let mut values = [0u16; 193];
    let update = player::skip(player, &mut kinds, &mut values);
    turn_of(update, check_of(&kinds, &values, update.events))
}

fn extended_turn(made: Extended) -> Turn
    ensures { result ≡ extended_turn made }
{
    let answer = made.answer;
    let player = made.player;
    Turn {
        player,
        given: Given {
            number: refused_number(answer),
            events: 0,
            parts: 0,
            check: 7,
            extended: made.extended,
        },
    }
}

// By as many seconds as `power` says, or as many metres as `heart`.
pub fn extend_with(player: Player, call: Call) -> Turn
    ensures { result ≡ extend_with_turn player call }
{
    extended_turn(player::extend_with(player, call.power, call.heart))
}

pub fn extend(player: Player) -> Turn
    ensures { result ≡ extend_turn player }
{
    extended_turn(player::extend(player))
}

// Field `ms` of the player set to `mm` and, above its 32 bits, `power`.
fn set(player: Player, call: Call) -> Turn
    ensures { result ≡ set_turn player call }
{
    let value = (call.mm as u64) + 4294967296 * (call.power as u64);
    let after = set_field(player, call.ms, value);
    let given = Given {
        number: 0,
        events: 0,
        parts: 0,
        check: 7,
        extended: false,
    };
    Turn {
        player: after,
        given,
    }
}

// By the call's kind: read, ride, add, skip, extend by an amount and by the default, a field set.
fn play(player: Player, call: Call) -> Turn
    ensures { result ≡ played player call }
{
    let kind = call.kind;
    match kind {
        0 => read(player, call),
        1 => ride(player, call),
        2 => add(player, call),
        3 => skip(player),
        4 => extend_with(player, call),
        5 => extend(player),
        _ => set(player, call),
    }
}

pub fn look(turn: Turn, call: Call) -> Seen
    ensures { result ≡ looked_at turn call }
{
    let player = turn.player;
    let given = turn.given;
    let profile = call.profile;
    let reported = report(player, Ms(call.ms as u64), Mm(call.mm as u64), profile);
    Seen {
        player,
        given,
        reported,
    }
}

// The fresh player of a workout file.
pub fn begin(file: &[u8], calls: &[u8]) -> Seen
    ensures { result ≡ begun file.now calls.now }
{
    let read = decode(file);
    let workout = read.workout;
    let made = new(workout);
    let answer = made.answer;
    let player = made.player;
    let given = Given {
        number: refused_number(answer),
        events: 0,
        parts: 0,
        check: 7,
        extended: false,
    };
    let turn = Turn { player, given };
    look(turn, call_at(calls, 0))
}

// Call k of the list.
fn take_turn(calls: &[u8], k: u32, seen: Seen) -> Seen
    requires { k ≤ 12500 }
    ensures { result ≡ turned calls.now seen k }
{
    let call = call_at(calls, k);
    let player = seen.player;
    look(play(player, call), call)
}

// After the last of the 80 words the next call is played.
fn next_seen(calls: &[u8], seen: Seen, i: usize) -> Seen
    requires { i ≤ 1000000 }
    ensures { result ≡ next_seen calls.now seen i }
{
    if i % 80 == 79 {
        return take_turn(calls, (i / 80) as u32, seen);
    }
    seen
}

// 80 words of the fresh player, then 80 after each call, as many as there are places for.
pub fn compare_player(file: &[u8], calls: &[u8], answer: &mut [u32])
    ensures { answer.new ≡ filled (word_after file.now calls.now) answer.old (min (length answer.old) 1000000) }
{
    let n = least(answer.len(), 1000000);
    let mut seen = begin(file, calls);
    for i in 0..n {
        let given = seen.given;
        let reported = seen.reported;
        answer[i] = seen_word(given, reported, (i % 80) as u32);
        seen = next_seen(calls, seen, i);
    }
}

// The player after k calls.
pub fn seen_at(file: &[u8], calls: &[u8], k: u32) -> Seen
    requires { k ≤ 12500 }
    ensures { result ≡ seen_after file.now calls.now k }
{
    let mut seen = begin(file, calls);
    for i in 0..k {
        seen = take_turn(calls, i, seen);
    }
    seen
}

// A word of the answer on an input: the number of the file's bytes, the file, the calls.
fn player_word(input: &[u8], place: u32) -> u32
    ensures { result ≡ player_word input.now place }
{
    let size = word_at(input, 0) as usize;
    if input.len() < 4 {
        return 0;
    }
    if input.len() - 4 < size {
        return 0;
    }
    if 1000000 <= place {
        return 0;
    }
    let end = 4 + size;
    let seen = seen_at(&input[4..end], &input[end..], place / 80);
    let given = seen.given;
    let reported = seen.reported;
    seen_word(given, reported, place % 80)
}

// The word at a place of the answer to any question, 13 being that on the player.
pub fn any_word(question: u32, input: &[u8], place: u32) -> u32
    ensures { result ≡ any_word question input.now place }
{
    match question {
        13 => player_word(input, place),
        _ => question_word(question, input, place),
    }
}
