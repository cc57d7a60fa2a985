// What a player's call gave and what the reports say after it, as the words that the Rust's are compared with
// (tests/oracle/played.rs has the layout), for tests only.
#![tactic(auto)]

ghost use Rattle.std.specs.Prelude.{◌≡◌, cond, ◌%◌};
ghost use Rattle.compare_reports.specs.Words.{reading_word, pct_word, summary_word, given_word, has_secs, secs_value, amount_word, compliance_word, left_kind, left_value, readout_kind, readout_value, shown_word, now_word, reported_of, seen_word};

use compare::{band_word, played_word, refused_number};
use compare_files::step_word;
use order::NO_PLAYED;
use readings::{Compliance, ComplianceOption};
use reports::{DistanceRead, NowRead, PartRead, RemainingRead, SummaryRead};
use screen::{Left, Now, TestReadout};
use state::{Mm, Ms, Player};
use zones::TrainingProfile;

// What a call gave but for the player: the number of its refusal, how many events and parts, a check word of the events, and
// whether it extended a step.
#[derive(Clone, Copy, Drop)]
pub struct Given {
    pub number: u32,
    pub events: u32,
    pub parts: u32,
    pub check: u32,
    pub extended: bool,
}

// The reports on a player.
#[derive(Clone, Copy, Drop)]
pub struct Reported {
    pub summary: SummaryRead,
    pub remaining: RemainingRead,
    pub distance: DistanceRead,
    pub part: PartRead,
    pub now: NowRead,
}

fn bit(yes: bool) -> u32
    ensures { result ≡ cond yes 1 0 }
{
    if yes { 1 } else { 0 }
}

fn low32(n: u64) -> u32
    ensures { result ≡ n % 4294967296 }
{
    (n % 4294967296) as u32
}

// 0 for none, else one more than the reading.
fn reading_word(reading: Option<u16>) -> u32
    ensures { result ≡ reading_word reading }
{
    match reading {
        None => 0,
        Some(value) => (value as u32) + 1,
    }
}

fn pct_word(pct: Option<u8>) -> u32
    ensures { result ≡ pct_word pct }
{
    match pct {
        None => 0,
        Some(value) => (value as u32) + 1,
    }
}

fn summary_word(read: SummaryRead, place: u32) -> u32
    ensures { result ≡ summary_word read place }
{
    let answer = read.answer;
    let summary = read.summary;
    let ftp = summary.ftp;
    match place {
        0 => refused_number(answer),
        1 => low32(summary.targeted_ms),
        2 => low32(summary.in_ms),
        3 => low32(summary.under_ms),
        4 => low32(summary.over_ms),
        5 => reading_word(ftp),
        6 => summary.steps_done as u32,
        7 => summary.steps as u32,
        8 => summary.skipped as u32,
        9 => bit(summary.finished),
        _ => pct_word(summary.in_target_pct()),
    }
}

// Five words, then the summary.
fn given_word(given: Given, read: SummaryRead, place: u32) -> u32
    ensures { result ≡ given_word given read place }
{
    match place {
        0 => given.number,
        1 => given.events,
        2 => given.parts,
        3 => given.check,
        4 => bit(given.extended),
        _ => summary_word(read, place - 5),
    }
}

fn has_secs(secs: Option<u32>) -> u32
    ensures { result ≡ has_secs secs }
{
    match secs {
        None => 0,
        Some(_) => 1,
    }
}

fn secs_value(secs: Option<u32>) -> u32
    ensures { result ≡ secs_value secs }
{
    match secs {
        None => 0,
        Some(value) => value,
    }
}

// The summary's unread, what remains, whether the step lasts a distance, the part until its end; then the band.
fn amount_word(reported: Reported, place: u32) -> u32
    ensures { result ≡ amount_word reported place }
{
    let summary_read = reported.summary;
    let summary = summary_read.summary;
    let remaining = reported.remaining;
    let remaining_answer = remaining.answer;
    let secs = remaining.secs;
    let distance = reported.distance;
    let distance_answer = distance.answer;
    let read = reported.part;
    let part_answer = read.answer;
    let part = read.part;
    let screen = reported.now;
    let shown = screen.now;
    let band = shown.band;
    match place {
        0 => low32(summary.unread_ms),
        1 => refused_number(remaining_answer),
        2 => has_secs(secs),
        3 => secs_value(secs),
        4 => refused_number(distance_answer),
        5 => bit(distance.distance),
        6 => refused_number(part_answer),
        7 => low32(part.ms.0),
        8 => low32(part.mm.0),
        _ => band_word(band, place - 9),
    }
}

// 0 for none, be it for want of a band or of a reading; the Rust doesn't tell them apart.
fn compliance_word(compliance: ComplianceOption) -> u32
    ensures { result ≡ compliance_word compliance }
{
    match compliance {
        ComplianceOption::NoBand => 0,
        ComplianceOption::NoReading => 0,
        ComplianceOption::Some(how) => match how {
            Compliance::Under => 1,
            Compliance::In => 2,
            Compliance::Over => 3,
        },
    }
}

fn left_kind(left: Left) -> u32
    ensures { result ≡ left_kind left }
{
    match left {
        Left::Secs(_) => 0,
        Left::Metres(_) => 1,
        Left::Open(_) => 2,
    }
}

fn left_value(left: Left) -> u32
    ensures { result ≡ left_value left }
{
    match left {
        Left::Secs(value) => value,
        Left::Metres(value) => value,
        Left::Open(value) => value,
    }
}

fn readout_kind(test: TestReadout) -> u32
    ensures { result ≡ readout_kind test }
{
    match test {
        TestReadout::None => 0,
        TestReadout::Average(_) => 1,
        TestReadout::BestMinute(_) => 2,
    }
}

fn readout_value(test: TestReadout) -> u32
    ensures { result ≡ readout_value test }
{
    match test {
        TestReadout::None => 0,
        TestReadout::Average(watts) => watts as u32,
        TestReadout::BestMinute(watts) => watts as u32,
    }
}

// What is left, the progress, the test's number, the step on now and the next one.
fn shown_word(shown: Now, place: u32) -> u32
    ensures { result ≡ shown_word shown place }
{
    let left = shown.left;
    let test = shown.test;
    let played = shown.played;
    let next = shown.next;
    match place {
        0 => left_kind(left),
        1 => left_value(left),
        2 => shown.progress as u32,
        3 => readout_kind(test),
        4 => readout_value(test),
        5 => played_word(Some(played)),
        6 => played_word(next),
        _ => 0,
    }
}

fn now_word(read: NowRead, place: u32) -> u32
    ensures { result ≡ now_word read place }
{
    let answer = read.answer;
    let shown = read.now;
    let ramp = shown.ramp_watts;
    let reading = shown.reading;
    let compliance = shown.compliance;
    match place {
        0 => refused_number(answer),
        1 => shown.position as u32,
        2 => shown.steps as u32,
        3 => reading_word(ramp),
        4 => reading_word(reading),
        5 => compliance_word(compliance),
        _ => shown_word(shown, place - 6),
    }
}

// Every report on a player; `until_end` of an update.
pub fn report(player: Player, ms: Ms, mm: Mm, profile: TrainingProfile) -> Reported
    ensures { result ≡ reported_of player ms.0 mm.0 profile }
{
    Reported {
        summary: reports::summary(player),
        remaining: reports::remaining_secs(player),
        distance: reports::distance_step(player),
        part: reports::until_end(player, ms, mm),
        now: reports::now(player, profile),
    }
}

// The word at a place, 80 of them: 16 of the call and the summary, 16 of unread, amounts and the band, 16 of the other numbers on
// screen, 16 of the step on now, 16 of the next one.
pub fn seen_word(given: Given, reported: Reported, place: u32) -> u32
    ensures { result ≡ seen_word given reported place }
{
    let summary = reported.summary;
    let read = reported.now;
    let shown = read.now;
    let on = shown.played;
    let on_step = on.step;
    let next = shown.next.unwrap_or(NO_PLAYED);
    let next_step = next.step;
    let at = place % 16;
    match place / 16 {
        0 => given_word(given, summary, at),
        1 => amount_word(reported, at),
        2 => now_word(read, at),
        3 => step_word(on_step, at),
        _ => step_word(next_step, at),
    }
}
