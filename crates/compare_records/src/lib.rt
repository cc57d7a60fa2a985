// Answers of this repository on ride records (tests/oracle/compare_records.rs), for tests only: what is read of a record, one word at
// a time, what it is written as again, and what a record of given fields is written as.
#![tactic(auto)]

ghost use Rattle.std.specs.Prelude.{◌≡◌, cond, ◌≤◌, length};
ghost use Rattle.refusal.specs.Number.{answer_number};
ghost use Rattle.history.specs.Decode.{decode_of};
ghost use Rattle.record_writer.specs.Write.{write_answer, output_of};
ghost use Rattle.compare_records.specs.Records.{half_word, start_word, ftp_word, head_word, count_word, tally_word, summary_word, read_word, pair_at, ftp_by, test_by, made_summary, made_of};

use common::least;
use compare::{refused_number, word_at};
use compare_files::text_word;
use encode::test_kind;
use history::{Record, RecordRead, decode};
use model::Test;
use names::Name;
use state::Summary;

// The lower 32 bits at place 0, the upper ones behind them.
fn half_word(number: u64, place: u32) -> u32
    ensures { result ≡ half_word number place }
{
    match place {
        0 => (number % 4294967296) as u32,
        _ => (number / 4294967296) as u32,
    }
}

fn yes_word(yes: bool) -> u32
    ensures { result ≡ cond yes 1 0 }
{
    if yes { 1 } else { 0 }
}

// 1 and the start, or 0.
fn start_word(start: Option<u64>, place: u32) -> u32
    ensures { result ≡ start_word start place }
{
    match start {
        None => 0,
        Some(ms) => match place {
            0 => 1,
            _ => half_word(ms, place - 1),
        },
    }
}

// 1 and the watts, or 0.
fn ftp_word(ftp: Option<u16>, place: u32) -> u32
    ensures { result ≡ ftp_word ftp place }
{
    match ftp {
        None => 0,
        Some(watts) => match place {
            0 => 1,
            _ => watts as u32,
        },
    }
}

fn head_word(read: RecordRead, place: u32) -> u32
    ensures { result ≡ head_word read place }
{
    let answer = read.answer;
    let record = read.record;
    let test = record.test;
    let start = record.started_utc_ms;
    match place {
        0 => refused_number(answer),
        1 => record.journal as u32,
        2 => record.ride_id,
        3 => test_kind(test) as u32,
        _ => start_word(start, place - 4),
    }
}

fn count_word(summary: Summary, place: u32) -> u32
    ensures { result ≡ count_word summary place }
{
    let ftp = summary.ftp;
    match place {
        0 => summary.steps_done as u32,
        1 => summary.steps as u32,
        2 => summary.skipped as u32,
        3 => yes_word(summary.finished),
        _ => ftp_word(ftp, place - 4),
    }
}

// The tallies, two words each.
fn tally_word(summary: Summary, place: u32) -> u32
    ensures { result ≡ tally_word summary place }
{
    let half = place % 2;
    match place / 2 {
        0 => half_word(summary.targeted_ms, half),
        1 => half_word(summary.in_ms, half),
        2 => half_word(summary.under_ms, half),
        3 => half_word(summary.over_ms, half),
        _ => half_word(summary.unread_ms, half),
    }
}

fn summary_word(summary: Summary, place: u32) -> u32
    ensures { result ≡ summary_word summary place }
{
    if place < 6 {
        count_word(summary, place)
    } else {
        tally_word(summary, place - 6)
    }
}

fn read_word(read: RecordRead, place: u32) -> u32
    ensures { result ≡ read_word read place }
{
    let record = read.record;
    let summary = record.summary;
    let name = record.name;
    if place < 7 {
        return head_word(read, place);
    }
    if place < 23 {
        return summary_word(summary, place - 7);
    }
    text_word(name, place - 23)
}

// A word of what is read of a record: 29 in all.
pub fn record_word(bytes: &[u8], place: u32) -> u32
    ensures { result ≡ read_word (decode_of bytes.now) place }
{
    read_word(decode(bytes), place)
}

// Reads a record and writes it again; the number of the writer's refusal, or 0.
pub fn record_written(bytes: &[u8], out: &mut [u8]) -> u32
    ensures value { result ≡ answer_number (write_answer (decode_of bytes.now).«record» (length out.old)) }
    ensures out_after { out.new ≡ output_of (decode_of bytes.now).«record» out.old }
{
    let read = decode(bytes);
    let stored = read.record;
    refused_number(record_writer::encode(stored, out))
}

// Two words as one number, the lower half first.
fn pair_at(input: &[u8], place: u32) -> u64
    requires { place ≤ 20 }
    ensures { result ≡ pair_at input.now place }
{
    (word_at(input, place) as u64) + 4294967296 * (word_at(input, place + 1) as u64)
}

fn ftp_by(word: u32) -> Option<u16>
    ensures { result ≡ ftp_by word }
{
    if word == 0 {
        return None;
    }
    Some(((word - 1) % 65536) as u16)
}

fn test_by(word: u32) -> Test
    ensures { result ≡ test_by word }
{
    match word {
        0 => Test::None,
        1 => Test::Twenty,
        2 => Test::Ramp,
        _ => Test::None,
    }
}

fn made_summary(input: &[u8]) -> Summary
    ensures { result ≡ made_summary input.now }
{
    Summary {
        targeted_ms: pair_at(input, 11),
        in_ms: pair_at(input, 13),
        under_ms: pair_at(input, 15),
        over_ms: pair_at(input, 17),
        unread_ms: pair_at(input, 19),
        ftp: ftp_by(word_at(input, 7)),
        steps_done: (word_at(input, 8) % 65536) as u16,
        steps: (word_at(input, 9) % 65536) as u16,
        skipped: (word_at(input, 10) % 65536) as u16,
        finished: word_at(input, 6) != 0,
    }
}

// The record of given fields: 21 words, then the bytes of its name.
fn made(input: &[u8]) -> Record
    ensures { result ≡ made_of input.now }
{
    let from = least(84, input.len());
    Record {
        journal: (word_at(input, 0) % 256) as u8,
        ride_id: word_at(input, 1),
        started_utc_ms: (word_at(input, 2) != 0).then_some(pair_at(input, 3)),
        name: Name::from_bytes(&input[from..]),
        test: test_by(word_at(input, 5)),
        summary: made_summary(input),
    }
}

// Writes the record of given fields; the number of the writer's refusal, or 0.
pub fn record_made(input: &[u8], out: &mut [u8]) -> u32
    ensures value { result ≡ answer_number (write_answer (made_of input.now) (length out.old)) }
    ensures out_after { out.new ≡ output_of (made_of input.now) out.old }
{
    let stored = made(input);
    refused_number(record_writer::encode(stored, out))
}
