// history.rs: how a ride's workout went, as a record of 74 bytes, and its reader. Little-endian:
//
// | Bytes | Field |
// | --- | --- |
// | 0..4 | magic `VWKO` |
// | 4 | version, 2 |
// | 5 | body length `n` before the check word: 70 in version 2, 66 in version 1 |
// | 6 | journal: `i` internal, `b` bulk |
// | 7 | flags: 1 finished, 2 start time known, 4 FTP measured |
// | 8..12 | ride id in that journal |
// | 12..20 | ride start, UTC ms (0 when unknown) |
// | 20 | name length, then 20 name bytes |
// | 41 | test: 0 none, 1 twenty minutes, 2 ramp |
// | 42..48 | steps done, steps, skipped (u16 each) |
// | 48..64 | targeted, in, under and over target ms (u32 each) |
// | 64..66 | FTP the test measured, W |
// | 66..70 | ms with a target and without its reading, from version 2 on (u32) |
// | n..n+4 | check word of bytes 0..n |
//
// Later versions only append fields before the check word and raise the version; the reader takes the fields it knows from any
// version at least 1. What a record is written as is a definition here (specs/Record.antt).
#![tactic(auto)]

ghost use Rattle.std.specs.Prelude.{◌≡◌, ◌≤◌, ◌<◌, length, get_or};
ghost use Rattle.power.specs.Power.{or_zero};
ghost use Rattle.history.specs.Record.{start_ms, RecordSize};
ghost use Rattle.history.specs.Decode.{least_size, begins, is_whole, name_in, unread_in, summary_in, record_in, no_record, decode_of};
ghost use Rattle.history.specs.Samples.{Samples};
ghost use Rattle.history.specs.Unread.{UnreadByVersion};
ghost use Rattle.history.specs.RoundTrip.{RecordTyped, WrittenIsRead, ReadFits};

use decode::test_of;
use model::Test;
use names::{NAME_BYTES, Name};
use readings::is_set;
use refusal::Refusal;
use state::Summary;

// The oldest version.
const VERSION_1: u8 = 1;

// Body bytes of version 1, before the check word.
const BODY_V1: usize = 66;

// The version that is written, the first with unread time, and its body bytes.
pub const VERSION_2: u8 = 2;

pub const BODY_V2: usize = 70;

// The flags.
const FINISHED: u16 = 1;

const DATED: u16 = 2;

const MEASURED: u16 = 4;

#[derive(Clone, Copy, Drop)]
pub struct Record {
    // `i` for the internal journal, `b` for the bulk log.
    pub journal: u8,
    pub ride_id: u32,
    pub started_utc_ms: Option<u64>,
    pub name: Name,
    pub test: Test,
    pub summary: Summary,
}

// The record read, or the refusal with a record of zeros: a struct and no `Result`, since document 01 wants that record (`no_record`).
#[derive(Clone, Copy, Drop)]
pub struct RecordRead {
    pub answer: Result<(), Refusal>,
    pub record: Record,
}

// A length that a byte says.
fn size_of(byte: u8) -> usize
    ensures { (result ≡ byte) × (result ≤ 255) }
{
    byte as usize
}

fn flags_of(byte: u8) -> u16
    ensures { result ≡ byte }
{
    byte as u16
}

// "VWKO".
fn has_magic(bytes: &[u8]) -> bool
    requires { 4 ≤ length bytes.now }
    ensures { result ≡ begins bytes.now }
{
    (bytes[0] == 86) & (bytes[1] == 87) & (bytes[2] == 75) & (bytes[3] == 79)
}

// A body of some version from 1 on with its check word behind it.
fn is_whole(bytes: &[u8]) -> bool
    ensures { result ≡ is_whole bytes.now }
{
    if bytes.len() < 6 {
        return false;
    }
    if !has_magic(bytes) {
        return false;
    }
    if bytes[4] < VERSION_1 {
        return false;
    }
    let body = size_of(bytes[5]);
    if body < BODY_V1 {
        return false;
    }
    if bytes.len() < body + 4 {
        return false;
    }
    checksum::crc32(&bytes[..body]) == le::get_u32(bytes, body)
}

fn read_name(bytes: &[u8]) -> Name
    requires { (least_size ≤ length bytes.now) × (get_or bytes.now 20 0 ≤ 20) }
    ensures { result ≡ name_in bytes.now }
{
    let end = 21 + size_of(bytes[20]);
    Name::from_bytes(&bytes[21..end])
}

// Unread time, which version 1 and a shorter body don't have: 0 there.
fn read_unread(bytes: &[u8]) -> u64
    requires { least_size ≤ length bytes.now }
    ensures { result ≡ unread_in bytes.now }
{
    if bytes[4] < VERSION_2 {
        return 0;
    }
    if size_of(bytes[5]) < BODY_V2 {
        return 0;
    }
    le::get_u32(bytes, 66) as u64
}

fn read_summary(bytes: &[u8]) -> Summary
    requires { least_size ≤ length bytes.now }
    ensures { result ≡ summary_in bytes.now }
{
    let flags = flags_of(bytes[7]);
    Summary {
        targeted_ms: le::get_u32(bytes, 48) as u64,
        in_ms: le::get_u32(bytes, 52) as u64,
        under_ms: le::get_u32(bytes, 56) as u64,
        over_ms: le::get_u32(bytes, 60) as u64,
        unread_ms: read_unread(bytes),
        ftp: is_set(flags, MEASURED).then_some(le::get_u16(bytes, 64)),
        steps_done: le::get_u16(bytes, 42),
        steps: le::get_u16(bytes, 44),
        skipped: le::get_u16(bytes, 46),
        finished: is_set(flags, FINISHED),
    }
}

fn read_record(bytes: &[u8], test: Test) -> Record
    requires { (least_size ≤ length bytes.now) × (get_or bytes.now 20 0 ≤ 20) }
    ensures { result ≡ record_in bytes.now test }
{
    Record {
        journal: bytes[6],
        ride_id: le::get_u32(bytes, 8),
        started_utc_ms: is_set(flags_of(bytes[7]), DATED).then_some(le::get_u64(bytes, 12)),
        name: read_name(bytes),
        test,
        summary: read_summary(bytes),
    }
}

fn no_record() -> RecordRead
    ensures { result ≡ no_record }
{
    RecordRead {
        answer: Err(Refusal::Record),
        record: Record {
            journal: 0,
            ride_id: 0,
            started_utc_ms: None,
            name: Name::empty(),
            test: Test::None,
            summary: start::no_summary(0),
        },
    }
}

// A record of any version from 1 on, or question 18 if damaged or foreign.
pub fn decode(bytes: &[u8]) -> RecordRead
    ensures { result ≡ decode_of bytes.now }
{
    if !is_whole(bytes) {
        return no_record();
    }
    if (NAME_BYTES as u8) < bytes[20] {
        return no_record();
    }
    let Some(test) = test_of(bytes[41]) else {
        return no_record();
    };
    RecordRead {
        answer: Ok(()),
        record: read_record(bytes, test),
    }
}

// A record's bytes are 74. It does nothing: its contract is the statement.
pub fn record_size()
    ensures { RecordSize }
{}

// The bytes of some rides, which the Rust reads, and what is read of some bytes, the Rust's own among them, are what the definitions
// give. It does nothing: its contract is the statement.
pub fn rust_samples()
    ensures { Samples }
{}

// A version 1 record and any body shorter than 70 read as unread 0, every other record as the number at 66. It does nothing: its
// contract is the statement.
pub fn unread_by_version()
    ensures { UnreadByVersion }
{}

// A record written and read again is the same exactly when its fields fit. It does nothing: its contract is the statement.
pub fn written_is_read()
    ensures { WrittenIsRead }
{}

// A record that was read is the same again when it is written and read. It does nothing: its contract is the statement.
pub fn read_fits()
    ensures { ReadFits }
{}

fn start_typed(start: Option<u64>)
    ensures { start_ms start < 18446744073709551616 }
{
    match start {
        None => {}
        Some(_ms) => {}
    }
}

fn ftp_typed(ftp: Option<u16>)
    ensures { or_zero ftp < 65536 }
{
    match ftp {
        None => {}
        Some(_watts) => {}
    }
}

// Every record in memory is one that these statements speak of.
pub fn record_typed(stored: Record)
    ensures { RecordTyped stored }
{
    let start = stored.started_utc_ms;
    let summary = stored.summary;
    let ftp = summary.ftp;
    start_typed(start);
    ftp_typed(ftp);
}
