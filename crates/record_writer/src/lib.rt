// history.rs's `encode` into lent bytes: the 74 bytes of a record, or a refusal that leaves all bytes.
#![tactic(auto)]

ghost use Rattle.std.specs.Prelude.{◌≡◌, true, ◌≤◌, length};
ghost use Rattle.le.specs.Le.{written};
ghost use Rattle.names.specs.Names.{name_ok};
ghost use Rattle.history.specs.Record.{record_size, flag, flags_of, millis, body_bytes, record_bytes};
ghost use Rattle.record_writer.specs.Write.{first_bytes, ride_bytes, count_bytes, time_bytes, write_answer, output_of};

use history::{BODY_V2, Record, VERSION_2};
use model::Test;
use refusal::Refusal;
use state::Summary;

// The bytes of a record: its body and the check word.
pub const RECORD_BYTES: usize = 74;

// A flag's value where it is set.
fn flag_of(on: bool, value: u8) -> u8
    ensures { (result ≡ flag on value) × (result ≤ value) }
{
    if on { value } else { 0 }
}

fn flags_of(stored: Record) -> u8
    ensures { result ≡ flags_of stored }
{
    let summary = stored.summary;
    let start = stored.started_utc_ms;
    let ftp = summary.ftp;
    let finished = flag_of(summary.finished, 1);
    let dated = flag_of(start.is_some(), 2);
    let measured = flag_of(ftp.is_some(), 4);
    finished + (dated + measured)
}

// Milliseconds above 32 bits are written as the most that they hold.
fn millis_of(ms: u64) -> u32
    ensures { result ≡ millis ms }
{
    if 4294967295 < ms {
        return 4294967295;
    }
    ms as u32
}

// "VWKO", the version, and how many bytes stand before the check word.
fn put_first(out: &mut [u8])
    requires { record_size ≤ length out.old }
    ensures { out.new ≡ written out.old 0 first_bytes }
{
    le::put_u8(out, 0, 86);
    le::put_u8(out, 1, 87);
    le::put_u8(out, 2, 75);
    le::put_u8(out, 3, 79);
    le::put_u8(out, 4, VERSION_2);
    le::put_u8(out, 5, BODY_V2 as u8);
}

// Journal, flags, id, start and the name's length.
fn put_ride(out: &mut [u8], stored: Record)
    requires { record_size ≤ length out.old }
    ensures { out.new ≡ written out.old 6 (ride_bytes stored) }
{
    let flags = flags_of(stored);
    let started = stored.started_utc_ms;
    let start = started.unwrap_or(0);
    let name = stored.name;
    le::put_u8(out, 6, stored.journal);
    le::put_u8(out, 7, flags);
    le::put_u32(out, 8, stored.ride_id);
    le::put_u64(out, 12, start);
    le::put_u8(out, 20, name.len);
}

// Test and steps.
fn put_counts(out: &mut [u8], test: Test, summary: Summary)
    requires { record_size ≤ length out.old }
    ensures { out.new ≡ written out.old 41 (count_bytes test summary) }
{
    let kind = encode::test_kind(test);
    le::put_u8(out, 41, kind);
    le::put_u16(out, 42, summary.steps_done);
    le::put_u16(out, 44, summary.steps);
    le::put_u16(out, 46, summary.skipped);
}

// Tallies, FTP and unread time.
fn put_times(out: &mut [u8], summary: Summary)
    requires { record_size ≤ length out.old }
    ensures { out.new ≡ written out.old 48 (time_bytes summary) }
{
    let ftp = summary.ftp;
    let watts = ftp.unwrap_or(0);
    le::put_u32(out, 48, millis_of(summary.targeted_ms));
    le::put_u32(out, 52, millis_of(summary.in_ms));
    le::put_u32(out, 56, millis_of(summary.under_ms));
    le::put_u32(out, 60, millis_of(summary.over_ms));
    le::put_u16(out, 64, watts);
    le::put_u32(out, 66, millis_of(summary.unread_ms));
}

// All before the check word. A name that passes question 5 has zeros behind its bytes.
fn put_body(out: &mut [u8], stored: Record)
    requires { (record_size ≤ length out.old) × (name_ok stored.name ≡ true) }
    ensures { out.new ≡ written out.old 0 (body_bytes stored) }
{
    let name = stored.name;
    let text = name.bytes;
    let test = stored.test;
    let summary = stored.summary;
    put_first(out);
    put_ride(out, stored);
    step_writer::put_text(out, 21, text, 20);
    put_counts(out, test, summary);
    put_times(out, summary);
}

fn put_record(out: &mut [u8], stored: Record)
    requires { (record_size ≤ length out.old) × (name_ok stored.name ≡ true) }
    ensures { out.new ≡ written out.old 0 (record_bytes stored) }
{
    put_body(out, stored);
    let check = checksum::crc32(&out[..BODY_V2]);
    le::put_u32(out, BODY_V2, check);
}

// Asks 5 of the name, then 19, and writes exactly the record; refused, it leaves all bytes.
pub fn encode(stored: Record, out: &mut [u8]) -> Result<(), Refusal>
    ensures value { result ≡ write_answer stored (length out.old) }
    ensures out_after { out.new ≡ output_of stored out.old }
{
    let name = stored.name;
    if !name.check() {
        return Err(Refusal::Field);
    }
    if out.len() < RECORD_BYTES {
        return Err(Refusal::Output);
    }
    put_record(out, stored);
    Ok(())
}
