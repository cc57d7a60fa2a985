// Document 01, 'Ride sheet': its reader, with questions 16 and 17. A sheet has a 2-byte count n, n kind bytes and n values of 8
// bytes; it stores a list of calls, each of which document 01 calls an act.
#![tactic(auto)]

ghost use Rattle.std.specs.Prelude.{◌≡◌, ◌+◌, ◌*◌, ◌≤◌, ◌<◌, length};
ghost use Rattle.sheet.specs.RoundTrip.{WrittenIsRead, ReadIsWritten, SampleSheet};
ghost use Rattle.sheet.specs.Sheet.{count_in, size_ok, absent_ok, profile_at, sample_at, sample_ok, unused_at, act_ok, act_in, fault_from, accepted_all, refused_at, check_of};

use readings::{Sample, is_set};
use refusal::Refusal;
use state::{Mm, Ms};
use zones::TrainingProfile;

pub const MAX_ACTS: usize = 4096;

// The flags of a read: which of its readings are present.
const POWER: u16 = 1;

const HEART: u16 = 2;

const CADENCE: u16 = 4;

#[derive(Clone, Copy, Drop)]
pub enum Act {
    Profile(TrainingProfile),
    Read(Sample),
    Ride(Ms, Mm),
    Skip,
    // By 60 s or 500 m.
    ExtendLong,
    // By the player's default.
    Extend,
}

// An answer, and the act that a refusal names.
#[derive(Clone, Copy, Drop)]
pub struct ActAnswer {
    pub answer: Result<(), Refusal>,
    pub act: Option<u16>,
}

pub fn accepted_all() -> ActAnswer
    ensures { result ≡ accepted_all }
{
    ActAnswer {
        answer: Ok(()),
        act: None,
    }
}

pub fn refused_at(refusal: Refusal, act: Option<u16>) -> ActAnswer
    ensures { result ≡ refused_at refusal act }
{
    ActAnswer {
        answer: Err(refusal),
        act,
    }
}

// How many acts a sheet says that it has.
pub fn count_of(sheet: &[u8]) -> usize
    requires { 2 ≤ length sheet.now }
    ensures { (result ≡ count_in sheet.now) × (result ≤ 65535) }
{
    le::get_u16(sheet, 0) as usize
}

// Question 16.
fn is_sized(sheet: &[u8]) -> bool
    ensures { result ≡ size_ok sheet.now }
{
    if sheet.len() < 2 {
        return false;
    }
    let n = count_of(sheet);
    (1 <= n) & (n <= MAX_ACTS) & (sheet.len() == 2 + 9 * n)
}

// An absent reading is 0.
fn is_absent_ok(present: bool, value: u16) -> bool
    ensures { result ≡ absent_ok present value }
{
    present | (value == 0)
}

pub fn sample_at(sheet: &[u8], at: usize) -> Sample
    requires { at + 8 ≤ length sheet.now }
    ensures { result ≡ sample_at sheet.now at }
{
    let power = le::get_u16(sheet, at);
    let heart = le::get_u16(sheet, at + 2);
    let cadence = le::get_u16(sheet, at + 4);
    let flags = le::get_u16(sheet, at + 6);
    Sample {
        power_watts: is_set(flags, POWER).then_some(power),
        heart_bpm: is_set(flags, HEART).then_some(heart),
        cadence_tenths: is_set(flags, CADENCE).then_some(cadence),
    }
}

// No other flags, and absent readings 0.
fn is_sample(sheet: &[u8], at: usize) -> bool
    requires { at + 8 ≤ length sheet.now }
    ensures { result ≡ sample_ok sheet.now at }
{
    let power = le::get_u16(sheet, at);
    let heart = le::get_u16(sheet, at + 2);
    let cadence = le::get_u16(sheet, at + 4);
    let flags = le::get_u16(sheet, at + 6);
    let readings = is_absent_ok(is_set(flags, POWER), power)
        & is_absent_ok(is_set(flags, HEART), heart)
        & is_absent_ok(is_set(flags, CADENCE), cadence);
    (flags <= 7) & readings
}

pub fn profile_at(sheet: &[u8], at: usize) -> TrainingProfile
    requires { at + 8 ≤ length sheet.now }
    ensures { result ≡ profile_at sheet.now at }
{
    TrainingProfile {
        ftp_watts: le::get_u16(sheet, at),
        lthr_bpm: le::get_u16(sheet, at + 2),
    }
}

// Four unused bytes.
fn is_unused(sheet: &[u8], at: usize) -> bool
    requires { at + 4 ≤ length sheet.now }
    ensures { result ≡ unused_at sheet.now at }
{
    le::get_u32(sheet, at) == 0
}

// Question 17 of one act.
fn is_act(sheet: &[u8], n: usize, i: usize) -> bool
    requires { (n ≤ 4096) × (i < n) × (length sheet.now ≡ 2 + 9 * n) }
    ensures { result ≡ act_ok sheet.now n i }
{
    let kind = sheet[2 + i];
    let at = 2 + n + 8 * i;
    let first = i == 0;
    let unused = is_unused(sheet, at) & is_unused(sheet, at + 4);
    match kind {
        0 => first & is_unused(sheet, at + 4),
        1 => !first & is_sample(sheet, at),
        2 => !first,
        3..=5 => !first & unused,
        _ => false,
    }
}

// The first act that question 17 refuses, `n` if there is none. A `for`: `find` takes a fifth more instructions an act.
fn first_fault(sheet: &[u8], n: usize) -> usize
    requires { (n ≤ 4096) × (length sheet.now ≡ 2 + 9 * n) }
    ensures { result ≡ fault_from sheet.now n 0 n }
{
    for i in 0..n {
        if !is_act(sheet, n, i) {
            return i;
        }
    }
    n
}

// Question 16, then 17, which names the first act at fault.
pub fn check(sheet: &[u8]) -> ActAnswer
    ensures { result ≡ check_of sheet.now }
{
    if !is_sized(sheet) {
        return refused_at(Refusal::SheetLength, None);
    }
    let n = count_of(sheet);
    let fault = first_fault(sheet, n);
    if fault < n {
        return refused_at(Refusal::Act, Some(fault as u16));
    }
    accepted_all()
}

// Act `i` of a sheet of `n`.
pub fn act_at(sheet: &[u8], n: usize, i: usize) -> Act
    requires { (n ≤ 4096) × (i < n) × (length sheet.now ≡ 2 + 9 * n) }
    ensures { result ≡ act_in sheet.now n i }
{
    let kind = sheet[2 + i];
    let at = 2 + n + 8 * i;
    match kind {
        0 => Act::Profile(profile_at(sheet, at)),
        1 => Act::Read(sample_at(sheet, at)),
        2 => {
            let ms = le::get_u32(sheet, at) as u64;
            let mm = le::get_u32(sheet, at + 4) as u64;
            Act::Ride(Ms(ms), Mm(mm))
        }
        3 => Act::Skip,
        4 => Act::ExtendLong,
        _ => Act::Extend,
    }
}

// What is written of a list of acts passes both questions and is read as that list.
pub fn written_is_read()
    ensures { WrittenIsRead }
{}

// A sheet that passes both questions is the one written from what is read of it.
pub fn read_is_written()
    ensures { ReadIsWritten }
{}

// A sheet with an act of each kind, byte by byte.
pub fn sample_sheet()
    ensures { SampleSheet }
{}
