// codec.rs: one step of a workout file, written into lent bytes. The room is there: whoever calls has asked.
#![tactic(auto)]

ghost use Rattle.std.specs.Prelude.{◌≡◌, ◌+◌, ◌≤◌, length, take};
ghost use Rattle.le.specs.Le.{written};
ghost use Rattle.cursor.specs.Names.{name_bytes};
ghost use Rattle.steps.specs.Bytes.{intensity_kind, length_kind, length_value, target_kind, first_value, second_value, third_value, fixed_bytes, step_bytes};

use model::{Intensity, Length, Step, Target};
use names::Name;

pub fn intensity_kind(intensity: Intensity) -> u8
    ensures { result ≡ intensity_kind intensity }
{
    match intensity {
        Intensity::Warmup => 0,
        Intensity::Work => 1,
        Intensity::Recovery => 2,
        Intensity::Cooldown => 3,
        Intensity::Test => 4,
    }
}

pub fn length_kind(lasts: Length) -> u8
    ensures { result ≡ length_kind lasts }
{
    match lasts {
        Length::Time(_) => 0,
        Length::Distance(_) => 1,
        Length::Open => 2,
    }
}

pub fn length_value(lasts: Length) -> u32
    ensures { result ≡ length_value lasts }
{
    match lasts {
        Length::Time(secs) => secs as u32,
        Length::Distance(metres) => metres,
        Length::Open => 0,
    }
}

// A target's kind and its three values.
#[derive(Clone, Copy, Drop)]
pub struct Values {
    pub kind: u8,
    pub a: u16,
    pub b: u16,
    pub c: u16,
}

pub fn values_of(target: Target) -> Values
    ensures { result ≡ record { kind = target_kind target; a = first_value target; b = second_value target; c = third_value target } }
{
    match target {
        Target::Free => Values {
            kind: 0,
            a: 0,
            b: 0,
            c: 0,
        },
        Target::Ftp { low, high } => Values {
            kind: 1,
            a: low as u16,
            b: high as u16,
            c: 0,
        },
        Target::Watts { low, high } => Values {
            kind: 2,
            a: low,
            b: high,
            c: 0,
        },
        Target::HeartZone(zone) => Values {
            kind: 3,
            a: zone as u16,
            b: 0,
            c: 0,
        },
        Target::Lthr { low, high } => Values {
            kind: 4,
            a: low as u16,
            b: high as u16,
            c: 0,
        },
        Target::Cadence { low, high } => Values {
            kind: 5,
            a: low as u16,
            b: high as u16,
            c: 0,
        },
        Target::Ramp { start, step, every } => Values {
            kind: 6,
            a: start,
            b: step,
            c: every,
        },
        Target::FtpRamp { start, step, every } => Values {
            kind: 7,
            a: start as u16,
            b: step as u16,
            c: every,
        },
    }
}

fn put_fixed(out: &mut [u8], at: usize, intensity: Intensity, lasts: Length, target: Target)
    requires { at + 14 ≤ length out.old }
    ensures { out.new ≡ written out.old at (fixed_bytes intensity lasts target) }
{
    let values = values_of(target);
    le::put_u8(out, at, intensity_kind(intensity));
    le::put_u8(out, at + 1, length_kind(lasts));
    le::put_u32(out, at + 2, length_value(lasts));
    le::put_u8(out, at + 6, values.kind);
    le::put_u16(out, at + 7, values.a);
    le::put_u16(out, at + 9, values.b);
    le::put_u16(out, at + 11, values.c);
    le::put_u8(out, at + 13, 0);
}

// The first `n` of 20 bytes.
pub fn put_text(out: &mut [u8], at: usize, text: [u8; 20], n: usize)
    requires { (n ≤ 20) × (at + n ≤ length out.old) }
    ensures { out.new ≡ written out.old at (take n text) }
{
    out[at..at + n].copy_from_slice(&text[..n]);
}

// A name: its length and its bytes. The place behind it.
pub fn put_name(out: &mut [u8], at: usize, name: Name) -> usize
    requires { (name.len ≤ 20) × (at + length (name_bytes name) ≤ length out.old) }
    ensures { (result ≡ at + length (name_bytes name)) × (out.new ≡ written out.old at (name_bytes name)) }
{
    let len = name.len;
    let text = name.bytes;
    le::put_u8(out, at, len);
    put_text(out, at + 1, text, len as usize);
    at + 1 + (len as usize)
}

// A step: its fixed bytes and its note. The place behind it.
pub fn put_step(out: &mut [u8], at: usize, step: Step) -> usize
    requires { (step.note.len ≤ 20) × (at + length (step_bytes step) ≤ length out.old) }
    ensures { (result ≡ at + length (step_bytes step)) × (out.new ≡ written out.old at (step_bytes step)) }
{
    let intensity = step.intensity;
    let lasts = step.length;
    let target = step.target;
    let note = step.note;
    put_fixed(out, at, intensity, lasts, target);
    put_name(out, at + 14, note)
}
