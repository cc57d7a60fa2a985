// codec.rs: one step of a workout file, read. A step is 15 bytes up to its note's length, and the note.
#![tactic(auto)]

ghost use Rattle.std.specs.Prelude.{◌≡◌, ◌&&◌, ◌+◌, ◌≤◌, ltb, eqb, length, drop};
ghost use Rattle.steps.specs.Steps.{intensity_of, length_of, small_of, plain_of, target_of, fixed_of, step_at};

use cursor::Cursor;
use model::{Intensity, Length, Step, Target};
use refusal::Refusal;

#[tactic(auto, unfolding(crate::specs::Steps::intensity_of))]
fn intensity_of(kind: u8) -> Option<Intensity>
    ensures { result ≡ intensity_of kind }
{
    match kind {
        0 => Some(Intensity::Warmup),
        1 => Some(Intensity::Work),
        2 => Some(Intensity::Recovery),
        3 => Some(Intensity::Cooldown),
        4 => Some(Intensity::Test),
        _ => None,
    }
}

#[tactic(auto, unfolding(crate::specs::Steps::length_of))]
fn length_of(kind: u8, value: u32) -> Option<Length>
    ensures { result ≡ length_of kind value }
{
    match kind {
        0 => {
            if value < 65536 {
                Some(Length::Time(value as u16))
            } else {
                None
            }
        }
        1 => Some(Length::Distance(value)),
        2 => { if value == 0 { Some(Length::Open) } else { None } }
        _ => None,
    }
}

// Two values that each fit a byte.
fn small(a: u16, b: u16) -> Option<(u8, u8)>
    ensures { result ≡ small_of a b }
{
    if a < 256 {
        if b < 256 {
            return Some((a as u8, b as u8));
        }
    }
    None
}

// A target of a kind that has no third value.
fn plain(c: u16, target: Target) -> Option<Target>
    ensures { result ≡ plain_of c target }
{
    (c == 0).then_some(target)
}

#[tactic(auto, unfolding(crate::specs::Steps::target_of))]
fn target_of(kind: u8, a: u16, b: u16, c: u16) -> Option<Target>
    ensures { result ≡ target_of kind a b c }
{
    match kind {
        0 => plain(c, Target::Free),
        1 => {
            let (low, high) = small(a, b)?;
            plain(c, Target::Ftp { low, high })
        }
        2 => plain(c, Target::Watts { low: a, high: b }),
        3 => {
            let (zone, _) = small(a, 0)?;
            plain(c, Target::HeartZone(zone))
        }
        4 => {
            let (low, high) = small(a, b)?;
            plain(c, Target::Lthr { low, high })
        }
        5 => {
            let (low, high) = small(a, b)?;
            plain(c, Target::Cadence { low, high })
        }
        6 => Some(Target::Ramp {
            start: a,
            step: b,
            every: c,
        }),
        7 => {
            let (start, step) = small(a, b)?;
            Some(Target::FtpRamp {
                start,
                step,
                every: c,
            })
        }
        _ => None,
    }
}

// The 14 bytes of a step before its note, judged from left to right.
#[tactic(auto, unfolding(crate::specs::Steps::fixed_of))]
fn fixed_at(bytes: &[u8], at: usize) -> Option<(Intensity, Length, Target)>
    requires { at + 14 ≤ length bytes.now }
    ensures { result ≡ fixed_of (drop at bytes.now) }
{
    let intensity = intensity_of(bytes[at])?;
    let value = le::get_u32(bytes, at + 2);
    let length = length_of(bytes[at + 1], value)?;
    let a = le::get_u16(bytes, at + 7);
    let b = le::get_u16(bytes, at + 9);
    let c = le::get_u16(bytes, at + 11);
    let target = target_of(bytes[at + 6], a, b, c)?;
    if bytes[at + 13] != 0 {
        return None;
    }
    Some((intensity, length, target))
}

// A step, and the cursor past it.
pub fn read_step(bytes: &[u8], cursor: Cursor) -> Result<(Step, Cursor), Refusal>
    ensures { result ≡ step_at bytes.now cursor.at }
{
    let Some((from, _)) = reader::next_bytes(bytes, cursor, 15) else {
        return Err(Refusal::Length);
    };
    let (intensity, length, target) = fixed_at(bytes, from).ok_or(Refusal::Field)?;
    let (note, next) = reader::next_name(bytes, Cursor { at: from + 14 })?;
    Ok((
        Step {
            intensity,
            length,
            target,
            note,
        },
        next,
    ))
}
