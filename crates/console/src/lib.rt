// Document 01: "a call by which the console's C program hands in workout and sheet bytes with journal, id, start time and a yes or no
// for whether it is dated .., and gets the record, or the refusal's number and, where it names one, its act". include/console.h has
// its C header.
#![tactic(auto)]

ghost use Rattle.std.specs.Prelude.{◌≡◌, length};
ghost use Rattle.replay.specs.Replay.{replay_answer, replay_output};
ghost use Rattle.console.specs.Console.{act_number, replayed_of, is_yes};

use refusal::answer_number;
use sheet::ActAnswer;

// Where a refusal names no act.
pub const NO_ACT: u32 = 4294967295;

// The number of the question that refused, 0 if none did, and the act that it names.
#[repr(C)]
#[derive(Clone, Copy, Drop)]
pub struct Replayed {
    pub refusal: u32,
    pub act: u32,
}

fn act_number(act: Option<u16>) -> u32
    ensures { result ≡ act_number act }
{
    match act {
        None => NO_ACT,
        Some(i) => i as u32,
    }
}

fn in_numbers(outcome: ActAnswer) -> Replayed
    ensures { result ≡ replayed_of outcome }
{
    let answer = outcome.answer;
    let act = outcome.act;
    Replayed {
        refusal: answer_number(answer),
        act: act_number(act),
    }
}

// `dated` is 0 for no, any other number for yes. Refused, all of `out` stays.
pub fn replay(
    workout: &[u8],
    sheet: &[u8],
    journal: u8,
    id: u32,
    start: u64,
    dated: u32,
    out: &mut [u8],
) -> Replayed
    ensures value { result ≡ replayed_of (replay_answer workout.now sheet.now (length out.old)) }
    ensures out_after { out.new ≡ replay_output workout.now sheet.now journal id start (is_yes dated) out.old }
{
    in_numbers(replay::replay(workout, sheet, journal, id, start, dated != 0, out))
}
