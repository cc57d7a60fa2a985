// The call `replay` for C, with include/console.h: a static library over crate `console`.
#![tactic(auto)]

ghost use Rattle.std.specs.Prelude.{◌≡◌, length};
ghost use Rattle.replay.specs.Replay.{replay_answer, replay_output};
ghost use Rattle.console.specs.Console.{replayed_of, is_yes};

use console::Replayed;

// `dated` is 0 for no, any other number for yes. Refused, all of `out` stays.
#[unsafe(no_mangle)]
pub extern "C" fn replay(
    workout: &[u8],
    sheet: &[u8],
    journal: u8,
    id: u32,
    start: u64,
    dated: u32,
    out: &mut [u8],
) -> Replayed
    ensures value { result ≡ replayed_of (replay_answer workout.now sheet.now (length out.old)) }
    ensures out_after { out.new ≡ replay_output workout.now sheet.now journal id start (is_yes dated) out.old }
{
    console::replay(workout, sheet, journal, id, start, dated, out)
}
