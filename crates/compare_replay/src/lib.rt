// Replays a workout file and a ride sheet by the call of crate `console`, and answers with words, for tests only
// (tests/oracle/list.rs has the layout); and a word of the answer to any question of the fixed lists.
#![tactic(auto)]

ghost use Rattle.std.specs.Prelude.{◌≡◌};
ghost use Rattle.compare_replay.specs.Replays.{given_at, word_of, replay_word, any_word};

use common::least;
use compare::word_at;

// What a replay is handed besides the bytes of workout and sheet.
#[derive(Clone, Copy, Drop)]
struct Given {
    journal: u8,
    id: u32,
    start: u64,
    dated: u32,
    lent: usize,
}

// Words 1 to 6: journal, id, the start's lower and upper half, dated, how many bytes are lent.
fn given_at(input: &[u8]) -> Given
    ensures { result ≡ given_at input.now }
{
    Given {
        journal: (word_at(input, 1) % 256) as u8,
        id: word_at(input, 2),
        start: (word_at(input, 3) as u64) + 4294967296 * (word_at(input, 4) as u64),
        dated: word_at(input, 5),
        lent: word_at(input, 6) as usize,
    }
}

// The refusal's number, its act, then the 80 bytes, 165 each before, of which the first are lent; four bytes to a word.
fn word_of(workout: &[u8], sheet: &[u8], given: Given, place: u32) -> u32
    ensures { result ≡ word_of workout.now sheet.now given place }
{
    let mut out = [165u8; 80];
    let lent = least(given.lent, 80);
    let replayed = console::replay(
        workout,
        sheet,
        given.journal,
        given.id,
        given.start,
        given.dated,
        &mut out[..lent],
    );
    match place {
        0 => replayed.refusal,
        1 => replayed.act,
        _ => word_at(&out, place - 2),
    }
}

// Word 0 is how many of the bytes after the seven words are the workout's; the rest is the sheet.
fn replay_word(input: &[u8], place: u32) -> u32
    ensures { result ≡ replay_word input.now place }
{
    let from = least(28, input.len());
    let end = from + least(word_at(input, 0) as usize, input.len() - from);
    word_of(&input[from..end], &input[end..], given_at(input), place)
}

// The word at a place of the answer to any question, 14 being that on a whole replay.
pub fn any_word(question: u32, input: &[u8], place: u32) -> u32
    ensures { result ≡ any_word question input.now place }
{
    match question {
        14 => replay_word(input, place),
        _ => compare_player::any_word(question, input, place),
    }
}
