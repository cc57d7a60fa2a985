// Replays the fixed lists of answers, data/answers, data/players and data/replays, which tests/oracle/vectors makes, and
// writes for each question how many answers were compared and how many differ.
#![tactic(auto)]

ghost use Rattle.std.specs.Prelude.{◌≡◌, length, ◌+◌, ◌*◌, ◌≤◌};
ghost use Rattle.io.specs.Counts.{IsPrefixLen};
ghost use Rattle.vectors.specs.Replays.{entry_at, Within, agrees, more, compared, step_of, replay_of};

use std::fs;
use std::io::Read;
use std::rt::Files;

// What stands at a place of the list: a question, where its input ends, and how many words the answer after it has.
#[derive(Clone, Copy, Drop)]
enum Entry {
    Asked {
        question: u32,
        end: usize,
        words: u32,
    },
    Cut,
    End,
}

// How far the list is read, and what was found of one question.
#[derive(Clone, Copy, Drop)]
struct Replay {
    at: usize,
    compared: u32,
    different: u32,
}

fn entry_at(list: &[u8], at: usize) -> Entry
    ensures { (result ≡ entry_at list.now at) × Within (length list.now) at result }
{
    if list.len() <= at {
        return Entry::End;
    }
    if list.len() - at < 8 {
        return Entry::Cut;
    }
    let size = le::get_u32(list, at + 4) as usize;
    if list.len() - (at + 8) < size {
        return Entry::Cut;
    }
    let end = at + 8 + size;
    if list.len() - end < 4 {
        return Entry::Cut;
    }
    let words = le::get_u32(list, end);
    if list.len() - (end + 4) < 4 * (words as usize) {
        return Entry::Cut;
    }
    let question = le::get_u32(list, at);
    Entry::Asked {
        question,
        end,
        words,
    }
}

// The first words of what follows an input are those that this repository gives.
fn all_agree(question: u32, input: &[u8], answer: &[u8], words: u32) -> bool
    ensures { result ≡ agrees question input.now answer.now 0 words }
{
    let mut same = true;
    for i in 0..words {
        same = same & (compare_replay::any_word(question, input, i) == compare::word_at(answer, i));
    }
    same
}

fn one_more(n: u32) -> u32
    ensures { result ≡ more n }
{
    if n < 4294967295 { n + 1 } else { n }
}

fn counted(same: bool, next: usize, s: Replay) -> Replay
    ensures { result ≡ compared same next s }
{
    if same {
        Replay {
            at: next,
            compared: one_more(s.compared),
            different: s.different,
        }
    } else {
        Replay {
            at: next,
            compared: one_more(s.compared),
            different: one_more(s.different),
        }
    }
}

fn step(question: u32, list: &[u8], s: Replay) -> Replay
    ensures { result ≡ step_of question list.now s }
{
    let at = s.at;
    match entry_at(list, at) {
        Entry::End => s,
        Entry::Cut => Replay {
            at: list.len(),
            compared: s.compared,
            different: one_more(s.different),
        },
        Entry::Asked {
            question: asked,
            end,
            words,
        } => {
            let input = at + 8;
            let answer = end + 4;
            let next = answer + 4 * (words as usize);
            if asked == question {
                counted(
                    all_agree(question, &list[input..end], &list[answer..], words),
                    next,
                    s,
                )
            } else {
                Replay {
                    at: next,
                    compared: s.compared,
                    different: s.different,
                }
            }
        }
    }
}

fn replay_all(question: u32, list: &[u8]) -> Replay
    ensures { result ≡ replay_of question list.now }
{
    let mut s = Replay {
        at: 0,
        compared: 0,
        different: 0,
    };
    for _ in 0..list.len() {
        s = step(question, list, s);
    }
    s
}

// A line that can't be printed is passed over.
fn report(rt: &impl Print, question: u32, name: &str, list: &[u8]) -> Replay
    ensures { result ≡ replay_of question list.now }
{
    let found = replay_all(question, list);
    let compared = found.compared;
    let different = found.different;
    let _ = println!(rt; "{name}: {compared} compared, {different} different");
    found
}

// Reads until all places are full or the file ends, or can't be read on.
fn read_on<R: Read>(file: &mut R, bytes: &mut [u8]) -> usize
    ensures { IsPrefixLen result bytes.new }
{
    let mut size = 0;
    while size < bytes.len() {
        match file.read(&mut bytes[size..]) {
            Ok(0) => return size,
            Ok(more) => size += more,
            Err(_) => return size,
        }
    }
    size
}

// No contract can say what is read. A file that is missing or too long shows in the counts.
fn read_list<R: Files + Eprint>(rt: &R, path: &str, bytes: &mut [u8; 524288]) -> usize
    ensures { IsPrefixLen result bytes.new }
{
    match fs::open(rt, path) {
        Ok(file) => {
            let mut open = file;
            read_on(&mut open, bytes)
        }
        Err(error) => {
            let _ = eprintln!(rt; "{path}: {error}");
            0
        }
    }
}

fn main(rt: HostRuntime) {
    let mut bytes = [0u8; 524288];
    let answers = read_list(&rt, "answers", &mut bytes);
    let list = &bytes[..answers];
    report(&rt, 0, "percent", list);
    report(&rt, 1, "power_zone", list);
    report(&rt, 2, "heart_zone", list);
    report(&rt, 3, "power_range", list);
    report(&rt, 4, "heart_range", list);
    report(&rt, 5, "band", list);
    report(&rt, 6, "ramp", list);
    report(&rt, 7, "stage", list);
    report(&rt, 8, "name", list);
    report(&rt, 9, "validate", list);
    report(&rt, 10, "order", list);
    report(&rt, 11, "file", list);
    report(&rt, 12, "written", list);
    let players = read_list(&rt, "players", &mut bytes);
    report(&rt, 13, "player", &bytes[..players]);
    let replays = read_list(&rt, "replays", &mut bytes);
    report(&rt, 14, "replay", &bytes[..replays]);
}
