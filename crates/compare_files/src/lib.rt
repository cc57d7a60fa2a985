// Answers of this repository to the questions on workout files (tests/oracle/questions.rs), for tests only: what is read of a
// file, and what writing that again gives. Whole answers for the comparison; one word at a time, beside the questions of
// `compare`, for those and for the fixed list.
#![tactic(auto)]

ghost use Rattle.std.specs.Prelude.{◌≡◌, min, length};
ghost use Rattle.decode.specs.Decode.{decode_of};
ghost use Rattle.encode.specs.Encode.{encoded_of, output_of};
ghost use Rattle.compare_files.specs.Files.{text_word, head_word, step_word, block_word, rest_word, body_word, file_word, filled, written_number, written_word, question_word};

use common::least;
use compare::{compare_answer, order_word, refused_number, word_at};
use decode::{Decoded, decode};
use encode::{encode, test_kind};
use model::{Block, Step, Workout};
use names::Name;
use refusal::Refusal;

// A name's length, then its 20 bytes, four to a word.
pub fn text_word(name: Name, place: u32) -> u32
    ensures { result ≡ text_word name place }
{
    let bytes = name.bytes;
    match place {
        0 => name.len as u32,
        _ => word_at(&bytes, place - 1),
    }
}

fn head_word(read: Decoded, place: u32) -> u32
    ensures { result ≡ head_word read place }
{
    let answer = read.answer;
    let workout = read.workout;
    let test = workout.test;
    let name = workout.name;
    match place {
        0 => refused_number(answer),
        1 => test_kind(test) as u32,
        2 => workout.step_count as u32,
        3 => workout.block_count as u32,
        _ => text_word(name, place - 4),
    }
}

pub fn step_word(step: Step, place: u32) -> u32
    ensures { result ≡ step_word step place }
{
    let intensity = step.intensity;
    let lasts = step.length;
    let target = step.target;
    let note = step.note;
    let values = step_writer::values_of(target);
    match place {
        0 => step_writer::intensity_kind(intensity) as u32,
        1 => step_writer::length_kind(lasts) as u32,
        2 => step_writer::length_value(lasts),
        3 => values.kind as u32,
        4 => values.a as u32,
        5 => values.b as u32,
        6 => values.c as u32,
        _ => text_word(note, place - 7),
    }
}

fn block_word(block: Block) -> u32
    ensures { result ≡ block_word block }
{
    (block.first as u32) + 256 * (block.len as u32) + 65536 * (block.count as u32)
}

// The blocks, a word each, then the playing order.
fn rest_word(workout: Workout, place: u32) -> u32
    ensures { result ≡ rest_word workout place }
{
    let blocks = workout.blocks;
    let n = least(workout.block_count as usize, 8) as u32;
    if place < n {
        block_word(blocks[place as usize])
    } else {
        order_word(workout, place - n)
    }
}

// The steps, 13 words each, then the rest.
fn body_word(workout: Workout, place: u32) -> u32
    ensures { result ≡ body_word workout place }
{
    let steps = workout.steps;
    let n = 13 * (least(workout.step_count as usize, 12) as u32);
    if place < n {
        step_word(steps[(place / 13) as usize], place % 13)
    } else {
        rest_word(workout, place - n)
    }
}

pub fn file_word(read: Decoded, place: u32) -> u32
    ensures { result ≡ file_word read place }
{
    let workout = read.workout;
    if place < 10 {
        head_word(read, place)
    } else {
        body_word(workout, place - 10)
    }
}

// The words of the answer on a file, as many as there are places for: the longest has 274.
pub fn compare_file(file: &[u8], answer: &mut [u32])
    ensures { answer.new ≡ filled (file_word (decode_of file.now)) answer.old (min (length answer.old) 280) }
{
    let read = decode(file);
    let n = least(answer.len(), 280);
    for i in 0..n {
        answer[i] = file_word(read, i as u32);
    }
}

// The length written, or the number of the question that refuses: no file is as short as that.
fn written_number(encoded: Result<usize, Refusal>) -> u32
    ensures { result ≡ written_number encoded }
{
    match encoded {
        Ok(size) => (size % 4294967296) as u32,
        Err(refusal) => refusal.number(),
    }
}

// What was read of a file, written again.
pub fn compare_written(file: &[u8], out: &mut [u8]) -> u32
    ensures value { result ≡ written_number (encoded_of (decode_of file.now).workout (length out.old)) }
    ensures out_after { out.new ≡ output_of (decode_of file.now).workout out.old }
{
    let read = decode(file);
    let workout = read.workout;
    written_number(encode(workout, out))
}

// The same in words, over 484 bytes of 165: those past the file stay.
fn written_word(file: &[u8], place: u32) -> u32
    ensures { result ≡ written_word file.now place }
{
    let mut out = [165u8; 484];
    let size = compare_written(file, &mut out);
    match place {
        0 => size,
        _ => word_at(&out, place - 1),
    }
}

// The word at a place of the answer to any question.
pub fn question_word(question: u32, input: &[u8], place: u32) -> u32
    ensures { result ≡ question_word question input.now place }
{
    match question {
        11 => file_word(decode(input), place),
        12 => written_word(input, place),
        _ => compare_answer(question, input, place),
    }
}
