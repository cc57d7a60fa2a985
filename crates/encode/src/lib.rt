// codec.rs's `encode` into lent bytes: it writes exactly the file, or refuses and writes nothing.
#![tactic(auto)]

ghost use Rattle.std.specs.Prelude.{◌≡◌, true, ◌+◌, ◌≤◌, length, take};
ghost use mathlib.Core.List.{flat_map};
ghost use Rattle.common.specs.Lists.{all};
ghost use Rattle.le.specs.Le.{written};
ghost use Rattle.form.specs.Form.{note_ok, form_ok};
ghost use Rattle.steps.specs.Bytes.{step_bytes};
ghost use Rattle.encode.specs.Encode.{test_kind, block_bytes, head_bytes, file_bytes, encoded_of, output_of, encoded_number, writer_answer};
ghost use Rattle.refusal.specs.Number.{answer_number};

use model::{Block, Step, Test, Workout};
use refusal::Refusal;

pub fn test_kind(test: Test) -> u8
    ensures { result ≡ test_kind test }
{
    match test {
        Test::None => 0,
        Test::Twenty => 1,
        Test::Ramp => 2,
    }
}

// The first `n` steps, one behind the other; the place behind them.
fn put_steps(out: &mut [u8], at: usize, steps: [Step; 12], n: usize) -> usize
    requires { (n ≤ 12) × (all note_ok (take n steps) ≡ true) × (at + length (flat_map step_bytes (take n steps)) ≤ length out.old) }
    ensures { (result ≡ at + length (flat_map step_bytes (take n steps))) × (out.new ≡ written out.old at (flat_map step_bytes (take n steps))) }
{
    let mut place = at;
    for step in &steps[..n] {
        place = step_writer::put_step(out, place, *step);
    }
    place
}

fn put_block(out: &mut [u8], at: usize, block: Block)
    requires { at + 3 ≤ length out.old }
    ensures { out.new ≡ written out.old at (block_bytes block) }
{
    le::put_u8(out, at, block.first);
    le::put_u8(out, at + 1, block.len);
    le::put_u8(out, at + 2, block.count);
}

// The first `n` blocks, one behind the other; the place behind them.
fn put_blocks(out: &mut [u8], at: usize, blocks: [Block; 8], n: usize) -> usize
    requires { (n ≤ 8) × (at + length (flat_map block_bytes (take n blocks)) ≤ length out.old) }
    ensures { (result ≡ at + length (flat_map block_bytes (take n blocks))) × (out.new ≡ written out.old at (flat_map block_bytes (take n blocks))) }
{
    let mut place = at;
    for block in &blocks[..n] {
        put_block(out, place, *block);
        place += 3;
    }
    place
}

// What stands before the steps; the place behind it.
fn put_head(out: &mut [u8], workout: Workout) -> usize
    requires { (workout.name.len ≤ 20) × (length (head_bytes workout) ≤ length out.old) }
    ensures { (result ≡ length (head_bytes workout)) × (out.new ≡ written out.old 0 (head_bytes workout)) }
{
    let test = workout.test;
    let name = workout.name;
    le::put_u8(out, 0, 86);
    le::put_u8(out, 1, 87);
    le::put_u8(out, 2, 1);
    le::put_u8(out, 3, test_kind(test));
    let place = step_writer::put_name(out, 4, name);
    le::put_u8(out, place, workout.step_count);
    le::put_u8(out, place + 1, workout.block_count);
    place + 2
}

// How many bytes a step takes.
fn step_size(step: Step) -> usize
    requires { step.note.len ≤ 20 }
    ensures { (result ≡ length (step_bytes step)) × (result ≤ 35) }
{
    let note = step.note;
    15 + (note.len as usize)
}

// How many bytes the first `n` steps take.
fn steps_size(steps: [Step; 12], n: usize) -> usize
    requires { (n ≤ 12) × (all note_ok (take n steps) ≡ true) }
    ensures { (result ≡ length (flat_map step_bytes (take n steps))) × (result ≤ 420) }
{
    let mut size = 0;
    for step in &steps[..n] {
        size += step_size(*step);
    }
    size
}

// How many bytes the file of a workout takes.
fn file_size(workout: Workout) -> usize
    requires { form_ok workout ≡ true }
    ensures { (result ≡ length (file_bytes workout)) × (result ≤ 475) }
{
    let name = workout.name;
    let steps = workout.steps;
    let steps_len = steps_size(steps, workout.step_count as usize);
    11 + (name.len as usize) + steps_len + 3 * (workout.block_count as usize)
}

// The file, where there is room for it.
fn put_file(out: &mut [u8], workout: Workout)
    requires { (form_ok workout ≡ true) × (length (file_bytes workout) ≤ length out.old) }
    ensures { out.new ≡ written out.old 0 (file_bytes workout) }
{
    let steps = workout.steps;
    let blocks = workout.blocks;
    let at_steps = put_head(out, workout);
    let at_blocks = put_steps(out, at_steps, steps, workout.step_count as usize);
    let end = put_blocks(out, at_blocks, blocks, workout.block_count as usize);
    let check = checksum::crc32(&out[..end]);
    le::put_u32(out, end, check);
}

// Asks 5 to 9, then 19, and writes exactly the file; refused, it leaves all bytes.
pub fn encode(workout: Workout, out: &mut [u8]) -> Result<usize, Refusal>
    ensures value { result ≡ encoded_of workout (length out.old) }
    ensures out_after { out.new ≡ output_of workout out.old }
    ensures result_value { encoded_number result ≡ answer_number (writer_answer workout (length out.old)) }
{
    validation::check(workout)?;
    let size = file_size(workout);
    if out.len() < size {
        return Err(Refusal::Output);
    }
    put_file(out, workout);
    Ok(size)
}
