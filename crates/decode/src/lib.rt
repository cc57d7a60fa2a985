// codec.rs's `decode`: bytes of whatever content and length are read as a workout, or refused by the first of the questions 1 to 9
// that they fail.
#![tactic(auto)]

ghost use Rattle.std.specs.Prelude.{◌≡◌, ◌≤◌, drop, get_or, IfOk};
ghost use Rattle.cursor.specs.Reading.{read_many};
ghost use Rattle.model.specs.Workout.{no_step, no_block};
ghost use Rattle.steps.specs.Steps.{read_step};
ghost use Rattle.decode.specs.Decode.{test_of, head_at, filled_by, read_block, block_at, contents_of, begins, file_of, decode_of};

use cursor::Cursor;
use model::{Block, NO_BLOCK, NO_STEP, Step, Test, Workout};
use names::Name;
use refusal::Refusal;

// What stands before the steps: test, name and both counts.
#[derive(Clone, Copy, Drop)]
pub struct Head {
    pub test: Test,
    pub name: Name,
    pub steps: u8,
    pub blocks: u8,
}

// The workout read, or the refusal with the empty workout: a struct and no `Result`, since document 01 has a refused reader give that
// workout (`no_workout`).
#[derive(Clone, Copy, Drop)]
pub struct Decoded {
    pub answer: Result<(), Refusal>,
    pub workout: Workout,
}

pub fn test_of(kind: u8) -> Option<Test>
    ensures { result ≡ test_of kind }
{
    match kind {
        0 => Some(Test::None),
        1 => Some(Test::Twenty),
        2 => Some(Test::Ramp),
        _ => None,
    }
}

fn read_head(bytes: &[u8], cursor: Cursor) -> Result<(Head, Cursor), Refusal>
    ensures value { result ≡ head_at bytes.now cursor.at }
    ensures counts { IfOk result (λ read. (read.0.steps ≤ 12) × (read.0.blocks ≤ 8)) }
{
    let Some((kind, at_name)) = reader::next_byte(bytes, cursor) else {
        return Err(Refusal::Length);
    };
    let test = test_of(kind).ok_or(Refusal::Field)?;
    let (name, at_counts) = reader::next_name(bytes, at_name)?;
    let Some((steps, at_blocks)) = reader::next_byte(bytes, at_counts) else {
        return Err(Refusal::Length);
    };
    let Some((blocks, next)) = reader::next_byte(bytes, at_blocks) else {
        return Err(Refusal::Length);
    };
    if (steps <= 12) & (blocks <= 8) {
        return Ok((
            Head {
                test,
                name,
                steps,
                blocks,
            },
            next,
        ));
    }
    Err(Refusal::Field)
}

// `n` steps into an array, and the cursor past them.
fn read_steps(bytes: &[u8], cursor: Cursor, n: usize) -> Result<([Step; 12], Cursor), Refusal>
    requires { n ≤ 12 }
    ensures { result ≡ filled_by 12 no_step cursor.at (read_many read_step n (drop cursor.at bytes.now)) }
{
    let mut steps = [NO_STEP; 12];
    let mut at = cursor;
    for i in 0..n {
        let (step, next) = steps::read_step(bytes, at)?;
        steps[i] = step;
        at = next;
    }
    Ok((steps, at))
}

fn read_block(bytes: &[u8], cursor: Cursor) -> Result<(Block, Cursor), Refusal>
    ensures { result ≡ block_at bytes.now cursor.at }
{
    let Some((from, next)) = reader::next_bytes(bytes, cursor, 3) else {
        return Err(Refusal::Length);
    };
    Ok((
        Block {
            first: bytes[from],
            len: bytes[from + 1],
            count: bytes[from + 2],
        },
        next,
    ))
}

// `n` blocks into an array, and the cursor past them.
fn read_blocks(bytes: &[u8], cursor: Cursor, n: usize) -> Result<([Block; 8], Cursor), Refusal>
    requires { n ≤ 8 }
    ensures { result ≡ filled_by 8 no_block cursor.at (read_many read_block n (drop cursor.at bytes.now)) }
{
    let mut blocks = [NO_BLOCK; 8];
    let mut at = cursor;
    for i in 0..n {
        let (block, next) = read_block(bytes, at)?;
        blocks[i] = block;
        at = next;
    }
    Ok((blocks, at))
}

// The body behind the version, with nothing left over, and then questions 6 to 9.
fn contents(body: &[u8]) -> Result<Workout, Refusal>
    ensures { result ≡ contents_of body.now }
{
    let (head, at_steps) = read_head(body, Cursor { at: 3 })?;
    let (steps, at_blocks) = read_steps(body, at_steps, head.steps as usize)?;
    let (blocks, end) = read_blocks(body, at_blocks, head.blocks as usize)?;
    if end.at < body.len() {
        return Err(Refusal::Length);
    }
    let workout = Workout {
        name: head.name,
        steps,
        step_count: head.steps,
        blocks,
        block_count: head.blocks,
        test: head.test,
    };
    validation::validate(workout)?;
    Ok(workout)
}

// The byte at a place, and 0 past the end.
fn byte_or_0(bytes: &[u8], at: usize) -> u8
    ensures { result ≡ get_or bytes.now at 0 }
{
    if at < bytes.len() { bytes[at] } else { 0 }
}

// The body begins "VW".
fn is_workout(body: &[u8]) -> bool
    ensures { result ≡ begins body.now }
{
    (byte_or_0(body, 0) == 86) & (byte_or_0(body, 1) == 87)
}

// A workout file: a body, then its check word.
fn read_file(bytes: &[u8]) -> Result<Workout, Refusal>
    ensures { result ≡ file_of bytes.now }
{
    let len = bytes.len();
    if len < 4 {
        return Err(Refusal::Length);
    }
    if 475 < len {
        return Err(Refusal::Length);
    }
    let n = len - 4;
    let body = &bytes[..n];
    if !is_workout(body) {
        return Err(Refusal::Magic);
    }
    if byte_or_0(body, 2) != 1 {
        return Err(Refusal::Version);
    }
    if checksum::crc32(body) != le::get_u32(bytes, n) {
        return Err(Refusal::Checksum);
    }
    contents(body)
}

pub fn decode(bytes: &[u8]) -> Decoded
    ensures { result ≡ decode_of bytes.now }
{
    match read_file(bytes) {
        Ok(workout) => Decoded {
            answer: Ok(()),
            workout,
        },
        Err(refusal) => Decoded {
            answer: Err(refusal),
            workout: model::empty_workout(),
        },
    }
}
