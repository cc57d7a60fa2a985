// Answers of this repository to the questions that the Rust is asked (tests/oracle/questions.rs), for tests only: one word of
// the answer at a time, from the input's bytes.
#![tactic(auto)]

ghost use Rattle.std.specs.Prelude.{◌≡◌, ◌≤◌, min};
ghost use Rattle.common.specs.Lists.{padded};
ghost use Rattle.refusal.specs.Number.{answer_number};
ghost use Rattle.model.specs.Workout.{no_step, no_block};
ghost use Rattle.compare.specs.Input.{word_at, low16, low8, profile_at, ramp_at, intensity_of, length_of, target_of, test_of, target_at, step_at, block_at, at_places, workout_at};
ghost use Rattle.compare.specs.Answers.{four_words, percent_word, range_word, metric_number, band_word, ramp_word, stage_word, name_word, percent_answer, power_zone_answer, heart_zone_answer, power_range_answer, heart_range_answer, band_answer, ramp_answer, stage_answer, name_answer, played_word, order_word, validate_answer, order_answer, answer_word};

use common::least;
use model::{
    Band, Block, Intensity, Length, MAX_BLOCKS, MAX_STEPS, Metric, NO_BLOCK, NO_STEP, Ramp, Step,
    Target, Test, Workout,
};
use names::Name;
use order::{Played, has_untimed_steps, planned_secs, played_at, played_len};
use refusal::Refusal;
use validation::validate;
use zones::{Range, TrainingProfile};

// The 32-bit word at a place of the input, 0 past its end.
pub fn word_at(input: &[u8], place: u32) -> u32
    ensures { result ≡ word_at input.now place }
{
    let at = 4 * (place as usize);
    if at + 4 <= input.len() {
        le::get_u32(input, at)
    } else {
        0
    }
}

fn low16(word: u32) -> u16
    ensures { result ≡ low16 word }
{
    (word % 65536) as u16
}

fn low8(word: u32) -> u8
    ensures { result ≡ low8 word }
{
    (word % 256) as u8
}

fn u16_at(input: &[u8], place: u32) -> u16
    ensures { result ≡ low16 (word_at input.now place) }
{
    low16(word_at(input, place))
}

fn u8_at(input: &[u8], place: u32) -> u8
    ensures { result ≡ low8 (word_at input.now place) }
{
    low8(word_at(input, place))
}

fn profile_at(input: &[u8]) -> TrainingProfile
    ensures { result ≡ profile_at input.now }
{
    TrainingProfile {
        ftp_watts: u16_at(input, 0),
        lthr_bpm: u16_at(input, 1),
    }
}

fn ramp_at(input: &[u8]) -> Ramp
    ensures { result ≡ ramp_at input.now }
{
    Ramp {
        start: u16_at(input, 0),
        step: u16_at(input, 1),
        every: u16_at(input, 2),
    }
}

fn intensity_of(kind: u32) -> Intensity
    ensures { result ≡ intensity_of kind }
{
    match kind {
        0 => Intensity::Warmup,
        1 => Intensity::Work,
        2 => Intensity::Recovery,
        3 => Intensity::Cooldown,
        _ => Intensity::Test,
    }
}

fn length_of(kind: u32, value: u32) -> Length
    ensures { result ≡ length_of kind value }
{
    match kind {
        0 => Length::Time((value % 65536) as u16),
        1 => Length::Distance(value),
        _ => Length::Open,
    }
}

fn target_of(kind: u32, a: u32, b: u32, c: u32) -> Target
    ensures { result ≡ target_of kind a b c }
{
    match kind {
        0 => Target::Free,
        1 => Target::Ftp {
            low: (a % 256) as u8,
            high: (b % 256) as u8,
        },
        2 => Target::Watts {
            low: (a % 65536) as u16,
            high: (b % 65536) as u16,
        },
        3 => Target::HeartZone((a % 256) as u8),
        4 => Target::Lthr {
            low: (a % 256) as u8,
            high: (b % 256) as u8,
        },
        5 => Target::Cadence {
            low: (a % 256) as u8,
            high: (b % 256) as u8,
        },
        6 => Target::Ramp {
            start: (a % 65536) as u16,
            step: (b % 65536) as u16,
            every: (c % 65536) as u16,
        },
        _ => Target::FtpRamp {
            start: (a % 256) as u8,
            step: (b % 256) as u8,
            every: (c % 65536) as u16,
        },
    }
}

fn test_of(kind: u32) -> Test
    ensures { result ≡ test_of kind }
{
    match kind {
        0 => Test::None,
        1 => Test::Twenty,
        _ => Test::Ramp,
    }
}

fn target_at(input: &[u8], place: u32) -> Target
    requires { place ≤ 1000 }
    ensures { result ≡ target_at input.now place }
{
    target_of(
        word_at(input, place),
        word_at(input, place + 1),
        word_at(input, place + 2),
        word_at(input, place + 3),
    )
}

fn step_at(input: &[u8], place: u32) -> Step
    requires { place ≤ 900 }
    ensures { result ≡ step_at input.now place }
{
    Step {
        intensity: intensity_of(word_at(input, place)),
        length: length_of(word_at(input, place + 1), word_at(input, place + 2)),
        target: target_at(input, place + 3),
        note: Name::empty(),
    }
}

fn block_at(input: &[u8], place: u32) -> Block
    requires { place ≤ 1000 }
    ensures { result ≡ block_at input.now place }
{
    Block {
        first: u8_at(input, place),
        len: u8_at(input, place + 1),
        count: u8_at(input, place + 2),
    }
}

// A count of the input, cut to what there are places for.
fn count_at(input: &[u8], place: u32, most: usize) -> u8
    requires { most ≤ 255 }
    ensures { (result ≡ min (word_at input.now place) most) × (result ≤ most) }
{
    least(word_at(input, place) as usize, most) as u8
}

fn steps_at(input: &[u8], count: u8) -> [Step; 12]
    requires { count ≤ 12 }
    ensures { result ≡ padded 12 no_step (at_places (step_at input.now) 3 7 count) }
{
    let n = count as usize;
    let mut steps = [NO_STEP; 12];
    for i in 0..n {
        let step = step_at(input, (3 + 7 * i) as u32);
        steps[i] = step;
    }
    steps
}

fn blocks_at(input: &[u8], place: usize, count: u8) -> [Block; 8]
    requires { (place ≤ 900) × (count ≤ 8) }
    ensures { result ≡ padded 8 no_block (at_places (block_at input.now) place 3 count) }
{
    let n = count as usize;
    let mut blocks = [NO_BLOCK; 8];
    for i in 0..n {
        let block = block_at(input, (place + 3 * i) as u32);
        blocks[i] = block;
    }
    blocks
}

fn workout_at(input: &[u8]) -> Workout
    ensures { result ≡ workout_at input.now }
{
    let step_count = count_at(input, 1, MAX_STEPS);
    let block_count = count_at(input, 2, MAX_BLOCKS);
    let steps = steps_at(input, step_count);
    let blocks = blocks_at(input, 3 + 7 * (step_count as usize), block_count);
    Workout {
        name: Name::empty(),
        steps,
        step_count,
        blocks,
        block_count,
        test: test_of(word_at(input, 0)),
    }
}

fn four_words(a: u32, b: u32, c: u32, d: u32, place: u32) -> u32
    ensures { result ≡ four_words a b c d place }
{
    match place {
        0 => a,
        1 => b,
        2 => c,
        3 => d,
        _ => 0,
    }
}

fn percent_word(percent: u32, place: u32) -> u32
    ensures { result ≡ percent_word percent place }
{
    four_words(
        least(percent as usize, 65535) as u32,
        percent % 65536,
        0,
        0,
        place,
    )
}

fn range_word(range: Range, place: u32) -> u32
    ensures { result ≡ range_word range place }
{
    four_words(range.low, range.next, 0, 0, place)
}

fn metric_number(metric: Metric) -> u32
    ensures { result ≡ metric_number metric }
{
    match metric {
        Metric::Power => 0,
        Metric::Heart => 1,
        Metric::Cadence => 2,
    }
}

pub fn band_word(found: Option<Band>, place: u32) -> u32
    ensures { result ≡ band_word found place }
{
    match found {
        None => 0,
        Some(band) => {
            let metric = band.metric;
            four_words(
                1,
                metric_number(metric),
                band.low as u32,
                band.high as u32,
                place,
            )
        }
    }
}

fn ramp_word(found: Option<Ramp>, place: u32) -> u32
    ensures { result ≡ ramp_word found place }
{
    let Some(ramp) = found else {
        return 0;
    };
    four_words(
        1,
        ramp.start as u32,
        ramp.step as u32,
        ramp.every as u32,
        place,
    )
}

fn stage_word(ramp: Ramp, elapsed: u32, stage: u32, place: u32) -> u32
    ensures { result ≡ stage_word ramp elapsed stage place }
{
    four_words(
        ramp.stage(elapsed),
        ramp.stage_watts(stage) as u32,
        ramp.watts(elapsed) as u32,
        0,
        place,
    )
}

fn name_word(name: Name, place: u32) -> u32
    ensures { result ≡ name_word name place }
{
    if place == 0 {
        return name.len as u32;
    }
    let at = (place - 1) as usize;
    if at < 20 { name.bytes[at] as u32 } else { 0 }
}

// 0, or the number of the question that refuses the workout.
pub fn refused_number(answer: Result<(), Refusal>) -> u32
    ensures { result ≡ answer_number answer }
{
    refusal::answer_number(answer)
}

pub fn played_word(option: Option<Played>) -> u32
    ensures { result ≡ played_word option }
{
    let Some(played) = option else {
        return 0;
    };
    16777216 + 65536 * (played.index as u32) + 256 * (played.repetition as u32) + (played.of as u32)
}

pub fn order_word(workout: Workout, place: u32) -> u32
    ensures { result ≡ order_word workout place }
{
    match place {
        0 => (played_len(workout) % 4294967296) as u32,
        1 => planned_secs(workout),
        2 => if has_untimed_steps(workout) { 1 } else { 0 },
        _ => played_word(played_at(workout, (place - 3) as usize)),
    }
}

fn percent_answer(input: &[u8], place: u32) -> u32
    ensures { result ≡ percent_answer input.now place }
{
    percent_word(zones::percent(u16_at(input, 0), u8_at(input, 1)), place)
}

fn power_zone_answer(input: &[u8], place: u32) -> u32
    ensures { result ≡ power_zone_answer input.now place }
{
    four_words(
        profile_at(input).power_zone(u16_at(input, 2)) as u32,
        0,
        0,
        0,
        place,
    )
}

fn heart_zone_answer(input: &[u8], place: u32) -> u32
    ensures { result ≡ heart_zone_answer input.now place }
{
    four_words(
        profile_at(input).heart_zone(u16_at(input, 2)) as u32,
        0,
        0,
        0,
        place,
    )
}

fn power_range_answer(input: &[u8], place: u32) -> u32
    ensures { result ≡ power_range_answer input.now place }
{
    range_word(profile_at(input).power_range(u8_at(input, 2)), place)
}

fn heart_range_answer(input: &[u8], place: u32) -> u32
    ensures { result ≡ heart_range_answer input.now place }
{
    range_word(profile_at(input).heart_range(u8_at(input, 2)), place)
}

fn band_answer(input: &[u8], place: u32) -> u32
    ensures { result ≡ band_answer input.now place }
{
    band_word(
        target_at(input, 3).band(profile_at(input), word_at(input, 2)),
        place,
    )
}

fn ramp_answer(input: &[u8], place: u32) -> u32
    ensures { result ≡ ramp_answer input.now place }
{
    ramp_word(target_at(input, 2).ramp(profile_at(input)), place)
}

fn stage_answer(input: &[u8], place: u32) -> u32
    ensures { result ≡ stage_answer input.now place }
{
    stage_word(ramp_at(input), word_at(input, 3), word_at(input, 4), place)
}

fn name_answer(input: &[u8], place: u32) -> u32
    ensures { result ≡ name_answer input.now place }
{
    name_word(Name::from_bytes(input), place)
}

fn validate_answer(input: &[u8], place: u32) -> u32
    ensures { result ≡ validate_answer input.now place }
{
    four_words(refused_number(validate(workout_at(input))), 0, 0, 0, place)
}

fn order_answer(input: &[u8], place: u32) -> u32
    ensures { result ≡ order_answer input.now place }
{
    order_word(workout_at(input), place)
}

// The word at a place of the answer to a question.
pub fn compare_answer(question: u32, input: &[u8], place: u32) -> u32
    ensures { result ≡ answer_word question input.now place }
{
    match question {
        0 => percent_answer(input, place),
        1 => power_zone_answer(input, place),
        2 => heart_zone_answer(input, place),
        3 => power_range_answer(input, place),
        4 => heart_range_answer(input, place),
        5 => band_answer(input, place),
        6 => ramp_answer(input, place),
        7 => stage_answer(input, place),
        8 => name_answer(input, place),
        9 => validate_answer(input, place),
        10 => order_answer(input, place),
        _ => 0,
    }
}
