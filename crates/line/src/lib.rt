// Document 01, 'Bench sheet': the line that the program `ride` prints, as bytes.
#![tactic(auto)]

ghost use Rattle.std.specs.Prelude.{◌≡◌, ◌+◌, ◌≤◌, length};
ghost use Rattle.le.specs.Le.{written};
ghost use Rattle.io.specs.Counts.{IsPrefixLen};
ghost use Rattle.line.specs.Line.{decimal_of, field_of, counts_of, times_of, yes_or_no, watts_or_none, end_of, summary_text, act_text, refusal_text, outcome_by, line_of, Wrote};

use refusal::Refusal;
use replay::Ridden;
use state::Summary;

// Room for the longest line: 64 bytes of words and eight numbers of at most 20 digits.
pub const LINE_ROOM: usize = 224;

// Each writer answers the place behind its bytes.
fn put_word(out: &mut [u8], at: usize, word: &[u8]) -> usize
    requires { at + length word.now ≤ length out.old }
    ensures { Wrote out.old at out.new result word.now }
{
    let end = at + word.len();
    out[at..end].copy_from_slice(word);
    end
}

fn put_number(out: &mut [u8], at: usize, n: u64) -> usize
    requires { at + 20 ≤ length out.old }
    ensures wrote { Wrote out.old at out.new result (decimal_of n) }
    ensures upper_bound { result ≤ at + 20 }
{
    let mut text = [0u8; 20];
    let k = io::decimal(n, &mut text);
    put_word(out, at, &text[..k])
}

fn put_field(out: &mut [u8], at: usize, word: &[u8], n: u64) -> usize
    requires { at + (length word.now + 20) ≤ length out.old }
    ensures wrote { Wrote out.old at out.new result (field_of word.now n) }
    ensures upper_bound { result ≤ at + (length word.now + 20) }
{
    let next = put_word(out, at, word);
    put_number(out, next, n)
}

fn put_counts(out: &mut [u8], s: Summary) -> usize
    requires { 78 ≤ length out.old }
    ensures wrote { Wrote out.old 0 out.new result (counts_of s) }
    ensures upper_bound { result ≤ 78 }
{
    let done = put_field(out, 0, b"done ", s.steps_done as u64);
    let steps = put_field(out, done, b" of ", s.steps as u64);
    put_field(out, steps, b" skipped ", s.skipped as u64)
}

fn put_times(out: &mut [u8], at: usize, s: Summary) -> usize
    requires { at + 107 ≤ length out.old }
    ensures wrote { Wrote out.old at out.new result (times_of s) }
    ensures upper_bound { result ≤ at + 107 }
{
    let targeted = put_field(out, at, b" targeted ", s.targeted_ms);
    let inside = put_field(out, targeted, b" in ", s.in_ms);
    let under = put_field(out, inside, b" under ", s.under_ms);
    put_field(out, under, b" over ", s.over_ms)
}

fn put_yes_or_no(out: &mut [u8], at: usize, yes: bool) -> usize
    requires { at + 3 ≤ length out.old }
    ensures wrote { Wrote out.old at out.new result (yes_or_no yes) }
    ensures upper_bound { result ≤ at + 3 }
{
    if yes {
        return put_word(out, at, b"yes");
    }
    put_word(out, at, b"no")
}

fn put_watts(out: &mut [u8], at: usize, watts: Option<u16>) -> usize
    requires { at + 20 ≤ length out.old }
    ensures wrote { Wrote out.old at out.new result (watts_or_none watts) }
    ensures upper_bound { result ≤ at + 20 }
{
    match watts {
        None => put_word(out, at, b"none"),
        Some(w) => put_number(out, at, w as u64),
    }
}

fn put_end(out: &mut [u8], at: usize, s: Summary) -> usize
    requires { at + 38 ≤ length out.old }
    ensures wrote { Wrote out.old at out.new result (end_of s) }
    ensures upper_bound { result ≤ at + 38 }
{
    let ftp = s.ftp;
    let finished = put_word(out, at, b" finished ");
    let answered = put_yes_or_no(out, finished, s.finished);
    let measured = put_word(out, answered, b" ftp ");
    put_watts(out, measured, ftp)
}

fn put_summary(out: &mut [u8], s: Summary) -> usize
    requires { 223 ≤ length out.old }
    ensures wrote { Wrote out.old 0 out.new result (summary_text s) }
    ensures upper_bound { result ≤ 223 }
{
    let counts = put_counts(out, s);
    let times = put_times(out, counts, s);
    put_end(out, times, s)
}

fn put_act(out: &mut [u8], at: usize, act: Option<u16>) -> usize
    requires { at + 25 ≤ length out.old }
    ensures wrote { Wrote out.old at out.new result (act_text act) }
    ensures upper_bound { result ≤ at + 25 }
{
    match act {
        None => at,
        Some(i) => put_field(out, at, b" act ", i as u64),
    }
}

fn put_refusal(out: &mut [u8], refusal: Refusal, act: Option<u16>) -> usize
    requires { 223 ≤ length out.old }
    ensures wrote { Wrote out.old 0 out.new result (refusal_text refusal act) }
    ensures upper_bound { result ≤ 223 }
{
    let number = refusal.number() as u64;
    let next = put_field(out, 0, b"refused ", number);
    put_act(out, next, act)
}

fn put_outcome(out: &mut [u8], answer: Result<(), Refusal>, act: Option<u16>, s: Summary) -> usize
    requires { 223 ≤ length out.old }
    ensures wrote { Wrote out.old 0 out.new result (outcome_by answer act s) }
    ensures upper_bound { result ≤ 223 }
{
    match answer {
        Ok(()) => put_summary(out, s),
        Err(refusal) => put_refusal(out, refusal, act),
    }
}

// The line at the start of `out`, its newline included, and how many bytes it has. The bytes behind it stay.
pub fn put_line(ridden: Ridden, out: &mut [u8; LINE_ROOM]) -> usize
    ensures prefix_len { IsPrefixLen result out.new }
    ensures value { result ≡ length (line_of ridden) }
    ensures out_after { out.new ≡ written out.old 0 (line_of ridden) }
{
    let outcome = ridden.outcome;
    let answer = outcome.answer;
    let act = outcome.act;
    let summary = ridden.summary;
    let end = put_outcome(out, answer, act, summary);
    put_word(out, end, b"\n")
}
