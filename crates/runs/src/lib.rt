// The session of document 01, from the bytes of its records to the bytes of its lines.

#![tactic(auto)]

ghost use Rattle.std.specs.Prelude.{◌≡◌, ◌++◌, ◌+◌, ◌≤◌, length, take, drop};
ghost use Rattle.io.specs.Counts.{IsPrefixLen};
ghost use Rattle.steps.specs.Told.{refusal, told, stepped};
ghost use Rattle.runs.specs.Run.{transcript};
ghost use Rattle.lines.specs.Adds.{Adds};
ghost use Rattle.runs.specs.Answer.{answer};
ghost use Rattle.runs.specs.Turn.{Turned};

use answers::Refusal;
use arrayvec::ArrayString;
use entries::{Entries, Entry, Partial, Step};
use lines::tally::Tally;
use lines::text;
use steps::play::Session;

// One record's answer. One to seven bytes at the end are refused.
#[tactic(auto, unfolding(steps::specs::Session::refused))]
fn answer(session: &mut Session, found: Result<Entry, Partial>) -> Result<u32, Refusal>
    ensures { stepped result session.new ≡ answer session.old found }
{
    session.step(Step::from(found?))
}

// The refusal's number, 0 if accepted, and the value, as a line tells them.
fn numbers(answer: Result<u32, Refusal>) -> (u32, u32)
    ensures { result ≡ record { 0 = refusal answer; 1 = told answer } }
{
    match answer {
        Ok(value) => (0, value),
        Err(refusal) => (refusal.number(), refusal.value()),
    }
}

// A record's line, of 33 bytes at most; the record is counted.
fn turn(session: &mut Session, tally: &mut Tally, found: Result<Entry, Partial>) -> ArrayString<33>
    requires { Adds tally.old }
    ensures { Turned tally.old (answer session.old found) result.bytes session.new tally.new }
{
    let (refusal, value) = numbers(answer(session, found));
    let mut line = ArrayString::new();
    text::push_line(&mut line, tally.records, refusal, value);
    tally.note(refusal);
    line
}

// A text goes into the array from `place` on. Answers the place behind it.
fn put(out: &mut [u8; 264037], place: usize, text: &str) -> usize
    requires { place + length text.now ≤ 264037 }
    ensures place { result ≡ place + length text.now }
    ensures text { out.new ≡ take place out.old ++ text.now ++ drop result out.old }
{
    let bytes = text.as_bytes();
    let end = place + bytes.len();
    out[place..end].copy_from_slice(bytes);
    end
}

// Runs the session of these records, of which it reads 8,000 at most, and puts what it prints at the start of `out`,
// which has room for any: a line takes at most 33 bytes, and the last one 37. Answers how many bytes that are.
pub fn run(input: &[u8], out: &mut [u8; 264037]) -> usize
    ensures prefix_len { IsPrefixLen result out.new }
    ensures value { (result ≡ length (transcript input.now)) × (out.new ≡ transcript input.now ++ drop result out.old) }
{
    let mut session = Session::new();
    let mut tally = Tally::default();
    let mut place = 0;
    let n = input.len().min(64000);
    for found in Entries::new(&input[..n]) {
        let line = turn(&mut session, &mut tally, found);
        place = put(out, place, line.as_str());
    }
    let mut last = ArrayString::<37>::new();
    text::push_ending(&mut last, tally);
    put(out, place, last.as_str())
}

// The same over a text, for callers that have one; the session program has an array.
pub fn run_text(input: &[u8], out: &mut ArrayString<264037>)
    ensures { out.new.bytes ≡ transcript input.now }
{
    out.clear();
    let mut session = Session::new();
    let mut tally = Tally::default();
    let n = input.len().min(64000);
    for found in Entries::new(&input[..n]) {
        let line = turn(&mut session, &mut tally, found);
        out.push_str(line.as_str());
    }
    text::push_ending(out, tally);
}
