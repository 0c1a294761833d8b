// Reports put into the buffer, and what a run answers.
ghost use Rattle.std.specs.Prelude.{◌≡◌, ◌+◌, ◌<◌, ◌≤◌, length};
ghost use Rattle.names.specs.Fields.{number_of};
ghost use Rattle.names.specs.Writer.{Stored};
ghost use Rattle.reports.specs.Decode.{header};
ghost use Rattle.reports.specs.Sink.{sink, breach_of, Sound, room_for, more, stopped, append};
ghost use Rattle.reports.specs.Answers.{Answers, Refuses};
ghost use Rattle.reports.specs.Placed.{Writes};

use crate::{Answer, Report, State};
use names::{Refusal, put, put_u16, put_u32};

// A report in steps, where its message is written straight to the buffer: has_room; then
// put_header, the message's writers from there on and one_more; or stopped. The law `append_stored`
// says that this appends the report, `append_stopped` that no room stops the run.

// Whether a report is put in whose message has so many bytes.
#[tactic(auto, unfolding(crate::specs::Sink::room_for))]
pub fn has_room(buf: &[u8], state: State, long: usize) -> bool
    requires { Sound (sink buf.now state) × (long < 65536) }
    ensures { result ≡ room_for (sink buf.now state) long }
{
    !state.full && 10 + long <= buf.len() - state.used
}

// Start, end and the message's length; returns where the message begins.
pub fn put_header(buf: &mut [u8], state: State, start: u32, end: u32, long: usize) -> usize
    requires { (long < 65536) × (state.used + (10 + long) ≤ length buf.old) }
    ensures { Stored buf.old state.used (header start end long) buf.new result }
{
    let n = put_u32(buf, state.used, start);
    let n = put_u32(buf, n, end);
    put_u16(buf, n, long)
}

// The state after a report that ends before `next`.
pub fn one_more(state: State, next: usize) -> State
    requires { state.count < next }
    ensures { result ≡ more state next }
{
    State {
        used: next,
        count: state.count + 1,
        full: false,
    }
}

// The state after a report that does not fit.
pub fn stopped(state: State) -> State
    ensures { result ≡ stopped state }
{
    State {
        full: true,
        ..state
    }
}

// One breach, a repeat or not: nothing after one that did not fit, and only what fits.
pub fn append_report(buf: &mut [u8], state: State, it: Report<'_>) -> State
    requires { Sound (sink buf.old state) }
    ensures { sink buf.new result ≡ append (sink buf.old state) (breach_of it.entry) }
{
    let long = it.message.len();
    if has_room(buf, state, long) {
        let at = put_header(buf, state, it.start, it.end, long);
        let next = put(buf, at, it.message);
        return one_more(state, next);
    }
    stopped(state)
}

// 0, or 11 where a report did not fit; no record; and how many reports the buffer holds.
#[tactic(auto, unfolding(crate::specs::Answers::outcome_of))]
pub fn answer_of(state: State) -> Answer
    ensures { Answers state result }
{
    Answer {
        number: if state.full {
            u8::from(Refusal::NoSpace)
        } else {
            0
        },
        record: 0,
        count: state.count,
    }
}

// The answer of an operation that wrote so many bytes.
#[tactic(auto, unfolding(crate::specs::Answers::outcome_of))]
pub fn written(count: usize) -> Answer
    ensures { Writes count result }
{
    Answer {
        number: 0,
        record: 0,
        count,
    }
}

// The answer of a run that was refused: no report, and the buffer as it was.
pub fn refuse(refusal: Refusal, which: u8) -> Answer
    ensures { Refuses (number_of refusal) which result }
{
    refused(u8::from(refusal), which)
}

// It refuses by a number. In this repository `refuse` alone calls it; it stays a public function
// for callers that have a number and no `Refusal`.
#[tactic(auto, unfolding(crate::specs::Answers::outcome_of))]
pub fn refused(number: u8, which: u8) -> Answer
    ensures { Refuses number which result }
{
    Answer {
        number,
        record: which,
        count: 0,
    }
}
