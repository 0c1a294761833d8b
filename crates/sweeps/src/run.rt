// The listing: record 2 read, indexed once, and the window of each reached condition.
ghost use Rattle.std.specs.Prelude.{◌≡◌, true, [], ◌∷◌, map};
ghost use Rattle.std.specs.Int.NonZero.{non_zero_u64_get};
ghost use Rattle.condition.specs.Places.{record_in, is_condition, condition_in};
ghost use Rattle.walk.specs.Index.{Index};
ghost use Rattle.reports.specs.Sink.{sink, none};
ghost use Rattle.reports.specs.Answers.{outcome_of};
ghost use Rattle.sweeps.specs.Entries.{listed};
ghost use Rattle.sweeps.specs.Entering.{Fit, Entered};
ghost use Rattle.sweeps.specs.Windows.{concrete_in, in_sweeps, entries, swept, windows};

use crate::entries::enter;
use condition::ConditionRecord;
use names::Refusal;
use nodes::WindowAt;
use reports::{Answer, State};
use std::num::NonZeroU64;

// A window of so many seconds, of a condition that starts there.
fn in_sweeps(start: u32, seconds: u64, period: NonZeroU64, out: &mut [u8], state: State) -> State
    requires { Fit (sink out.old state) }
    ensures { Entered out.old state (in_sweeps (non_zero_u64_get period) (record { start = start; length = seconds }) ∷ []) out.new result }
{
    let sweeps = seconds / period;
    let rest = seconds % period;
    enter(out, state, start, sweeps, rest)
}

// The window of one reached condition, where it has a concrete one.
fn in_condition(s: &[u8], at: usize, period: NonZeroU64, out: &mut [u8], state: State) -> State
    requires at_value { is_condition s.now at ≡ true }
    requires fit { Fit (sink out.old state) }
    ensures { Entered out.old state (map (in_sweeps (non_zero_u64_get period)) (concrete_in (condition_in s.now at))) out.new result }
{
    match nodes::window_at(s, at) {
        WindowAt::Seconds(seconds) => {
            let span = nodes::span_at(s, at);
            in_sweeps(span.start, seconds, period, out, state)
        }
        WindowAt::Parameter | WindowAt::Unsaid => state,
    }
}

// The reached conditions, in the order of the walk, from no entry on.
fn in_places(s: &[u8], places: &[u16], period: NonZeroU64, out: &mut [u8]) -> State
    requires { Index s.now places.now }
    ensures { Entered out.old none (entries (non_zero_u64_get period) (record_in s.now)) out.new result }
{
    let mut now = State::default();
    for i in 0..places.len() {
        let at = walk::reached_at(s, places, i);
        now = in_condition(s, at, period, out, now);
    }
    now
}

// The entries of a record that was read.
fn in_record(condition: ConditionRecord<'_>, period: NonZeroU64, out: &mut [u8]) -> Answer
    ensures { outcome_of result out.new ≡ listed (entries (non_zero_u64_get period) (record_in condition.entry.bytes.now)) out.old }
{
    let mut table = [0u16; 3641];
    let n = walk::index_record(condition, &mut table);
    let state = in_places(condition.bytes, &table[..n], period, out);
    reports::answer_of(state)
}

// The listing of a record that was read: 14 for a period of 0, before the buffer's size is asked for.
fn swept(condition: ConditionRecord<'_>, period: u64, out: &mut [u8]) -> Answer
    ensures { outcome_of result out.new ≡ swept period out.old (record_in condition.entry.bytes.now) }
{
    match NonZeroU64::new(period) {
        Some(period) => in_record(condition, period, out),
        None => reports::refuse(Refusal::NoPeriod, 0),
    }
}

// The windows of a condition in sweeps of a period: the refusal of the record, or the listing.
pub fn windows(condition: &[u8], period: u64, output: &mut [u8]) -> Answer
    ensures { outcome_of result output.new ≡ windows condition.now period output.old }
{
    match condition::read_condition(condition) {
        Ok(_) => swept(ConditionRecord { bytes: condition }, period, output),
        Err(refusal) => reports::refuse(refusal, 2),
    }
}
