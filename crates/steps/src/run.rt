// The start, and a step.
ghost use Rattle.std.specs.Prelude.{◌≡◌, true, []};
ghost use Rattle.reports.specs.Sink.{sink, Sound};
ghost use Rattle.targets.specs.Places.{is_target};
ghost use Rattle.typecheck.specs.Check.{choices_of};
ghost use Rattle.typecheck.specs.Answers.{Spared};
ghost use Rattle.typecheck.specs.Run.{Visited, target_visits};
ghost use Rattle.steps.specs.Steps.{start, so_far, step};
ghost use Rattle.steps.specs.Answers.{stepped_of};
ghost use Rattle.steps.specs.Parts.{doing_of, step_over_of};

use crate::positions::first_pending;
use crate::state::{answered, begins, done, refused, told};
use crate::{Pending, Stepped, Steps};
use reports::State;
use typecheck::{Progress, Records};

// The records are read as Check reads them, and no target is done.
pub fn start(rules: u8, schema: &[u8], condition: &[u8], targets: &[u8]) -> Stepped
    ensures { stepped_of result [] ≡ start rules schema.now condition.now targets.now }
{
    let state = begins(rules);
    match typecheck::read_records(schema, condition, targets) {
        Ok(_) => answered(state),
        Err(found) => refused(state, found.refusal, found.record),
    }
}

// The answer of the check so far, where no target is done any more.
fn so_far(state: Steps, buf: &[u8]) -> Stepped
    ensures { stepped_of result buf.now ≡ so_far state buf.now }
{
    let used = state.used;
    let before = reports::resume(buf, used);
    let held = before.state;
    if state.stopped == 0 {
        return told(state, held);
    }
    told(state, reports::stopped(held))
}

// The visits under the target at `at`, from a buffer with its state on: its reports are put into the table first.
fn run_target(
    buf: &mut [u8],
    table: &mut [u32],
    state: State,
    records: Records<'_>,
    at: usize,
    rules: u8,
) -> Progress
    requires sound { Sound (sink buf.old state) }
    requires at_value { is_target records.targets.bytes.now at ≡ true }
    ensures { Visited buf.old state (target_visits (choices_of rules) records.entry at) buf.new
        result table.new }
{
    reports::refile(buf, state, table);
    typecheck::check_target(buf, table, state, records, at, rules)
}

// A pending target done: its reports go behind the earlier ones.
fn do_target(
    records: Records<'_>,
    state: Steps,
    pending: Pending,
    buf: &mut [u8],
    table: &mut [u32],
) -> Stepped
    requires { is_target records.targets.bytes.now pending.at ≡ true }
    ensures { stepped_of result buf.new ≡ doing_of records.entry state buf.old pending }
{
    let before = reports::resume(buf, state.used);
    let held = before.state;
    let after = run_target(
        &mut buf[..before.size],
        table,
        held,
        records,
        pending.at,
        state.rules,
    );
    told(done(state, pending.position, held, after), after.state)
}

// A step over records that were read: the first pending target is done.
fn step_over(records: Records<'_>, state: Steps, buf: &mut [u8], table: &mut [u32]) -> Stepped
    ensures { stepped_of result buf.new ≡ step_over_of records.entry state buf.old }
{
    if 0 < state.stopped {
        return so_far(state, buf);
    }
    match first_pending(records.targets, state) {
        Some(pending) => do_target(records, state, pending, buf, table),
        None => so_far(state, buf),
    }
}

// The first pending target is done. The table is lent, of any size and contents: it is of no use to the caller afterwards, and as it was where a record is refused.
pub fn step<'a>(
    schema: &'a [u8],
    condition: &'a [u8],
    targets: &[u8],
    state: Steps,
    buf: &mut [u8],
    table: &mut [u32],
) -> Stepped
    ensures buf_after { stepped_of result buf.new ≡ step state schema.now condition.now targets.now buf.old }
    ensures spared { Spared result.answer table.old table.new }
{
    match typecheck::read_records(schema, condition, targets) {
        Ok(records) => step_over(records, state, buf, table),
        Err(found) => refused(state, found.refusal, found.record),
    }
}
