// The run: the records read in their order, the condition indexed once, then each target and each reached node under it.
ghost use Rattle.std.specs.Prelude.{◌≡◌, true};
ghost use Rattle.names.specs.Lists.{maybe};
ghost use Rattle.types.specs.Meaning.{profile_in};
ghost use Rattle.schema.specs.Places.{schema_in, is_action, action_in, found_in, found_stands};
ghost use Rattle.targets.specs.Places.{targets_in, is_target};
ghost use Rattle.resolution.specs.Resolution.{admits_any_env};
ghost use Rattle.reports.specs.Sink.{sink};
ghost use Rattle.reports.specs.Slots.{Lent, Empty};
ghost use Rattle.typecheck.specs.Check.{profile_of, choices_of, check_with, check};
ghost use Rattle.typecheck.specs.Answers.{check_outcome_of, WithVisits, Spared};
ghost use Rattle.typecheck.specs.Run.{of_record, ReadAs, choices_in, chosen_in, Visited};
ghost use Rattle.typecheck.specs.Run.{visits_in, CheckedAt, all_visits_of, target_visits, checked_of};

use crate::prepared::{Checked, Run};
use crate::{CheckAnswer, Progress, Records, RefusedRecord};
use condition::ConditionRecord;
use names::Read;
use reports::{Answer, State, refuse};
use schema::{Namespace, SchemaRecord};
use targets::TargetsRecord;
use terms::{Common, Setting};
use types::Profile;
use walk::Binding;

// The reached nodes under a target, up to the one whose report does not fit.
fn nodes(buf: &mut [u8], table: &mut [u32], state: State, target: Checked<'_>) -> Progress
    requires { Lent (sink buf.old state) table.old }
    ensures { Visited buf.old state (visits_in target.entry) buf.new result table.new }
{
    let run = target.run;
    let records = run.records;
    let mut now = state;
    for i in 0..run.places.len() {
        if now.full {
            return Progress {
                state: now,
                visits: i,
            };
        }
        let at = walk::reached_at(records.condition.bytes, run.places, i);
        let here = Setting {
            schema: records.schema,
            condition: records.condition,
            targets: records.targets.bytes,
            env: run.env,
            facts: terms::at_node(target.facts, i),
        };
        now = rules::node(buf, table, now, here, at);
    }
    Progress {
        state: now,
        visits: run.places.len(),
    }
}

// Whether a target is checked: its action is undeclared, or admits an environment.
fn is_checked(records: Records<'_>, found: Option<usize>) -> bool
    requires { found_stands (is_action records.schema.bytes.now) found ≡ true }
    ensures { result ≡ maybe true
        (admits_any_env (schema_in records.entry.schema.bytes.now)
        (targets_in records.entry.targets.bytes.now).scope)
        (found_in (action_in records.entry.schema.bytes.now) found) }
{
    let Some(action) = found else {
        return true;
    };
    resolution::admits_any_env(records.schema, records.targets, action)
}

// The target at `at`, where it is checked: its action is looked up once, and with it its facts are
// known.
// That a target stands at `at` stays a clause of three functions: a struct of the place would name
// the record again, which `Run` and `Records` hold, and be made anew for each target.
fn under_target<'a>(run: Run<'a>, at: usize) -> Option<Checked<'a>>
    requires { is_target run.records.targets.bytes.now at ≡ true }
    ensures { CheckedAt run.entry at result }
{
    let records = run.records;
    let targets = records.targets.bytes;
    let found = schema::action_among(
        records.schema.bytes,
        run.common.actions,
        Namespace::Whole(targets::namespace_of(targets, at)),
        targets::id_of(targets, at),
    );
    if is_checked(records, found) {
        let facts = terms::facts_of(records.targets, found, run.common);
        return Some(Checked { run, facts });
    }
    None
}

// The visits under the target at `at`: none where it is skipped.
fn under(buf: &mut [u8], table: &mut [u32], state: State, run: Run<'_>, at: usize) -> Progress
    requires lent { Lent (sink buf.old state) table.old }
    requires at_value { is_target run.records.targets.bytes.now at ≡ true }
    ensures { Visited buf.old state
        (target_visits (chosen_in run.entry.common) run.entry.records at) buf.new result table.new }
{
    let Some(target) = under_target(run, at) else {
        return Progress { state, visits: 0 };
    };
    nodes(buf, table, state, target)
}

// Each target of the record, up to the one under which a report does not fit.
fn all_targets(buf: &mut [u8], table: &mut [u32], state: State, run: Run<'_>) -> Progress
    requires { Lent (sink buf.old state) table.old }
    ensures { Visited buf.old state
        (all_visits_of (chosen_in run.entry.common) run.entry.records) buf.new result table.new }
{
    let targets = run.records.targets;
    let mut now = state;
    let mut visits = 0;
    let mut at = targets::first_target(targets);
    for _ in 0..targets::count(targets) {
        if now.full {
            return Progress { state: now, visits };
        }
        let done = under(buf, table, now, run, at);
        at = targets::next_target(targets.bytes, at);
        visits += done.visits;
        now = done.state;
    }
    Progress { state: now, visits }
}

// The answer of a run, with so many visits.
#[tactic(auto, unfolding(crate::specs::Answers::check_outcome_of, reports::specs::Answers::outcome_of))]
pub fn with_visits(answer: Answer, visits: usize) -> CheckAnswer
    ensures { WithVisits answer visits result }
{
    CheckAnswer {
        number: answer.number,
        record: answer.record,
        count: answer.count,
        visits,
    }
}

// What is made ready once for all targets: the condition is indexed, the binders are put into a
// table, and the row of the schema's actions is found. The two tables are lent, with room for those
// of any record.
fn prepare<'a>(
    records: Records<'a>,
    profile: Profile,
    binding: Binding,
    places: &'a mut [u16; 3641],
    binders: &'a mut [u16; 10921],
) -> Run<'a>
    ensures records { result.records ≡ records.entry }
    ensures choices { chosen_in result.common ≡ choices_in profile binding }
{
    let count = walk::index_record(records.condition, places);
    let places = &places[..count];
    let n = walk::names_of(binding, records.condition, places, binders);
    Run {
        records,
        places,
        env: &binders[..n],
        common: Common {
            actions: schema::actions(records.schema),
            profile,
            binding,
        },
    }
}

// The check of three records that were read, with a table of free slots.
fn checked(
    buf: &mut [u8],
    table: &mut [u32],
    records: Records<'_>,
    profile: Profile,
    binding: Binding,
) -> CheckAnswer
    requires empty { Empty table.old }
    ensures { check_outcome_of result buf.new
        ≡ checked_of (choices_in profile binding) records.entry buf.old }
{
    let mut places = [0; 3641];
    let mut binders = [0; 10921];
    let run = prepare(records, profile, binding, &mut places, &mut binders);
    let end = all_targets(buf, table, State::default(), run);
    with_visits(reports::answer_of(end.state), end.visits)
}

// What a reader answers of a record, with the number of the record where it is refused.
fn of_record(read: Read, record: u8) -> Result<usize, RefusedRecord>
    ensures { result ≡ of_record read «record» }
{
    read.map_err(|refusal| RefusedRecord { refusal, record })
}

// The records, read in their order: the first refusal stands.
pub fn read_records<'a>(
    schema: &'a [u8],
    condition: &'a [u8],
    targets: &'a [u8],
) -> Result<Records<'a>, RefusedRecord>
    ensures { ReadAs schema.now condition.now targets.now result }
{
    of_record(schema::read_schema(schema), 1)?;
    of_record(condition::read_condition(condition), 2)?;
    of_record(targets::read_targets(targets), 3)?;
    Ok(Records {
        schema: SchemaRecord { bytes: schema },
        condition: ConditionRecord { bytes: condition },
        targets: TargetsRecord { bytes: targets },
    })
}

// The visits under one target, from a buffer with its state and its table on. What they find is put behind the reports that the buffer holds.
pub fn check_target(
    buf: &mut [u8],
    table: &mut [u32],
    state: State,
    records: Records<'_>,
    at: usize,
    rules: u8,
) -> Progress
    requires lent { Lent (sink buf.old state) table.old }
    requires at_value { is_target records.targets.bytes.now at ≡ true }
    ensures { Visited buf.old state (target_visits (choices_of rules) records.entry at) buf.new
        result table.new }
{
    let mut places = [0; 3641];
    let mut binders = [0; 10921];
    let profile = profile_of(rules);
    let binding = walk::binding_of(rules);
    let run = prepare(records, profile, binding, &mut places, &mut binders);
    under(buf, table, state, run, at)
}

// The profile that a caller's rules choose: bit 0 is strict. The rules are a number of the C
// interface, and here the bit becomes an enum; no other function of this crate looks at it.
#[tactic(auto, unfolding(crate::specs::Check::profile_of))]
fn profile_of(rules: u8) -> Profile
    ensures { profile_in result ≡ profile_of rules }
{
    if rules % 2 == 1 {
        return Profile::Strict;
    }
    Profile::Plain
}

// The check of a schema, a condition and a target record, into a lent buffer, with no rules. The table is its own, for as many reports as a rule's writer looks at.
// The C interface hands the records in as bytes, one by one, and so does whoever calls this and
// `check_with`: they are one value only when they are read.
// It is no call of `check_with`: its own table is free when it is made, and what it chooses are
// enums from the start.
pub fn check<'a>(
    schema: &'a [u8],
    condition: &'a [u8],
    targets: &[u8],
    buf: &mut [u8],
) -> CheckAnswer
    ensures { check_outcome_of result buf.new ≡ check schema.now condition.now targets.now buf.old }
{
    let records = match read_records(schema, condition, targets) {
        Ok(records) => records,
        Err(found) => return with_visits(refuse(found.refusal, found.record), 0),
    };
    let mut table = [0u32; 2048];
    checked(buf, &mut table, records, Profile::Plain, Binding::Flat)
}

// The same with rules, and with a table that is lent, of any size and contents: it is of no use to the caller afterwards, and as it was where a record is refused.
pub fn check_with<'a>(
    rules: u8,
    schema: &'a [u8],
    condition: &'a [u8],
    targets: &[u8],
    buf: &mut [u8],
    table: &mut [u32],
) -> CheckAnswer
    ensures buf_after { check_outcome_of result buf.new ≡ check_with rules schema.now condition.now targets.now buf.old }
    ensures spared { Spared result table.old table.new }
{
    let records = match read_records(schema, condition, targets) {
        Ok(records) => records,
        Err(found) => return with_visits(refuse(found.refusal, found.record), 0),
    };
    reports::clear(table);
    let profile = profile_of(rules);
    let binding = walk::binding_of(rules);
    checked(buf, table, records, profile, binding)
}
