// The functions of the library. The crate dogwood_c exports each of them to C, under the same name and with the same contract.
// So a refusal is its number here, 0 for none, and rules are bits.
// Functions that differ in a reader or in a table alone are one for each exported name.
#![tactic(auto)]

ghost use Rattle.std.specs.Prelude.{◌≡◌, []};
ghost use Rattle.names.specs.Fields.{whole};
ghost use Rattle.names.specs.Read.{refusal_number};
ghost use Rattle.schema.specs.Schema.{schema_record};
ghost use Rattle.condition.specs.Condition.{condition_record};
ghost use Rattle.targets.specs.Targets.{target_record};
ghost use Rattle.targets.specs.PathRecord.{path_record};
ghost use Rattle.reports.specs.Answers.{outcome_of};
ghost use Rattle.reports.specs.Placed.{placed};
ghost use Rattle.decimal.specs.Decimal.{written};
ghost use Rattle.sums.specs.Sums.{sums_with, sums};
ghost use Rattle.sweeps.specs.Windows.{windows};
ghost use Rattle.lookup.specs.Lookup.{lookup};
ghost use Rattle.typecheck.specs.Check.{check_with, check};
ghost use Rattle.typecheck.specs.Answers.{check_outcome_of, Spared};
ghost use Rattle.steps.specs.Steps.{start, step, append, withdraw, move};
ghost use Rattle.steps.specs.Answers.{stepped_of};

pub use reports::Answer;
pub use steps::{Stepped, Steps};
pub use typecheck::CheckAnswer;

// The number with which a schema record is refused, 0 for none.
#[tactic(auto, using(names::specs::Laws::Readers::refusal_numbers))]
pub fn dogwood_read_schema(bytes: &[u8]) -> u8
    ensures { result ≡ refusal_number (whole schema_record bytes.now) }
{
    names::refusal_number(schema::read_schema(bytes))
}

// The same of a condition record.
#[tactic(auto, using(names::specs::Laws::Readers::refusal_numbers))]
pub fn dogwood_read_condition(bytes: &[u8]) -> u8
    ensures { result ≡ refusal_number (whole condition_record bytes.now) }
{
    names::refusal_number(condition::read_condition(bytes))
}

// The same of a target record.
#[tactic(auto, using(names::specs::Laws::Readers::refusal_numbers))]
pub fn dogwood_read_targets(bytes: &[u8]) -> u8
    ensures { result ≡ refusal_number (whole target_record bytes.now) }
{
    names::refusal_number(targets::read_targets(bytes))
}

// The same of a path record.
#[tactic(auto, using(names::specs::Laws::Readers::refusal_numbers))]
pub fn dogwood_read_path(bytes: &[u8]) -> u8
    ensures { result ≡ refusal_number (whole path_record bytes.now) }
{
    names::refusal_number(targets::read_path(bytes))
}

// How a path under a scope resolves for one target: the answer, and the output in the lent buffer.
pub fn dogwood_lookup<'a>(
    schema: &'a [u8],
    targets: &[u8],
    path: &'a [u8],
    output: &mut [u8],
) -> Answer
    ensures { outcome_of result output.new ≡ lookup schema.now targets.now path.now output.old }
{
    lookup::lookup(schema, targets, path, output)
}

// The check of a condition under the targets of a rule: the answer, with how many visits were begun, and the reports in the lent buffer.
// The records and the buffer come one by one, here and in the stepping check, and in no struct:
// these are the parameters of the C interface.
pub fn dogwood_check<'a>(
    schema: &'a [u8],
    condition: &'a [u8],
    targets: &[u8],
    reports: &mut [u8],
) -> CheckAnswer
    ensures { check_outcome_of result reports.new ≡ check schema.now condition.now targets.now reports.old }
{
    typecheck::check(schema, condition, targets, reports)
}

// The same check with workspace that the caller lends: slots in which it finds repeats. They may be of any number and hold anything, and the answer does not
// depend on them; with four slots for every three reports that the buffer holds, time is linear in the reports. Bit 0 (value 1) of
// `rules` makes the check strict: two entities with known, different tags are incompatible in an equality. Bit 1 (value 2) gives each binder its own body: a name
// is bound by the innermost binder around its use. No other bit has an effect.
pub fn dogwood_check_with<'a>(
    rules: u8,
    schema: &'a [u8],
    condition: &'a [u8],
    targets: &[u8],
    reports: &mut [u8],
    workspace: &mut [u32],
) -> CheckAnswer
    ensures reports_after { check_outcome_of result reports.new ≡ check_with rules schema.now condition.now targets.now reports.old }
    ensures spared { Spared result workspace.old workspace.new }
{
    typecheck::check_with(rules, schema, condition, targets, reports, workspace)
}

// A stepping check begins: the records are read as the check reads them, no target is done, and nothing is written. The answer comes with the state that the
// caller hands in next. The bits of `rules` are those of dogwood_check_with.
pub fn dogwood_steps_start(rules: u8, schema: &[u8], condition: &[u8], targets: &[u8]) -> Stepped
    ensures { stepped_of result [] ≡ start rules schema.now condition.now targets.now }
{
    steps::start(rules, schema, condition, targets)
}

// A step: the first pending target of the record is done. The same schema and condition, and the state and the buffer as last left, are handed in each time. The
// answer is that of a check over the targets done by then.
pub fn dogwood_steps_step<'a>(
    schema: &'a [u8],
    condition: &'a [u8],
    targets: &[u8],
    state: Steps,
    reports: &mut [u8],
) -> Stepped
    ensures { stepped_of result reports.new ≡ step state schema.now condition.now targets.now reports.old }
{
    let mut workspace = [0u32; 2048];
    steps::step(schema, condition, targets, state, reports, &mut workspace)
}

// The same step with workspace that the caller lends, as dogwood_check_with is lent it.
pub fn dogwood_steps_step_with<'a>(
    schema: &'a [u8],
    condition: &'a [u8],
    targets: &[u8],
    state: Steps,
    reports: &mut [u8],
    workspace: &mut [u32],
) -> Stepped
    ensures reports_after { stepped_of result reports.new ≡ step state schema.now condition.now targets.now reports.old }
    ensures spared { Spared result.answer workspace.old workspace.new }
{
    steps::step(schema, condition, targets, state, reports, workspace)
}

// A target appended between steps: the target record is the first `length` bytes of the lent buffer, and the count of the answer is its new length. A target is
// given by its namespace and id as in the record. The length stands beside the buffer, and is no
// part of a slice, since the C interface has it so: behind it is the room for the target.
pub fn dogwood_steps_append(list: &mut [u8], length: usize, target: &[u8]) -> Answer
    ensures { outcome_of result list.new ≡ append list.old length target.now }
{
    steps::append(list, length, target)
}

// A pending target withdrawn between steps, by its position in the record, counted from 0.
pub fn dogwood_steps_withdraw(targets: &[u8], state: Steps, position: u8) -> Stepped
    ensures { stepped_of result [] ≡ withdraw state targets.now position }
{
    steps::withdraw(targets, state, position)
}

// The rule changed between steps, from flat to own bodies: the targets done from now on follow it, and nothing else of the state changes. There is no way back.
pub fn dogwood_steps_move(state: Steps) -> Steps
    ensures { result ≡ move state }
{
    steps::to_own_bodies(state)
}

// The sums of a condition: the answer, and a report for each whose summand is not declared Long.
pub fn dogwood_sums(condition: &[u8], reports: &mut [u8]) -> Answer
    ensures { outcome_of result reports.new ≡ sums condition.now reports.old }
{
    sums::sums(condition, reports)
}

// The same with rules: bit 1 (value 2) gives each binder its own body, as in a check, and an aggregate's binders also cover its summand. No other bit has an effect.
pub fn dogwood_sums_with(rules: u8, condition: &[u8], reports: &mut [u8]) -> Answer
    ensures { outcome_of result reports.new ≡ sums_with rules condition.now reports.old }
{
    sums::sums_with(rules, condition, reports)
}

// The windows of a condition in sweeps of a period of so many seconds: the answer, and an entry for each that the walk reaches.
pub fn dogwood_windows(condition: &[u8], period: u64, output: &mut [u8]) -> Answer
    ensures { outcome_of result output.new ≡ windows condition.now period output.old }
{
    sweeps::windows(condition, period, output)
}

// A number of ten-thousandths as the text of a decimal: the answer, and the text in the lent buffer.
#[tactic(auto, using(crate::proofs::Passed::passed))]
pub fn dogwood_write_decimal(value: i64, output: &mut [u8]) -> Answer
    ensures { outcome_of result output.new ≡ placed (written value) output.old }
{
    decimal::write_decimal(value, output)
}
