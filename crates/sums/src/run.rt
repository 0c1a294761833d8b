// Sums: record 2 read, indexed once, and each reached condition visited.
ghost use Rattle.std.specs.Prelude.{◌≡◌};
ghost use Rattle.condition.specs.Places.{record_in};
ghost use Rattle.walk.specs.Index.{Index};
ghost use Rattle.walk.specs.Enclosing.{binding_in, Names};
ghost use Rattle.reports.specs.Reports.{reported};
ghost use Rattle.reports.specs.Sink.{none, Appended};
ghost use Rattle.reports.specs.Answers.{outcome_of};
ghost use Rattle.sums.specs.Sums.{breaches, sums_with, sums};

use crate::Place;
use crate::terms::in_condition;
use condition::ConditionRecord;
use reports::{Answer, State};
use walk::Binding;

// The reached conditions, in the order of the walk, from no report on.
fn in_places(
    condition: ConditionRecord<'_>,
    places: &[u16],
    env: &[u16],
    binding: Binding,
    buf: &mut [u8],
) -> State
    requires index { Index condition.bytes.now places.now }
    requires names { Names condition.bytes.now (binding_in binding) env.now }
    ensures { Appended buf.old none (breaches (binding_in binding) (record_in condition.entry.bytes.now)) buf.new result }
{
    let mut now = State::default();
    for node in 0..places.len() {
        let at = walk::reached_at(condition.bytes, places, node);
        let place = Place {
            condition,
            env,
            binding,
            node,
        };
        now = in_condition(place, at, buf, now);
    }
    now
}

// The reports of a record that was read: its conditions are indexed, and its binders put into a
// table, once.
fn in_record(condition: ConditionRecord<'_>, binding: Binding, buf: &mut [u8]) -> Answer
    ensures { outcome_of result buf.new ≡ reported (breaches (binding_in binding) (record_in condition.entry.bytes.now)) buf.old }
{
    let mut table = [0u16; 3641];
    let n = walk::index_record(condition, &mut table);
    let places = &table[..n];
    let mut env = [0u16; 10921];
    let k = walk::names_of(binding, condition, places, &mut env);
    let state = in_places(condition, places, &env[..k], binding, buf);
    reports::answer_of(state)
}

// `check_sum_summands` with rules: the refusal of the record, or a report for each Sum whose summand is not declared Long.
pub fn sums_with(rules: u8, condition: &[u8], reports: &mut [u8]) -> Answer
    ensures { outcome_of result reports.new ≡ sums_with rules condition.now reports.old }
{
    match condition::read_condition(condition) {
        Ok(_) => {
            let record = ConditionRecord { bytes: condition };
            in_record(record, walk::binding_of(rules), reports)
        }
        Err(refusal) => reports::refuse(refusal, 2),
    }
}

// The same with no rules.
#[tactic(auto, using(crate::proofs::Running::unruled))]
pub fn sums(condition: &[u8], reports: &mut [u8]) -> Answer
    ensures { outcome_of result reports.new ≡ sums condition.now reports.old }
{
    sums_with(0, condition, reports)
}
