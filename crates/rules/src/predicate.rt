// The arguments of a predicate, each judged where its action and its field resolve, and reported at the predicate's own span.
ghost use Rattle.std.specs.Prelude.{◌≡◌, true};
ghost use Rattle.nodes.specs.Kinds.{kind_of};
ghost use Rattle.condition.specs.Places.{is_condition, condition_in, is_term, is_path, is_arguments};
ghost use Rattle.schema.specs.Places.{is_action, found_stands};
ghost use Rattle.reports.specs.Sink.{sink};
ghost use Rattle.reports.specs.Slots.{Lent, Pushed};
ghost use Rattle.rules.specs.Findings.{Finds};
ghost use Rattle.rules.specs.Places.{node_at, argument_at, arguments_at, AppliedHere};

use crate::judge::wrong_argument;
use crate::report::report;
use crate::{Applied, Finding};
use names::Row;
use nodes::ArgumentAt;
use reports::State;
use schema::NameRow;
use terms::Setting;

// A predicate taken apart; its action is looked up among those of the schema.
#[tactic(auto, using(crate::proofs::Argued::applying))]
fn applied_at(setting: Setting, at: usize) -> Applied
    requires at_value { is_condition setting.condition.bytes.now at ≡ true }
    requires at_value_2 { kind_of (condition_in setting.condition.bytes.now at) ≡ 7 }
    ensures { AppliedHere setting.entry at result }
{
    let schema = setting.schema.bytes;
    let condition = setting.condition.bytes;
    let actions = setting.facts.common.actions;
    let span = nodes::own_span_at(condition, at);
    let parts = nodes::predicate_at(condition, at);
    let path = NameRow {
        bytes: condition,
        row: Row {
            count: parts.names,
            at: parts.namespace,
        },
    };
    let action = resolution::predicate_action(schema, actions, path, parts.action);
    Applied {
        span,
        name: parts.action,
        action,
        count: parts.count,
        first: parts.first,
    }
}

// One argument, whose name stands at `at`, beside its field.
#[tactic(auto, using(crate::proofs::Argued::by_types))]
fn argument(setting: Setting, applied: Applied, at: usize, parts: ArgumentAt) -> Option<Finding>
    requires action_value { found_stands (is_action setting.schema.bytes.now) applied.action ≡ true }
    requires field_value { is_path setting.condition.bytes.now parts.field ≡ true }
    requires term_value { is_term setting.condition.bytes.now parts.term ≡ true }
    ensures { Finds setting.entry (argument_at setting.entry applied at parts) result }
{
    let expected = terms::context_field_type(
        setting.schema.bytes,
        setting.condition.bytes,
        applied.action,
        parts.field,
    );
    let actual = terms::term_type(setting, parts.term);
    wrong_argument(setting, at, applied.name, expected, actual)
}

// The arguments, in their order.
fn arguments(
    buf: &mut [u8],
    table: &mut [u32],
    state: State,
    setting: Setting,
    applied: Applied,
) -> State
    requires lent { Lent (sink buf.old state) table.old }
    requires action_value { found_stands (is_action setting.schema.bytes.now) applied.action ≡ true }
    requires first_value { is_arguments setting.condition.bytes.now applied.count applied.first ≡ true }
    ensures { Pushed buf.old state (arguments_at setting.entry applied) buf.new result table.new }
{
    let mut now = state;
    let mut at = applied.first;
    for left in (0..applied.count).rev() {
        let parts = nodes::argument_at(setting.condition.bytes, left + 1, at);
        let finding = argument(setting, applied, at, parts);
        now = report(
            buf,
            table,
            now,
            setting.schema.bytes,
            setting.condition.bytes,
            applied.span,
            finding,
        );
        at = parts.next;
    }
    now
}

// A predicate's arguments.
#[tactic(auto, using(crate::proofs::Argued::of_predicate))]
pub fn predicate(
    buf: &mut [u8],
    table: &mut [u32],
    state: State,
    setting: Setting,
    at: usize,
) -> State
    requires lent { Lent (sink buf.old state) table.old }
    requires at_value { is_condition setting.condition.bytes.now at ≡ true }
    requires at_value_2 { kind_of (condition_in setting.condition.bytes.now at) ≡ 7 }
    ensures { Pushed buf.old state (node_at setting.entry at) buf.new result table.new }
{
    let applied = applied_at(setting, at);
    arguments(buf, table, state, setting, applied)
}
