// The rules at one reached node, by its kind.
ghost use Rattle.std.specs.Prelude.{◌≡◌, true};
ghost use Rattle.nodes.specs.Kinds.{kind_of};
ghost use Rattle.condition.specs.Places.{is_condition, condition_in, is_term, is_slot};
ghost use Rattle.reports.specs.Sink.{sink};
ghost use Rattle.reports.specs.Slots.{Lent, Pushed};
ghost use Rattle.rules.specs.Findings.{Finds};
ghost use Rattle.rules.specs.Places.{node_at, arithmetics_at, operands_at, timepoint_at, ComparedHere, JudgedHere};

use crate::arithmetic::arithmetic;
use crate::judge::{operands, wrong_timepoint};
use crate::predicate::predicate;
use crate::report::report;
use crate::{Compared, Finding, Judged, Operand};
use nodes::{Kind, SlotAt};
use reports::State;
use terms::Setting;

// A comparison taken apart: the four operators that order come first. The number of an operator is
// read here alone, and only whether it is one of the four that order counts.
#[tactic(auto, using(crate::proofs::AtNode::comparing))]
fn compared_at(condition: &[u8], at: usize) -> Compared
    requires at_value { is_condition condition.now at ≡ true }
    requires at_value_2 { kind_of (condition_in condition.now at) ≡ 8 }
    ensures { ComparedHere condition.now at result }
{
    let span = nodes::span_at(condition, at);
    let parts = nodes::comparison_at(condition, at);
    let ordering = parts.operator < 4;
    Compared {
        span,
        ordering,
        left: parts.left,
        right: parts.right,
    }
}

// The arithmetic of both operands, left then right.
fn arithmetics(
    buf: &mut [u8],
    table: &mut [u32],
    state: State,
    setting: Setting,
    parts: Compared,
) -> State
    requires lent { Lent (sink buf.old state) table.old }
    requires left_value { is_term setting.condition.bytes.now parts.left ≡ true }
    requires right_value { is_term setting.condition.bytes.now parts.right ≡ true }
    ensures { Pushed buf.old state (arithmetics_at setting.entry parts) buf.new result table.new }
{
    let span = parts.span;
    let left = Operand {
        span,
        at: parts.left,
    };
    let right = Operand {
        span,
        at: parts.right,
    };
    let after = arithmetic(buf, table, state, setting, left);
    arithmetic(buf, table, after, setting, right)
}

// The types of the two operands.
#[tactic(auto, using(crate::proofs::AtNode::typing))]
fn operand_types(setting: Setting, parts: Compared) -> Option<Finding>
    requires left_value { is_term setting.condition.bytes.now parts.left ≡ true }
    requires right_value { is_term setting.condition.bytes.now parts.right ≡ true }
    ensures { Finds setting.entry (operands_at setting.entry parts) result }
{
    let left = terms::term_type(setting, parts.left);
    let right = terms::term_type(setting, parts.right);
    operands(setting, parts.ordering, left, right)
}

// A comparison: arithmetic first, then the operands' types.
fn comparison(buf: &mut [u8], table: &mut [u32], state: State, setting: Setting, at: usize) -> State
    requires lent { Lent (sink buf.old state) table.old }
    requires at_value { is_condition setting.condition.bytes.now at ≡ true }
    requires at_value_2 { kind_of (condition_in setting.condition.bytes.now at) ≡ 8 }
    ensures { Pushed buf.old state (node_at setting.entry at) buf.new result table.new }
{
    let parts = compared_at(setting.condition.bytes, at);
    let after = arithmetics(buf, table, state, setting, parts);
    let finding = operand_types(setting, parts);
    report(
        buf,
        table,
        after,
        setting.schema.bytes,
        setting.condition.bytes,
        parts.span,
        finding,
    )
}

// The slot of a `tp`.
fn timepoint(setting: Setting, at: usize) -> Option<Finding>
    requires at_value { is_slot setting.condition.bytes.now at ≡ true }
    ensures { Finds setting.entry (timepoint_at setting.entry at) result }
{
    let condition = setting.condition.bytes;
    match nodes::slot_at(condition, at) {
        SlotAt::Named(name) => {
            let schema = setting.schema.bytes;
            let word = names::word(condition, name);
            let typed = terms::var_type(schema, condition, setting.env, setting.facts, word);
            wrong_timepoint(setting, name, typed)
        }
        SlotAt::ParamRef | SlotAt::BinderRef => None,
    }
}

// A `tp`, judged.
fn judged_tp(setting: Setting, at: usize) -> Judged
    requires at_value { is_condition setting.condition.bytes.now at ≡ true }
    requires at_value_2 { kind_of (condition_in setting.condition.bytes.now at) ≡ 10 }
    ensures { JudgedHere setting.entry (node_at setting.entry at) result }
{
    let span = nodes::span_at(setting.condition.bytes, at);
    let slot = nodes::first_part(setting.condition.bytes, at);
    let finding = timepoint(setting, slot);
    Judged { span, finding }
}

// A `tp`.
fn tp(buf: &mut [u8], table: &mut [u32], state: State, setting: Setting, at: usize) -> State
    requires lent { Lent (sink buf.old state) table.old }
    requires at_value { is_condition setting.condition.bytes.now at ≡ true }
    requires at_value_2 { kind_of (condition_in setting.condition.bytes.now at) ≡ 10 }
    ensures { Pushed buf.old state (node_at setting.entry at) buf.new result table.new }
{
    let judged = judged_tp(setting, at);
    report(
        buf,
        table,
        state,
        setting.schema.bytes,
        setting.condition.bytes,
        judged.span,
        judged.finding,
    )
}

// What one reached node breaks.
#[tactic(auto, using(crate::proofs::AtNode::nodes))]
pub fn node(buf: &mut [u8], table: &mut [u32], state: State, setting: Setting, at: usize) -> State
    requires lent { Lent (sink buf.old state) table.old }
    requires at_value { is_condition setting.condition.bytes.now at ≡ true }
    ensures { Pushed buf.old state (node_at setting.entry at) buf.new result table.new }
{
    match nodes::kind_at(setting.condition.bytes, at) {
        Kind::Predicate => predicate(buf, table, state, setting, at),
        Kind::Comparison => comparison(buf, table, state, setting, at),
        Kind::Timepoint => tp(buf, table, state, setting, at),
        _ => state,
    }
}
