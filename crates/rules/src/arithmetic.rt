// The leaves of an operand that is arithmetic.
ghost use Rattle.std.specs.Prelude.{◌≡◌, true};
ghost use Rattle.nodes.specs.Kinds.{term_kind_of};
ghost use Rattle.condition.specs.Places.{is_term, term_in};
ghost use Rattle.reports.specs.Sink.{sink};
ghost use Rattle.reports.specs.Slots.{Lent, Pushed};
ghost use Rattle.rules.specs.Findings.{Finds};
ghost use Rattle.rules.specs.Places.{leaf_at, leaves_of, arithmetic_of};

use crate::judge::not_long;
use crate::report::report;
use crate::{Finding, Operand};
use nodes::{Several, TermKind};
use reports::State;
use terms::Setting;

// A leaf, by its kind: a wildcard, or a term that is not Long.
fn leaf(setting: Setting, at: usize) -> Option<Finding>
    requires at_value { is_term setting.condition.bytes.now at ≡ true }
    requires fact { term_kind_of (term_in setting.condition.bytes.now at) ≡ 12 → ⊥ }
    ensures { Finds setting.entry (leaf_at setting.entry at) result }
{
    match nodes::term_kind_at(setting.condition.bytes, at) {
        TermKind::Wildcard => Some(Finding::Wildcard),
        TermKind::Aggregate | TermKind::Sigil => None,
        _ => not_long(setting, terms::term_type(setting, at)),
    }
}

// The leaves of a term, left then right.
fn leaves(buf: &mut [u8], table: &mut [u32], state: State, setting: Setting, term: Operand) -> State
    requires lent { Lent (sink buf.old state) table.old }
    requires at_value { is_term setting.condition.bytes.now term.at ≡ true }
    ensures { Pushed buf.old state (leaves_of setting.entry term) buf.new result table.new }
{
    let mut now = state;
    let mut left = Several {
        count: 1,
        first: term.at,
    };
    while let Some((at, others)) = nodes::next_leaf(
        setting.condition.bytes,
        left.count,
        left.first,
    ) {
        let finding = leaf(setting, at);
        now = report(
            buf,
            table,
            now,
            setting.schema.bytes,
            setting.condition.bytes,
            term.span,
            finding,
        );
        left = others;
    }
    now
}

// An operand of a comparison is inspected where it is arithmetic.
#[tactic(auto, using(crate::proofs::AtNode::operand_kinds))]
pub fn arithmetic(
    buf: &mut [u8],
    table: &mut [u32],
    state: State,
    setting: Setting,
    operand: Operand,
) -> State
    requires lent { Lent (sink buf.old state) table.old }
    requires at_value { is_term setting.condition.bytes.now operand.at ≡ true }
    ensures { Pushed buf.old state (arithmetic_of setting.entry operand) buf.new result table.new }
{
    match nodes::term_kind_at(setting.condition.bytes, operand.at) {
        TermKind::Arith => leaves(buf, table, state, setting, operand),
        _ => state,
    }
}
