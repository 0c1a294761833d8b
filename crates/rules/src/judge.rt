// The judgements: the types of terms in, a finding out, or none. Each finds what the definition of
// its name says.
//
// Each asks that a type is small, so that its text is bounded. The fact is no part of the type: it
// speaks of the bytes that the tag of the type stands in, those of the schema or of the condition,
// so that a type that keeps it would have to keep both records beside each of its values.
ghost use Rattle.std.specs.Prelude.{◌≡◌};
ghost use Rattle.names.specs.Read.{word_at};
ghost use Rattle.types.specs.Meaning.{profile_in};
ghost use Rattle.rules.specs.Rules.{not_long_here, numeric_breaches, like_breaches, operands_by, argument_breach, timepoint_breach};
ghost use Rattle.rules.specs.Findings.{SmallIn, SmallRich, FindsOf, FindsBoth, FindsTwo};

use crate::Finding;
use resolution::Typed;
use terms::Setting;
use types::Rich;

// An operand of arithmetic: Long, or without a type.
#[tactic(auto, using(crate::proofs::Judging::leaf))]
pub fn not_long(setting: Setting, typed: Typed) -> Option<Finding>
    requires { SmallIn setting typed }
    ensures { FindsOf setting.entry not_long_here typed result }
{
    let t = typed?;
    if types::is_numeric(setting.schema.bytes, setting.condition.bytes, t) {
        return None;
    }
    Some(Finding::NotLong(t))
}

// Two operands of an operator of order.
fn not_numeric(setting: Setting, l: Rich, r: Rich) -> Option<Finding>
    requires small { SmallRich setting l }
    requires small_2 { SmallRich setting r }
    ensures { FindsTwo setting.entry numeric_breaches l r result }
{
    if types::are_ordered(setting.schema.bytes, setting.condition.bytes, l, r) {
        return None;
    }
    Some(Finding::NotNumeric(l, r))
}

// Two operands of an operator that wants like types, by the profile.
fn unlike(setting: Setting, l: Rich, r: Rich) -> Option<Finding>
    requires small { SmallRich setting l }
    requires small_2 { SmallRich setting r }
    ensures { FindsTwo setting.entry (like_breaches (profile_in setting.entry.facts.common.profile)) l r result }
{
    let profile = setting.facts.common.profile;
    if types::compatible(setting.schema.bytes, setting.condition.bytes, profile, l, r) {
        return None;
    }
    Some(Finding::Unlike(l, r))
}

// The operands of a comparison, where both have a type.
#[tactic(auto, using(crate::proofs::Judging::pair))]
pub fn operands(setting: Setting, ordering: bool, left: Typed, right: Typed) -> Option<Finding>
    requires small_type { SmallIn setting left }
    requires small_type_2 { SmallIn setting right }
    ensures { FindsBoth setting.entry (operands_by (profile_in setting.entry.facts.common.profile) ordering) left right result }
{
    let l = left?;
    let r = right?;
    if ordering {
        return not_numeric(setting, l, r);
    }
    unlike(setting, l, r)
}

// An argument beside its field, where both have a type; its name stands at `name`, that of its action at `action`.
pub fn wrong_argument(
    setting: Setting,
    name: usize,
    action: usize,
    expected: Typed,
    actual: Typed,
) -> Option<Finding>
    requires small_type { SmallIn setting expected }
    requires small_type_2 { SmallIn setting actual }
    ensures { FindsBoth setting.entry (argument_breach (word_at setting.entry.condition.bytes.now name) (word_at setting.entry.condition.bytes.now action)) expected actual result }
{
    let e = expected?;
    let a = actual?;
    if types::accepts(setting.schema.bytes, setting.condition.bytes, e, a) {
        return None;
    }
    Some(Finding::WrongArgument(name, action, e, a))
}

// The name of a `tp`, which stands at `name`, where it has a type.
pub fn wrong_timepoint(setting: Setting, name: usize, typed: Typed) -> Option<Finding>
    requires { SmallIn setting typed }
    ensures { FindsOf setting.entry (timepoint_breach (word_at setting.entry.condition.bytes.now name)) typed result }
{
    let t = typed?;
    if types::is_timepoint(setting.schema.bytes, setting.condition.bytes, t) {
        return None;
    }
    Some(Finding::WrongTimepoint(name, t))
}
