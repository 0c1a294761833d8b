// The environment: what type a name has, and an annotation.
ghost use Rattle.std.specs.Prelude.{◌≡◌, true, ◌<◌, length};
ghost use Rattle.std.proofs.Math.Option.{some};
ghost use Rattle.schema.specs.Places.{is_type, type_in, is_action, action_in, found_in, found_stands};
ghost use Rattle.condition.specs.Condition.{path};
ghost use Rattle.nodes.specs.Parts.{segments_in, SegmentsHere};
ghost use Rattle.terms.specs.Terms.{field_type, input_type};
ghost use Rattle.walk.specs.Index.{nodes_of};
ghost use Rattle.walk.specs.Enclosing.{Names, binding_in};
ghost use Rattle.terms.specs.Facts.{NameTyped};
ghost use Rattle.terms.specs.Answers.{WordTag, OtherTyped, WordTyped, AnnotationTyped, TypedBy};

use crate::Facts;
use nodes::Bound;
use resolution::Typed;
use types::{Base, Rich, Scalar, Source, Tag};

// The string at `at` as a tag.
// It reads as `names::word` does, also where no length byte stands; `entity_tag` asks for one.
#[tactic(auto, using(crate::proofs::Fields::word_tags))]
fn word_tag(condition: &[u8], at: usize) -> Tag
    ensures { WordTag condition.now at result }
{
    let source = Source::Condition;
    let Some(&len) = condition.get(at) else {
        return Tag {
            source,
            at: 0,
            len: 0,
        };
    };
    Tag {
        source,
        at: at + 1,
        len: usize::from(len),
    }
}

// The type that the word at `at` names where it is no word of the published Rust: that of a word for times, else an entity type.
fn other_type(condition: &[u8], at: usize) -> Rich
    ensures { OtherTyped condition.now at result }
{
    let Some(time) = types::time_type(names::word(condition, at)) else {
        let tag = word_tag(condition, at);
        return Rich::from(Base::Tagged(tag));
    };
    Rich::from(time)
}

// The type that the word at `at` names. A `match` on byte strings is no plainer: the check asks
// what holds in its last arm once for each byte at which the word may differ.
fn word_type(condition: &[u8], at: usize) -> Rich
    ensures { WordTyped condition.now at result }
{
    let word = names::word(condition, at);
    if names::same(word, b"Long") {
        return Rich::from(Scalar::Long);
    }
    if names::same(word, b"String") {
        return Rich::from(Scalar::String);
    }
    if names::same(word, b"Bool") {
        return Rich::from(Scalar::Bool);
    }
    if names::same(word, b"Boolean") {
        return Rich::from(Scalar::Bool);
    }
    if names::same(word, b"decimal") {
        return Rich::from(Scalar::Decimal);
    }
    if names::same(word, b"Decimal") {
        return Rich::from(Scalar::Decimal);
    }
    other_type(condition, at)
}

// The type of a field of the record at `at`.
fn field_type(s: &[u8], at: usize, name: &[u8]) -> Typed
    requires { is_type s.now at ≡ true }
    ensures { TypedBy s.now (field_type name.now (type_in s.now at)) result }
{
    let fields = schema::record_fields(s, at)?;
    let field = schema::attribute(s, fields, name)?;
    Some(schema::rich_type(s, field))
}

// The type of a field of the `input` record in the context of the action at `action`.
fn input_type(s: &[u8], action: usize, name: &[u8]) -> Typed
    requires { is_action s.now action ≡ true }
    ensures { TypedBy s.now (input_type (some (action_in s.now action)) name.now) result }
{
    let context = schema::context(s, action);
    let fields = schema::record_fields(s, context)?;
    let input = schema::attribute(s, fields, b"input")?;
    field_type(s, input, name)
}

// The type of a name that no binder declares: that of the input field of the target's action.
fn free_type(s: &[u8], facts: Facts, name: &[u8]) -> Typed
    requires { found_stands (is_action s.now) facts.action ≡ true }
    ensures { TypedBy s.now (input_type (found_in (action_in s.now) facts.action) name.now) result }
{
    let action = facts.action;
    input_type(s, action?, name)
}

// The type of an annotation, whose count of segments stands at `at`: its last segment's.
#[tactic(auto, using(crate::proofs::Fields::annotations))]
fn segments_type(condition: &[u8], at: usize) -> Rich
    requires { SegmentsHere condition.now at }
    ensures { AnnotationTyped condition.now (path (segments_in condition.now at)) result }
{
    let last = nodes::last_segment(condition, at);
    word_type(condition, last)
}

// A name's type: by the binder that binds it at the reached condition of the facts, else by the input field.
// It takes no setting, since it asks for less than is known of one.
pub fn var_type(schema: &[u8], condition: &[u8], env: &[u16], facts: Facts, name: &[u8]) -> Typed
    requires names { Names condition.now (binding_in facts.common.binding) env.now }
    requires node_in_bounds { facts.node < length (nodes_of condition.now) }
    requires action_value { found_stands (is_action schema.now) facts.action ≡ true }
    ensures { NameTyped schema.now condition.now facts name.now result }
{
    let binding = facts.common.binding;
    match walk::bound_by(binding, condition, env, facts.node, name) {
        Bound::Segments(p) => Some(segments_type(condition, p)),
        Bound::Timepoint => Some(Rich::from(Scalar::Timepoint)),
        Bound::Nothing => free_type(schema, facts, name),
    }
}
