// `term_type`: what type a term has under the facts of a target.
ghost use Rattle.std.specs.Prelude.{◌≡◌, true};
ghost use Rattle.std.proofs.Math.Option.{none, some};
ghost use Rattle.schema.specs.Places.{is_action, action_in, found_in, found_stands};
ghost use Rattle.condition.specs.Places.{is_term, term_in, is_path, path_in};
ghost use Rattle.resolution.specs.Resolution.{context_type};
ghost use Rattle.terms.specs.Terms.{term_type, scope_field_type};
ghost use Rattle.terms.specs.Settings.{facts_at, TypeIn};
ghost use Rattle.terms.specs.Answers.{TypeOf, SegmentsOf};

use crate::Setting;
use crate::env::var_type;
use crate::literals::element_type;
use crate::scope::root_type;
use names::Row;
use nodes::TermKind;
use resolution::{Path, Typed};

// The segments of the path at `at`.
fn segments<'a>(condition: &'a [u8], at: usize) -> Path<'a>
    requires { is_path condition.now at ≡ true }
    ensures { SegmentsOf condition.now at result }
{
    let path = nodes::path_at(condition, at);
    Path {
        bytes: condition,
        segments: Row {
            count: path.count,
            at: path.first,
        },
    }
}

// The type of a path into an action's context; an undeclared action has none.
// It takes no setting, as `var_type` takes none.
pub fn context_field_type(
    schema: &[u8],
    condition: &[u8],
    action: Option<usize>,
    at: usize,
) -> Typed
    requires action_value { found_stands (is_action schema.now) action ≡ true }
    requires at_value { is_path condition.now at ≡ true }
    ensures { TypeOf schema.now condition.now (context_type (found_in (action_in schema.now) action) (path_in condition.now at)) result }
{
    let p = action?;
    resolution::context_type(schema, p, segments(condition, at))
}

// The type of a path of `principal` or `resource`.
fn scope_field_type(setting: Setting, at: usize) -> Typed
    requires { is_path setting.condition.bytes.now at ≡ true }
    ensures { TypeIn setting.entry (scope_field_type (facts_at setting.entry) (path_in setting.entry.condition.bytes.now at)) result }
{
    let p = setting.facts.action?;
    root_type(setting, p, segments(setting.condition.bytes, at))
}

// The type of a term that needs no facts.
#[tactic(auto, using(crate::proofs::Under::plainly))]
fn plain_type(setting: Setting, at: usize) -> Typed
    requires { is_term setting.condition.bytes.now at ≡ true }
    ensures { TypeIn setting.entry (term_type none (term_in setting.entry.condition.bytes.now at)) result }
{
    let own = element_type(setting.schema.bytes, setting.condition.bytes, at, 32);
    own.typed
}

// The type of the term at `at`, if it has one.
pub fn term_type(setting: Setting, at: usize) -> Typed
    requires { is_term setting.condition.bytes.now at ≡ true }
    ensures { TypeIn setting.entry (term_type (some (facts_at setting.entry)) (term_in setting.entry.condition.bytes.now at)) result }
{
    let schema = setting.schema.bytes;
    let condition = setting.condition.bytes;
    let part = nodes::term_part(condition, at);
    match nodes::term_kind_at(condition, at) {
        TermKind::ContextField => context_field_type(schema, condition, setting.facts.action, part),
        TermKind::ScopeField => scope_field_type(setting, part),
        TermKind::Var => {
            let name = names::word(condition, part);
            var_type(schema, condition, setting.env, setting.facts, name)
        }
        _ => plain_type(setting, at),
    }
}
