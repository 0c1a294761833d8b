// `principal` and `resource` under the rule's scope, and paths of their attributes.
ghost use Rattle.std.specs.Prelude.{◌≡◌, true};
ghost use Rattle.schema.specs.Places.{is_action, action_in};
ghost use Rattle.resolution.specs.Paths.{path_of};
ghost use Rattle.resolution.specs.Scopes.{schema_of, narrowing_of, types_of};
ghost use Rattle.terms.specs.Terms.{side_type, root_type};
ghost use Rattle.terms.specs.Settings.{facts_at};
ghost use Rattle.terms.specs.Answers.{TypeOf, resolved_of};

use crate::Setting;
use resolution::{Candidates, Path, Scope, ScopePath, Typed};

// The type at the end of a path, where there is one. A `ScopePath` is one of document 01's five
// answers, and no Result whose method would give it: one answer alone holds a type, and two of the
// others hold no reason.
fn if_resolved(end: ScopePath) -> Typed
    ensures { result ≡ resolved_of end }
{
    match end {
        ScopePath::Resolved(t) => Some(t),
        _ => None,
    }
}

// One side of the scope: bare, or a path of its attributes.
#[tactic(auto, using(crate::proofs::Roots::one_side))]
fn side_type<'a>(candidates: Candidates<'a>, tail: Path<'a>) -> Typed
    ensures { TypeOf candidates.entry.scope.schema.bytes.now tail.entry.bytes.now
        (side_type (schema_of candidates.entry.scope) (narrowing_of candidates.entry.scope)
        (types_of candidates.entry) (path_of tail.entry)) result }
{
    if tail.segments.count == 0 {
        return resolution::scope_type(candidates);
    }
    if_resolved(resolution::resolve_scope_path(candidates, tail))
}

// A path whose first segment is the root, under the action at `action`; any other root, and none, has no type.
// The two sides differ in a field of the facts and in a function of `schema`, so that no call for
// both is shorter.
#[tactic(auto, using(crate::proofs::Roots::roots))]
pub fn root_type<'a>(setting: Setting<'a>, action: usize, path: Path<'a>) -> Typed
    requires { is_action setting.schema.bytes.now action ≡ true }
    ensures { TypeOf setting.entry.schema.bytes.now path.entry.bytes.now
        (root_type (facts_at setting.entry) (action_in setting.entry.schema.bytes.now action)
        (path_of path.entry)) result }
{
    let schema = setting.schema;
    let targets = setting.targets;
    let headed = resolution::split_first(path)?;
    let root = names::word(path.bytes, headed.head);
    if names::same(root, b"principal") {
        let narrowing = setting.facts.principal;
        let types = schema::principals(schema.bytes, action);
        let scope = Scope {
            schema,
            targets,
            narrowing,
        };
        return side_type(Candidates { scope, types }, headed.rest);
    }
    if names::same(root, b"resource") {
        let narrowing = setting.facts.resource;
        let types = schema::resources(schema.bytes, action);
        let scope = Scope {
            schema,
            targets,
            narrowing,
        };
        return side_type(Candidates { scope, types }, headed.rest);
    }
    None
}
